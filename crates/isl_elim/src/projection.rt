//! Columns out of a system: its projections.

ghost use Rattle.std.specs.Prelude.{◌≡◌, ◌≢◌, ◌<◌, ◌-◌, ◌+◌, ◌*◌, ◌≤◌, ◌≤ℤ◌, ◌+ℤ◌, [], ◌∷◌, pos, length, ℕ, All, AllPairs, map, IfOk, IfSome, MatchOption, MatchResult, option_to_list};
ghost use Rattle.isl_meter.specs.Gauge.{IsCharged, IsCutBy, IsMetered};
ghost use Rattle.isl_piece.specs.Normal.{IsNormal};
ghost use Rattle.isl_piece.specs.System.{HoldRows, HoldsSystem, IsSystemWithin, free_columns};
ghost use Rattle.isl_shadows.specs.Exact.{IsExactColumn, exact_rows};
ghost use Rattle.isl_shadows.specs.Magnitude.{HaveSmallNumbers, HaveOneCongruence};
ghost use Rattle.isl_shadows.specs.Solved.{solved_rows};
ghost use Rattle.isl_shadows.specs.Units.{elimination_units};
ghost use Rattle.isl_omega.specs.Equality.{HasEquality};
ghost use Rattle.isl_elim.specs.Dependents.{dependents, kept_definitions, with_dependents};
ghost use Rattle.isl_elim.specs.Elimination.{AddsAlong, IsProjection, IsProjectionAlong, IsReducedSystem, system_of};
ghost use Rattle.isl_elim.specs.Opened.{opened_rows};
ghost use Rattle.isl_elim.specs.Sample.{IsNowhere};
ghost use Rattle.isl_elim.specs.Tame.{AreFewDifferences, IsPlainDifference, IsTameOn};
ghost use Rattle.isl_ledger.specs.Answered.{IsTame};
ghost use Rattle.isl_ledger.specs.Work.{Size, AreOfSize, HasSize, drop_size};

use crate::along::rows_without;
use crate::dependents::{columns_left, with_dependents};
use crate::opened::opened_rows;
use isl_column::eliminate_rows;
use isl_meter::{Cut, Meter};
use isl_omega::column::Column;
use isl_piece::{Rows, System};
use isl_presolve::add_many_rows;
use isl_redundant::without_redundant;
use std::alloc::{AllocError, Global};

/// The systems of the rows, over the columns and with the definitions of `left`.
pub(crate) fn systems_of(
    alloc: Global,
    lists: Vec<Rows>,
    left: &System,
) -> Result<Vec<System>, AllocError>
    ensures { IfOk result (λ systems. systems.items ≡ map (system_of left.now.columns left.now.definitions) lists.items) }
{
    let mut systems = Vec::with_capacity(alloc, lists.len())?;
    for rows in lists {
        systems.push(System::over(left.columns, left.definitions.copy(alloc)?, rows))?;
    }
    Ok(systems)
}

// What is left of the rows without the columns that go, those of the definitions among them that are opened.
#[tactic(auto, using(crate::proofs::ProjectionLaws::projection_steps))]
fn lists_left(
    alloc: Global,
    system: &System,
    gone: &[usize],
    meter: &mut Meter,
) -> Result<Vec<Rows>, Cut>
    requires well_formed { IsSystemWithin meter.old system.now }
    requires distinct { AllPairs (λ a b. a ≢ b) gone.now }
    requires gone_in { All (λ col. col < system.now.columns) gone.now }
    ensures exact { MatchResult result
        (λ lists. AddsAlong meter.old system.now.columns gone.now (HoldRows (opened_rows system.now gone.now)) [] lists.items × IsCharged meter.old meter.new)
        (IsCutBy meter.old meter.new) }
    ensures exact_column { (col : ℕ) → gone.now ≡ col ∷ [] → col < free_columns system.now → IsExactColumn col system.now.rows → ¬ HasEquality col system.now.rows
        → IfOk result (λ lists. lists.items ≡ option_to_list (exact_rows system.now.rows col)) }
    ensures solved_column { (col : ℕ) → gone.now ≡ col ∷ [] → col < free_columns system.now → HasEquality col system.now.rows
        → IfOk result (λ lists. lists.items ≡ option_to_list (solved_rows system.now.rows col)) }
    ensures units { (col : ℕ) → gone.now ≡ col ∷ [] → col < free_columns system.now → pos meter.new.units ≤ℤ (pos meter.old.units +ℤ elimination_units system.now.rows col) }
    ensures equality { (col : ℕ) → gone.now ≡ col ∷ [] → col < free_columns system.now → HasEquality col system.now.rows → meter.new.units ≡ meter.old.units }
    ensures magnitude { (col : ℕ) → gone.now ≡ col ∷ [] → col < free_columns system.now → meter.old.bits ≡ 127 → HaveSmallNumbers system.now.rows
        → HaveOneCongruence system.now.rows col → result ≢ Err Cut.Overflow }
    ensures counted { IfOk result (λ lists. meter.old.units + length lists.items ≤ meter.new.units + 1) }
    ensures tame { (length gone.now ≡ 1 → IsNormal system.now.rows)
        → IsTameOn (length gone.now) (IsPlainDifference system.now) (length gone.now * (system.now.columns * system.now.columns))
        meter.old meter.new (λ bits lists. AreFewDifferences (bits + length gone.now) lists.items) result }
{
    if gone.len() == 1 && gone[0] < system.free() {
        let column = Column {
            columns: system.columns,
            at: gone[0],
        };
        return eliminate_rows(alloc, system.rows.as_slice(), column, meter);
    }
    let rows = opened_rows(alloc, system, gone, meter)?;
    rows_without(alloc, rows, system.columns, gone, meter)
}

/// The systems without the free column `col`, of which some holds at a point of the other free columns exactly where some whole
/// number put at `col` makes `system` hold. Each is in normal form. The definitions that depend on `col`, directly or through
/// others, go with it; the others are kept, in order.
///
/// Where no definition depends on `col`: if an equality has the column, no unit is used; else at most `elimination_units`; and if
/// one has it, or the column is exact, what is answered is a function of the system: at most one system.
///
/// # Errors
///
/// `Overflow` where a number passes the limit of the meter, `Budget` where its units are used up, and `NoMemory`. Where no
/// definition depends on `col`, a limit of 127 bits is not passed where the numbers of the rows are at most `2^30` and at most
/// one congruence has the column.
///
/// Of difference constraints over c columns at most one system is left, again of such. Where 127 bits have room for one bit more, and `c^2`
/// units are left, no error but `NoMemory` comes.
#[tactic(auto, using(crate::proofs::ProjectionLaws::projection_steps))]
pub fn eliminate(
    alloc: Global,
    system: &System,
    col: usize,
    meter: &mut Meter,
) -> Result<Vec<System>, Cut>
    requires well_formed { IsSystemWithin meter.old system.now }
    requires col_in { col < free_columns system.now }
    ensures projection { IfOk result (λ systems. IsProjection system.now col systems.items) }
    ensures definitions { IfOk result (λ systems. All (λ s. s.definitions ≡ kept_definitions system.now (col ∷ [])) systems.items) }
    ensures within { IfOk result (λ systems. All (IsSystemWithin meter.old) systems.items) }
    ensures normal { IfOk result (λ systems. All (λ s. IsNormal s.rows) systems.items) }
    ensures exact_column { dependents system.now (col ∷ []) ≡ [] → IsExactColumn col system.now.rows → ¬ HasEquality col system.now.rows
        → IfOk result (λ systems. systems.items ≡ map (system_of (system.now.columns - 1) (kept_definitions system.now (col ∷ []))) (option_to_list (exact_rows system.now.rows col))) }
    ensures solved_column { dependents system.now (col ∷ []) ≡ [] → HasEquality col system.now.rows
        → IfOk result (λ systems. systems.items ≡ map (system_of (system.now.columns - 1) (kept_definitions system.now (col ∷ []))) (option_to_list (solved_rows system.now.rows col))) }
    ensures meter { IsMetered meter.old meter.new result }
    ensures units { dependents system.now (col ∷ []) ≡ [] → pos meter.new.units ≤ℤ (pos meter.old.units +ℤ elimination_units system.now.rows col) }
    ensures equality { dependents system.now (col ∷ []) ≡ [] → HasEquality col system.now.rows → meter.new.units ≡ meter.old.units }
    ensures magnitude { dependents system.now (col ∷ []) ≡ [] → meter.old.bits ≡ 127 → HaveSmallNumbers system.now.rows → HaveOneCongruence system.now.rows col
        → result ≢ Err Cut.Overflow }
    ensures counted { IfOk result (λ systems. meter.old.units + length systems.items ≤ meter.new.units + 1) }
    ensures tame { (size : Size) → meter.old.bits ≡ 127 → size.bits + 1 ≤ 120 → AreOfSize size (system.now ∷ [])
        → IsTame (size.columns * size.columns) meter.old meter.new (λ systems. AreOfSize (drop_size 1 size) systems.items) result }
{
    eliminate_all(alloc, system, &[col], meter)
}

/// The systems without the free columns `cols`, of which some holds at a point of the other free columns exactly where some whole
/// numbers put at `cols` make `system` hold. Each is in normal form. The definitions that depend on `cols` go with them; the
/// others are kept, in order. Of one column this is `eliminate`.
///
/// # Errors
///
/// `Overflow` where a number passes the limit of the meter, `Budget` where its units are used up, and `NoMemory`. Of difference constraints
/// `eliminate` tells, where there is room for a bit, and so many units are left, for each column that goes; the rows of a single column are
/// to be normal then.
#[tactic(auto, using(crate::proofs::ProjectionLaws::projection_steps))]
pub fn eliminate_all(
    alloc: Global,
    system: &System,
    cols: &[usize],
    meter: &mut Meter,
) -> Result<Vec<System>, Cut>
    requires well_formed { IsSystemWithin meter.old system.now }
    requires distinct { AllPairs (λ a b. a ≢ b) cols.now }
    requires cols_in { All (λ col. col < free_columns system.now) cols.now }
    ensures projection { IfOk result (λ systems. IsProjectionAlong system.now cols.now systems.items) }
    ensures definitions { IfOk result (λ systems. All (λ s. s.definitions ≡ kept_definitions system.now cols.now) systems.items) }
    ensures within { IfOk result (λ systems. All (IsSystemWithin meter.old) systems.items) }
    ensures normal { IfOk result (λ systems. All (λ s. IsNormal s.rows) systems.items) }
    ensures meter { IsMetered meter.old meter.new result }
    ensures exact_column { (col : ℕ) → cols.now ≡ col ∷ [] → dependents system.now cols.now ≡ [] → IsExactColumn col system.now.rows → ¬ HasEquality col system.now.rows
        → IfOk result (λ systems. systems.items ≡ map (system_of (system.now.columns - 1) (kept_definitions system.now cols.now)) (option_to_list (exact_rows system.now.rows col))) }
    ensures solved_column { (col : ℕ) → cols.now ≡ col ∷ [] → dependents system.now cols.now ≡ [] → HasEquality col system.now.rows
        → IfOk result (λ systems. systems.items ≡ map (system_of (system.now.columns - 1) (kept_definitions system.now cols.now)) (option_to_list (solved_rows system.now.rows col))) }
    ensures units { (col : ℕ) → cols.now ≡ col ∷ [] → dependents system.now cols.now ≡ [] → pos meter.new.units ≤ℤ (pos meter.old.units +ℤ elimination_units system.now.rows col) }
    ensures equality { (col : ℕ) → cols.now ≡ col ∷ [] → dependents system.now cols.now ≡ [] → HasEquality col system.now.rows → meter.new.units ≡ meter.old.units }
    ensures magnitude { (col : ℕ) → cols.now ≡ col ∷ [] → dependents system.now cols.now ≡ [] → meter.old.bits ≡ 127 → HaveSmallNumbers system.now.rows
        → HaveOneCongruence system.now.rows col → result ≢ Err Cut.Overflow }
    ensures counted { IfOk result (λ systems. meter.old.units + length systems.items ≤ meter.new.units + 1) }
    ensures tame { (size : Size) → meter.old.bits ≡ 127 → size.bits + length cols.now ≤ 120 → HasSize size system.now
        → (length cols.now ≡ 1 → IsNormal system.now.rows)
        → IsTame (length cols.now * (size.columns * size.columns)) meter.old meter.new
        (λ systems. AreOfSize (drop_size (length cols.now) size) systems.items) result }
{
    let gone = with_dependents(alloc, system, cols)?;
    let left = columns_left(alloc, system, cols, gone.as_slice(), meter)?;
    let lists = lists_left(alloc, system, gone.as_slice(), meter)?;
    let systems = systems_of(alloc, lists, &left)?;
    Ok(systems)
}

/// The system without some rows that its others imply, where one free column goes next and has many pairs of bounds; none where it is
/// seen to hold nowhere. No unit is used. Of several columns elimination asks this itself.
///
/// # Errors
///
/// `AllocError` where memory ends.
#[tactic(auto, using(std::proofs::lemmas::Grind::common_steps, crate::proofs::FewerLaws::system_steps))]
pub fn with_fewer_rows(
    alloc: Global,
    system: &System,
    cols: &[usize],
    meter: &Meter,
) -> Result<Option<System>, AllocError>
    requires well_formed { IsSystemWithin meter.now system.now }
    ensures exact { IfOk result (λ found. MatchOption found (IsNowhere (free_columns system.now) (HoldsSystem system.now))
        (IsReducedSystem meter.now system.now)) }
    ensures size { (size : Size) → AreOfSize size (system.now ∷ []) → IfOk result (λ found. IfSome found (λ few. AreOfSize size (few ∷ []))) }
{
    if cols.len() != 1 || !add_many_rows(system.rows.as_slice(), cols) {
        let same = system.copy(alloc)?;
        return Ok(Some(same));
    }
    let rows = system.rows.copy(alloc)?;
    let Some(few) = without_redundant(alloc, rows, system.columns, meter)? else {
        return Ok(None);
    };
    let definitions = system.definitions.copy(alloc)?;
    Ok(Some(System::over(system.columns, definitions, few)))
}
