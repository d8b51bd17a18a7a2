//! What statements have bound and assumed so far.

ghost use Rattle.std.specs.Prelude.{◌≡◌, All, IfOk, IfSome, MatchResult, None, OnOk, OnErr, Some, true, unsigned_abs};
ghost use Rattle.std.specs.Option.{option_copied};
ghost use Rattle.std.specs.Str.{bytes_eq};
ghost use Rattle.indexmap.specs.IndexMap.{insert_entry};
ghost use Rattle.isl_union.specs.KeptValue.{HasNoDefinitions, IsKeptValue};
ghost use Rattle.isl_meter.specs.Gauge.{IsCharged, limit_of};
ghost use Rattle.isl_assumed.specs.Assumed.{names_of, Assumes, IsPlain, IsSound, PaysPairs};
ghost use Rattle.isl_outcome.specs.End.{CutAlone, GoesOn};
ghost use Rattle.isl_outcome.specs.Why.{IsWhyUnmade, IsWhyUnworked};
ghost use Rattle.isl_state.specs.State.{unbound, kept_of, type_of, scope_of, value_at, Binds, Fits, HasNumbersUpTo, forgotten};
ghost use Rattle.isl_state.specs.State.{AreLeftOf, IsLeftOf, IsNarrowed, IsSettled, NarrowingEnds, Narrows};

use crate::live::live_part;
use crate::{ListPart, ListValue};
use indexmap::IndexMap;
use isl_assumed::Assumed;
use isl_kinds::{Scope, Typed, forget_behind};
use isl_meter::Meter;
use isl_outcome::refusal_of;
use isl_refusal::Refusal;
use isl_space::Name;
use isl_tree::statement::ValueKind;
use isl_union::{OpFault, Value};
use std::alloc::{AllocError, Global};
use std::marker::Model;
use std::rc::Rc;

/// What a name stands for: a kind and a value, and of a list a second one, over the same parameters. Values may have several names. None of
/// their columns is defined.
#[derive(Drop)]
pub struct Kept {
    kind: ValueKind,
    value: Rc<Value>,
    second: Option<Rc<Value>>,
}

impl Model for Kept {
    ghost use Rattle.isl_state.specs.State.{Kept as KeptView};
    ghost use Rattle.isl_state.specs.Stored.{kept_code};

    ghost Value = { KeptView };

    ghost coded = { kept_code };

    ghost use Rattle.std.specs.Prelude.{option_map};
    ghost use Rattle.isl_state.specs.Stored.{IsPlainKept};

    ghost view = { λ k. record { kind = k.kind; value = k.value.value; second = option_map (λ v. v.value) k.second } };

    ghost invariant = { λ k. IsPlainKept (record { kind = k.kind; value = k.value.value; second = option_map (λ v. v.value) k.second }) };
}

impl Kept {
    /// A value of this kind.
    pub fn new(kind: ValueKind, value: Rc<Value>) -> Kept
        requires { HasNoDefinitions value.value }
        ensures { result ≡ record { kind = kind; value = value.value; second = None } }
    {
        Kept {
            kind,
            value,
            second: None,
        }
    }

    /// A list.
    pub fn list(values: ListValue) -> Kept
        requires first { HasNoDefinitions values.first.value }
        requires second { HasNoDefinitions values.second.value }
        requires params { values.second.value.params ≡ values.first.value.params }
        ensures { result ≡ record { kind = ValueKind.List; value = values.first.value; second = Some values.second.value } }
    {
        Kept {
            kind: ValueKind::List,
            value: values.first,
            second: Some(values.second),
        }
    }

    /// The kind.
    pub fn kind(&self) -> ValueKind
        ensures { result ≡ self.now.kind }
    {
        self.kind
    }

    /// The value; of a list the first one.
    pub fn value(&self) -> &Value
        ensures content { result.now ≡ self.now.value }
        ensures definitions { HasNoDefinitions result.now }
    {
        &self.value
    }

    /// The second value of a list.
    pub fn second(&self) -> Option<&Value>
        ensures content { option_copied result ≡ self.now.second }
        ensures definitions { IfSome result (λ value. HasNoDefinitions value.now) }
    {
        match &self.second {
            Some(value) => Some(value),
            None => None,
        }
    }

    /// The value of a part, shared.
    ///
    /// # Errors
    /// An `AllocError` where the value has too many names to count.
    pub fn shared(&self, part: ListPart) -> Result<Rc<Value>, AllocError>
        ensures shared { IfOk result (λ value. value.value ≡ value_at part self.now) }
        ensures kept { IsKeptValue (value_at part self.now) }
        ensures params { (value_at part self.now).params ≡ self.now.value.params }
        ensures definitions { HasNoDefinitions (value_at part self.now) }
    {
        let value = match (part, &self.second) {
            (ListPart::Second, Some(second)) => second,
            _ => &self.value,
        };
        let _pieces = value.pieces();
        value.clone()
    }

    // What is left of it: of its values the pieces that have an element at an assumed valuation.
    fn left(&self, alloc: Global, assumed: &Assumed, meter: &mut Meter) -> Result<Kept, Refusal>
        requires numbers { (part : ListPart) → HasNumbersUpTo (unsigned_abs (limit_of meter.old)) (value_at part self.now) }
        requires sound { IsSound meter.old assumed.now }
        ensures { MatchResult result (λ left. IsLeftOf assumed.now self.now left × IsCharged meter.old meter.new)
            (IsWhyUnmade true CutAlone meter.old meter.new) }
    {
        let first = live_part(alloc, self.shared(ListPart::First)?, assumed, meter)?;
        if self.second.is_none() {
            return Ok(Kept::new(self.kind, first));
        }
        let second = live_part(alloc, self.shared(ListPart::Second)?, assumed, meter)?;
        Ok(Kept {
            kind: self.kind,
            value: first,
            second: Some(second),
        })
    }
}

// What is left of all that is bound, under the same names.
fn left_of(
    alloc: Global,
    bound: &IndexMap<Name, Kept>,
    assumed: &Assumed,
    meter: &mut Meter,
) -> Result<IndexMap<Name, Kept>, Refusal>
    requires numbers { All (λ entry. (part : ListPart) → HasNumbersUpTo (unsigned_abs (limit_of meter.old)) (value_at part entry.1))
        bound.now.entries }
    requires sound { IsSound meter.old assumed.now }
    ensures { MatchResult result
        (λ left. AreLeftOf assumed.now bound.now.entries left.entries × IsCharged meter.old meter.new)
        (IsWhyUnmade true CutAlone meter.old meter.new) }
{
    let mut left = IndexMap::new(alloc);
    for (name, kept) in bound.iter() {
        let kept = kept.left(alloc, assumed, meter)?;
        left.reserve(1)?;
        match left.insert(name.copy()?, kept) {
            Ok(_) => {}
            Err(_) => unreachable!(),
        }
    }
    Ok(left)
}

// The valuations of both, unless there is none.
fn narrowed(
    alloc: Global,
    assumed: &Assumed,
    set: &Assumed,
    meter: &mut Meter,
) -> Result<Assumed, Refusal>
    requires own { IsSound meter.old assumed.now }
    requires set { IsSound meter.old set.now }
    ensures met { IfOk result (IsNarrowed meter.old assumed.now set.now) }
    ensures why { MatchResult result (λ _. IsCharged meter.old meter.new)
        (IsWhyUnworked true (NarrowingEnds assumed.now (names_of set.now) (Assumes set.now)) meter.old meter.new) }
    ensures goes_on { IfOk result (λ _. GoesOn (NarrowingEnds assumed.now (names_of set.now) (Assumes set.now))) }
    ensures work { MatchResult result (λ _. PaysPairs assumed.now set.now meter.old meter.new)
        (λ refusal. refusal ≡ Refusal.NoValuation → PaysPairs assumed.now set.now meter.old meter.new) }
{
    let met = match assumed.meet(alloc, set, meter) {
        Ok(met) => met,
        Err(OpFault::Cut(cut)) => return Err(refusal_of(cut)),
        Err(OpFault::TooWide) => return Err(Refusal::TooWide),
    };
    match met.is_empty(meter) {
        Ok(true) => Err(Refusal::NoValuation),
        Ok(false) => Ok(met),
        Err(cut) => Err(refusal_of(cut)),
    }
}

/// What the statements so far have bound and assumed: names, each with a kind and a kept value, and a set of valuations of parameters.
/// Contracts see them by content.
#[derive(Drop)]
pub struct State {
    // The types of what is bound.
    scope: Scope,
    bound: IndexMap<Name, Kept>,
    // So many names, the first ones, do not begin with `$`.
    settled: usize,
    assumed: Assumed,
}

impl Model for State {
    ghost use Rattle.std.specs.Prelude.{◌≡◌};
    ghost use Rattle.isl_state.specs.State.{StateView, scope_of};
    ghost use Rattle.isl_state.specs.Stored.{state_code};

    ghost Value = { StateView };

    ghost coded = { state_code };

    ghost view = { λ s. record { bound = s.bound.entries; assumed = s.assumed } };

    ghost use Rattle.std.specs.Prelude.{◌≤◌, false, All, length, take};
    ghost use Rattle.isl_kinds.specs.Typed.{is_dollar};

    ghost invariant = { λ s. (s.scope ≡ scope_of (record { bound = s.bound.entries; assumed = s.assumed }))
        × (s.settled ≤ length s.bound.entries) × All (λ entry. is_dollar entry.0 ≡ false) (take s.settled s.bound.entries) };
}

impl State {
    /// No name is bound, and nothing assumed.
    pub fn new(alloc: Global) -> State
        ensures { result ≡ unbound }
    {
        State {
            scope: Scope::new(alloc),
            bound: IndexMap::new(alloc),
            settled: 0,
            assumed: Assumed::all(),
        }
    }

    /// The valuations of the parameters that are assumed.
    pub fn assumed(&self) -> &Assumed
        ensures { result.now ≡ self.now.assumed }
    {
        &self.assumed
    }

    /// The bound names, each with its kind and its declared parameters.
    pub fn scope(&self) -> &Scope
        ensures { result.now ≡ scope_of self.now }
    {
        &self.scope
    }

    /// What a name stands for.
    pub fn get(&self, name: &Name) -> Option<&Kept>
        ensures { option_copied result ≡ kept_of self.now name.now }
    {
        self.bound.get(name)
    }

    /// From now on the name stands for this, which is of this type, and every other name for what it stood for.
    ///
    /// # Errors
    /// An `AllocError` where memory ends: nothing is bound then.
    pub fn bind(&mut self, name: Name, kept: Kept, typed: Typed) -> Result<(), AllocError>
        requires { typed ≡ type_of kept }
        ensures ok { OnOk result (Binds self.old name kept self.new) }
        ensures list { OnOk result (self.new.bound ≡ insert_entry bytes_eq self.old.bound name kept) }
        ensures err { OnErr result (self.new ≡ self.old) }
    {
        self.bound.reserve(1)?;
        self.scope.bind(name.copy()?, typed)?;
        match self.bound.insert(name, kept) {
            Ok(_) => Ok(()),
            Err(_) => unreachable!(),
        }
    }

    /// Forgets the names that no script has, which begin with `$`. It takes no memory, and looks at no more names than were bound since it
    /// was asked before; behind `narrow` it looks at all of them once.
    pub fn forget(&mut self)
        ensures { self.new ≡ forgotten self.old }
    {
        self.scope.forget();
        forget_behind(&mut self.bound, self.settled);
        self.settled = self.bound.len();
    }

    /// From now on only those of the assumed valuations are assumed that are in the set too, and each value that is bound loses its pieces
    /// that have no element at one of them. Nothing is changed before all is worked out. (isl manual, on parameter domains)
    ///
    /// # Errors
    /// `TooWide` where the names that what is assumed depends on are more than 16 together, before any work; `NoValuation` where no
    /// valuation is left, behind the work of putting both sets together, which takes a unit at least for each system of the one with each
    /// of the other; `Overflow`, `Budget` and `NoMemory`, where the work is cut.
    pub fn narrow(&mut self, alloc: Global, set: &Assumed, meter: &mut Meter) -> Result<(), Refusal>
        requires set { IsSound meter.old set.now }
        requires plain { IsPlain set.now }
        requires fits { Fits (limit_of meter.old) self.old }
        ensures ok { OnOk result (Narrows self.old (names_of set.now) (Assumes set.now) self.new) }
        ensures fits { OnOk result (Fits (limit_of meter.old) self.new) }
        ensures settled { OnOk result (IsSettled self.old → IsSettled self.new) }
        ensures err { OnErr result (self.new ≡ self.old) }
        ensures why { MatchResult result (λ _. IsCharged meter.old meter.new)
            (IsWhyUnworked true (NarrowingEnds self.old.assumed (names_of set.now) (Assumes set.now)) meter.old meter.new) }
        ensures goes_on { OnOk result (GoesOn (NarrowingEnds self.old.assumed (names_of set.now) (Assumes set.now))) }
        ensures work { MatchResult result (λ _. PaysPairs self.old.assumed set.now meter.old meter.new)
            (λ refusal. refusal ≡ Refusal.NoValuation → PaysPairs self.old.assumed set.now meter.old meter.new) }
    {
        let assumed = narrowed(alloc, &self.assumed, set, meter)?;
        // Names are distinct.
        let _names = self.bound.len();
        let left = left_of(alloc, &self.bound, &assumed, meter)?;
        self.assumed = assumed;
        self.bound = left;
        self.settled = 0;
        Ok(())
    }
}
