//! Proofs of subset claims.

ghost use Rattle.std.specs.Prelude.{◌≡◌, ◌↔◌, ◌++◌, ◌∷◌, [], All, Contains, IfOk, IfSome, IsNone, IsTrue, OnOk, codes, map, string_bytes};
ghost use Rattle.std.specs.List.{flat_map};
ghost use Rattle.isl_meter.specs.Gauge.{IsMetered};
ghost use Rattle.isl_piece.specs.System.{IsSystemWithin};
ghost use Rattle.isl_print.specs.Printed.{printed};
ghost use Rattle.isl_space.specs.Names.{AreDistinct, IsParameterList};
ghost use Rattle.isl_union.specs.Compare.{IsSubset};
ghost use Rattle.isl_union.specs.Minus.{AreCovered};
ghost use Rattle.isl_union.specs.Numbers.{AreWithinLimit, IsWithinLimit};
ghost use Rattle.isl_union.specs.Piece.{kept_piece, IsPieceOf};
ghost use Rattle.isl_claim.specs.Claim.{claim_text, part_text, Claim, IsClaimOf, Part};
ghost use Rattle.isl_claim.specs.Sides.{part_of, value_of, HasFewRows, IsProvedBy, IsSideOf};

use isl_by_space::{aligned_over, systems_in};
use isl_cert::{Cert, cert_text, certify};
use isl_meter::{Cut, Meter};
use isl_piece::{Piece, System};
use isl_print::{in_printed_order, write_value};
use isl_space::Params;
use isl_union::Value;
use std::alloc::{AllocError, Global};

// How many rows a piece may have, and each other one in its space, for a proof to be looked for: the search compares each with each.
const MOST_ROWS: usize = 500;

// A piece of the lesser side, and the proof that the greater side has each of its elements.
#[derive(Drop)]
struct ProvedPiece {
    piece: Piece,
    cert: Cert,
}

// The pieces of the value over these parameters, which it declares some of: without defined columns, and in printed order.
#[tactic(auto, using(std::proofs::lemmas::Grind::common_steps, isl_meter::proofs::CutLemmas::charges))]
fn side_of(
    alloc: Global,
    params: &Params,
    value: &Value,
    meter: &mut Meter,
) -> Result<Vec<Piece>, Cut>
    requires declared { All (Contains params.now) value.now.params }
    requires within { IsWithinLimit meter.old value.now }
    ensures side { IfOk result (λ side. IsSideOf meter.new params.now value.now side.items) }
    ensures meter { IsMetered meter.old meter.new result }
{
    let flat = value.flat(alloc, meter)?;
    let pieces = aligned_over(alloc, params, &flat, meter)?;
    Ok(in_printed_order(alloc, pieces.as_slice())?)
}

// Whether a proof is looked for.
fn have_few_rows(system: &System, outs: &[System]) -> bool
    ensures { IsTrue result ↔ (HasFewRows system.now × All HasFewRows outs.now) }
{
    system.rows.len() <= MOST_ROWS && outs.iter().all(|out| out.rows.len() <= MOST_ROWS)
}

// A proof that the others have each element of the piece; none where they do not.
#[tactic(auto, using(std::proofs::lemmas::Grind::common_steps, isl_meter::proofs::CutLemmas::charges))]
fn proof_of(
    alloc: Global,
    params: &Params,
    piece: &Piece,
    others: &[Piece],
    meter: &mut Meter,
) -> Result<Option<Cert>, Cut>
    requires names { AreDistinct params.now }
    requires piece { IsPieceOf params.now piece.now }
    requires others { All (IsPieceOf params.now) others.now }
    requires within { IsSystemWithin meter.old piece.now.system }
    requires others_within { AreWithinLimit meter.old others.now }
    requires plain { piece.now.system.definitions ≡ [] }
    requires others_plain { All (λ other. other.system.definitions ≡ []) others.now }
    ensures none { IfOk result (λ cert. IsNone cert ↔ (¬ AreCovered params.now (kept_piece piece.now ∷ []) (map kept_piece others.now))) }
    ensures proved { IfOk result (λ cert. IfSome cert (λ c. IsProvedBy params.now others.now piece.now c)) }
    ensures meter { IsMetered meter.old meter.new result }
{
    let outs = systems_in(alloc, piece.space(), others)?;
    if !have_few_rows(piece.system(), outs.as_slice()) {
        return Err(Cut::NoMemory);
    }
    certify(alloc, piece.system(), outs.as_slice(), meter)
}

// Proofs that the others have each element of the pieces; none where they do not.
#[tactic(auto, using(std::proofs::lemmas::Grind::common_steps, isl_meter::proofs::CutLemmas::charges))]
fn proofs_of(
    alloc: Global,
    params: &Params,
    pieces: &[Piece],
    others: &[Piece],
    meter: &mut Meter,
) -> Result<Option<Vec<ProvedPiece>>, Cut>
    requires names { AreDistinct params.now }
    requires pieces { All (IsPieceOf params.now) pieces.now }
    requires others { All (IsPieceOf params.now) others.now }
    requires within { AreWithinLimit meter.old pieces.now }
    requires others_within { AreWithinLimit meter.old others.now }
    requires plain { All (λ piece. piece.system.definitions ≡ []) pieces.now }
    requires others_plain { All (λ other. other.system.definitions ≡ []) others.now }
    ensures none { IfOk result
        (λ proved. IsNone proved ↔ (¬ AreCovered params.now (map kept_piece pieces.now) (map kept_piece others.now))) }
    ensures pieces { IfOk result (λ proved. IfSome proved (λ parts. map (λ part. part.piece) parts.items ≡ pieces.now)) }
    ensures proved { IfOk result
        (λ proved. IfSome proved (λ parts. All (λ part. IsProvedBy params.now others.now part.piece part.cert) parts.items)) }
    ensures meter { IsMetered meter.old meter.new result }
{
    let mut parts = Vec::new(alloc);
    for piece in pieces {
        let Some(cert) = proof_of(alloc, params, piece, others, meter)? else {
            return Ok(None);
        };
        let own = piece.copy()?;
        parts.push(ProvedPiece { piece: own, cert })?;
    }
    Ok(Some(parts))
}

// The lines of a piece and of its proof.
fn write_part(
    alloc: Global,
    out: &mut String,
    params: &Params,
    part: &ProvedPiece,
) -> Result<(), AllocError>
    requires names { IsParameterList params.now }
    requires piece { IsPieceOf params.now part.now.piece }
    requires plain { part.now.piece.system.definitions ≡ [] }
    ensures { OnOk result (string_bytes out.new ≡ string_bytes out.old ++ part_text params.now (part_of part.now.piece part.now.cert)) }
{
    let mut pieces = Vec::new(alloc);
    pieces.push(part.piece.copy()?)?;
    let alone = Value::from_normal(params.copy(alloc)?, pieces);
    out.push_str("from ")?;
    write_value(alloc, out, &alone)?;
    out.push_str("\n")?;
    let proof = cert_text(alloc, &part.cert)?;
    out.push_str(proof.as_str())?;
    out.push_str("\n")
}

// The lines of the pieces and of their proofs.
fn write_parts(
    alloc: Global,
    out: &mut String,
    params: &Params,
    parts: &[ProvedPiece],
) -> Result<(), AllocError>
    requires names { IsParameterList params.now }
    requires pieces { All (λ part. IsPieceOf params.now part.piece) parts.now }
    requires plain { All (λ part. part.piece.system.definitions ≡ []) parts.now }
    ensures { OnOk result (string_bytes out.new
        ≡ string_bytes out.old ++ flat_map (λ part. part_text params.now (part_of part.piece part.cert)) parts.now) }
{
    for part in parts {
        write_part(alloc, out, params, part)?;
    }
    Ok(())
}

// The line of the greater side.
fn write_outside(
    alloc: Global,
    out: &mut String,
    params: &Params,
    others: Vec<Piece>,
) -> Result<(), AllocError>
    requires names { IsParameterList params.now }
    requires pieces { All (IsPieceOf params.now) others.items }
    requires plain { All (λ other. other.system.definitions ≡ []) others.items }
    ensures { OnOk result (string_bytes out.new
        ≡ string_bytes out.old ++ codes "outside " ++ printed (value_of params.now others.items) ++ 10 ∷ []) }
{
    let outside = Value::from_normal(params.copy(alloc)?, others);
    out.push_str("outside ")?;
    write_value(alloc, out, &outside)?;
    out.push_str("\n")
}

/// The lines of proofs that at every valuation each element of the one value is one of the other; none exactly where one is not. First
/// comes the line of the other value, over these parameters, and then for each piece of this one its line and that of its proof, which
/// `isl_refute::check` takes: of the rows of the piece as they are printed, with the pieces of the other value in its space as outs, these
/// and their rows as they are printed too. (Farkas' lemma; Pugh, the Omega test)
///
/// # Errors
///
/// `Overflow` where a number passes the limit of the meter, `Budget` where its units are used up, and `NoMemory`, also where a
/// piece has more than 500 rows, or the search ends without a proof.
#[tactic(auto, using(std::proofs::lemmas::Grind::common_steps, isl_meter::proofs::CutLemmas::charges))]
pub fn proved_lines(
    alloc: Global,
    params: &Params,
    lesser: &Value,
    greater: &Value,
    meter: &mut Meter,
) -> Result<Option<String>, Cut>
    requires lesser_declared { All (Contains params.now) lesser.now.params }
    requires greater_declared { All (Contains params.now) greater.now.params }
    requires lesser { IsWithinLimit meter.old lesser.now }
    requires greater { IsWithinLimit meter.old greater.now }
    ensures none { IfOk result (λ text. IsNone text ↔ (¬ IsSubset lesser.now greater.now)) }
    ensures lines { IfOk result (λ text. IfSome text (λ lines.
        (claim : Claim) × IsClaimOf params.now lesser.now greater.now claim × (string_bytes lines ≡ claim_text claim))) }
    ensures meter { IsMetered meter.old meter.new result }
{
    // For what a list of parameters keeps.
    let _count = params.len();
    let others = side_of(alloc, params, greater, meter)?;
    let pieces = side_of(alloc, params, lesser, meter)?;
    let proved = proofs_of(alloc, params, pieces.as_slice(), others.as_slice(), meter)?;
    let Some(parts) = proved else {
        return Ok(None);
    };
    let mut lines = String::new(alloc);
    write_outside(alloc, &mut lines, params, others)?;
    write_parts(alloc, &mut lines, params, parts.as_slice())?;
    Ok(Some(lines))
}
