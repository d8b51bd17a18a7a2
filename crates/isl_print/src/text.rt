//! Values as text.

ghost use Rattle.std.specs.Prelude.{◌≡◌, ◌++◌, All, map, codes, IfOk, OnOk, string_bytes};
ghost use Rattle.isl_union.specs.KeptValue.{HasNoDefinitions, IsKeptPiece};
ghost use Rattle.isl_union.specs.Piece.{kept_piece};
ghost use Rattle.isl_row_text.specs.Joined.{each_after};
ghost use Rattle.isl_row_text.specs.RowText.{row_text, conjunction_text};
ghost use Rattle.isl_print.specs.Printed.{piece_text, pieces_text, params_text, printed};

use crate::order::{Titled, ordered_pieces};
use crate::tuple::{write_entries, write_tuples};
use isl_piece::{Piece, Row};
use isl_row_text::{column_names, ordered_rows, param_names, write_row};
use isl_space::{Name, Params};
use isl_union::Value;
use std::alloc::{AllocError, Global};

// Rows, with `and` before each.
#[tactic(auto, using(std::proofs::lemmas::Grind::common_steps, isl_row_text::proofs::JoinedLaws::each_steps))]
fn write_rest_of_rows(out: &mut String, names: &[Name], rows: &[&Row]) -> Result<(), AllocError>
    ensures { OnOk result (string_bytes out.new ≡ string_bytes out.old ++ each_after (codes " and ") (map (λ row. row_text names.now row.now) rows.now)) }
{
    for row in rows {
        out.push_str(" and ")?;
        write_row(out, names, row)?;
    }
    Ok(())
}

// Rows, where there are some.
fn write_conjunction(out: &mut String, names: &[Name], rows: &[&Row]) -> Result<(), AllocError>
    ensures { OnOk result (string_bytes out.new ≡ string_bytes out.old ++ conjunction_text (map (λ row. row_text names.now row.now) rows.now)) }
{
    match rows {
        [] => Ok(()),
        [first, others @ ..] => {
            out.push_str(" : ")?;
            write_row(out, names, first)?;
            write_rest_of_rows(out, names, others)
        }
    }
}

#[tactic(auto, using(std::proofs::lemmas::Grind::common_steps, crate::proofs::TextLaws::name_steps))]
fn write_piece(
    alloc: Global,
    out: &mut String,
    params: &Params,
    piece: &Piece,
) -> Result<(), AllocError>
    requires { IsKeptPiece params.now (kept_piece piece.now) }
    ensures { OnOk result (string_bytes out.new ≡ string_bytes out.old ++ piece_text params.now (kept_piece piece.now)) }
{
    let space = piece.space();
    let names = column_names(alloc, params, space)?;
    let rows = ordered_rows(alloc, piece.system().rows.as_slice())?;
    write_tuples(out, space, &names.as_slice()[params.len()..])?;
    write_conjunction(out, names.as_slice(), rows.as_slice())
}

// Pieces, with `;` before each.
#[tactic(auto, using(std::proofs::lemmas::Grind::common_steps, isl_row_text::proofs::JoinedLaws::each_steps))]
fn write_rest_of_pieces(
    alloc: Global,
    out: &mut String,
    params: &Params,
    pieces: &[Titled],
) -> Result<(), AllocError>
    requires { All (λ titled. IsKeptPiece params.now (kept_piece titled.piece.now)) pieces.now }
    ensures { OnOk result (string_bytes out.new ≡ string_bytes out.old ++ each_after (codes "; ") (map (λ titled. piece_text params.now (kept_piece titled.piece.now)) pieces.now)) }
{
    for titled in pieces {
        out.push_str("; ")?;
        write_piece(alloc, out, params, titled.piece)?;
    }
    Ok(())
}

// Pieces, in braces.
fn write_pieces(
    alloc: Global,
    out: &mut String,
    params: &Params,
    pieces: &[Titled],
) -> Result<(), AllocError>
    requires { All (λ titled. IsKeptPiece params.now (kept_piece titled.piece.now)) pieces.now }
    ensures { OnOk result (string_bytes out.new ≡ string_bytes out.old ++ pieces_text (map (λ titled. piece_text params.now (kept_piece titled.piece.now)) pieces.now)) }
{
    match pieces {
        [] => out.push_str("{ }"),
        [first, others @ ..] => {
            out.push_str("{ ")?;
            write_piece(alloc, out, params, first.piece)?;
            write_rest_of_pieces(alloc, out, params, others)?;
            out.push_str(" }")
        }
    }
}

// The declared names, where there are some.
#[tactic(auto, using(std::proofs::lemmas::Grind::common_steps, crate::proofs::TextLaws::name_steps))]
fn write_params(alloc: Global, out: &mut String, params: &Params) -> Result<(), AllocError>
    ensures { OnOk result (string_bytes out.new ≡ string_bytes out.old ++ params_text params.now) }
{
    let names = param_names(alloc, params)?;
    if names.is_empty() {
        return Ok(());
    }
    out.push_str("[")?;
    write_entries(out, names.as_slice())?;
    out.push_str("] -> ")
}

/// Writes the value as text: a literal that has its elements.
///
/// # Errors
///
/// Where memory ends, or the text is too long.
pub fn write_value(alloc: Global, out: &mut String, value: &Value) -> Result<(), AllocError>
    requires { HasNoDefinitions value.now }
    ensures { OnOk result (string_bytes out.new ≡ string_bytes out.old ++ printed value.now) }
{
    let pieces = ordered_pieces(alloc, value.pieces())?;
    write_params(alloc, out, value.params())?;
    write_pieces(alloc, out, value.params(), pieces.as_slice())?;
    Ok(())
}

/// The same text alone.
///
/// # Errors
///
/// Where memory ends, or the text is too long.
pub fn text_of(alloc: Global, value: &Value) -> Result<String, AllocError>
    requires { HasNoDefinitions value.now }
    ensures { IfOk result (λ text. string_bytes text ≡ printed value.now) }
{
    let mut out = String::new(alloc);
    write_value(alloc, &mut out, value)?;
    Ok(out)
}
