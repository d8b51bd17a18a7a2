//! Proofs as text.

ghost use Rattle.std.specs.Prelude.{◌≡◌, ◌++◌, codes, string_bytes, IfOk, OnOk};
ghost use Rattle.std.specs.Fmt.{signed_decimal};
ghost use Rattle.isl_refute.specs.CertText.{cert_text, form_text, number_text, numbers_text, place_text};
ghost use Rattle.isl_refute.specs.CertText.{false_head, add_head, tie_head, mod_head, weaken_head, fresh_head, split_head, residue_head};
ghost use Rattle.isl_refute.specs.CertText.{outside_head};
ghost use Rattle.isl_refute.specs.Parts.{texts_of};

use crate::{Cert, Form};
use std::alloc::{AllocError, Global};
use std::fmt::Write;

// A place behind a blank.
fn write_place(out: &mut String, place: usize) -> Result<(), AllocError>
    ensures { OnOk result (string_bytes out.new ≡ string_bytes out.old ++ place_text place) }
{
    write!(out, " {place}")
}

// A number behind a blank.
fn write_number(out: &mut String, number: i128) -> Result<(), AllocError>
    ensures { OnOk result (string_bytes out.new ≡ string_bytes out.old ++ number_text number) }
{
    write!(out, " {number}")
}

// Numbers, with a blank behind each.
#[tactic(auto, using(std::proofs::lemmas::Grind::common_steps, crate::proofs::TextLaws::numbers_steps))]
fn write_numbers(out: &mut String, numbers: &[i128]) -> Result<(), AllocError>
    ensures { OnOk result (string_bytes out.new ≡ string_bytes out.old ++ numbers_text numbers.now) }
{
    for number in numbers {
        write!(out, "{number} ")?;
    }
    Ok(())
}

// A form behind a blank.
fn write_form(out: &mut String, form: &Form) -> Result<(), AllocError>
    ensures { OnOk result (string_bytes out.new ≡ string_bytes out.old ++ form_text form.now) }
{
    out.push_str(" [")?;
    write_numbers(out, form.coefs.as_slice())?;
    let constant = form.constant;
    write!(out, "{constant}]")
}

// The words and the numbers of nodes.
fn write_false(out: &mut String, i: usize) -> Result<(), AllocError>
    ensures { OnOk result (string_bytes out.new ≡ string_bytes out.old ++ false_head i) }
{
    out.push_str("false")?;
    write_place(out, i)
}

fn write_add(out: &mut String, i: usize, a: i128, j: usize, b: i128) -> Result<(), AllocError>
    ensures { OnOk result (string_bytes out.new ≡ string_bytes out.old ++ add_head i a j b) }
{
    out.push_str("add")?;
    write_place(out, i)?;
    write_number(out, a)?;
    write_place(out, j)?;
    write_number(out, b)
}

fn write_tie(out: &mut String, i: usize, j: usize) -> Result<(), AllocError>
    ensures { OnOk result (string_bytes out.new ≡ string_bytes out.old ++ tie_head i j) }
{
    out.push_str("tie")?;
    write_place(out, i)?;
    write_place(out, j)
}

fn write_mod(out: &mut String, i: usize, k: i128) -> Result<(), AllocError>
    ensures { OnOk result (string_bytes out.new ≡ string_bytes out.old ++ mod_head i k) }
{
    out.push_str("mod")?;
    write_place(out, i)?;
    write_number(out, k)
}

fn write_weaken(out: &mut String, i: usize, k: i128) -> Result<(), AllocError>
    ensures { OnOk result (string_bytes out.new ≡ string_bytes out.old ++ weaken_head i k) }
{
    out.push_str("weaken")?;
    write_place(out, i)?;
    write_number(out, k)
}

fn write_fresh(out: &mut String, i: usize) -> Result<(), AllocError>
    ensures { OnOk result (string_bytes out.new ≡ string_bytes out.old ++ fresh_head i) }
{
    out.push_str("fresh")?;
    write_place(out, i)
}

fn write_split(out: &mut String, form: &Form) -> Result<(), AllocError>
    ensures { OnOk result (string_bytes out.new ≡ string_bytes out.old ++ split_head form.now) }
{
    out.push_str("split")?;
    write_form(out, form)
}

fn write_residue(out: &mut String, form: &Form, k: i128) -> Result<(), AllocError>
    ensures { OnOk result (string_bytes out.new ≡ string_bytes out.old ++ residue_head form.now k) }
{
    out.push_str("residue")?;
    write_form(out, form)?;
    write_number(out, k)
}

fn write_outside(out: &mut String, q: usize) -> Result<(), AllocError>
    ensures { OnOk result (string_bytes out.new ≡ string_bytes out.old ++ outside_head q) }
{
    out.push_str("outside")?;
    write_place(out, q)
}

// A part behind a blank.
#[cycle(text)]
fn write_part(out: &mut String, part: &Cert) -> Result<(), AllocError>
    ensures { OnOk result (string_bytes out.new ≡ string_bytes out.old ++ (codes " " ++ cert_text part.now)) }
{
    out.push_str(" ")?;
    write_cert(out, part)
}

// Parts, each behind a blank.
#[cycle(text)]
fn write_parts(out: &mut String, parts: &[Cert]) -> Result<(), AllocError>
    ensures { OnOk result (string_bytes out.new ≡ string_bytes out.old ++ texts_of parts.now) }
{
    for part in parts {
        write_part(out, part)?;
    }
    Ok(())
}

#[cycle(text)]
fn write_cert(out: &mut String, cert: &Cert) -> Result<(), AllocError>
    ensures { OnOk result (string_bytes out.new ≡ string_bytes out.old ++ cert_text cert.now) }
{
    match cert {
        Cert::False(i) => write_false(out, *i),
        Cert::Add(i, a, j, b, part) => {
            write_add(out, *i, *a, *j, *b)?;
            write_part(out, part.get())
        }
        Cert::Tie(i, j, part) => {
            write_tie(out, *i, *j)?;
            write_part(out, part.get())
        }
        Cert::Mod(i, k, part) => {
            write_mod(out, *i, *k)?;
            write_part(out, part.get())
        }
        Cert::Weaken(i, k, part) => {
            write_weaken(out, *i, *k)?;
            write_part(out, part.get())
        }
        Cert::Fresh(i, part) => {
            write_fresh(out, *i)?;
            write_part(out, part.get())
        }
        Cert::Split(form, up, down) => {
            write_split(out, form)?;
            write_part(out, up.get())?;
            write_part(out, down.get())
        }
        Cert::Residue(form, k, parts) => {
            write_residue(out, form, *k)?;
            write_parts(out, parts.as_slice())
        }
        Cert::Outside(q, parts) => {
            write_outside(out, *q)?;
            write_parts(out, parts.as_slice())
        }
    }
}

/// The proof as one line of text, without the line's end: of each node its word, its numbers and its parts, with single blanks between
/// them; a form is its coefficients and its constant in square brackets.
pub fn cert_text(alloc: Global, cert: &Cert) -> Result<String, AllocError>
    ensures { IfOk result (λ text. string_bytes text ≡ cert_text cert.now) }
{
    let mut out = String::new(alloc);
    write_cert(&mut out, cert)?;
    Ok(out)
}
