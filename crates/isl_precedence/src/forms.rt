//! The shapes of two accesses and of their times.

ghost use Rattle.std.specs.Prelude.{◌≡◌, ◌<◌, ◌^◌, IfOk, MatchOption};
ghost use Rattle.isl_space.specs.Space.{space_form_of};
ghost use Rattle.isl_blocks.specs.Blocks.{total};
ghost use Rattle.isl_precedence.specs.Forms.{AreApartForms, AreFormsOf, AreNarrowForms, AreSameForms, widths_for};

use isl_space::{Params, Shape, Space};
use std::alloc::{AllocError, Global};
use std::rc::Rc;

/// The shapes of a source, of a sink, of what both access, and of their times.
#[derive(Drop)]
pub struct Forms {
    pub source: Rc<Shape>,
    pub sink: Rc<Shape>,
    pub access: Rc<Shape>,
    pub time: Rc<Shape>,
}

impl Forms {
    /// The same shapes.
    pub(crate) fn copy(&self) -> Result<Forms, AllocError>
        ensures { IfOk result (λ forms. AreSameForms forms self.now) }
    {
        Ok(Forms {
            source: self.source.clone()?,
            sink: self.sink.clone()?,
            access: self.access.clone()?,
            time: self.time.clone()?,
        })
    }
}

/// The shapes, where source and sink map to one, and the other two map the source, and the sink, to one.
pub(crate) fn forms_of(
    source: &Space,
    sink: &Space,
    start: &Space,
    stop: &Space,
) -> Result<Option<Forms>, AllocError>
    ensures { IfOk result (λ found. MatchOption found
        (AreApartForms (space_form_of source.now) (space_form_of sink.now) (space_form_of start.now) (space_form_of stop.now))
        (AreFormsOf (space_form_of source.now) (space_form_of sink.now) (space_form_of start.now) (space_form_of stop.now))) }
{
    let (Space::Map(x, a), Space::Map(y, b)) = (source, sink) else {
        return Ok(None);
    };
    let (Space::Map(u, p), Space::Map(w, q)) = (start, stop) else {
        return Ok(None);
    };
    if !a.same(b) || !x.same(u) || !y.same(w) || !p.same(q) {
        return Ok(None);
    }
    Ok(Some(Forms {
        source: x.clone()?,
        sink: y.clone()?,
        access: a.clone()?,
        time: p.clone()?,
    }))
}

/// How many columns each block has: parameters, source, sink, access, and two times.
pub fn widths_for(alloc: Global, params: &Params, forms: &Forms) -> Result<Vec<usize>, AllocError>
    requires { AreNarrowForms forms.now }
    ensures exact { IfOk result (λ widths. widths.items ≡ widths_for params.now forms.now) }
    ensures fits { IfOk result (λ _. total (widths_for params.now forms.now) < 2 ^ 64) }
{
    let time = forms.time.width() as usize;
    let mut widths = Vec::with_capacity(alloc, 6)?;
    widths.push(params.len())?;
    widths.push(forms.source.width() as usize)?;
    widths.push(forms.sink.width() as usize)?;
    widths.push(forms.access.width() as usize)?;
    widths.push(time)?;
    widths.push(time)?;
    Ok(widths)
}
