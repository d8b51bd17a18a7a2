//! Accesses whose source and sink form a space that is too wide.

ghost use Rattle.std.specs.Prelude.{◌↔◌, All, Any, IfOk, IsTrue};
ghost use Rattle.isl_space.specs.Space.{space_form_of};
ghost use Rattle.isl_space.specs.SpaceForm.{IsWellFormedSpace};
ghost use Rattle.isl_precedence.specs.WideAccess.{IsWideAccess};

use isl_piece::Piece;
use isl_space::Space;
use std::alloc::AllocError;

// Whether two maps have one range, and the space from the domain of the one to that of the other is too wide.
fn is_wide_access(source: &Space, sink: &Space) -> Result<bool, AllocError>
    requires source { IsWellFormedSpace (space_form_of source.now) }
    requires sink { IsWellFormedSpace (space_form_of sink.now) }
    ensures { IfOk result (λ wide. IsTrue wide ↔ IsWideAccess (space_form_of source.now) (space_form_of sink.now)) }
{
    let (Space::Map(from, access), Space::Map(to, other)) = (source, sink) else {
        return Ok(false);
    };
    if !access.same(other) {
        return Ok(false);
    }
    Ok(Space::map(from.clone()?, to.clone()?).is_err())
}

// Whether a space that the source and some of the sinks form is too wide.
fn has_wide_access(source: &Piece, sinks: &[Piece]) -> Result<bool, AllocError>
    requires source { IsWellFormedSpace source.now.space }
    requires sinks { All (λ sink. IsWellFormedSpace sink.space) sinks.now }
    ensures { IfOk result (λ wide. IsTrue wide ↔ Any (λ sink. IsWideAccess source.now.space sink.space) sinks.now) }
{
    for sink in sinks {
        if is_wide_access(source.space(), sink.space())? {
            return Ok(true);
        }
    }
    Ok(false)
}

/// Whether a space that some of the sources and some of the sinks form is too wide.
pub fn have_wide_access(sources: &[Piece], sinks: &[Piece]) -> Result<bool, AllocError>
    requires sources { All (λ source. IsWellFormedSpace source.space) sources.now }
    requires sinks { All (λ sink. IsWellFormedSpace sink.space) sinks.now }
    ensures { IfOk result (λ wide. IsTrue wide
        ↔ Any (λ source. Any (λ sink. IsWideAccess source.space sink.space) sinks.now) sources.now) }
{
    for source in sources {
        if has_wide_access(source, sinks)? {
            return Ok(true);
        }
    }
    Ok(false)
}
