//! Lists of parameters, as they are written: `n, c0`.

ghost use Rattle.std.specs.Prelude.{IfOk, IfSome};
ghost use Rattle.isl_space.specs.Name.{IsLiteralName};
ghost use Rattle.isl_space.specs.Names.{IsParameterList};

use isl_space::{Name, Params, SpaceFault};
use std::alloc::{AllocError, Global};

// The name, where it is one of 9.
fn name_of(alloc: Global, name: &str) -> Result<Option<Name>, AllocError>
    ensures { IfOk result (λ made. IfSome made IsLiteralName) }
{
    match name {
        "n" => Ok(Some(Name::new(alloc, "n")?)),
        "m" => Ok(Some(Name::new(alloc, "m")?)),
        "c0" => Ok(Some(Name::new(alloc, "c0")?)),
        "c0'" => Ok(Some(Name::new(alloc, "c0'")?)),
        "c1" => Ok(Some(Name::new(alloc, "c1")?)),
        "min" => Ok(Some(Name::new(alloc, "min")?)),
        "max" => Ok(Some(Name::new(alloc, "max")?)),
        "for" => Ok(Some(Name::new(alloc, "for")?)),
        "if" => Ok(Some(Name::new(alloc, "if")?)),
        _ => Ok(None),
    }
}

// The list of one name.
fn list_of(alloc: Global, name: Name) -> Result<Params, SpaceFault>
    requires { IsLiteralName name }
    ensures { IfOk result IsParameterList }
{
    Params::new(alloc, vec![in alloc; name]?)
}

// The parameters, and behind them the name that is written so.
fn with_name(alloc: Global, params: &Params, word: &str) -> Result<Option<Params>, SpaceFault>
    ensures { IfOk result (λ made. IfSome made IsParameterList) }
{
    match name_of(alloc, word)? {
        Some(name) => {
            let (all, _places) = params.align(alloc, &list_of(alloc, name)?)?;
            Ok(Some(all))
        }
        None => Ok(None),
    }
}

/// The list of these parameters, where their names are among the 9.
///
/// # Errors
///
/// Where there are more than 16, or memory ends.
pub(crate) fn params_of(alloc: Global, names: &str) -> Result<Option<Params>, SpaceFault>
    ensures { IfOk result (λ made. IfSome made IsParameterList) }
{
    let mut params = Params::new(alloc, Vec::new(alloc))?;
    for word in names.split(", ").filter(|word| !word.is_empty()) {
        match with_name(alloc, &params, word)? {
            Some(more) => params = more,
            None => return Ok(None),
        }
    }
    Ok(Some(params))
}
