// Named instances, and the choice of one of them.
ghost use Rattle.std.specs.{Prelude.{◌<◌, length}, Option.option_copied};
ghost use Rattle.shop_text.specs.Names.{IsPick};

use crate::faults::ReadFault;
use shop_model::Instance;

/// An instance of a text, with its name: visible bytes, 33 to 126.
#[derive(Drop)]
pub struct Named {
    pub name: String,
    pub instance: Instance,
}

/// Returns the first instance of the name, or the first one if no name is given. Fails with `NoSuchName` if no instance
/// has the name.
pub fn pick<'t>(named: &'t [Named], name: Option<&str>) -> Result<&'t Named, ReadFault>
    requires { 0 < length named.now }
    ensures { IsPick named.now (option_copied name.entry) result }
{
    let Some(name) = name else {
        return Ok(&named[0]);
    };
    for candidate in named {
        if candidate.name.as_str() == name {
            return Ok(candidate);
        }
    }
    Err(ReadFault::NoSuchName)
}
