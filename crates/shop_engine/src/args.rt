// The arguments of the engines, and the choice of the instance that they name.
ghost use Rattle.std.specs.Prelude.{◌<◌, length};
ghost use Rattle.shop_text.specs.Names.{IsPick};
ghost use Rattle.shop_engine.specs.Asking.{name_in};

use shop_runs::Plan;
use shop_text::{Format, Named, ReadFault, pick};

/// The arguments of `list`: the format of the text.
#[derive(Clone, Copy)]
pub struct ListArgs {
    pub format: Format,
}

/// The arguments of `check`: the format of the text, and the instance: the first of the name, or the first of all.
#[derive(Drop)]
pub struct CheckArgs {
    pub format: Format,
    pub name: Option<String>,
}

/// The arguments of `solve`: the format, the instance (without a name the first), the plan, and whether to add a chart.
#[derive(Drop)]
pub struct SolveArgs {
    pub format: Format,
    pub name: Option<String>,
    pub plan: Plan,
    pub gantt: bool,
}

/// Returns the first instance of the name, or without a name the first one. Fails with `NoSuchName` if no instance has
/// the name.
pub fn ask<'t>(named: &'t [Named], name: &Option<String>) -> Result<&'t Named, ReadFault>
    requires { 0 < length named.now }
    ensures { IsPick named.now (name_in name.now) result }
{
    pick(named, name.as_deref())
}
