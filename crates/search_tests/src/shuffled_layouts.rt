// Layouts of instances with their machines in a random order.
ghost use Rattle.std.specs.Prelude.{◌≡◌};

use crate::numbers::Numbers;
use shop_layout::Layout;
use shop_model::Instance;
use std::alloc::Global;
use std::process::Abort;

/// Lays `instance` out with its machines in a random order.
pub fn shuffled<'a>(
    rt: &impl Abort,
    alloc: Global,
    numbers: &mut Numbers,
    instance: &'a Instance,
) -> Layout<'a>
    ensures { result.asked ≡ instance.now }
{
    let mut keys = vec![in alloc; 0; instance.machines()].expect(rt, "memory");
    for machine in 0..instance.machines() {
        keys[machine] = numbers.up_to(9);
    }
    Layout::ordered(alloc, instance, keys.as_slice()).expect(rt, "memory")
}
