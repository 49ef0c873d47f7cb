//! The classes of a paragraph after X1 to X9.
ghost use Rattle.std.specs.Prelude.{◌≡◌, ◌≤◌, length, take, IfOk};
ghost use Rattle.units.specs.Layout.{current_of};

use explicit::levels::Explicit;
use std::alloc::Global;
use units::class::Class;
use units::memory::Memory;

/// Returns the classes after X1 to X9 of the first `n` positions that were filled. Fails with `Memory` if an allocation
/// fails.
pub fn current_classes(alloc: Global, explicit: &Explicit, n: usize) -> Result<Vec<Class>, Memory>
    requires { n ≤ length explicit.now }
    ensures { IfOk result (λ classes. classes.items ≡ current_of (take n explicit.now)) }
{
    let mut classes = Vec::with_capacity(alloc, n)?;
    for p in 0..n {
        match classes.push(explicit.class_at(p)) {
            Ok(()) => {}
            Err(_) => return Err(Memory),
        }
    }
    Ok(classes)
}
