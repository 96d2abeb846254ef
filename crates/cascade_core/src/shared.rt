//! Values that are shared.
ghost use Rattle.std.specs.Prelude.{◌≡◌, IfOk};

use port_core::NoMemory;
use std::alloc::Global;
use std::rc::Rc;

/// A value that may be shared.
pub(crate) fn shared<T: Drop>(alloc: Global, value: T) -> Result<Rc<T>, NoMemory>
    ensures { IfOk result (λ rc. rc.value ≡ value) }
{
    match Rc::new(alloc, value) {
        Ok(value) => Ok(value),
        Err(_) => Err(NoMemory),
    }
}
