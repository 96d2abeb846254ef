use port_core::NoMemory;
use std::convert::From;
use thiserror::Error;

/// Why no tree was read.
#[derive(Debug, Drop, Error)]
pub enum TreeFault {
    /// Memory ran out.
    #[error("out of memory")]
    NoMemory,
    /// The value stands for no tree.
    #[error("the value stands for no tree")]
    Shape,
}

impl From<NoMemory> for TreeFault {
    ghost use Rattle.std.specs.Prelude.{◌≡◌};
    ghost use Rattle.jsonml_reader.specs.declared.fault.TreeFault.TheVariants as fault;

    ghost from_gives = { λ _ f. f ≡ fault.NoMemory };

    fn from(_: NoMemory) -> TreeFault {
        TreeFault::NoMemory
    }
}
