//! Why a request is not read.
ghost use Rattle.std.specs.Prelude.{◌≡◌};
ghost use Rattle.relayout_requests.specs.declared.unread.Unread.TheVariants.{NoMemory as no_memory};
ghost use Rattle.relayout_requests.specs.Faults.{unread_by};

use jsonml_reader::TreeFault;
use port_core::NoMemory;

/// Why a request is not read.
#[derive(Clone, Copy, Debug, Drop, PartialEq, Eq)]
pub enum Unread {
    /// The value is not in the grammar of requests.
    BadRequest,
    /// Memory ran out.
    NoMemory,
}

impl From<NoMemory> for Unread {
    ghost from_gives = { λ _ u. u ≡ no_memory };

    fn from(_: NoMemory) -> Unread {
        Unread::NoMemory
    }
}

impl From<TreeFault> for Unread {
    ghost from_gives = { λ fault u. u ≡ unread_by fault };

    fn from(fault: TreeFault) -> Unread {
        match fault {
            TreeFault::Shape => Unread::BadRequest,
            TreeFault::NoMemory => Unread::NoMemory,
        }
    }
}
