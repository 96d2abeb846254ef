//! The used values of a box.
ghost use Rattle.std.specs.Prelude.{◌≡◌};

use flow_model::Used;
use std::marker::Model;

/// The used values of a box, which contracts see as such. The ledger's key `L` names the ledger that
/// this was logged in.
#[derive(Drop)]
pub struct SizedBox<L> {
    used: Used,
    /// It stays `None`.
    key: Option<L>,
}

impl<L> Model for SizedBox<L> {
    ghost use Rattle.flow_model.specs.declared.used.Used.{Used as used_values};

    ghost Value = { used_values };

    ghost view = { λ b. b.used };
}

impl<L> SizedBox<L> {
    /// Returns the used values.
    pub fn used(&self) -> &Used
        ensures { result.now ≡ self.now }
    {
        &self.used
    }
}

/// Makes a sized box of its used values.
pub(crate) fn sized_box<L: Drop>(used: Used) -> SizedBox<L>
    ensures { result ≡ used }
{
    SizedBox { used, key: None }
}
