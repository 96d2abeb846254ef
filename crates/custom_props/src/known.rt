//! The entries that are known while an environment is made.
ghost use Rattle.custom_model.specs.NamedValues.{are_in_order, names_of};
ghost use Rattle.custom_props.specs.Views.{values_view};
ghost use Rattle.std.specs.Prelude.{◌≡◌, true};

use crate::entry::Entry;
use crate::named_value::NamedValue;

/// The entries that are known: of a declared name by its place, and of any other as they are
/// inherited.
#[derive(Clone, Copy)]
pub(crate) struct Known<'a> {
    pub(crate) declared: &'a [NamedValue],
    /// The entries of the declared names.
    pub(crate) table: &'a [Entry],
    pub(crate) inherited: &'a [NamedValue],
    ghost declared_order: { are_in_order (names_of (values_view declared.now)) ≡ true },
    ghost inherited_order: { are_in_order (names_of (values_view inherited.now)) ≡ true },
}
