//! Names of custom properties with values, in order of name (CSS Custom Properties 1, section 2).
ghost use Rattle.custom_model.specs.NamedValues.{are_in_order, names_of};
ghost use Rattle.custom_props.specs.Views.{values_view};
ghost use Rattle.std.specs.Prelude.{◌≡◌, true};

use crate::named_value::NamedValue;
use port_core::Seq;

/// Names of custom properties with values, each name once, in order of name: the computed values of an
/// element.
#[derive(Debug, Drop)]
pub struct Env {
    pub(crate) values: Seq<NamedValue>,
    ghost order: { are_in_order (names_of (values_view values)) ≡ true },
}

/// The custom properties that an element declares, with the values that win.
pub type Declared = Env;
