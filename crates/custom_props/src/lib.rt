//! Custom properties: values with `var()`, what they are after substitution, and the environment of an
//! element.
#![tactic(auto)]

mod appending;
mod copies;
mod entries;
mod entry;
mod entry_values;
mod env;
mod graphs;
mod known;
mod measuring;
mod merging;
mod named_value;
mod names;
mod orders;
mod places;
mod readers;
mod references;
mod replacing;
mod resolving;
mod rooms;
mod sameness;
mod searches;
mod substituted;
mod substitution;
mod table;
mod token_kind;
mod values;

pub use copies::copy_of;
pub use env::{Declared, Env};
pub use named_value::NamedValue;
pub use names::compare;
pub use references::is_custom_name;
pub use resolving::resolve_env;
pub use substituted::Substituted;
pub use substitution::substitute;
pub use values::{has_right_vars, has_var, is_custom_value};
