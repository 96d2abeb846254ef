//! Conditions with features of any kind: read from component values, and valued in three values.
#![tactic(auto)]

mod condition;
mod drafts;
mod judge;
mod read_feature;
mod reading;
mod values;
mod words;

pub use condition::Condition;
pub use conditions_model::Tri;
pub use judge::Judge;
pub use read_feature::ReadFeature;
pub use reading::{read_condition, read_condition_slice};
pub use values::eval;
