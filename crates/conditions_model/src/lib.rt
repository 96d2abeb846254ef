//! What a condition of `@media` or `@container` is, and its value.
//!
//! Definitions stand in `specs/`, beside Media Queries 4 (sections 2 to 4) and CSS Conditional 5; the
//! types that they share with code in `src/`.
#![tactic(auto)]

mod comparison;
pub mod examples;
mod feature_name;
mod media_type;
mod orientation;
mod tri;

pub use comparison::Comparison;
pub use feature_name::FeatureName;
pub use media_type::MediaType;
pub use orientation::Orientation;
pub use tri::Tri;
