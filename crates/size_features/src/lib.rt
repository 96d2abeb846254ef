//! Features of a size: read from component values, and judged on a width and a height (Media Queries
//! 4, sections 2.4 and 4.1 to 4.4).
#![tactic(auto)]

mod bound;
mod feature;
mod judging;
mod measured;
mod names;
mod plain;
mod range;
mod ratio;
mod reading;
mod signs;
mod values;
mod white_space;

pub use conditions_model::{Comparison, FeatureName, Orientation};
pub use feature::SizeFeature;
pub use judging::feature_holds;
pub use measured::Measured;
pub use names::FeatureNames;
pub use reading::read_size_feature;
