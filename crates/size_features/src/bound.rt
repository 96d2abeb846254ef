//! What features are compared with (Media Queries 4, section 2.4).
use crate::ratio::Ratio;
use conditions_model::Comparison;
use query_units::Length;

/// What a feature is compared with.
#[derive(Debug, Drop)]
pub enum FeatureValue {
    /// A length, literal or calculated.
    Length(Length),
    /// A ratio.
    Ratio(Ratio),
}

/// A comparison of a feature, and what it is compared with.
#[derive(Debug, Drop)]
pub struct Bound {
    /// The comparison.
    pub comparison: Comparison,
    /// What it is compared with.
    pub value: FeatureValue,
}
