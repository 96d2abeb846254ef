//! Media queries, as they are written (Media Queries 4, sections 2.1 to 2.3).
use conditions_model::MediaType;
use port_core::Seq;
use size_features::SizeFeature;
use tri_conditions::Condition;

/// A media type, perhaps with a condition.
#[derive(Debug, Drop)]
pub struct TypedQuery {
    /// Whether the whole is negated, by `not`.
    pub negated: bool,
    /// The media type.
    pub media_type: MediaType,
    /// The condition after it.
    pub also: Option<Condition<SizeFeature>>,
}

/// A media query.
#[derive(Debug, Drop)]
pub enum MediaQuery {
    /// A condition.
    Condition(Condition<SizeFeature>),
    /// One with a media type.
    Typed(TypedQuery),
}

/// A list of media queries.
#[derive(Debug, Drop)]
pub struct MediaList {
    /// The queries, in the order written.
    pub queries: Seq<MediaQuery>,
}
