//! Media queries: read from component values, and matched on a viewport (Media Queries 4, sections 2
//! and 3).
#![tactic(auto)]

mod commas;
mod features;
mod matching;
mod query;
mod reading;
mod typed;
mod words;

pub use conditions_model::MediaType;
pub use matching::media_matches;
pub use page_model::Viewport;
pub use query::{MediaList, MediaQuery, TypedQuery};
pub use reading::read_media;
pub use size_features::SizeFeature;
