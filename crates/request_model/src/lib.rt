//! What a line of a script asks for, which requests are refused with what, and the state that a
//! line leaves.
//! Definitions are in `specs/`; the types here are shared by them and the code.
#![tactic(auto)]

mod accepted;
mod examples;
mod match_examples;
mod name_examples;
mod query;
mod sheet_examples;
mod style_examples;

pub use accepted::Accepted;
pub use examples::{
    examples_of_asking, examples_of_causes, examples_of_requests, examples_of_states,
};
pub use match_examples::{examples_of_asking_for_matches, examples_of_match_causes};
pub use name_examples::{examples_of_dumps_with_names, examples_of_names};
pub use query::Query;
pub use sheet_examples::{
    examples_of_asking_for_sheets, examples_of_dumps_with_sheets, examples_of_loaded_sheets,
    examples_of_sheet_causes, examples_of_sheets, examples_of_style_rules,
};
pub use style_examples::{
    examples_of_asking_for_styles, examples_of_style_causes, examples_of_unbuilt_pages,
    examples_of_unbuilt_values,
};
