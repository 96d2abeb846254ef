//! What the program answers: the text of a dump, the reply to a line, the replies to a script.
//! Definitions are in `specs/`.
#![tactic(auto)]

mod examples;
mod match_examples;
mod rules_examples;
mod style_examples;

pub use examples::{examples_of_dumps, examples_of_lines, examples_of_scripts, examples_of_turns};
pub use match_examples::{examples_of_match_lines, examples_of_match_replies};
pub use rules_examples::{examples_of_quoted_strings, examples_of_rule_lines};
pub use style_examples::{
    examples_of_custom_lines, examples_of_style_logs, examples_of_style_replies,
    examples_of_style_texts, examples_of_styled_pages, examples_of_styles_with_custom_lines,
    examples_of_value_texts,
};
