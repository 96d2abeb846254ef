//! Parts of values: literal lengths and percentages, read from component values and valued where the
//! lengths that they refer to are known (CSS Values 4, sections 5 and 6; CSS Conditional 5, section 7);
//! identifiers, and component values without the white space between them.
#![tactic(auto)]

mod bases;
mod idents;
mod literal;
mod reading;
mod units;
mod values;
mod wide_keywords;
mod words;

pub use idents::ident_of;
pub use literal::Literal;
pub use reading::{length_of, length_or_percentage_of};
pub use value_model::{Bases, LengthBase, LengthUnit, UnitSet};
pub use values::{in_millionths, percentage_value};
pub use wide_keywords::wide_keyword_of;
pub use words::{FirstWord, find_word, first_word, is_whitespace, only_word};
