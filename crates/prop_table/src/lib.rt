//! The table of properties: their names, the grammars of their values, shorthands, initial values,
//! and what declared values compute to.
#![tactic(auto)]

mod background;
mod borders;
mod colors;
mod computing;
mod container;
mod container_names;
mod containment;
mod expansion;
mod final_value;
mod form;
mod forms;
mod hex_digits;
mod initial_values;
mod keyword_texts;
mod keywords;
mod longhand;
mod longhands;
mod name_lists;
mod names;
mod prop_order;
mod reading;
mod shorthand;
mod sides;
mod slash;
mod style;
mod tokens;
mod value;
mod value_of_word;

pub use computing::compute;
pub use expansion::expand_shorthand;
pub use final_value::Final;
pub use initial_values::{inherits, initial};
pub use keyword_texts::keyword_text;
pub use longhand::{Longhand, Pairs};
pub use longhands::longhands_of_name;
pub use names::{prop_name, property_of_name};
pub use prop_order::{all_props, prop_place};
pub use query_units::{Bases, Computed, Length};
pub use reading::read_value;
pub use style::Style;
pub use value::Value;
pub use value_model::{Color, Containment, Keyword, Prop, Rgba, WideKeyword};
