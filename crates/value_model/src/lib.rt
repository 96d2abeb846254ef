//! Values of CSS: lengths, colours, the table of properties and its grammar, shorthands, and what
//! declared values compute to.
//!
//! Definitions stand in `specs/`, beside CSS Values 4, CSS Color 4 and the modules of each property;
//! the types that they share with code in `src/`.
#![tactic(auto)]

mod color;
mod containment;
pub mod examples;
mod keyword;
mod length_unit;
mod prop;
mod unit_set;
mod wide_keyword;

pub use color::{Color, Rgba};
pub use containment::Containment;
pub use keyword::Keyword;
pub use length_unit::{Bases, LengthBase, LengthUnit};
pub use prop::Prop;
pub use unit_set::UnitSet;
pub use wide_keyword::WideKeyword;
