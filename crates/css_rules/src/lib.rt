//! Style sheets and `style` attributes: the rules and declarations that CSS Syntax finds in them.
#![tactic(auto)]

mod ahead;
mod classes;
mod declaration;
mod declaration_lists;
mod fault;
mod important;
mod lists;
mod rules;
mod sheet;
mod sheets;
mod text_components;

pub use css_tokens::{Component, Components, TokenFault};
pub use declaration::{Declaration, Declarations};
pub use declaration_lists::parse_style_attr;
pub use fault::SheetFault;
pub use rules_model::ConditionalRule;
pub use sheet::{Condition, Sheet, StyleRule};
pub use sheets::parse_sheet;
pub use text_components::components_of;
