//! The cascade: the rules of a page, the declarations that win for an element, and its style.
#![tactic(auto)]

mod answer_list;
mod answering;
mod applied;
mod books;
mod borders;
mod cascading;
mod choices;
mod customs;
mod defaults;
mod draft;
mod elements;
mod environments;
mod given;
mod kept;
mod longhands;
mod made;
mod media;
mod parts;
mod resolving;
mod rule_body;
mod rule_book;
mod shared;
mod styled;
mod styling;
mod table;
mod user_agent;
mod winners;

pub use answer_list::Answers;
pub use answering::answers;
pub use cascading::winning;
pub use elements::{room_for, styled_element};
pub use rule_book::RuleBook;
pub use styled::Styled;
pub use styling::resolve;
pub use winners::Winners;
