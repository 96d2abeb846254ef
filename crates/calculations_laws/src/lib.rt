//! Laws of calculations (CSS Values 4, section 10): functions that do nothing, whose clauses are theorems
//! about the definitions of `value_model`.
#![tactic(auto)]

pub mod computing;
pub mod length_texts;
