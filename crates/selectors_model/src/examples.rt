//! Examples of the definitions, as the standards have them: functions that do nothing, whose clauses
//! the prover computes.

pub mod an_plus_b;
pub mod grammar;
pub mod matching;
pub mod specificity;
