//! Examples of the definitions, as CSS Syntax 3 has them: functions that do nothing, whose clauses
//! the prover computes.

pub mod declarations;
pub mod rules;
pub mod sheets;
