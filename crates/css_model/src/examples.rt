//! Examples of the definitions, as CSS Syntax 3 has them: functions that do nothing, whose clauses
//! the prover computes.

pub mod code_points;
pub mod components;
pub mod numbers;
pub mod tokens;
