//! Examples of the definitions, as CSS Custom Properties 1 has them: functions that do nothing, whose
//! clauses the prover computes.

pub mod cycles;
pub mod environments;
pub mod references;
pub mod substitution;
pub mod texts;
