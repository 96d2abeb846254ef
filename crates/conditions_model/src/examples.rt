//! Examples of the definitions, as Media Queries 4 has them: functions that do nothing, whose clauses
//! the prover computes.

pub mod conditions;
pub mod features;
pub mod queries;
pub mod tables;
pub mod values;
