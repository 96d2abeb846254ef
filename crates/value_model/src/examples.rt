//! Examples of the definitions, as the standards have them: functions that do nothing, whose clauses
//! the prover computes.

pub mod boxes;
pub mod calculations;
pub mod colors;
pub mod containers;
pub mod grammar;
pub mod lengths;
pub mod shorthands;
pub mod table;
pub mod texts;
