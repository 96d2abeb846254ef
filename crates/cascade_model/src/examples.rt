//! Examples of the definitions, as CSS Cascade 4 has them: functions that do nothing, whose clauses the
//! prover computes.

pub mod custom;
pub mod defaulting;
pub mod documents;
pub mod fonts;
pub mod media;
pub mod order;
pub mod rows;
