//! Examples of the definitions, as CSS 2.1 has them: functions that do nothing, whose clauses the
//! prover computes.

pub mod collapsing;
pub mod heights;
pub mod kinds;
pub mod lengths;
pub mod margins;
pub mod offsets;
pub mod preferred_widths;
pub mod rows;
pub mod widths;
