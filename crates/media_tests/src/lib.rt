//! Tests of media queries: texts, and whether they match on a viewport.
#![tactic(auto)]

#[cfg(test)]
mod rows;
