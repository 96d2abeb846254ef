//! Tests of sets of margins: tables of values computed by hand.
#![tactic(auto)]

#[cfg(test)]
mod margins;
