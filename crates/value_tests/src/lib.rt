//! Tests of values: texts, and what is read of them and computed.
#![tactic(auto)]

#[cfg(test)]
mod initial_values;
#[cfg(test)]
mod printing;
#[cfg(test)]
mod shorthands;
#[cfg(test)]
mod values;
