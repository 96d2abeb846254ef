//! Tests of calculations: texts, and what is read of them and computed.
#![tactic(auto)]

#[cfg(test)]
mod printing;
#[cfg(test)]
mod values;
