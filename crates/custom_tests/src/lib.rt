//! Tests of custom properties: values with `var()`, what they are after substitution, and environments.
#![tactic(auto)]

#[cfg(test)]
mod chains;
#[cfg(test)]
mod environments;
#[cfg(test)]
mod names;
#[cfg(test)]
mod texts;
#[cfg(test)]
mod values;
