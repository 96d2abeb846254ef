//! Tests of tokens, component values, rules and declarations: texts, and what is read of them.
#![tactic(auto)]

#[cfg(test)]
mod copies;
#[cfg(test)]
mod nesting;
#[cfg(test)]
mod rules;
#[cfg(test)]
mod tokens;
