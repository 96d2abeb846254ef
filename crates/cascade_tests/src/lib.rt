//! Tests of the cascade: whole small documents with sheets, and the styles of their elements.
#![tactic(auto)]

#[cfg(test)]
mod calls;
#[cfg(test)]
mod pages;
#[cfg(test)]
mod printing;
#[cfg(test)]
mod rows;
#[cfg(test)]
mod styles;
