//! Tests of documents: trees that are read, edits one after another, and what they leave.
#![tactic(auto)]

#[cfg(test)]
mod attributes;
#[cfg(test)]
mod edits;
#[cfg(test)]
mod trees;
