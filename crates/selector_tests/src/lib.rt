//! Tests of selectors: the lists that texts spell, the elements that they match, specificities.
#![tactic(auto)]

#[cfg(test)]
mod documents;
#[cfg(test)]
mod limits;
#[cfg(test)]
mod matching;
#[cfg(test)]
mod reading;
#[cfg(test)]
mod rows;
#[cfg(test)]
mod specificities;
#[cfg(test)]
mod spelling;
