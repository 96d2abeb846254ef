//! Requests: what a line of a script asks for.
#![tactic(auto)]

mod grammar;
mod line;
mod members;
mod request;
mod unread;

pub use line::ask;
pub use request::{Asked, Edit, Request};
