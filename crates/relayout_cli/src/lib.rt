//! The program `relayout`: scripts of requests in, replies out.
#![tactic(auto)]

mod apply;
mod boxes;
mod dump;
mod elements;
mod examples;
mod matches;
mod page;
mod plain;
mod replies;
mod respond;
mod rules;
mod running;
mod serving;
mod sheets;
mod status;
mod styled;
mod styling;

pub use examples::{examples_of_causes, examples_of_logs, examples_of_what_is_written};
pub use running::run;
pub use serving::serve;
pub use status::Status;
