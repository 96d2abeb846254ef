//! The edge of the program: where bytes come from and go to, the lines in them, the ledger of
//! counted work, texts and lists.
#![tactic(auto)]

mod bytes;
mod draft;
mod memory;
mod ports;
mod reader;
mod short_text;
mod standard;
mod steps;
#[cfg(test)]
mod tests;
mod text;
mod window;

pub use memory::{MemSink, MemSource};
pub use ports::{Pull, Push, Sink, Source};
pub use reader::{Line, LineReader};
pub use sqlite_items::{Boxed, Items as Seq};
pub use standard::{StdSink, StdSource};
pub use std::alloc::AllocError as NoMemory;
pub use steps::{NodeId, Steps};
pub use stream_model::Kind;
pub use text::{Text, push_char};
