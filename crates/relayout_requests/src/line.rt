//! What a line asks for.
ghost use Rattle.std.specs.Prelude.{◌≡◌, false, IfOk, option_map};
ghost use Rattle.serde_json.specs.View.{view};
ghost use Rattle.stream_model.specs.Lines.{is_blank, is_too_long};
ghost use Rattle.request_model.specs.Requests.{asked_of_line, value_of};
ghost use Rattle.relayout_requests.specs.Views.{asked_view};

use crate::grammar::ask_value;
use crate::request::Asked;
use page_model::Cause;
use port_core::NoMemory;
use serde_json::Value;
use std::alloc::Global;

/// Returns what a line of at most 4,194,304 bytes asks for.
///
/// Its memory may be 171 times the line's: that of the JSON value, which is read whole.
#[tactic(auto, unfolding(request_model::specs::Requests::asked_of_line, request_model::specs::Requests::asked_of))]
pub fn ask(alloc: Global, line: &[u8]) -> Result<Asked, NoMemory>
    requires { is_too_long line.now ≡ false }
    ensures asked { IfOk result (λ a. asked_view a ≡ asked_of_line line.now) }
{
    if is_blank_line(line) {
        return Ok(Asked::Nothing);
    }
    match read_value(alloc, line)? {
        Some(value) => ask_value(alloc, &value),
        None => Ok(Asked::Broken(Cause::BadJson)),
    }
}

/// Returns whether a line has only spaces, tabs and carriage returns.
fn is_blank_line(line: &[u8]) -> bool
    ensures { result ≡ is_blank line.now }
{
    line.iter()
        .all(|b| *b == b' ' || *b == b'\t' || *b == b'\r')
}

/// Returns the JSON value that a line is, if it is one.
fn read_value(alloc: Global, line: &[u8]) -> Result<Option<Value>, NoMemory>
    ensures { IfOk result (λ value. option_map view value ≡ value_of line.now) }
{
    match Value::from_slice(alloc, line) {
        Ok(value) => Ok(Some(value)),
        Err(error) => {
            if error.is_memory() {
                Err(NoMemory)
            } else {
                Ok(None)
            }
        }
    }
}
