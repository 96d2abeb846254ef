//! Running the program.
ghost use Rattle.std.specs.Prelude.{◌≡◌, map, string_bytes};
ghost use Rattle.relayout_cli.specs.Runs.{setting_of, Serves};
ghost use Rattle.relayout_cli.specs.Words.{AreWords, TellsUsage};

use crate::serving::serve;
use crate::status::Status;
use port_core::{Push, Sink, Source, Steps};
use std::alloc::Global;

/// Runs the program. Where the words of the command line are its name alone it serves the script
/// that the source gives; with any other words it writes how it is used, and touches neither source
/// nor ledger.
pub fn run<I: Source, O: Sink, L: Drop>(
    alloc: Global,
    words: &[String],
    source: &mut I,
    sink: &mut O,
    steps: &mut Steps<L>,
) -> Status
    // With the words of the program: what is answered, written, logged and taken, and each cause.
    ensures serves { AreWords (map (λ w. string_bytes w) words.now) → Serves (setting_of 1) result (record {
      before = record { source = I.seen source.old; sink = O.seen sink.old; ledger = steps.old };
      after = record { source = I.seen source.new; sink = O.seen sink.new; ledger = steps.new };
    }) }
    // With others: the usage, and what stays.
    ensures usage { (AreWords (map (λ w. string_bytes w) words.now) → ⊥)
        → TellsUsage result (O.seen sink.old) (O.seen sink.new) }
    ensures source_stays { (AreWords (map (λ w. string_bytes w) words.now) → ⊥) → source.new ≡ source.old }
    ensures steps_stay { (AreWords (map (λ w. string_bytes w) words.now) → ⊥) → steps.new ≡ steps.old }
{
    if words.len() != 1 {
        return tell_usage(sink);
    }
    serve(alloc, 1, source, sink, steps)
}

/// Writes how the program is used.
#[tactic(auto, unfolding(crate::specs::Words::usage))]
fn tell_usage<O: Sink>(sink: &mut O) -> Status
    ensures { TellsUsage result (O.seen sink.old) (O.seen sink.new) }
{
    match sink.push(b"usage: relayout [--gen N] [--profile 1|2]\n") {
        Push::Done => Status::BadWords,
        Push::Failed => Status::WriteFault,
    }
}
