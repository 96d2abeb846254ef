//! Laws of what is taken of a source and appended to a sink.
ghost use Rattle.std.specs.Prelude.{◌≡◌, ◌≤◌, ℕ, List, length, drop, Some, ◌++◌};
ghost use Rattle.stream_model.specs.Streams.{TakesCount, AppendsPart};

/// Where `n` bytes were taken, the rest without the first `n` is left.
pub fn what_was_taken_stood_in_front()
    ensures { (old new : List ℕ) (n : ℕ) → TakesCount (Some old) (Some new) n
        → (n ≤ length old) × (new ≡ drop n old) }
{}

/// What was appended in part is what was held, and then a front of the bytes.
pub fn a_part_is_a_front()
    ensures { (old new bytes : List ℕ) → AppendsPart (Some old) (Some new) bytes
        → (front rest : List ℕ) × (bytes ≡ front ++ rest) × (new ≡ old ++ front) }
{}
