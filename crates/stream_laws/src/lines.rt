//! Laws of the lines of a stream.
ghost use Rattle.std.specs.Prelude.{◌≡◌, ◌++◌, ℕ, List};
ghost use Rattle.stream_model.specs.Lines.{lines, whole_lines, IsUnbroken};
ghost use Rattle.stream_laws.specs.Cuts.{AreLines, EndsLines};

/// The lines of a stream are what stands before its newlines, and a last rest of at least one byte.
pub fn are_cut_at_newlines()
    ensures { (bytes : List ℕ) → AreLines bytes (lines bytes) }
{}

/// There is one way to cut a stream so.
pub fn are_unique()
    ensures { (bytes : List ℕ) (ls : List (List ℕ)) → AreLines bytes ls → ls ≡ lines bytes }
{}

/// The whole lines are all lines but an unended rest: those of the stream up to its last newline.
pub fn are_whole_up_to_the_last_newline()
    ensures { (ended rest : List ℕ) → EndsLines ended → IsUnbroken rest
        → whole_lines (ended ++ rest) ≡ lines ended }
{}
