//! Laws of the ledger of counted work.
ghost use Rattle.std.specs.Prelude.{◌≡◌, ℕ, List, ◌∷◌, ◌++◌};
ghost use Rattle.stream_model.specs.declared.kind.Kind.{Kind};
ghost use Rattle.stream_model.specs.Ledger.{Event, Log, pairs, mark, count_since_mark};
ghost use Rattle.stream_laws.specs.Counts.{count_of_kind};

/// The count of a kind is that of the pairs after the last mark, or of all pairs where there is no mark.
pub fn counts_are_of_the_last_log()
    ensures after_a_mark { (kind : Kind) (es : List Event) (log : Log)
        → count_since_mark kind (es ++ mark ∷ pairs log) ≡ count_of_kind kind log }
    ensures no_mark { (kind : Kind) (log : Log) → count_since_mark kind (pairs log) ≡ count_of_kind kind log }
{}
