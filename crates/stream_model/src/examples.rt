//! Examples of the definitions, which the prover computes. Limits and numbers are written out.
ghost use Rattle.std.specs.Prelude.{◌≡◌, ◌∷◌, [], ℕ, List, length, codes, Some, None, true, false};
ghost use Rattle.stream_model.specs.Streams.{FromTo, Rose, CountsFault, Grew, NothingLeft, Takes, TakesCount, Appends, AppendsPart};
ghost use Rattle.stream_model.specs.Lines.{lines, whole_lines, is_blank, is_too_long};
ghost use Rattle.stream_model.specs.Lists.{IsAmong, AreDistinct};
ghost use Rattle.stream_model.specs.Ledger.{pair, mark, events, count_since_mark};
ghost use Rattle.stream_model.specs.declared.kind.Kind.{Kind};
ghost use Rattle.stream_model.specs.declared.kind.Kind.TheVariants.{Match, Style, Measure, Size, Place};

/// A line ends at a newline, the byte 10, or where the stream ends after at least one byte.
pub fn examples_of_lines()
    ensures of_nothing { lines [] ≡ [] }
    ensures of_one_byte { lines (codes "a") ≡ codes "a" ∷ [] }
    ensures newline_at_the_end { lines (codes "one\ntwo\n") ≡ codes "one" ∷ codes "two" ∷ [] }
    ensures no_newline_at_the_end { lines (codes "one\ntwo") ≡ codes "one" ∷ codes "two" ∷ [] }
    ensures newline_alone { lines (codes "\n") ≡ [] ∷ [] }
    ensures two_newlines { lines (codes "\n\n") ≡ [] ∷ [] ∷ [] }
    ensures empty_line_between { lines (codes "a\n\nb") ≡ codes "a" ∷ [] ∷ codes "b" ∷ [] }
    ensures newline_is_10 { lines (9 ∷ 10 ∷ 11 ∷ 12 ∷ 13 ∷ [])
        ≡ (9 ∷ []) ∷ (11 ∷ 12 ∷ 13 ∷ []) ∷ [] }
{}

/// The whole lines are those that a newline ends.
pub fn examples_of_whole_lines()
    ensures of_nothing { whole_lines [] ≡ [] }
    ensures no_newline { whole_lines (codes "one") ≡ [] }
    ensures newline_alone { whole_lines (codes "\n") ≡ [] ∷ [] }
    ensures newline_at_the_end { whole_lines (codes "one\ntwo\n") ≡ codes "one" ∷ codes "two" ∷ [] }
    ensures no_newline_at_the_end { whole_lines (codes "one\n\ntwo") ≡ codes "one" ∷ [] ∷ [] }
{}

/// A line is blank where it has spaces, tabs and carriage returns alone, or nothing.
pub fn examples_of_blank_lines()
    ensures empty { is_blank [] ≡ true }
    ensures spaces { is_blank (codes "  ") ≡ true }
    ensures tab { is_blank (9 ∷ []) ≡ true }
    ensures carriage_return { is_blank (13 ∷ []) ≡ true }
    ensures all_three { is_blank (13 ∷ 32 ∷ 9 ∷ []) ≡ true }
    ensures vertical_tab { is_blank (11 ∷ []) ≡ false }
    ensures form_feed { is_blank (12 ∷ []) ≡ false }
    ensures nul { is_blank (0 ∷ []) ≡ false }
    ensures no_break_space { is_blank (194 ∷ 160 ∷ []) ≡ false }
    ensures first_is_none { is_blank (codes "a ") ≡ false }
    ensures last_is_none { is_blank (codes " {") ≡ false }
{}

/// A line is too long from 4,194,305 bytes on.
pub fn lengths_of_lines()
    ensures too_long { (line : List ℕ) → length line ≡ 4194305 → is_too_long line ≡ true }
    ensures longest { (line : List ℕ) → length line ≡ 4194304 → is_too_long line ≡ false }
    ensures empty { is_too_long [] ≡ false }
{}

/// A count stops at 18,446,744,073,709,551,615.
pub fn examples_of_counts()
    ensures one_fault { Rose 0 1 }
    ensures no_fault { Rose 7 7 → ⊥ }
    ensures fell { Rose 7 6 → ⊥ }
    ensures last_fault { Rose 18446744073709551614 18446744073709551615 }
    ensures before_the_last { Rose 18446744073709551614 18446744073709551614 → ⊥ }
    ensures at_the_last { Rose 18446744073709551615 18446744073709551615 }
    ensures counted { CountsFault 0 1 }
    ensures not_counted { CountsFault 0 0 → ⊥ }
    ensures fell_from_beyond { CountsFault 18446744073709551617 18446744073709551616 → ⊥ }
    ensures grew { Grew 2 3 5 }
    ensures grew_less { Grew 2 3 4 → ⊥ }
    ensures grew_more { Grew 2 3 6 → ⊥ }
    ensures stood { Grew 2 0 2 }
    ensures grew_to_the_last { Grew 18446744073709551613 9 18446744073709551615 }
    ensures beyond_the_last { Grew 18446744073709551620 1 18446744073709551620 }
    ensures grew_past_the_last { Grew 18446744073709551613 9 18446744073709551622 → ⊥ }
{}

/// A stream that tells its bytes goes on telling them, and one that does not, does not begin to.
pub fn examples_of_telling()
    ensures never_told { FromTo None None (λ old new. ⊥) }
    ensures told { FromTo (Some (codes "a")) (Some (codes "b"))
        (λ old new. (old ≡ codes "a") × (new ≡ codes "b")) }
    ensures told_wrong { FromTo (Some (codes "a")) (Some (codes "b")) (λ old new. new ≡ old) → ⊥ }
    ensures begins { FromTo None (Some []) (λ old new. Unit {0}) → ⊥ }
    ensures stops { FromTo (Some []) None (λ old new. Unit {0}) → ⊥ }
    ensures unknown { NothingLeft None }
    ensures nothing { NothingLeft (Some []) }
    ensures something { NothingLeft (Some (codes "a")) → ⊥ }
{}

/// Bytes are taken from the front and appended at the end.
pub fn examples_of_bytes()
    ensures taken { Takes (Some (codes "abc")) (Some (codes "c")) (codes "ab") }
    ensures taken_at_the_end { Takes (Some (codes "abc")) (Some (codes "a")) (codes "bc") → ⊥ }
    ensures taken_count { TakesCount (Some (codes "abc")) (Some (codes "c")) 2 }
    ensures appended { Appends (Some (codes "a")) (Some (codes "abc")) (codes "bc") }
    ensures put_before { Appends (Some (codes "a")) (Some (codes "bca")) (codes "bc") → ⊥ }
    ensures appended_in_part { AppendsPart (Some (codes "a")) (Some (codes "ab")) (codes "bc") }
{}

/// An edit or load adds a mark and then its pairs to the ledger.
pub fn examples_of_events()
    ensures no_log { events [] ≡ [] }
    ensures empty_log { events ([] ∷ []) ≡ mark ∷ [] }
    ensures pairs_in_order { events (((Match, 1) ∷ (Style, 1) ∷ (Match, 2) ∷ []) ∷ [])
        ≡ mark ∷ pair Match 1 ∷ pair Style 1 ∷ pair Match 2 ∷ [] }
    ensures two_logs { events (((Size, 0) ∷ []) ∷ ((Place, 7) ∷ []) ∷ [])
        ≡ mark ∷ pair Size 0 ∷ mark ∷ pair Place 7 ∷ [] }
{}

/// What is counted are the pairs of a kind since the last mark, or all of them where there is none.
pub fn examples_of_counted_work()
    ensures of_nothing { count_since_mark Match [] ≡ 0 }
    ensures no_mark { count_since_mark Match (pair Match 1 ∷ pair Style 1 ∷ pair Match 2 ∷ []) ≡ 2 }
    ensures before_a_mark { count_since_mark Size (pair Size 1 ∷ mark ∷ []) ≡ 0 }
    ensures after_a_mark { count_since_mark Size
        (pair Size 1 ∷ mark ∷ pair Size 2 ∷ pair Size 3 ∷ pair Size 4 ∷ []) ≡ 3 }
    ensures after_two_marks { count_since_mark Place
        (mark ∷ pair Place 1 ∷ pair Place 2 ∷ mark ∷ pair Place 3 ∷ []) ≡ 1 }
    ensures same_element_twice { count_since_mark Measure
        (mark ∷ pair Measure 1 ∷ pair Measure 1 ∷ []) ≡ 2 }
    ensures matches { count_since_mark Match
        (pair Match 1 ∷ pair Style 1 ∷ pair Measure 1 ∷ pair Size 1 ∷ pair Place 1 ∷ []) ≡ 1 }
    ensures styles { count_since_mark Style
        (pair Match 1 ∷ pair Style 1 ∷ pair Measure 1 ∷ pair Size 1 ∷ pair Place 1 ∷ []) ≡ 1 }
    ensures measures { count_since_mark Measure
        (pair Match 1 ∷ pair Style 1 ∷ pair Measure 1 ∷ pair Size 1 ∷ pair Place 1 ∷ []) ≡ 1 }
    ensures sizes { count_since_mark Size
        (pair Match 1 ∷ pair Style 1 ∷ pair Measure 1 ∷ pair Size 1 ∷ pair Place 1 ∷ []) ≡ 1 }
    ensures places { count_since_mark Place
        (pair Match 1 ∷ pair Style 1 ∷ pair Measure 1 ∷ pair Size 1 ∷ pair Place 1 ∷ []) ≡ 1 }
{}

/// Pairs are distinct where they differ in the kind or in the element.
pub fn examples_of_distinct_pairs()
    ensures none { AreDistinct {X = Kind × ℕ} [] }
    ensures different { AreDistinct {X = Kind × ℕ} ((Match, 1) ∷ (Style, 1) ∷ (Match, 2) ∷ []) }
    ensures twice { AreDistinct {X = Kind × ℕ} ((Match, 1) ∷ (Match, 1) ∷ []) → ⊥ }
    ensures twice_apart { AreDistinct {X = Kind × ℕ}
        ((Style, 4) ∷ (Match, 1) ∷ (Style, 4) ∷ []) → ⊥ }
    ensures twice_at_the_end { AreDistinct {X = Kind × ℕ}
        ((Size, 0) ∷ (Place, 2) ∷ (Place, 2) ∷ []) → ⊥ }
    ensures first { IsAmong {X = Kind × ℕ} (Match, 1) ((Match, 1) ∷ (Style, 1) ∷ []) }
    ensures last { IsAmong {X = Kind × ℕ} (Style, 1) ((Match, 1) ∷ (Style, 1) ∷ []) }
    ensures other_kind { IsAmong {X = Kind × ℕ} (Size, 1) ((Match, 1) ∷ (Style, 1) ∷ []) → ⊥ }
    ensures other_element { IsAmong {X = Kind × ℕ} (Match, 2) ((Match, 1) ∷ (Style, 1) ∷ []) → ⊥ }
{}
