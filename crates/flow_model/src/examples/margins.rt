//! Sets of margins.
ghost use Rattle.flow_model.specs.inner.Examples.{minus, most};
ghost use Rattle.flow_model.specs.MarginSets.{alone, collapsed, empty, joined, seen};
ghost use Rattle.std.specs.Prelude.{◌≡◌, ◌∷◌, [], pos};

/// The greatest positive margin, less the most negative one (CSS 2.1, section 8.3.1).
pub fn collapsed_margins()
    ensures none { collapsed (seen []) ≡ pos 0 }
    ensures one { collapsed (seen (pos 10 ∷ [])) ≡ pos 10 }
    ensures one_negative { collapsed (seen (minus 10 ∷ [])) ≡ minus 10 }
    ensures greatest { collapsed (seen (pos 10 ∷ pos 30 ∷ pos 20 ∷ [])) ≡ pos 30 }
    ensures most_negative { collapsed (seen (minus 10 ∷ minus 30 ∷ minus 20 ∷ [])) ≡ minus 30 }
    ensures deducted { collapsed (seen (pos 10 ∷ minus 4 ∷ pos 6 ∷ minus 3 ∷ [])) ≡ pos 6 }
    ensures negative { collapsed (seen (pos 4 ∷ minus 10 ∷ [])) ≡ minus 6 }
{}

/// What is seen of a set, and of several as one.
pub fn sets()
    ensures seen { seen (pos 10 ∷ minus 4 ∷ pos 6 ∷ minus 3 ∷ []) ≡ record { positive = pos 10; negative = minus 4 } }
    ensures empty { empty ≡ record { positive = pos 0; negative = pos 0 } }
    ensures alone { alone (pos 5) ≡ record { positive = pos 5; negative = pos 0 } }
    ensures alone_negative { alone (minus 5) ≡ record { positive = pos 0; negative = minus 5 } }
    ensures joined { joined (record { positive = pos 3; negative = minus 9 } ∷ record { positive = pos 7; negative = minus 2 } ∷ [])
        ≡ record { positive = pos 7; negative = minus 9 } }
    ensures joined_the_other_way { joined (record { positive = pos 7; negative = minus 2 } ∷ record { positive = pos 3; negative = minus 9 } ∷ [])
        ≡ record { positive = pos 7; negative = minus 9 } }
    ensures nothing_joined { joined [] ≡ empty }
    ensures largest { collapsed (record { positive = most; negative = minus 1 }) ≡ pos 1073741823 }
    ensures clamped { collapsed (record { positive = most; negative = pos 1 }) ≡ most }
{}
