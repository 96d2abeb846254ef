//! `An+B` (CSS Syntax 3, section 6).
ghost use Rattle.selectors_model.specs.AnPlusBs.{is_position};
ghost use Rattle.selectors_model.specs.declared.an_plus_b.TheConstants.{MAX_AN_PLUS_B};
ghost use Rattle.selectors_model.specs.inner.Examples.{an_plus_b};
ghost use Rattle.std.specs.Prelude.{◌≡◌, ◌∷◌, [], codes, map, None, Some, pos, neg_ℤ, true, false};

/// `odd`, `even`, integers and the forms with `n`, in any case (CSS Syntax 3, section 6.1).
#[tactic(auto, unfolding(css_model::specs::inner::Nesting::levels_of, css_model::specs::inner::Pieces::pieces_after, css_model::specs::inner::Fronts::parts_after))]
pub fn forms()
    ensures odd { an_plus_b (codes "odd") ≡ Some ((pos 2), (pos 1)) }
    ensures even { an_plus_b (codes "even") ≡ Some ((pos 2), (pos 0)) }
    ensures odd_in_capitals { an_plus_b (codes "ODD") ≡ Some ((pos 2), (pos 1)) }
    ensures even_in_capitals { an_plus_b (codes "Even") ≡ Some ((pos 2), (pos 0)) }
    ensures integer { an_plus_b (codes "5") ≡ Some ((pos 0), (pos 5)) }
    ensures plus_integer { an_plus_b (codes "+5") ≡ Some ((pos 0), (pos 5)) }
    ensures minus_integer { an_plus_b (codes "-5") ≡ Some ((pos 0), (neg_ℤ (pos 5))) }
    ensures zero { an_plus_b (codes "0") ≡ Some ((pos 0), (pos 0)) }
    ensures zeros { an_plus_b (codes "007") ≡ Some ((pos 0), (pos 7)) }
    ensures n { an_plus_b (codes "n") ≡ Some ((pos 1), (pos 0)) }
    ensures plus_n { an_plus_b (codes "+n") ≡ Some ((pos 1), (pos 0)) }
    ensures minus_n { an_plus_b (codes "-n") ≡ Some ((neg_ℤ (pos 1)), (pos 0)) }
    ensures n_in_capitals { an_plus_b (codes "N") ≡ Some ((pos 1), (pos 0)) }
    ensures escape { an_plus_b (codes "\\6e") ≡ Some ((pos 1), (pos 0)) }
    ensures two_n { an_plus_b (codes "2n") ≡ Some ((pos 2), (pos 0)) }
    ensures plus_two_n { an_plus_b (codes "+2n") ≡ Some ((pos 2), (pos 0)) }
    ensures minus_two_n { an_plus_b (codes "-2n") ≡ Some ((neg_ℤ (pos 2)), (pos 0)) }
    ensures capitals { an_plus_b (codes "2N+1") ≡ Some ((pos 2), (pos 1)) }
    ensures zero_n { an_plus_b (codes "0n+3") ≡ Some ((pos 0), (pos 3)) }
    ensures tail_plus { an_plus_b (codes "2n+1") ≡ Some ((pos 2), (pos 1)) }
    ensures tail_minus { an_plus_b (codes "2n-1") ≡ Some ((pos 2), (neg_ℤ (pos 1))) }
    ensures n_tail_plus { an_plus_b (codes "n+3") ≡ Some ((pos 1), (pos 3)) }
    ensures n_tail_minus { an_plus_b (codes "n-3") ≡ Some ((pos 1), (neg_ℤ (pos 3))) }
    ensures minus_n_tail_plus { an_plus_b (codes "-n+3") ≡ Some ((neg_ℤ (pos 1)), (pos 3)) }
    ensures minus_n_tail_minus { an_plus_b (codes "-n-3")
        ≡ Some ((neg_ℤ (pos 1)), (neg_ℤ (pos 3))) }
    ensures plus_n_tail_minus { an_plus_b (codes "+n-3") ≡ Some ((pos 1), (neg_ℤ (pos 3))) }
    ensures plus_n_tail_plus { an_plus_b (codes "+n+3") ≡ Some ((pos 1), (pos 3)) }
    ensures tail_zeros { an_plus_b (codes "n-003") ≡ Some ((pos 1), (neg_ℤ (pos 3))) }
{}

/// White space and comments: at both ends and around the sign of the tail (section 6.2).
#[tactic(auto, unfolding(css_model::specs::inner::Nesting::levels_of, css_model::specs::inner::Pieces::pieces_after, css_model::specs::inner::Fronts::parts_after))]
pub fn white_space()
    ensures at_the_ends { an_plus_b (codes " 2n+1 ") ≡ Some ((pos 2), (pos 1)) }
    ensures around_odd { an_plus_b (codes " odd\n") ≡ Some ((pos 2), (pos 1)) }
    ensures around_an_integer { an_plus_b (codes " 5 ") ≡ Some ((pos 0), (pos 5)) }
    ensures before_the_sign { an_plus_b (codes "2n +1") ≡ Some ((pos 2), (pos 1)) }
    ensures after_the_sign { an_plus_b (codes "2n+ 1") ≡ Some ((pos 2), (pos 1)) }
    ensures around_the_sign { an_plus_b (codes "2n + 1") ≡ Some ((pos 2), (pos 1)) }
    ensures around_a_minus { an_plus_b (codes "2n - 1") ≡ Some ((pos 2), (neg_ℤ (pos 1))) }
    ensures before_a_minus { an_plus_b (codes "2n -1") ≡ Some ((pos 2), (neg_ℤ (pos 1))) }
    ensures after_a_minus { an_plus_b (codes "2n- 1") ≡ Some ((pos 2), (neg_ℤ (pos 1))) }
    ensures after_an_n_minus { an_plus_b (codes "n- 1") ≡ Some ((pos 1), (neg_ℤ (pos 1))) }
    ensures after_a_minus_n_minus { an_plus_b (codes "-n- 1")
        ≡ Some ((neg_ℤ (pos 1)), (neg_ℤ (pos 1))) }
    ensures around_after_plus_n { an_plus_b (codes "+n - 1") ≡ Some ((pos 1), (neg_ℤ (pos 1))) }
    ensures comments { an_plus_b (codes "2n/**/-/**/1") ≡ Some ((pos 2), (neg_ℤ (pos 1))) }
    ensures comments_at_the_ends { an_plus_b (codes "/**/n/**/") ≡ Some ((pos 1), (pos 0)) }
    ensures comment_between_plus_and_n { an_plus_b (codes "+/**/n") ≡ Some ((pos 1), (pos 0)) }
    ensures comments_between_plus_and_n { an_plus_b (codes "+/**//**/n-1")
        ≡ Some ((pos 1), (neg_ℤ (pos 1))) }
    ensures between_plus_and_n { an_plus_b (codes "+ n") ≡ None }
    ensures comment_and_white_space_between_plus_and_n { an_plus_b (codes "+/**/ n") ≡ None }
    ensures between_minus_and_n { an_plus_b (codes "- n") ≡ None }
    ensures between_the_number_and_n { an_plus_b (codes "2 n") ≡ None }
    ensures comment_between_the_number_and_n { an_plus_b (codes "2/**/n") ≡ None }
    ensures comment_between_plus_and_number { an_plus_b (codes "+/**/2n") ≡ None }
    ensures comment_between_plus_and_integer { an_plus_b (codes "+/**/5") ≡ None }
    ensures between_plus_and_integer { an_plus_b (codes "+ 5") ≡ None }
    ensures between_plus_and_number { an_plus_b (codes "+ 2n") ≡ None }
    ensures comment_between_minus_and_n { an_plus_b (codes "-/**/n") ≡ None }
{}

/// What is none of the forms.
#[tactic(auto, unfolding(css_model::specs::inner::Nesting::levels_of, css_model::specs::inner::Pieces::pieces_after, css_model::specs::inner::Fronts::parts_after))]
pub fn others()
    ensures none { an_plus_b (codes "") ≡ None }
    ensures white_space_alone { an_plus_b (codes " ") ≡ None }
    ensures plus_alone { an_plus_b (codes "+") ≡ None }
    ensures minus_alone { an_plus_b (codes "-") ≡ None }
    ensures two_integers { an_plus_b (codes "1 2") ≡ None }
    ensures odd_and_more { an_plus_b (codes "odd 1") ≡ None }
    ensures even_and_more { an_plus_b (codes "even+1") ≡ None }
    ensures plus_odd { an_plus_b (codes "+odd") ≡ None }
    ensures plus_even { an_plus_b (codes "+even") ≡ None }
    ensures minus_odd { an_plus_b (codes "-odd") ≡ None }
    ensures unsigned_tail { an_plus_b (codes "n 1") ≡ None }
    ensures two_signs { an_plus_b (codes "n+ +1") ≡ None }
    ensures two_signs_again { an_plus_b (codes "n- -1") ≡ None }
    ensures minus_and_plus { an_plus_b (codes "n-+1") ≡ None }
    ensures sign_without_digits { an_plus_b (codes "n+") ≡ None }
    ensures minus_without_digits { an_plus_b (codes "n-") ≡ None }
    ensures two_n_minus { an_plus_b (codes "2n-") ≡ None }
    ensures two_n_minus_signed { an_plus_b (codes "2n- +1") ≡ None }
    ensures decimal { an_plus_b (codes "1.0") ≡ None }
    ensures exponent { an_plus_b (codes "1e1") ≡ None }
    ensures decimal_step { an_plus_b (codes "1.5n") ≡ None }
    ensures decimal_tail { an_plus_b (codes "n+1.0") ≡ None }
    ensures decimal_after_a_minus { an_plus_b (codes "n- 1.0") ≡ None }
    ensures exponent_tail { an_plus_b (codes "n+1e1") ≡ None }
    ensures another_letter { an_plus_b (codes "2m") ≡ None }
    ensures longer { an_plus_b (codes "nn") ≡ None }
    ensures n_and_a_digit { an_plus_b (codes "n1") ≡ None }
    ensures letters_after_the_minus { an_plus_b (codes "n-a") ≡ None }
    ensures digits_and_letters { an_plus_b (codes "n-1a") ≡ None }
    ensures digits_and_more { an_plus_b (codes "n-1 2") ≡ None }
    ensures digits_and_tail { an_plus_b (codes "n-1+2") ≡ None }
    ensures n_twice { an_plus_b (codes "n n") ≡ None }
    ensures two_hyphens { an_plus_b (codes "--n") ≡ None }
    ensures plus_minus_n { an_plus_b (codes "+-n") ≡ None }
    ensures plus_plus_n { an_plus_b (codes "++n") ≡ None }
    ensures minus_three_and_n { an_plus_b (codes "3-n") ≡ None }
    ensures percentage { an_plus_b (codes "5%") ≡ None }
    ensures string { an_plus_b (codes "\"odd\"") ≡ None }
    ensures bracket { an_plus_b (codes "(2n)") ≡ None }
    ensures function { an_plus_b (codes "n()") ≡ None }
    ensures of { an_plus_b (codes "2n of a") ≡ None }
    ensures comma { an_plus_b (codes "2n,1") ≡ None }
    ensures star { an_plus_b (codes "2*n") ≡ None }
{}

/// A and B are clamped.
#[tactic(auto, unfolding(css_model::specs::inner::Nesting::levels_of, css_model::specs::inner::Pieces::pieces_after, css_model::specs::inner::Fronts::parts_after))]
pub fn clamped()
    ensures limit { MAX_AN_PLUS_B ≡ pos 1000000000 }
    ensures at_the_limit { an_plus_b (codes "1000000000") ≡ Some ((pos 0), (pos 1000000000)) }
    ensures past_the_limit { an_plus_b (codes "1000000001") ≡ Some ((pos 0), (pos 1000000000)) }
    ensures past_the_limit_below { an_plus_b (codes "-1000000001")
        ≡ Some ((pos 0), (neg_ℤ (pos 1000000000))) }
    ensures step { an_plus_b (codes "-9999999999n") ≡ Some ((neg_ℤ (pos 1000000000)), (pos 0)) }
    ensures tail { an_plus_b (codes "n+9999999999") ≡ Some ((pos 1), (pos 1000000000)) }
    ensures tail_below { an_plus_b (codes "n - 9999999999")
        ≡ Some ((pos 1), (neg_ℤ (pos 1000000000))) }
    ensures digits_at_the_limit { an_plus_b (codes "n-1000000000")
        ≡ Some ((pos 1), (neg_ℤ (pos 1000000000))) }
    ensures digits_past_the_limit { an_plus_b (codes "n-1000000001")
        ≡ Some ((pos 1), (neg_ℤ (pos 1000000000))) }
    ensures digits_far_past_the_limit { an_plus_b (codes "2n-99999999999999999999")
        ≡ Some ((pos 2), (neg_ℤ (pos 1000000000))) }
{}

/// The positions from 0 to 8 that are A n + B for an n from 0 on.
#[tactic(auto, unfolding(css_model::specs::inner::Nesting::levels_of, css_model::specs::inner::Pieces::pieces_after, css_model::specs::inner::Fronts::parts_after))]
pub fn positions()
    ensures odd { map (is_position (record { step = pos 2; offset = pos 1 })) (0 ∷ 1 ∷ 2 ∷ 3 ∷ 4 ∷ 5 ∷ 6 ∷ 7 ∷ 8 ∷ [])
        ≡ false ∷ true ∷ false ∷ true ∷ false ∷ true ∷ false ∷ true ∷ false ∷ [] }
    ensures even { map (is_position (record { step = pos 2; offset = pos 0 })) (0 ∷ 1 ∷ 2 ∷ 3 ∷ 4 ∷ 5 ∷ 6 ∷ 7 ∷ 8 ∷ [])
        ≡ true ∷ false ∷ true ∷ false ∷ true ∷ false ∷ true ∷ false ∷ true ∷ [] }
    ensures one { map (is_position (record { step = pos 0; offset = pos 3 })) (0 ∷ 1 ∷ 2 ∷ 3 ∷ 4 ∷ 5 ∷ 6 ∷ 7 ∷ 8 ∷ [])
        ≡ false ∷ false ∷ false ∷ true ∷ false ∷ false ∷ false ∷ false ∷ false ∷ [] }
    ensures nothing { map (is_position (record { step = pos 0; offset = (neg_ℤ (pos 1)) })) (0 ∷ 1 ∷ 2 ∷ 3 ∷ 4 ∷ 5 ∷ 6 ∷ 7 ∷ 8 ∷ [])
        ≡ false ∷ false ∷ false ∷ false ∷ false ∷ false ∷ false ∷ false ∷ false ∷ [] }
    ensures all { map (is_position (record { step = pos 1; offset = pos 0 })) (0 ∷ 1 ∷ 2 ∷ 3 ∷ 4 ∷ 5 ∷ 6 ∷ 7 ∷ 8 ∷ [])
        ≡ true ∷ true ∷ true ∷ true ∷ true ∷ true ∷ true ∷ true ∷ true ∷ [] }
    ensures from_three_on { map (is_position (record { step = pos 1; offset = pos 3 })) (0 ∷ 1 ∷ 2 ∷ 3 ∷ 4 ∷ 5 ∷ 6 ∷ 7 ∷ 8 ∷ [])
        ≡ false ∷ false ∷ false ∷ true ∷ true ∷ true ∷ true ∷ true ∷ true ∷ [] }
    ensures up_to_three { map (is_position (record { step = (neg_ℤ (pos 1)); offset = pos 3 })) (0 ∷ 1 ∷ 2 ∷ 3 ∷ 4 ∷ 5 ∷ 6 ∷ 7 ∷ 8 ∷ [])
        ≡ true ∷ true ∷ true ∷ true ∷ false ∷ false ∷ false ∷ false ∷ false ∷ [] }
    ensures from_below { map (is_position (record { step = pos 3; offset = (neg_ℤ (pos 1)) })) (0 ∷ 1 ∷ 2 ∷ 3 ∷ 4 ∷ 5 ∷ 6 ∷ 7 ∷ 8 ∷ [])
        ≡ false ∷ false ∷ true ∷ false ∷ false ∷ true ∷ false ∷ false ∷ true ∷ [] }
    ensures downwards { map (is_position (record { step = (neg_ℤ (pos 3)); offset = pos 7 })) (0 ∷ 1 ∷ 2 ∷ 3 ∷ 4 ∷ 5 ∷ 6 ∷ 7 ∷ 8 ∷ [])
        ≡ false ∷ true ∷ false ∷ false ∷ true ∷ false ∷ false ∷ true ∷ false ∷ [] }
    ensures downwards_from_below { map (is_position (record { step = (neg_ℤ (pos 2)); offset = (neg_ℤ (pos 1)) })) (0 ∷ 1 ∷ 2 ∷ 3 ∷ 4 ∷ 5 ∷ 6 ∷ 7 ∷ 8 ∷ [])
        ≡ false ∷ false ∷ false ∷ false ∷ false ∷ false ∷ false ∷ false ∷ false ∷ [] }
    ensures the_same_twice { map (is_position (record { step = pos 0; offset = pos 0 })) (0 ∷ 1 ∷ 2 ∷ 3 ∷ 4 ∷ 5 ∷ 6 ∷ 7 ∷ 8 ∷ [])
        ≡ true ∷ false ∷ false ∷ false ∷ false ∷ false ∷ false ∷ false ∷ false ∷ [] }
    ensures far_away { map (is_position (record { step = (neg_ℤ (pos 1000000000)); offset = pos 1000000000 })) (0 ∷ 1 ∷ 2 ∷ 3 ∷ 4 ∷ 5 ∷ 6 ∷ 7 ∷ 8 ∷ [])
        ≡ true ∷ false ∷ false ∷ false ∷ false ∷ false ∷ false ∷ false ∷ false ∷ [] }
    ensures far_below { map (is_position (record { step = pos 1000000000; offset = (neg_ℤ (pos 1000000000)) })) (0 ∷ 1 ∷ 2 ∷ 3 ∷ 4 ∷ 5 ∷ 6 ∷ 7 ∷ 8 ∷ [])
        ≡ true ∷ false ∷ false ∷ false ∷ false ∷ false ∷ false ∷ false ∷ false ∷ [] }
{}
