//! Numbers and their values (CSS Syntax 3, sections 4.3.3, 4.3.12 and 4.3.13).
ghost use Rattle.css_model.specs.declared.token.TokenType.TheVariants.{Ident, Delim, Number, Percentage, Dimension};
ghost use Rattle.css_model.specs.inner.Examples.{integer, signed_integer, decimal, signed_decimal};
ghost use Rattle.css_model.specs.inner.Pieces.{token_types};
ghost use Rattle.std.specs.Prelude.{◌≡◌, ◌∷◌, [], codes, pos, neg_ℤ};

/// Numbers as they are written (sections 4.3.3, 4.3.10 and 4.3.12).
#[tactic(auto, unfolding(crate::specs::inner::Pieces::pieces_after, crate::specs::inner::Fronts::parts_after))]
pub fn numbers()
    ensures integer { token_types (codes "007") ≡ Number (integer (pos 7000000)) ∷ [] }
    ensures signed { token_types (codes "+1-2")
        ≡ Number (signed_integer (pos 1000000)) ∷ Number (signed_integer (neg_ℤ (pos 2000000))) ∷ [] }
    ensures minus_zero { token_types (codes "-0") ≡ Number (signed_integer (pos 0)) ∷ [] }
    ensures fraction { token_types (codes "1.25") ≡ Number (decimal (pos 1250000)) ∷ [] }
    ensures fraction_alone { token_types (codes ".5") ≡ Number (decimal (pos 500000)) ∷ [] }
    ensures signed_fraction { token_types (codes "-.5")
        ≡ Number (signed_decimal (neg_ℤ (pos 500000))) ∷ [] }
    ensures two_fractions { token_types (codes "1.5.5")
        ≡ Number (decimal (pos 1500000)) ∷ Number (decimal (pos 500000)) ∷ [] }
    ensures left_exponent { token_types (codes "+.5e-3") ≡ Number (signed_decimal (pos 500)) ∷ [] }
    ensures right_exponent { token_types (codes "2E+1") ≡ Number (decimal (pos 20000000)) ∷ [] }
    ensures exponent_without_sign { token_types (codes "2e1")
        ≡ Number (decimal (pos 20000000)) ∷ [] }
    ensures e_alone { token_types (codes "1e")
        ≡ Dimension (integer (pos 1000000)) (codes "e") ∷ [] }
    ensures e_and_hyphen { token_types (codes "1e-")
        ≡ Dimension (integer (pos 1000000)) (codes "e-") ∷ [] }
    ensures e_and_plus { token_types (codes "1e+")
        ≡ Dimension (integer (pos 1000000)) (codes "e") ∷ Delim 43 ∷ [] }
    ensures e_and_name { token_types (codes "1e-x")
        ≡ Dimension (integer (pos 1000000)) (codes "e-x") ∷ [] }
    ensures two_exponents { token_types (codes "1e1e1")
        ≡ Dimension (decimal (pos 10000000)) (codes "e1") ∷ [] }
    ensures escaped_e { token_types (codes "1\\65 1")
        ≡ Dimension (integer (pos 1000000)) (codes "e1") ∷ [] }
    ensures unit { token_types (codes "1e-3px") ≡ Dimension (decimal (pos 1000)) (codes "px") ∷ [] }
    ensures unit_of_hyphens { token_types (codes "1--")
        ≡ Dimension (integer (pos 1000000)) (codes "--") ∷ [] }
    ensures hyphen { token_types (codes "1-") ≡ Number (integer (pos 1000000)) ∷ Delim 45 ∷ [] }
    ensures percentage { token_types (codes "+50%%")
        ≡ Percentage (signed_integer (pos 50000000)) ∷ Delim 37 ∷ [] }
    ensures point_alone { token_types (codes "1.")
        ≡ Number (integer (pos 1000000)) ∷ Delim 46 ∷ [] }
    ensures point_and_exponent { token_types (codes "1.e1")
        ≡ Number (integer (pos 1000000)) ∷ Delim 46 ∷ Ident (codes "e1") ∷ [] }
    ensures sign_alone { token_types (codes "+-.") ≡ Delim 43 ∷ Delim 45 ∷ Delim 46 ∷ [] }
{}

/// Values of numbers (section 4.3.13) in millionths, truncated towards zero and clamped to plus or
/// minus 1,000,000,000,000,000 of them.
#[tactic(auto, unfolding(crate::specs::inner::Pieces::pieces_after, crate::specs::inner::Fronts::parts_after))]
pub fn values()
    ensures digits { token_types (codes "1234567890")
        ≡ Number (integer (pos 1000000000000000)) ∷ [] }
    ensures all_digits { token_types (codes "0.987654") ≡ Number (decimal (pos 987654)) ∷ [] }
    ensures truncated { token_types (codes "0.0000019") ≡ Number (decimal (pos 1)) ∷ [] }
    ensures truncated_towards_zero { token_types (codes "-0.0000019")
        ≡ Number (signed_decimal (neg_ℤ (pos 1))) ∷ [] }
    ensures truncated_after_the_exponent { token_types (codes "12e-7")
        ≡ Number (decimal (pos 1)) ∷ [] }
    ensures too_small { token_types (codes "1e-7") ≡ Number (decimal (pos 0)) ∷ [] }
    ensures moved_by_both { token_types (codes "123.456e-2") ≡ Number (decimal (pos 1234560)) ∷ [] }
    ensures exponent_of_two_digits { token_types (codes "0.000000000000001e15")
        ≡ Number (decimal (pos 1000000)) ∷ [] }
    ensures below_the_greatest { token_types (codes "999999999.9999999")
        ≡ Number (decimal (pos 999999999999999)) ∷ [] }
    ensures greatest { token_types (codes "1000000000")
        ≡ Number (integer (pos 1000000000000000)) ∷ [] }
    ensures past_the_greatest { token_types (codes "1000000001")
        ≡ Number (integer (pos 1000000000000000)) ∷ [] }
    ensures least { token_types (codes "-1000000000")
        ≡ Number (signed_integer (neg_ℤ (pos 1000000000000000))) ∷ [] }
    ensures past_the_least { token_types (codes "-1000000001")
        ≡ Number (signed_integer (neg_ℤ (pos 1000000000000000))) ∷ [] }
    ensures far_past_the_greatest { token_types (codes "1E400")
        ≡ Number (decimal (pos 1000000000000000)) ∷ [] }
    ensures far_past_the_least { token_types (codes "-1E400")
        ≡ Number (signed_decimal (neg_ℤ (pos 1000000000000000))) ∷ [] }
    ensures zero_and_exponent { token_types (codes "0e400") ≡ Number (decimal (pos 0)) ∷ [] }
{}
