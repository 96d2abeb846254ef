//! Laws of the texts of computed lengths.
ghost use Rattle.std.specs.Prelude.{◌*◌, ◌^◌, ◌≡◌, negsuc, pos};
ghost use Rattle.calculations_laws.specs.LengthTexts.{HasShortLeaves, TellsLengthsApart};
ghost use Rattle.value_model.specs.Calculations.{in_percent, in_pixels, leaf, length_text, scaled, sum};

/// Two different computed lengths have different texts, be they calculated or not.
pub fn tell_lengths_apart()
    ensures { TellsLengthsApart }
{}

/// The numbers of a calculation may be short. Where one has more digits than are written, two lengths
/// have the same text.
pub fn ask_for_short_numbers()
    ensures short { HasShortLeaves
        (scaled (sum (leaf (in_pixels (negsuc 0))) (leaf (in_percent (pos 1)))) (pos 2)) }
    ensures long { length_text (leaf (in_percent (pos (11 * 10 ^ 63))))
        ≡ length_text (leaf (in_percent (pos (10 ^ 63)))) }
{}
