//! Lengths and their values (CSS Values 4, sections 5 and 6; CSS Conditional 5, section 7). The font
//! sizes are 10 and 20 pixels, the viewport 1,000 by 500, the container 300 by 400.
ghost use Rattle.value_model.specs.inner.Examples.{bases_in, in_length, millionths, uneven_millionths};
ghost use Rattle.rules_model.specs.Sheets.{components_of};
ghost use Rattle.value_model.specs.declared.length_unit.LengthBase.TheVariants.{Pixel};
ghost use Rattle.value_model.specs.CalculationGrammar.{length_in};
ghost use Rattle.value_model.specs.Calculations.{in_percent, in_units, leaf, used_length};
ghost use Rattle.value_model.specs.Lengths.{dimension, percentage, unit, unit_set};
ghost use Rattle.std.specs.Prelude.{◌≡◌, None, Some, codes, false, neg_ℤ, pos, true};

/// Absolute lengths: one exact quotient, truncated towards zero.
#[tactic(auto, unfolding(css_model::specs::inner::Nesting::levels_of, css_model::specs::inner::Pieces::pieces_after, css_model::specs::inner::Fronts::parts_after))]
pub fn absolute()
    ensures px { millionths (codes "1px") ≡ Some (pos 1000000) }
    ensures pc { millionths (codes "1pc") ≡ Some (pos 16000000) }
    ensures inch { millionths (codes "1in") ≡ Some (pos 96000000) }
    ensures pt { millionths (codes "3pt") ≡ Some (pos 4000000) }
    ensures cm { millionths (codes "2.54cm") ≡ Some (pos 96000000) }
    ensures mm { millionths (codes "25.4mm") ≡ Some (pos 96000000) }
    ensures q { millionths (codes "101.6Q") ≡ Some (pos 96000000) }
    ensures zero { millionths (codes "0") ≡ Some (pos 0) }
    ensures minus_zero { millionths (codes "-0.0") ≡ Some (pos 0) }
    ensures truncated_to_zero { millionths (codes "0.0000001") ≡ Some (pos 0) }
    ensures truncated { millionths (codes "1pt") ≡ Some (pos 1333333) }
    ensures truncated_towards_zero { millionths (codes "-1pt") ≡ Some (neg_ℤ (pos 1333333)) }
    ensures small_unit { millionths (codes "0.000001pt") ≡ Some (pos 1) }
    ensures in_capitals { millionths (codes "1PX") ≡ Some (pos 1000000) }
    ensures escape { millionths (codes "1\\70x") ≡ Some (pos 1000000) }
    ensures negative { millionths (codes "-1px") ≡ Some (neg_ℤ (pos 1000000)) }
    ensures clamped { millionths (codes "1e9in") ≡ Some (pos 1000000000000000) }
    ensures clamped_below { millionths (codes "-1e9in") ≡ Some (neg_ℤ (pos 1000000000000000)) }
{}

/// Relative lengths.
#[tactic(auto, unfolding(css_model::specs::inner::Nesting::levels_of, css_model::specs::inner::Pieces::pieces_after, css_model::specs::inner::Fronts::parts_after))]
pub fn relative()
    ensures em { millionths (codes "1.5em") ≡ Some (pos 15000000) }
    ensures ex { millionths (codes "1ex") ≡ Some (pos 5000000) }
    ensures ch { millionths (codes "1ch") ≡ Some (pos 5000000) }
    ensures rem { millionths (codes "1rem") ≡ Some (pos 20000000) }
    ensures vw { millionths (codes "1vw") ≡ Some (pos 10000000) }
    ensures vi { millionths (codes "1vi") ≡ Some (pos 10000000) }
    ensures svw { millionths (codes "1svw") ≡ Some (pos 10000000) }
    ensures lvw { millionths (codes "1lvw") ≡ Some (pos 10000000) }
    ensures dvw { millionths (codes "1dvw") ≡ Some (pos 10000000) }
    ensures vh { millionths (codes "1vh") ≡ Some (pos 5000000) }
    ensures vb { millionths (codes "1vb") ≡ Some (pos 5000000) }
    ensures svh { millionths (codes "1svh") ≡ Some (pos 5000000) }
    ensures lvh { millionths (codes "1lvh") ≡ Some (pos 5000000) }
    ensures dvh { millionths (codes "1dvh") ≡ Some (pos 5000000) }
    ensures vmin { millionths (codes "1vmin") ≡ Some (pos 5000000) }
    ensures vmax { millionths (codes "1vmax") ≡ Some (pos 10000000) }
    ensures cqw { millionths (codes "1cqw") ≡ Some (pos 3000000) }
    ensures cqi { millionths (codes "1cqi") ≡ Some (pos 3000000) }
    ensures cqh { millionths (codes "1cqh") ≡ Some (pos 4000000) }
    ensures cqb { millionths (codes "1cqb") ≡ Some (pos 4000000) }
    ensures cqmin { millionths (codes "1cqmin") ≡ Some (pos 3000000) }
    ensures cqmax { millionths (codes "1cqmax") ≡ Some (pos 4000000) }
{}

/// What is no length.
#[tactic(auto, unfolding(css_model::specs::inner::Nesting::levels_of, css_model::specs::inner::Pieces::pieces_after, css_model::specs::inner::Fronts::parts_after))]
pub fn no_length()
    ensures a_number { millionths (codes "1") ≡ None }
    ensures a_percentage { millionths (codes "1%") ≡ None }
    ensures zero_percent { millionths (codes "0%") ≡ None }
    ensures an_angle { millionths (codes "1deg") ≡ None }
    ensures no_small_inline { millionths (codes "1svi") ≡ None }
    ensures no_small_block { millionths (codes "1svb") ≡ None }
    ensures no_small_least { millionths (codes "1svmin") ≡ None }
    ensures no_line_height { millionths (codes "1lh") ≡ None }
    ensures no_capital { millionths (codes "1cap") ≡ None }
    ensures a_longer_unit { millionths (codes "1pxx") ≡ None }
    ensures a_word { millionths (codes "px") ≡ None }
    ensures a_block { millionths (codes "(1px)") ≡ None }
    ensures nothing { millionths (codes "") ≡ None }
{}

/// Computed lengths: in units, truncated towards zero and clamped; percentages stay.
#[tactic(auto, unfolding(css_model::specs::inner::Nesting::levels_of, css_model::specs::inner::Pieces::pieces_after, css_model::specs::inner::Fronts::parts_after))]
pub fn computed()
    ensures px { in_length (codes "1px") ≡ Some (leaf (in_units (pos 64))) }
    ensures one_unit { in_length (codes "0.015625px") ≡ Some (leaf (in_units (pos 1))) }
    ensures below_one_unit { in_length (codes "0.015624px") ≡ Some (leaf (in_units (pos 0))) }
    ensures towards_zero { in_length (codes "-0.03px") ≡ Some (leaf (in_units (neg_ℤ (pos 1)))) }
    ensures greatest { in_length (codes "16777216px") ≡ Some (leaf (in_units (pos 1073741824))) }
    ensures clamped { in_length (codes "16777217px") ≡ Some (leaf (in_units (pos 1073741824))) }
    ensures clamped_below { in_length (codes "-1e9px") ≡ Some (leaf (in_units (neg_ℤ (pos 1073741824)))) }
    ensures percent { in_length (codes "12.5%") ≡ Some (leaf (in_percent (pos 12500000))) }
    ensures fine_percent { in_length (codes "33.333333%") ≡ Some (leaf (in_percent (pos 33333333))) }
    ensures negative_percent { in_length (codes "-1%") ≡ Some (leaf (in_percent (neg_ℤ (pos 1000000)))) }
    ensures number { in_length (codes "1") ≡ None }
{}

/// Used lengths: a percentage of a base is one exact quotient in millionths, truncated towards zero.
pub fn used()
    ensures units { used_length (leaf (in_units (pos 65))) (pos 6400) ≡ pos 1015625 }
    ensures half { used_length (leaf (in_percent (pos 50000000))) (pos 64) ≡ pos 500000 }
    ensures third { used_length (leaf (in_percent (pos 33333333))) (pos 1) ≡ pos 5208 }
    ensures negative { used_length (leaf (in_percent (neg_ℤ (pos 33333333)))) (pos 1) ≡ neg_ℤ (pos 5208) }
    ensures of_a_negative_base { used_length (leaf (in_percent (pos 1000000))) (neg_ℤ (pos 64)) ≡ neg_ℤ (pos 10000) }
    ensures clamped { used_length (leaf (in_percent (pos 1000000000000000))) (pos 1073741824) ≡ pos 1000000000000000 }
{}

/// The bases on which lengths depend.
#[tactic(auto, unfolding(css_model::specs::inner::Nesting::levels_of, css_model::specs::inner::Pieces::pieces_after, css_model::specs::inner::Fronts::parts_after))]
pub fn mentioned()
    ensures px { bases_in (codes "1px") ≡ Some (unit_set false false false false false false) }
    ensures em { bases_in (codes "1em") ≡ Some (unit_set true false false false false false) }
    ensures ex { bases_in (codes "1ex") ≡ Some (unit_set true false false false false false) }
    ensures rem { bases_in (codes "1rem") ≡ Some (unit_set false true false false false false) }
    ensures vw { bases_in (codes "1vw") ≡ Some (unit_set false false true false false false) }
    ensures vh { bases_in (codes "1vh") ≡ Some (unit_set false false false true false false) }
    ensures vmin { bases_in (codes "1vmin") ≡ Some (unit_set false false true true false false) }
    ensures vmax { bases_in (codes "1vmax") ≡ Some (unit_set false false true true false false) }
    ensures cqw { bases_in (codes "1cqw") ≡ Some (unit_set false false false false true false) }
    ensures cqh { bases_in (codes "1cqh") ≡ Some (unit_set false false false false false true) }
    ensures cqmin { bases_in (codes "1cqmin") ≡ Some (unit_set false false false false true true) }
    ensures cqmax { bases_in (codes "1cqmax") ≡ Some (unit_set false false false false true true) }
    ensures zero { bases_in (codes "0") ≡ Some (unit_set false false false false false false) }
    ensures percent { bases_in (codes "1%") ≡ Some (unit_set false false false false false false) }
{}

/// A length by itself.
#[tactic(auto, unfolding(css_model::specs::inner::Nesting::levels_of, css_model::specs::inner::Pieces::pieces_after, css_model::specs::inner::Fronts::parts_after))]
pub fn alone()
    ensures white_space { length_in false (components_of (codes " 1px ")) ≡ Some (leaf (dimension (pos 1000000) (unit Pixel 1 1))) }
    ensures two { length_in false (components_of (codes "1px 1px")) ≡ None }
    ensures percent { length_in false (components_of (codes "1%")) ≡ None }
    ensures with_percent { length_in true (components_of (codes "1%")) ≡ Some (leaf (percentage (pos 1000000))) }
    ensures zero { length_in true (components_of (codes "0")) ≡ Some (leaf (dimension (pos 0) (unit Pixel 1 1))) }
    ensures nothing { length_in true (components_of (codes "")) ≡ None }
{}

/// One quotient of bases that divide unevenly.
#[tactic(auto, unfolding(css_model::specs::inner::Nesting::levels_of, css_model::specs::inner::Pieces::pieces_after, css_model::specs::inner::Fronts::parts_after))]
pub fn one_quotient()
    ensures ex { uneven_millionths (codes "1ex") ≡ Some (pos 5007812) }
    ensures vw { uneven_millionths (codes "1vw") ≡ Some (pos 5000156) }
    ensures minus_vw { uneven_millionths (codes "-1vw") ≡ Some (neg_ℤ (pos 5000156)) }
    ensures vh { uneven_millionths (codes "1vh") ≡ Some (pos 10000468) }
    ensures vmin { uneven_millionths (codes "1vmin") ≡ Some (pos 5000156) }
    ensures vmax { uneven_millionths (codes "1vmax") ≡ Some (pos 10000468) }
    ensures cqw { uneven_millionths (codes "1cqw") ≡ Some (pos 4000468) }
    ensures cqh { uneven_millionths (codes "1cqh") ≡ Some (pos 3000156) }
    ensures cqmin { uneven_millionths (codes "1cqmin") ≡ Some (pos 3000156) }
    ensures cqmax { uneven_millionths (codes "1cqmax") ≡ Some (pos 4000468) }
{}
