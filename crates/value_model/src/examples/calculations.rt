//! Calculations: how they are written, and their values (CSS Values 4, section 10). The font sizes are
//! 10 and 20 pixels, the viewport 1,000 by 500, the container 300 by 400.
ghost use Rattle.value_model.specs.inner.CalculationExamples.{bases_of, calculated, calculated_of_300, computed_of, computed_on_a_page, in_units_of_300, length_by_itself, length_from_zero, tree_in, used_of_300};
ghost use Rattle.value_model.specs.Calculations.{calculation, divided, in_percent, in_pixels, in_units, largest, leaf, no_calculations, scaled, smallest, sum};
ghost use Rattle.value_model.specs.Lengths.{percentage, unit_set};
ghost use Rattle.std.specs.Prelude.{◌≡◌, None, Some, codes, false, neg_ℤ, pos, true};

/// Sums: from left to right, each clamped (sections 10.1 and 10.8).
#[tactic(auto, unfolding(css_model::specs::inner::Nesting::levels_of, css_model::specs::inner::Pieces::pieces_after, css_model::specs::inner::Fronts::parts_after))]
pub fn sums()
    ensures two { calculated (codes "calc(1px + 2px)") ≡ Some (pos 3000000) }
    ensures difference { calculated (codes "calc(1px - 3px)") ≡ Some (neg_ℤ (pos 2000000)) }
    ensures from_left { calculated (codes "calc(10px - 3px - 2px)") ≡ Some (pos 5000000) }
    ensures units { calculated (codes "calc(1em + 1vh)") ≡ Some (pos 15000000) }
    ensures signed { calculated (codes "calc(1px + -3px)") ≡ Some (neg_ℤ (pos 2000000)) }
    ensures minus_signed { calculated (codes "calc(1px - +3px)") ≡ Some (neg_ℤ (pos 2000000)) }
    ensures one { calculated (codes "calc(2px)") ≡ Some (pos 2000000) }
    ensures negative { calculated (codes "calc(-5px)") ≡ Some (neg_ℤ (pos 5000000)) }
    ensures lengths_truncated { calculated (codes "calc(1pt + 1pt)") ≡ Some (pos 2666666) }
    ensures greatest { calculated (codes "calc(1e9px + 1px)") ≡ Some (pos 1000000000000000) }
    ensures least { calculated (codes "calc(-1e9px - 1px)") ≡ Some (neg_ℤ (pos 1000000000000000)) }
    ensures each_clamped { calculated (codes "calc(1e9px + 1e9px - 1e9px)") ≡ Some (pos 0) }
    ensures brackets_first { calculated (codes "calc(1e9px + (1e9px - 1e9px))") ≡ Some (pos 1000000000000000) }
    ensures zero_pixels { calculated (codes "calc(0px + 1px)") ≡ Some (pos 1000000) }
{}

/// Products and quotients: truncated towards zero and clamped, from left to right.
#[tactic(auto, unfolding(css_model::specs::inner::Nesting::levels_of, css_model::specs::inner::Pieces::pieces_after, css_model::specs::inner::Fronts::parts_after))]
pub fn products()
    ensures number_right { calculated (codes "calc(2px * 3)") ≡ Some (pos 6000000) }
    ensures number_left { calculated (codes "calc(3 * 2px)") ≡ Some (pos 6000000) }
    ensures negative { calculated (codes "calc(2px * -1.5)") ≡ Some (neg_ℤ (pos 3000000)) }
    ensures zero { calculated (codes "calc(0 * 1px)") ≡ Some (pos 0) }
    ensures truncated { calculated (codes "calc(0.000003px * 0.5)") ≡ Some (pos 1) }
    ensures truncated_towards_zero { calculated (codes "calc(-0.000003px * 0.5)") ≡ Some (neg_ℤ (pos 1)) }
    ensures quotient { calculated (codes "calc(1px / 3)") ≡ Some (pos 333333) }
    ensures quotient_towards_zero { calculated (codes "calc(-1px / 3)") ≡ Some (neg_ℤ (pos 333333)) }
    ensures negative_divisor { calculated (codes "calc(1px / -3)") ≡ Some (neg_ℤ (pos 333333)) }
    ensures both_negative { calculated (codes "calc(-1px / -3)") ≡ Some (pos 333333) }
    ensures small_divisor { calculated (codes "calc(1px / 0.5)") ≡ Some (pos 2000000) }
    ensures quotient_first { calculated (codes "calc(1px / 3 * 3)") ≡ Some (pos 999999) }
    ensures product_first { calculated (codes "calc(1px * 3 / 3)") ≡ Some (pos 1000000) }
    ensures two_quotients { calculated (codes "calc(12px / 3 / 2)") ≡ Some (pos 2000000) }
    ensures greatest { calculated (codes "calc(1e9px * 2)") ≡ Some (pos 1000000000000000) }
    ensures least { calculated (codes "calc(1e9px * -2)") ≡ Some (neg_ℤ (pos 1000000000000000)) }
    ensures each_clamped { calculated (codes "calc(1e9px * 2 / 2)") ≡ Some (pos 500000000000000) }
    ensures quotient_clamped { calculated (codes "calc(1e9px / 0.5 / 2)") ≡ Some (pos 500000000000000) }
    ensures before_sum { calculated (codes "calc(1px + 2px * 3)") ≡ Some (pos 7000000) }
    ensures before_sum_left { calculated (codes "calc(2px * 3 + 1px)") ≡ Some (pos 7000000) }
    ensures quotient_before_difference { calculated (codes "calc(8px - 6px / 2)") ≡ Some (pos 5000000) }
{}

/// Parts that are numbers.
#[tactic(auto, unfolding(css_model::specs::inner::Nesting::levels_of, css_model::specs::inner::Pieces::pieces_after, css_model::specs::inner::Fronts::parts_after))]
pub fn numbers()
    ensures product { calculated (codes "calc(2 * 3 * 1px)") ≡ Some (pos 6000000) }
    ensures sum { calculated (codes "calc((1 + 2) * 1px)") ≡ Some (pos 3000000) }
    ensures difference { calculated (codes "calc((1 - 3) * 1px)") ≡ Some (neg_ℤ (pos 2000000)) }
    ensures quotient { calculated (codes "calc(1 / 3 * 3px)") ≡ Some (pos 999999) }
    ensures product_truncated { calculated (codes "calc(0.001 * 0.0005 * 1e6px)") ≡ Some (pos 0) }
    ensures each_sum_clamped { calculated (codes "calc((1e9 + 1e9 - 1e9) * 1px)") ≡ Some (pos 0) }
    ensures each_product_clamped { calculated (codes "calc(1e9 * 2 / 2 * 1px)") ≡ Some (pos 500000000000000) }
    ensures each_quotient_clamped { calculated (codes "calc(1e9 / 0.5 / 2 * 1px)") ≡ Some (pos 500000000000000) }
    ensures smallest { calculated (codes "calc(1px * min(3, 1, 2))") ≡ Some (pos 1000000) }
    ensures largest { calculated (codes "calc(1px * max(1, 3, 2))") ≡ Some (pos 3000000) }
    ensures smallest_alone { calculated (codes "calc(1px * min(3))") ≡ Some (pos 3000000) }
    ensures largest_alone { calculated (codes "calc(1px * max(3))") ≡ Some (pos 3000000) }
    ensures clamped { calculated (codes "calc(clamp(1, 5, 3) * 1px)") ≡ Some (pos 3000000) }
    ensures clamped_low { calculated (codes "calc(clamp(4, 5, 3) * 1px)") ≡ Some (pos 4000000) }
    ensures inner_calc { calculated (codes "calc(calc(2) * 1px)") ≡ Some (pos 2000000) }
    ensures divisor { calculated (codes "calc(6px / (1 + 2))") ≡ Some (pos 2000000) }
    ensures divisor_of_function { calculated (codes "calc(6px / max(1, 2))") ≡ Some (pos 3000000) }
{}

/// `min()`, `max()` and `clamp()` (section 10.2).
#[tactic(auto, unfolding(css_model::specs::inner::Nesting::levels_of, css_model::specs::inner::Pieces::pieces_after, css_model::specs::inner::Fronts::parts_after))]
pub fn comparisons()
    ensures smallest_first { calculated (codes "min(1px, 2px, 3px)") ≡ Some (pos 1000000) }
    ensures smallest_between { calculated (codes "min(3px, 1px, 2px)") ≡ Some (pos 1000000) }
    ensures smallest_last { calculated (codes "min(3px, 2px, 1px)") ≡ Some (pos 1000000) }
    ensures smallest_alone { calculated (codes "min(2px)") ≡ Some (pos 2000000) }
    ensures largest_first { calculated (codes "max(3px, 2px, 1px)") ≡ Some (pos 3000000) }
    ensures largest_between { calculated (codes "max(1px, 3px, 2px)") ≡ Some (pos 3000000) }
    ensures largest_last { calculated (codes "max(1px, 2px, 3px)") ≡ Some (pos 3000000) }
    ensures largest_alone { calculated (codes "max(2px)") ≡ Some (pos 2000000) }
    ensures negative { calculated (codes "min(-1px, -2px)") ≡ Some (neg_ℤ (pos 2000000)) }
    ensures largest_negative { calculated (codes "max(-1px, -2px)") ≡ Some (neg_ℤ (pos 1000000)) }
    ensures clamped { calculated (codes "clamp(1px, 3px, 5px)") ≡ Some (pos 3000000) }
    ensures clamped_high { calculated (codes "clamp(1px, 10px, 5px)") ≡ Some (pos 5000000) }
    ensures clamped_low { calculated (codes "clamp(1px, -3px, 5px)") ≡ Some (pos 1000000) }
    ensures low_wins { calculated (codes "clamp(7px, 3px, 5px)") ≡ Some (pos 7000000) }
    ensures low_wins_over_high { calculated (codes "clamp(6px, 10px, 5px)") ≡ Some (pos 6000000) }
    ensures sums { calculated (codes "min(1px + 2px, 2px * 2)") ≡ Some (pos 3000000) }
    ensures in_a_sum { calculated (codes "calc(min(1px, 2px) + max(1px, 2px))") ≡ Some (pos 3000000) }
    ensures nested { calculated (codes "max(1em, min(50px, 2vw))") ≡ Some (pos 20000000) }
    ensures narrow { calculated (codes "min(2px,1px)") ≡ Some (pos 1000000) }
{}

/// Round brackets, and functions in functions.
#[tactic(auto, unfolding(css_model::specs::inner::Nesting::levels_of, css_model::specs::inner::Pieces::pieces_after, css_model::specs::inner::Fronts::parts_after))]
pub fn brackets()
    ensures one { calculated (codes "calc((1px))") ≡ Some (pos 1000000) }
    ensures two { calculated (codes "calc(((1px + 2px)) * 2)") ≡ Some (pos 6000000) }
    ensures of_difference { calculated (codes "calc(2px - (3px - 4px))") ≡ Some (pos 3000000) }
    ensures inner_calc { calculated (codes "calc(calc(1px) + calc(2px))") ≡ Some (pos 3000000) }
    ensures narrow_product { calculated (codes "calc((1px + 2px)*3)") ≡ Some (pos 9000000) }
    ensures in_a_function { calculated (codes "min((3px), (1px + 1px))") ≡ Some (pos 2000000) }
    ensures open { calculated (codes "calc(1px + (2px") ≡ Some (pos 3000000) }
    ensures square { calculated (codes "calc([1px])") ≡ None }
    ensures curly { calculated (codes "calc({1px})") ≡ None }
    ensures empty { calculated (codes "calc(())") ≡ None }
    ensures comma { calculated (codes "calc((1px, 2px))") ≡ None }
    ensures by_themselves { calculated (codes "(1px)") ≡ None }
    ensures wrong_within { calculated (codes "calc(1px + (1px + 1))") ≡ None }
{}

/// White space: round each `+` and `-`, and free elsewhere (section 10.8).
#[tactic(auto, unfolding(css_model::specs::inner::Nesting::levels_of, css_model::specs::inner::Pieces::pieces_after, css_model::specs::inner::Fronts::parts_after))]
pub fn white_space()
    ensures ends { calculated (codes "calc( 1px )") ≡ Some (pos 1000000) }
    ensures much { calculated (codes "calc(1px  +\n 2px)") ≡ Some (pos 3000000) }
    ensures comments { calculated (codes "calc(1px /**/ + /**/ 2px)") ≡ Some (pos 3000000) }
    ensures narrow_product { calculated (codes "calc(2px*3)") ≡ Some (pos 6000000) }
    ensures narrow_quotient { calculated (codes "calc(6px/3)") ≡ Some (pos 2000000) }
    ensures wide_product { calculated (codes "calc(2px * 3)") ≡ Some (pos 6000000) }
    ensures wide_quotient { calculated (codes "calc(6px / 3)") ≡ Some (pos 2000000) }
    ensures narrow_negative { calculated (codes "calc(2px*-1)") ≡ Some (neg_ℤ (pos 2000000)) }
    ensures product_left { calculated (codes "calc(2px *3)") ≡ Some (pos 6000000) }
    ensures product_right { calculated (codes "calc(2px* 3)") ≡ Some (pos 6000000) }
    ensures arguments { calculated (codes "min( 2px , 1px )") ≡ Some (pos 1000000) }
    ensures no_space { calculated (codes "calc(1px+2px)") ≡ None }
    ensures no_space_round_brackets { calculated (codes "calc((1px)+(2px))") ≡ None }
    ensures only_before { calculated (codes "calc(1px +(2px))") ≡ None }
    ensures only_after { calculated (codes "calc(1px+ 2px)") ≡ None }
    ensures only_a_comment_before { calculated (codes "calc(1px/**/+ 2px)") ≡ None }
    ensures only_a_comment_after { calculated (codes "calc(1px +/**/2px)") ≡ None }
    ensures sign_of_the_number { calculated (codes "calc(1px +2px)") ≡ None }
    ensures minus_no_space { calculated (codes "calc(1px-2px)") ≡ None }
    ensures minus_no_space_round_brackets { calculated (codes "calc((1px)-(2px))") ≡ None }
    ensures minus_only_before { calculated (codes "calc(1px -(2px))") ≡ None }
    ensures minus_only_after { calculated (codes "calc((1px)- 2px)") ≡ None }
    ensures minus_of_the_number { calculated (codes "calc(1px -2px)") ≡ None }
    ensures second_sign { calculated (codes "calc(1px + 2px+ 3px)") ≡ None }
    ensures in_brackets { calculated (codes "calc(1px + ((1px)+ 2px))") ≡ None }
    ensures in_an_argument { calculated (codes "min(1px, (1px)+ 2px)") ≡ None }
    ensures among_numbers { calculated (codes "calc(1px * ((1)+ 2))") ≡ None }
{}

/// Names of functions, in any case.
#[tactic(auto, unfolding(css_model::specs::inner::Nesting::levels_of, css_model::specs::inner::Pieces::pieces_after, css_model::specs::inner::Fronts::parts_after))]
pub fn names()
    ensures capitals { calculated (codes "CALC(1px)") ≡ Some (pos 1000000) }
    ensures smallest { calculated (codes "Min(2px, 1px)") ≡ Some (pos 1000000) }
    ensures largest { calculated (codes "mAx(2px, 1px)") ≡ Some (pos 2000000) }
    ensures clamped { calculated (codes "CLAMP(1px, 10px, 5px)") ≡ Some (pos 5000000) }
    ensures inner { calculated (codes "calc(MIN(2px, 1px))") ≡ Some (pos 1000000) }
    ensures escape { calculated (codes "c\\61lc(1px)") ≡ Some (pos 1000000) }
    ensures other { calculated (codes "abs(1px)") ≡ None }
    ensures inner_other { calculated (codes "calc(abs(1px))") ≡ None }
    ensures a_variable { calculated (codes "calc(var(--x))") ≡ None }
    ensures a_word { calculated (codes "calc") ≡ None }
    ensures longer { calculated (codes "calcs(1px)") ≡ None }
    ensures prefixed { calculated (codes "-webkit-calc(1px)") ≡ None }
{}

/// Types: a length as a whole, and what is of none (section 10.9).
#[tactic(auto, unfolding(css_model::specs::inner::Nesting::levels_of, css_model::specs::inner::Pieces::pieces_after, css_model::specs::inner::Fronts::parts_after))]
pub fn types()
    ensures a_number { calculated (codes "calc(1)") ≡ None }
    ensures zero { calculated (codes "calc(0)") ≡ None }
    ensures a_ratio { calculated (codes "calc(4 / 3)") ≡ None }
    ensures smallest_number { calculated (codes "min(1, 2)") ≡ None }
    ensures largest_number { calculated (codes "max(0)") ≡ None }
    ensures clamped_number { calculated (codes "clamp(1, 2, 3)") ≡ None }
    ensures product_of_lengths { calculated (codes "calc(1px * 2px)") ≡ None }
    ensures quotient_of_lengths { calculated (codes "calc(6px / 2px)") ≡ None }
    ensures number_by_length { calculated (codes "calc(6 / 2px)") ≡ None }
    ensures by_zero { calculated (codes "calc(1px / 0)") ≡ None }
    ensures by_minus_zero { calculated (codes "calc(1px / -0.0)") ≡ None }
    ensures truncated_to_zero { calculated (codes "calc(1px / 0.0000001)") ≡ None }
    ensures by_zero_difference { calculated (codes "calc(1px / (1 - 1))") ≡ None }
    ensures by_truncated_product { calculated (codes "calc(1px / (0.001 * 0.0005))") ≡ None }
    ensures number_by_zero { calculated (codes "calc(1 / 0 * 1px)") ≡ None }
    ensures by_zero_within { calculated (codes "calc(0 * (1px / 0))") ≡ None }
    ensures length_and_number { calculated (codes "calc(1px + 1)") ≡ None }
    ensures number_and_length { calculated (codes "calc(1 + 1px)") ≡ None }
    ensures length_and_zero { calculated (codes "calc(1px + 0)") ≡ None }
    ensures zero_and_length { calculated (codes "calc(0 + 1px)") ≡ None }
    ensures length_minus_zero { calculated (codes "calc(1px - 0)") ≡ None }
    ensures zero_minus_length { calculated (codes "calc(0 - 1px)") ≡ None }
    ensures smallest_of_both { calculated (codes "min(0, 1px)") ≡ None }
    ensures smallest_of_both_turned { calculated (codes "min(1px, 0)") ≡ None }
    ensures largest_of_both { calculated (codes "max(0, 1px)") ≡ None }
    ensures largest_of_both_turned { calculated (codes "max(1px, 2px, 0)") ≡ None }
    ensures factor_of_both { calculated (codes "calc(1px * min(1, 2px))") ≡ None }
    ensures factor_of_both_turned { calculated (codes "calc(1px * max(2px, 1))") ≡ None }
    ensures clamped_factor_of_both { calculated (codes "calc(1px * clamp(1, 2px, 3))") ≡ None }
    ensures factor_of_lengths { calculated (codes "calc(1px * min(1px, 2px))") ≡ None }
    ensures divisor_of_lengths { calculated (codes "calc(1px / max(1px, 2px))") ≡ None }
    ensures clamped_low { calculated (codes "clamp(0, 1px, 2px)") ≡ None }
    ensures clamped_between { calculated (codes "clamp(0px, 1, 2px)") ≡ None }
    ensures clamped_high { calculated (codes "clamp(0px, 1px, 2)") ≡ None }
    ensures an_angle { calculated (codes "calc(1deg)") ≡ None }
    ensures length_and_angle { calculated (codes "calc(1px + 1deg)") ≡ None }
{}

/// What lacks a part, or has one too many.
#[tactic(auto, unfolding(css_model::specs::inner::Nesting::levels_of, css_model::specs::inner::Pieces::pieces_after, css_model::specs::inner::Fronts::parts_after))]
pub fn missing()
    ensures nothing { calculated (codes "calc()") ≡ None }
    ensures white_space { calculated (codes "calc( )") ≡ None }
    ensures no_smallest { calculated (codes "min()") ≡ None }
    ensures no_largest { calculated (codes "max()") ≡ None }
    ensures nothing_clamped { calculated (codes "clamp()") ≡ None }
    ensures right { calculated (codes "calc(1px +)") ≡ None }
    ensures right_of_space { calculated (codes "calc(1px + )") ≡ None }
    ensures left { calculated (codes "calc( + 1px)") ≡ None }
    ensures left_of_number { calculated (codes "calc( - 1px)") ≡ None }
    ensures factor { calculated (codes "calc(1px *)") ≡ None }
    ensures left_factor { calculated (codes "calc(*1px)") ≡ None }
    ensures divisor { calculated (codes "calc(1px /)") ≡ None }
    ensures between { calculated (codes "calc(1px + + 2px)") ≡ None }
    ensures factor_between { calculated (codes "calc(1px * / 2)") ≡ None }
    ensures sign_after_product { calculated (codes "calc(1px * + 2)") ≡ None }
    ensures sign_of_brackets { calculated (codes "calc(1px + -(2px))") ≡ None }
    ensures operator { calculated (codes "calc(1px 2px)") ≡ None }
    ensures operator_of_brackets { calculated (codes "calc((1px)(2px))") ≡ None }
    ensures operator_of_number { calculated (codes "calc(2 1px)") ≡ None }
    ensures two_arguments { calculated (codes "calc(1px, 2px)") ≡ None }
    ensures comma_at_the_end { calculated (codes "min(1px,)") ≡ None }
    ensures comma_in_front { calculated (codes "min(,1px)") ≡ None }
    ensures two_commas { calculated (codes "max(1px,,2px)") ≡ None }
    ensures wrong_argument { calculated (codes "min(1px, auto)") ≡ None }
    ensures wrong_first_argument { calculated (codes "max(auto, 1px)") ≡ None }
    ensures one_clamped { calculated (codes "clamp(1px)") ≡ None }
    ensures two_clamped { calculated (codes "clamp(1px, 2px)") ≡ None }
    ensures four_clamped { calculated (codes "clamp(1px, 2px, 3px, 4px)") ≡ None }
    ensures a_keyword { calculated (codes "calc(auto)") ≡ None }
    ensures a_keyword_added { calculated (codes "calc(1px + auto)") ≡ None }
    ensures a_string { calculated (codes "calc(\"1px\")") ≡ None }
    ensures a_semicolon { calculated (codes "calc(1px;)") ≡ None }
    ensures another_sign { calculated (codes "calc(1px % 2)") ≡ None }
    ensures a_colon { calculated (codes "calc(1px : 2)") ≡ None }
    ensures a_mark_at_the_end { calculated (codes "calc(1px !)") ≡ None }
    ensures a_mark_in_front { calculated (codes "calc(? 1px)") ≡ None }
    ensures a_mark_round_a_sign { calculated (codes "calc(1px !+ 2px)") ≡ None }
    ensures a_length { calculated (codes "1px") ≡ None }
    ensures none_at_all { calculated (codes "") ≡ None }
{}

/// Percentages, where they are lengths, of 300 pixels; elsewhere they are outside of the grammar.
#[tactic(auto, unfolding(css_model::specs::inner::Nesting::levels_of, css_model::specs::inner::Pieces::pieces_after, css_model::specs::inner::Fronts::parts_after))]
pub fn percentages()
    ensures sum { calculated_of_300 (codes "calc(1px + 10%)") ≡ Some (pos 31000000) }
    ensures difference { calculated_of_300 (codes "calc(10% - 1px)") ≡ Some (pos 29000000) }
    ensures alone { calculated_of_300 (codes "calc(33.333333%)") ≡ Some (pos 99999999) }
    ensures product { calculated_of_300 (codes "calc(10% * 2)") ≡ Some (pos 60000000) }
    ensures product_left { calculated_of_300 (codes "calc(2 * 10%)") ≡ Some (pos 60000000) }
    ensures quotient { calculated_of_300 (codes "calc(10% / 4)") ≡ Some (pos 7500000) }
    ensures smallest { calculated_of_300 (codes "min(50%, 200px)") ≡ Some (pos 150000000) }
    ensures largest { calculated_of_300 (codes "max(50%, 200px)") ≡ Some (pos 200000000) }
    ensures clamped { calculated_of_300 (codes "clamp(10px, 50%, 100px)") ≡ Some (pos 100000000) }
    ensures negative { calculated_of_300 (codes "calc(-10%)") ≡ Some (neg_ℤ (pos 30000000)) }
    ensures without { calculated_of_300 (codes "calc(1px + 2px)") ≡ Some (pos 3000000) }
    ensures each_clamped { calculated_of_300 (codes "calc(1e9px + 100% - 1e9px)") ≡ Some (pos 0) }
    ensures in_a_function { calculated_of_300 (codes "calc(1px + min(1%, 2%))") ≡ Some (pos 4000000) }
    ensures in_brackets { calculated_of_300 (codes "calc(1px + (1% + 1%))") ≡ Some (pos 7000000) }
    ensures and_number { calculated_of_300 (codes "calc(10% + 5)") ≡ None }
    ensures zero_and_percentage { calculated_of_300 (codes "max(0, 10%)") ≡ None }
    ensures product_of_both { calculated_of_300 (codes "calc(10% * 1px)") ≡ None }
    ensures product_of_percentages { calculated_of_300 (codes "calc(10% * 10%)") ≡ None }
    ensures quotient_of_percentages { calculated_of_300 (codes "calc(10% / 10%)") ≡ None }
    ensures a_number { calculated_of_300 (codes "calc(1 * 2)") ≡ None }
    ensures by_itself { calculated_of_300 (codes "10%") ≡ None }
    ensures not_allowed { calculated (codes "calc(10%)") ≡ None }
    ensures not_allowed_in_a_sum { calculated (codes "calc(1px + 10%)") ≡ None }
    ensures not_allowed_in_a_function { calculated (codes "min(1px, 10%)") ≡ None }
    ensures not_allowed_in_brackets { calculated (codes "calc(1px + (1px + 10%))") ≡ None }
{}

/// Trees: sums and products lean to the left, and nothing is simplified but parts that are numbers.
#[tactic(auto, unfolding(css_model::specs::inner::Nesting::levels_of, css_model::specs::inner::Pieces::pieces_after, css_model::specs::inner::Fronts::parts_after))]
pub fn trees()
    ensures sum { tree_in (codes "calc(2px + 3px + 10%)") ≡ Some (codes "add(add(px:2000000,px:3000000),pct:10000000)") }
    ensures numbers_in_front { tree_in (codes "calc(2 * 3 * 10%)") ≡ Some (codes "scale(pct:10000000,6000000)") }
    ensures numbers_after { tree_in (codes "calc(10% * 2 * 3)") ≡ Some (codes "scale(scale(pct:10000000,2000000),3000000)") }
    ensures number_on_both_sides { tree_in (codes "calc(2 * 10% * 3)") ≡ Some (codes "scale(scale(pct:10000000,2000000),3000000)") }
    ensures numbers_in_brackets { tree_in (codes "calc(10% * (2 * 3))") ≡ Some (codes "scale(pct:10000000,6000000)") }
    ensures product_in_brackets { tree_in (codes "calc(2 * (3 * 10%))") ≡ Some (codes "scale(scale(pct:10000000,3000000),2000000)") }
    ensures sum_in_brackets { tree_in (codes "calc(2px + (3px + 10%))") ≡ Some (codes "add(px:2000000,add(px:3000000,pct:10000000))") }
    ensures difference { tree_in (codes "calc(10% - 1px)") ≡ Some (codes "add(pct:10000000,scale(px:1000000,-1000000))") }
    ensures differences { tree_in (codes "calc(10% - 1px - 2px)") ≡ Some (codes "add(add(pct:10000000,scale(px:1000000,-1000000)),scale(px:2000000,-1000000))") }
    ensures product_in_a_difference { tree_in (codes "calc(10% - 2 * 1px)") ≡ Some (codes "add(pct:10000000,scale(scale(px:1000000,2000000),-1000000))") }
    ensures quotient { tree_in (codes "calc(10% / 4)") ≡ Some (codes "over(pct:10000000,4000000)") }
    ensures quotients { tree_in (codes "calc(10% / -4 / 0.5)") ≡ Some (codes "over(over(pct:10000000,-4000000),500000)") }
    ensures quotient_and_product { tree_in (codes "calc(10% / 4 * 2)") ≡ Some (codes "scale(over(pct:10000000,4000000),2000000)") }
    ensures brackets { tree_in (codes "calc(((10%)))") ≡ Some (codes "pct:10000000") }
    ensures inner_calc { tree_in (codes "calc(calc(10%) + calc(1px))") ≡ Some (codes "add(pct:10000000,px:1000000)") }
    ensures one_smallest { tree_in (codes "min(10%)") ≡ Some (codes "min(pct:10000000)") }
    ensures one_largest { tree_in (codes "max(10%)") ≡ Some (codes "max(pct:10000000)") }
    ensures two_smallest { tree_in (codes "min(10%, 1px)") ≡ Some (codes "min(pct:10000000,px:1000000)") }
    ensures three_smallest { tree_in (codes "min(3px, 10%, 1px)") ≡ Some (codes "min(px:3000000,pct:10000000,px:1000000)") }
    ensures three_largest { tree_in (codes "max(3px, 10%, 1px)") ≡ Some (codes "max(px:3000000,pct:10000000,px:1000000)") }
    ensures clamped { tree_in (codes "clamp(1px, 10%, 5px)") ≡ Some (codes "max(px:1000000,min(pct:10000000,px:5000000))") }
    ensures nested { tree_in (codes "min(min(1px, 10%), 2px)") ≡ Some (codes "min(min(px:1000000,pct:10000000),px:2000000)") }
    ensures zero { tree_in (codes "calc(0px + 10%)") ≡ Some (codes "add(px:0,pct:10000000)") }
    ensures scaled_by_zero { tree_in (codes "calc(10% * 0)") ≡ Some (codes "scale(pct:10000000,0)") }
    ensures scaled_by_one { tree_in (codes "calc(10% * 1)") ≡ Some (codes "scale(pct:10000000,1000000)") }
    ensures number_from_a_sum { tree_in (codes "calc(10% * (1 - 3))") ≡ Some (codes "scale(pct:10000000,-2000000)") }
    ensures number_from_a_function { tree_in (codes "calc(10% * min(3, 2))") ≡ Some (codes "scale(pct:10000000,2000000)") }
    ensures divisor_from_a_function { tree_in (codes "calc(10% / clamp(1, 5, 3))") ≡ Some (codes "over(pct:10000000,3000000)") }
    ensures truncated_number { tree_in (codes "calc(10% * (1 / 3))") ≡ Some (codes "scale(pct:10000000,333333)") }
    ensures relative { tree_in (codes "calc(1em + 10%)") ≡ Some (codes "add(px:10000000,pct:10000000)") }
    ensures truncated_length { tree_in (codes "calc(1pt + 10%)") ≡ Some (codes "add(px:1333333,pct:10000000)") }
    ensures negative { tree_in (codes "calc(-1px + -10%)") ≡ Some (codes "add(px:-1000000,pct:-10000000)") }
    ensures a_number { tree_in (codes "calc(2 * 3)") ≡ None }
{}

/// Computed calculations: in units without percentages, and as a tree with them (section 10.11).
#[tactic(auto, unfolding(css_model::specs::inner::Nesting::levels_of, css_model::specs::inner::Pieces::pieces_after, css_model::specs::inner::Fronts::parts_after))]
pub fn computed()
    ensures sum { computed_of (codes "calc(1px + 2px)") ≡ Some (leaf (in_units (pos 192))) }
    ensures truncated { computed_of (codes "calc(1px / 3)") ≡ Some (leaf (in_units (pos 21))) }
    ensures truncated_once { computed_of (codes "calc(0.01px + 0.01px)") ≡ Some (leaf (in_units (pos 1))) }
    ensures negative { computed_of (codes "calc(-5px)") ≡ Some (leaf (in_units (neg_ℤ (pos 320)))) }
    ensures towards_zero { computed_of (codes "calc(-1px / 3)") ≡ Some (leaf (in_units (neg_ℤ (pos 21)))) }
    ensures greatest { computed_of (codes "calc(1e9px * 1)") ≡ Some (leaf (in_units (pos 1073741824))) }
    ensures least { computed_of (codes "calc(-1e9px * 1)") ≡ Some (leaf (in_units (neg_ℤ (pos 1073741824)))) }
    ensures percentage { computed_of (codes "calc(10%)") ≡ Some (leaf (in_percent (pos 10000000))) }
    ensures sum_with_percentage { computed_of (codes "calc(1em + 10%)") ≡ Some (sum (leaf (in_pixels (pos 10000000))) (leaf (in_percent (pos 10000000)))) }
    ensures product_with_percentage { computed_of (codes "calc(10% * 0)") ≡ Some (scaled (leaf (in_percent (pos 10000000))) (pos 0)) }
    ensures quotient_with_percentage { computed_of (codes "calc(10% / 2)") ≡ Some (divided (leaf (in_percent (pos 10000000))) (pos 2000000)) }
    ensures first_percentage { computed_of (codes "min(10%, 1px)") ≡ Some (smallest (leaf (in_percent (pos 10000000))) (calculation (leaf (in_pixels (pos 1000000))) no_calculations)) }
    ensures last_percentage { computed_of (codes "max(1px, 10%)") ≡ Some (largest (leaf (in_pixels (pos 1000000))) (calculation (leaf (in_percent (pos 10000000))) no_calculations)) }
    ensures number { computed_of (codes "calc(1)") ≡ None }
{}

/// Font sizes, line heights and widths of borders: in units, percentages of 300 pixels, not below 0.
#[tactic(auto, unfolding(css_model::specs::inner::Nesting::levels_of, css_model::specs::inner::Pieces::pieces_after, css_model::specs::inner::Fronts::parts_after))]
pub fn not_below_zero()
    ensures positive { in_units_of_300 (codes "calc(2px + 3px)") ≡ Some (pos 320) }
    ensures negative { in_units_of_300 (codes "calc(-5px)") ≡ Some (pos 0) }
    ensures negative_difference { in_units_of_300 (codes "calc(10% - 31px)") ≡ Some (pos 0) }
    ensures sum { in_units_of_300 (codes "calc(10% + 1px)") ≡ Some (pos 1984) }
    ensures truncated { in_units_of_300 (codes "calc(1px / 3)") ≡ Some (pos 21) }
    ensures truncated_once { in_units_of_300 (codes "calc(0.01px + 0.01px + 0%)") ≡ Some (pos 1) }
    ensures greatest { in_units_of_300 (codes "calc(1e9px + 1px)") ≡ Some (pos 1073741824) }
    ensures negative_within { in_units_of_300 (codes "calc(-5px + 6px)") ≡ Some (pos 64) }
{}

/// Used calculations, in millionths of a pixel: percentages are those of 300 pixels.
#[tactic(auto, unfolding(css_model::specs::inner::Nesting::levels_of, css_model::specs::inner::Pieces::pieces_after, css_model::specs::inner::Fronts::parts_after))]
pub fn used()
    ensures units { used_of_300 (codes "calc(1px / 3)") ≡ Some (pos 328125) }
    ensures no_units { used_of_300 (codes "calc(1px / 3 + 0%)") ≡ Some (pos 333333) }
    ensures sum { used_of_300 (codes "calc(1px + 10%)") ≡ Some (pos 31000000) }
    ensures difference { used_of_300 (codes "calc(10% - 1px)") ≡ Some (pos 29000000) }
    ensures negative { used_of_300 (codes "calc(0% - 5px)") ≡ Some (neg_ℤ (pos 5000000)) }
    ensures product { used_of_300 (codes "calc(10% * 1.5)") ≡ Some (pos 45000000) }
    ensures quotient { used_of_300 (codes "calc(10% / 7)") ≡ Some (pos 4285714) }
    ensures smallest { used_of_300 (codes "min(50%, 200px, 40%)") ≡ Some (pos 120000000) }
    ensures largest { used_of_300 (codes "max(50%, 200px, 40%)") ≡ Some (pos 200000000) }
    ensures clamped { used_of_300 (codes "clamp(10px, 50%, 100px)") ≡ Some (pos 100000000) }
    ensures each_clamped { used_of_300 (codes "calc(1e9px + 100% - 1e9px)") ≡ Some (pos 0) }
    ensures percentage_truncated { used_of_300 (codes "calc(33.333333%)") ≡ Some (pos 99999999) }
    ensures relative { used_of_300 (codes "calc(1em + 1% * 2)") ≡ Some (pos 16000000) }
    ensures of_the_greatest_units { used_of_300 (codes "calc(1e9px * 1)") ≡ Some (pos 16777216000000) }
{}

/// The bases on which calculations depend: those of each length in them.
#[tactic(auto, unfolding(css_model::specs::inner::Nesting::levels_of, css_model::specs::inner::Pieces::pieces_after, css_model::specs::inner::Fronts::parts_after))]
pub fn mentioned()
    ensures none { bases_of (codes "calc(1px + 2px)") ≡ Some (unit_set false false false false false false) }
    ensures two { bases_of (codes "calc(1em + 1vw)") ≡ Some (unit_set true false true false false false) }
    ensures three { bases_of (codes "min(1rem, 1vh, 1cqw)") ≡ Some (unit_set false true false true true false) }
    ensures largest { bases_of (codes "max(1px, 1em, 1cqmax)") ≡ Some (unit_set true false false false true true) }
    ensures clamped { bases_of (codes "clamp(1em, 1rem, 1vw)") ≡ Some (unit_set true true true false false false) }
    ensures product { bases_of (codes "calc(2 * 1vmin)") ≡ Some (unit_set false false true true false false) }
    ensures quotient { bases_of (codes "calc(1cqh / 2 + 10%)") ≡ Some (unit_set false false false false false true) }
    ensures difference { bases_of (codes "calc(1px - 1vh)") ≡ Some (unit_set false false false true false false) }
    ensures scaled_by_zero { bases_of (codes "calc(0 * 1em)") ≡ Some (unit_set true false false false false false) }
    ensures same { bases_of (codes "calc(1em + 2em)") ≡ Some (unit_set true false false false false false) }
    ensures first { bases_of (codes "calc(1rem + 1px)") ≡ Some (unit_set false true false false false false) }
    ensures percentage { bases_of (codes "calc(10%)") ≡ Some (unit_set false false false false false false) }
{}

/// In a viewport of 800 by 600 pixels, with a font size of 16.
#[tactic(auto, unfolding(css_model::specs::inner::Nesting::levels_of, css_model::specs::inner::Pieces::pieces_after, css_model::specs::inner::Fronts::parts_after))]
pub fn on_a_page()
    ensures width { computed_on_a_page (codes "calc(1px + 2*8px )") ≡ Some (leaf (in_units (pos 1088))) }
    ensures height { computed_on_a_page (codes "max(1em, min(50px, 2vw))") ≡ Some (leaf (in_units (pos 1024))) }
    ensures margin { computed_on_a_page (codes "clamp(1px, 10px, 5px)") ≡ Some (leaf (in_units (pos 320))) }
{}

/// Lengths, literal or calculated: a calculation is no literal, and may be negative where a literal may
/// not.
#[tactic(auto, unfolding(css_model::specs::inner::Nesting::levels_of, css_model::specs::inner::Pieces::pieces_after, css_model::specs::inner::Fronts::parts_after))]
pub fn lengths()
    ensures literal { length_from_zero true (codes "5px") ≡ Some (leaf (in_units (pos 320))) }
    ensures percentage { length_from_zero true (codes "5%") ≡ Some (leaf (in_percent (pos 5000000))) }
    ensures percentage_not_allowed { length_from_zero false (codes "5%") ≡ None }
    ensures zero { length_from_zero false (codes "0") ≡ Some (leaf (in_units (pos 0))) }
    ensures negative_zero { length_from_zero false (codes "-0.0000001px") ≡ Some (leaf (in_units (pos 0))) }
    ensures negative_literal { length_from_zero true (codes "-5px") ≡ None }
    ensures negative_percentage { length_from_zero true (codes "-5%") ≡ None }
    ensures negative_calculation { length_from_zero true (codes "calc(-5px)")
        ≡ Some (leaf (in_units (neg_ℤ (pos 320)))) }
    ensures calculated_percentage { length_from_zero true (codes "calc(1% - 2%)")
        ≡ Some (sum (leaf (in_percent (pos 1000000))) (scaled (leaf (in_percent (pos 2000000))) (neg_ℤ (pos 1000000)))) }
    ensures calculated_percentage_not_allowed { length_from_zero false (codes "calc(1% - 2%)") ≡ None }
    ensures by_itself { length_by_itself true (codes " -5% ") ≡ Some (leaf (percentage (neg_ℤ (pos 5000000)))) }
    ensures calculation_by_itself { length_by_itself true (codes " calc(-5%) ")
        ≡ Some (leaf (percentage (neg_ℤ (pos 5000000)))) }
    ensures two { length_by_itself true (codes "calc(1px) calc(1px)") ≡ None }
    ensures nothing { length_by_itself true (codes "") ≡ None }
    ensures number { length_by_itself true (codes "calc(4 / 3)") ≡ None }
    ensures word { length_by_itself true (codes "auto") ≡ None }
{}
