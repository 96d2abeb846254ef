//! The seven values side by side. The edges are 10 together; the containing block is 100 wide where
//! nothing else is said.
ghost use Rattle.flow_model.specs.inner.Examples.{beside_margins, minus, most, row};
ghost use Rattle.flow_model.specs.Rows.{block_row, clamped_row, edges, half, inline_block_row, row_sum, row_within, shrink_to_fit};
ghost use Rattle.std.specs.Prelude.{◌≡◌, ◌+ℤ◌, None, Some, pos};

/// A width that is `auto` follows (CSS 2.1, section 10.3.3).
pub fn auto_widths()
    ensures follows { block_row (pos 100) (beside_margins (Some (pos 5)) (Some (pos 7))) None
        ≡ row (pos 5) (pos 78) (pos 7) }
    ensures auto_margins { block_row (pos 100) (beside_margins None None) None
        ≡ row (pos 0) (pos 90) (pos 0) }
    ensures auto_left { block_row (pos 100) (beside_margins None (Some (pos 7))) None
        ≡ row (pos 0) (pos 83) (pos 7) }
    ensures auto_right { block_row (pos 100) (beside_margins (Some (pos 5)) None) None
        ≡ row (pos 5) (pos 85) (pos 0) }
    ensures just_zero { block_row (pos 22) (beside_margins (Some (pos 5)) (Some (pos 7))) None
        ≡ row (pos 5) (pos 0) (pos 7) }
    ensures right_follows { block_row (pos 21) (beside_margins (Some (pos 5)) (Some (pos 7))) None
        ≡ row (pos 5) (pos 0) (pos 6) }
    ensures right_is_negative { block_row (pos 0) (beside_margins None None) None
        ≡ row (pos 0) (pos 0) (minus 10) }
    ensures negative_margins { block_row (pos 100) (beside_margins (Some (minus 20)) (Some (minus 30))) None
        ≡ row (minus 20) (pos 140) (minus 30) }
    ensures edges { edges (beside_margins None None) ≡ pos 10 }
{}

/// Margins beside a width that is not `auto`.
pub fn margins_beside_a_width()
    ensures centred { block_row (pos 100) (beside_margins None None) (Some (pos 50))
        ≡ row (pos 20) (pos 50) (pos 20) }
    ensures odd { block_row (pos 100) (beside_margins None None) (Some (pos 51))
        ≡ row (pos 19) (pos 51) (pos 20) }
    ensures left_follows { block_row (pos 100) (beside_margins None (Some (pos 7))) (Some (pos 50))
        ≡ row (pos 33) (pos 50) (pos 7) }
    ensures right_follows { block_row (pos 100) (beside_margins (Some (pos 5)) None) (Some (pos 50))
        ≡ row (pos 5) (pos 50) (pos 35) }
    ensures over_constrained { block_row (pos 100) (beside_margins (Some (pos 5)) (Some (pos 7))) (Some (pos 50))
        ≡ row (pos 5) (pos 50) (pos 35) }
    ensures negative { block_row (pos 100) (beside_margins (Some (minus 20)) None) (Some (pos 100))
        ≡ row (minus 20) (pos 100) (pos 10) }
{}

/// Where the parts are wider than the containing block, margins that are `auto` are 0.
pub fn too_wide()
    ensures both_fit { block_row (pos 100) (beside_margins None None) (Some (pos 90))
        ≡ row (pos 0) (pos 90) (pos 0) }
    ensures both { block_row (pos 100) (beside_margins None None) (Some (pos 91))
        ≡ row (pos 0) (pos 91) (minus 1) }
    ensures left_fits { block_row (pos 100) (beside_margins None (Some (pos 7))) (Some (pos 83))
        ≡ row (pos 0) (pos 83) (pos 7) }
    ensures left { block_row (pos 100) (beside_margins None (Some (pos 7))) (Some (pos 84))
        ≡ row (pos 0) (pos 84) (pos 6) }
    ensures right { block_row (pos 100) (beside_margins (Some (pos 7)) None) (Some (pos 84))
        ≡ row (pos 7) (pos 84) (minus 1) }
    ensures negative_fits { block_row (pos 100) (beside_margins None (Some (minus 5))) (Some (pos 95))
        ≡ row (pos 0) (pos 95) (minus 5) }
    ensures negative { block_row (pos 100) (beside_margins None (Some (minus 5))) (Some (pos 96))
        ≡ row (pos 0) (pos 96) (minus 6) }
    ensures none_is_auto { block_row (pos 100) (beside_margins (Some (pos 5)) (Some (pos 7))) (Some (pos 91))
        ≡ row (pos 5) (pos 91) (minus 6) }
{}

/// Half of a number is rounded down.
pub fn halves()
    ensures even { half (pos 4) ≡ pos 2 }
    ensures odd { half (pos 3) ≡ pos 1 }
    ensures zero { half (pos 0) ≡ pos 0 }
    ensures minus_one { half (minus 1) ≡ minus 1 }
    ensures negative_odd { half (minus 3) ≡ minus 2 }
    ensures negative_even { half (minus 4) ≡ minus 2 }
{}

/// An inline-block is as wide as what is in it, within what is left (section 10.3.9).
pub fn inline_blocks()
    ensures preferred { inline_block_row (pos 100) (pos 30, pos 60) (beside_margins (Some (pos 5)) None) None
        ≡ row (pos 5) (pos 60) (pos 0) }
    ensures available { inline_block_row (pos 60) (pos 30, pos 60) (beside_margins (Some (pos 5)) None) None
        ≡ row (pos 5) (pos 45) (pos 0) }
    ensures minimum { inline_block_row (pos 30) (pos 30, pos 60) (beside_margins None (Some (pos 5))) None
        ≡ row (pos 0) (pos 30) (pos 5) }
    ensures width { inline_block_row (pos 100) (pos 30, pos 60) (beside_margins None (Some (pos 7))) (Some (pos 50))
        ≡ row (pos 0) (pos 50) (pos 7) }
    ensures wide { inline_block_row (pos 100) (pos 30, pos 60) (beside_margins None (Some (pos 7))) (Some (pos 500))
        ≡ row (pos 0) (pos 500) (pos 7) }
    ensures preferred_is_less { shrink_to_fit (pos 45) (pos 30, pos 20) ≡ pos 20 }
    ensures negative_margin { inline_block_row (pos 30) (pos 10, pos 60) (beside_margins (Some (minus 20)) None) None
        ≡ row (minus 20) (pos 40) (pos 0) }
{}

/// The row for `max-width`, and then that for `min-width` (section 10.4).
pub fn limits()
    ensures none { row_within (block_row (pos 100) (beside_margins None None)) None None None
        ≡ row (pos 0) (pos 90) (pos 0) }
    ensures most { row_within (block_row (pos 100) (beside_margins None None)) None (Some (pos 50)) None
        ≡ row (pos 20) (pos 50) (pos 20) }
    ensures most_is_equal { row_within (block_row (pos 100) (beside_margins (Some (pos 5)) (Some (pos 7)))) (Some (pos 50)) (Some (pos 50)) None
        ≡ row (pos 5) (pos 50) (pos 35) }
    ensures most_is_more { row_within (block_row (pos 100) (beside_margins None None)) None (Some (pos 91)) None
        ≡ row (pos 0) (pos 90) (pos 0) }
    ensures least { row_within (block_row (pos 100) (beside_margins None None)) (Some (pos 50)) None (Some (pos 95))
        ≡ row (pos 0) (pos 95) (minus 5) }
    ensures least_is_less { row_within (block_row (pos 100) (beside_margins None None)) (Some (pos 50)) None (Some (pos 49))
        ≡ row (pos 20) (pos 50) (pos 20) }
    ensures least_wins { row_within (block_row (pos 100) (beside_margins None None)) None (Some (pos 50)) (Some (pos 60))
        ≡ row (pos 15) (pos 60) (pos 15) }
    ensures most_of_inline_block { row_within (inline_block_row (pos 100) (pos 30, pos 60) (beside_margins None None)) None (Some (pos 20)) None
        ≡ row (pos 0) (pos 20) (pos 0) }
    ensures least_of_inline_block { row_within (inline_block_row (pos 100) (pos 30, pos 60) (beside_margins None None)) None None (Some (pos 70))
        ≡ row (pos 0) (pos 70) (pos 0) }
{}

/// Each value is clamped by itself, after its equation.
pub fn clamped()
    ensures sum { row_sum (row (pos 5) (pos 78) (pos 7)) ≡ pos 100 }
    ensures width { clamped_row (block_row most (beside_margins (Some (minus 64)) (Some (pos 1))) None)
        ≡ row (minus 64) most (pos 1) }
    ensures right { clamped_row (block_row (pos 100) (beside_margins (Some most) None) (Some most))
        ≡ row most most (minus 1073741824) }
    ensures left { clamped_row (block_row most (beside_margins None (Some (minus 1073741824))) (Some (pos 0)))
        ≡ row most (pos 0) (minus 1073741824) }
    ensures not_above { row_within (λ w. clamped_row (block_row most (beside_margins (Some (minus 64)) (Some (pos 1))) w)) None (Some most) None
        ≡ row (minus 64) most (pos 1) }
{}
