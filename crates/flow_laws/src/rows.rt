//! Laws of the seven values side by side (CSS 2.1, section 10.3.3).
ghost use Rattle.flow_laws.specs.Fits.{Fits};
ghost use Rattle.flow_model.specs.declared.containing.Containing.{Containing};
ghost use Rattle.flow_model.specs.declared.row.Beside.{Beside};
ghost use Rattle.flow_model.specs.declared.row.Row.{Row};
ghost use Rattle.flow_model.specs.Rows.{IsBlockRow, block_row, half, row_sum};
ghost use Rattle.flow_model.specs.UsedLengths.{Values};
ghost use Rattle.flow_model.specs.Widths.{beside, row_of};
ghost use Rattle.std.specs.Prelude.{◌≡◌, ◌≤ℤ◌, ◌+ℤ◌, false, ℤ, Option, pos};

/// The values that are found for a block fill its containing block, and follow the rules.
pub fn are_solutions()
    ensures { (around : ℤ) (b : Beside) (width : Option ℤ) → IsBlockRow around b width (block_row around b width) }
{}

/// No others do.
pub fn are_unique()
    ensures { (around : ℤ) (b : Beside) (width : Option ℤ) (row : Row)
        → IsBlockRow around b width row → row ≡ block_row around b width }
{}

/// The used values of a block are those for some width; where none of them is clamped they are
/// together as wide as the containing block.
pub fn fill_the_containing_block()
    ensures { (c : Containing) (pair : ℤ × ℤ) (values : Values) → c.inline_block ≡ false
        → (width : Option ℤ) × (Fits (block_row c.w (beside c.w values) width)
        → row_sum (row_of c pair values) ≡ c.w) }
{}
