//! Sums, products and quotients of numbers in millionths (CSS Values 4, section 10).
ghost use Rattle.std.specs.Prelude.{◌≡◌, ◌+ℤ◌, neg_ℤ};
ghost use Rattle.value_model.specs.Calculations as model;

use units64::{Fixed6, MILLIONTHS_PER_PIXEL, mul_ratio};

/// The sum, clamped.
pub(crate) fn number_sum(a: Fixed6, b: Fixed6) -> Fixed6
    ensures { result ≡ model.number_sum a b }
{
    Fixed6::new(exact_sum(a.get(), b.get()))
}

/// The exact sum.
fn exact_sum(a: i64, b: i64) -> i128
    ensures { result ≡ a +ℤ b }
{
    a as i128 + b as i128
}

/// The product, truncated towards zero and clamped.
pub(crate) fn number_product(a: Fixed6, b: Fixed6) -> Fixed6
    ensures { result ≡ model.number_product a b }
{
    mul_ratio(a, b.get(), MILLIONTHS_PER_PIXEL)
}

/// The quotient, truncated towards zero and clamped. It is 0 where the divisor is.
#[tactic(auto, using(crate::proofs::Quotients::quotient_negated))]
pub(crate) fn number_quotient(a: Fixed6, divisor: Fixed6) -> Fixed6
    ensures { result ≡ model.number_quotient a divisor }
{
    let d = divisor.get();
    if d > 0 {
        mul_ratio(a, MILLIONTHS_PER_PIXEL, d)
    } else if d < 0 {
        mul_ratio(a, -MILLIONTHS_PER_PIXEL, -d)
    } else {
        Fixed6::new(0)
    }
}

/// The negated number.
pub(crate) fn negated(n: Fixed6) -> Fixed6
    ensures { result ≡ neg_ℤ n }
{
    Fixed6::new(-(n.get() as i128))
}
