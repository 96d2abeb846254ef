//! What decimal digits write, up to a limit.
ghost use Rattle.std.specs.Prelude.{◌≡◌, ◌≤◌, ◌<◌, ◌^◌, ◌*◌, ◌-◌, min};
ghost use Rattle.css_model.specs.Numerals.{decimal_after};

/// The number that `digits` write after others that write `value`, at most `limit`.
pub fn decimal_within(limit: u128, value: u128, digits: &[u8]) -> u128
    requires room { limit ≤ 2 ^ 66 }
    requires below { value ≤ limit }
    ensures { result ≡ min limit (decimal_after value digits.now) }
{
    let mut value = value;
    for b in digits {
        value = (value * 10 + digit_value(*b)).min(limit);
    }
    value
}

fn digit_value(b: u8) -> u128
    ensures value { result ≡ b - 48 }
    ensures small { result < 2 ^ 32 }
{
    b.saturating_sub(48) as u128
}

/// `value` followed by this many zeros, at most `limit`, which has up to 16 digits.
pub fn with_zeros(limit: u128, value: u128, zeros: u128) -> u128
    requires room { limit ≤ 10 ^ 15 }
    requires below { value ≤ limit }
    ensures { result ≡ min limit (value * 10 ^ zeros) }
{
    let mut value = value;
    for _n in 0..zeros.min(15) {
        value = (value * 10).min(limit);
    }
    value
}
