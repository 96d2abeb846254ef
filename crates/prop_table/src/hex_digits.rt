//! Hex digits of colours (CSS Color 4, section 5.2).
ghost use Rattle.css_model.specs.Classes.{is_hex_digit};
ghost use Rattle.css_model.specs.Parts as model;
ghost use Rattle.prop_table.specs.inner.HexDigits.{component};
ghost use Rattle.std.specs.Prelude.{◌≡◌, ◌<◌, if◌then◌else◌, Some, None, IfSome};

/// The number that two hex digits write, if they are ones.
pub(crate) fn of_two(high: u8, low: u8) -> Option<u8>
    ensures { result ≡ component high low }
{
    let sixteens = digit_value(high)?;
    let ones = digit_value(low)?;
    Some(16 * sixteens + ones)
}

/// The number that a hex digit writes, if it is one.
fn digit_value(digit: u8) -> Option<u8>
    ensures value { result
        ≡ (if is_hex_digit digit then Some (model.hex_digit_value digit) else None) }
    ensures small { IfSome result (λ n. n < 16) }
{
    match digit {
        b'0'..=b'9' => Some(digit - b'0'),
        b'A'..=b'F' => Some(digit - b'A' + 10),
        b'a'..=b'f' => Some(digit - b'a' + 10),
        _ => None,
    }
}
