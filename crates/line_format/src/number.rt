// Parsing of decimal numbers without leading zeros.
ghost use Rattle.std.specs.Prelude.{◌≡◌, true, ◌&&◌, nat_le};
ghost use Rattle.std.specs.Bool.{then_some};
ghost use Rattle.std.specs.Str.Parse.{digits_value};
ghost use Rattle.std.specs.Str.{all_ascii_digits};
ghost use Rattle.line_format.specs.Lines.{starts, number as number_of};

use std::str::from_utf8;

// Whether the first bytes may be those of a number: no leading zero, and no sign.
fn starts(text: &[u8]) -> bool
    ensures { result ≡ starts text.now }
{
    matches!(text, [b'0'] | [b'1'..=b'9', ..])
}

// The number that digits write, if it has 16 bits.
fn digits(text: &[u8]) -> Option<u16>
    requires { starts text.now ≡ true }
    ensures { result
        ≡ then_some (all_ascii_digits text.now && nat_le (digits_value 10 text.now) 65535)
        (digits_value 10 text.now) }
{
    from_utf8(text).ok()?.parse().ok()
}

// The number that a text writes, if it has 16 bits.
pub(crate) fn number(text: &[u8]) -> Option<u16>
    ensures { result ≡ number_of 65535 text.now }
{
    if starts(text) { digits(text) } else { None }
}

// The number that a text writes, if it has 8 bits.
pub(crate) fn small_number(text: &[u8]) -> Option<u8>
    ensures { result ≡ number_of 255 text.now }
{
    u8::try_from(number(text)?).ok()
}
