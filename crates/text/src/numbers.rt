// Numbers as text.
ghost use Rattle.std.specs.Prelude.{◌≡◌, ◌≤◌, ◌<◌, SomeIff};
ghost use Rattle.std.specs.Float.Ieee.{of_bits};
ghost use Rattle.std.specs.Float.{binary64};
ghost use Rattle.text.specs.Numbers.{digit_of, digits_from, is_long, number_of, bits_of};

// What a digit counts, in either case.
fn digit(b: u8) -> Option<u64>
    ensures { SomeIff result (digit_of b < 16) (digit_of b) }
{
    let d = char::from(b).to_digit(16)?;
    Some(u64::from(d))
}

// The number of these digits, where each is one of the base and the number fits.
fn digits_value(text: &[u8], base: u64) -> Option<u64>
    requires base_nonzero { 0 < base }
    requires base_bound { base ≤ 16 }
    ensures { result ≡ digits_from base 0 text.now }
{
    let mut total = 0u64;
    for b in text {
        let d = digit(*b)?;
        if d >= base {
            return None;
        }
        total = total.checked_mul(base)?.checked_add(d)?;
    }
    Some(total)
}

// How many digits a number has: sixteen in hexadecimal, and else one at least.
fn is_long(length: usize, base: u64) -> bool
    ensures { result ≡ is_long base length }
{
    if base == 16 { length == 16 } else { length > 0 }
}

// The number that a text is in a base.
pub(crate) fn number_in(text: &[u8], base: u64) -> Option<u64>
    requires base_nonzero { 0 < base }
    requires base_bound { base ≤ 16 }
    ensures { result ≡ number_of base text.now }
{
    if is_long(text.len(), base) {
        return digits_value(text, base);
    }
    None
}

// The float of a bit pattern.
pub(crate) fn float_of(bits: u64) -> f64
    ensures { result ≡ of_bits binary64 bits }
{
    if bits % 0x8000_0000_0000_0000 > 0x7ff0_0000_0000_0000 {
        0.0 / 0.0
    } else {
        f64::from_bits(bits)
    }
}

// The bit pattern of a float; one for all NaN.
pub fn bits_of(x: f64) -> u64
    ensures { result ≡ bits_of x }
{
    if x != x {
        return 0x7ff8_0000_0000_0000;
    }
    f64::to_bits(x)
}
