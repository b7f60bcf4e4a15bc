ghost use Rattle.std.specs.Prelude.{◌≡◌, ◌^◌, ◌<◌, ◌≤◌, decimal, IfOk, IfSome};
ghost use Rattle.std.specs.Fmt.{signed_decimal};
ghost use Rattle.money.specs.Number.{numeral_of, qty_of, count_of, signed_of};

use itoa::{Buffer, Integer};
use std::alloc::Global;
use tqd_base::Memory;

/// The number that 1 to `most` decimal digits write, or `None` where the text is not that.
pub(crate) fn read_digits(text: &[u8], most: usize) -> Option<u128>
    requires { most ≤ 23 }
    ensures value { result ≡ numeral_of most text.now }
    ensures bound { IfSome result (λ n. n < 10 ^ most) }
{
    if text.is_empty() || text.len() > most {
        return None;
    }
    let mut value = 0u128;
    for byte in text {
        if !byte.is_ascii_digit() {
            return None;
        }
        value = value * 10 + u128::from(*byte - b'0');
    }
    Some(value)
}

/// The quantity that a text of 1 to 18 decimal digits writes, leading zeros accepted.
///
/// `None` where the text is not that, or the value is not in `min..=max`.
pub fn read_qty(text: &[u8], min: u64, max: u64) -> Option<u64>
    ensures { result ≡ qty_of min max text.now }
{
    let value = read_digits(text, 18)? as u64;
    if min <= value && value <= max {
        Some(value)
    } else {
        None
    }
}

/// The whole number that a text of 1 to 23 decimal digits writes in its shortest spelling.
///
/// `None` where the text is not that: where a `0` stands before another digit, say.
pub fn read_count(text: &[u8]) -> Option<u128>
    ensures value { result ≡ count_of text.now }
    ensures bound { IfSome result (λ n. n < 10 ^ 23) }
{
    if text.len() > 1 && text[0] == b'0' {
        return None;
    }
    read_digits(text, 23)
}

/// The signed whole number that a text writes in its shortest spelling: a text of [`read_count`],
/// or `-` before one whose value is not 0.
pub fn read_signed(text: &[u8]) -> Option<i128>
    ensures { result ≡ signed_of text.now }
{
    match text.split_first() {
        None => None,
        Some((b'-', digits)) => {
            let value = read_count(digits)?;
            if value == 0 {
                None
            } else {
                Some(-(value as i128))
            }
        }
        Some(_) => Some(read_count(text)? as i128),
    }
}

/// The text of a number, as `itoa` prints it.
fn text_of<I: Integer>(alloc: Global, n: I) -> Result<Vec<u8>, Memory>
    ensures { IfOk result (λ text. text.items ≡ I.text n) }
{
    let mut buffer = Buffer::new();
    Ok(Vec::from_slice(alloc, buffer.format(n).as_bytes())?)
}

/// The shortest spelling of a whole number, of any number of digits.
pub fn write_count(alloc: Global, n: u128) -> Result<Vec<u8>, Memory>
    ensures { IfOk result (λ text. text.items ≡ decimal n) }
{
    text_of(alloc, n)
}

/// The shortest spelling of a signed whole number, with `-` before a negative one.
pub fn write_signed(alloc: Global, n: i128) -> Result<Vec<u8>, Memory>
    ensures { IfOk result (λ text. text.items ≡ signed_decimal n) }
{
    text_of(alloc, n)
}
