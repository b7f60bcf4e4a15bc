ghost use Rattle.std.specs.Prelude.{◌≡◌, ◌<◌, ◌≤◌, length, position, IfOk, IfSome};
ghost use Rattle.money.specs.Price.{is_point, fraction_of, price_of, six_digits, cost_text};

use crate::number::read_digits;
use itoa::Buffer;
use std::alloc::Global;
use std::marker::Model;
use tqd_base::Memory;
use tqd_base::limits::PRICE_MAX;

/// A price of one unit, or a fee: at most `PRICE_MAX` millionths of the currency.
#[derive(Clone, Copy, Debug, PartialEq, Eq, PartialOrd, Ord, Hash)]
pub struct Price {
    units: u64,
}

impl Model for Price {
    ghost use Rattle.std.specs.Prelude.{ℕ, ◌≤◌};
    ghost use Rattle.tqd_base.specs.declared.limits.TheConstants.{PRICE_MAX};

    ghost Value = { ℕ };

    ghost view = { λ p. p.units };

    ghost invariant = { λ p. p.units ≤ PRICE_MAX };

    ghost inverse = { λ n. record { units = n } };
}

impl Price {
    /// The price that a text writes: 1 to 7 decimal digits, then optionally a point and 1 to 6
    /// digits, with a value of at most `PRICE_MAX` millionths. `None` where the text is not that.
    pub fn read(text: &[u8]) -> Option<Price>
        ensures { result ≡ price_of text.now }
    {
        let units = match point_of(text) {
            None => read_digits(text, 7)? as u64 * 1_000_000,
            Some(point) => {
                let whole = read_digits(&text[..point], 7)? as u64;
                whole * 1_000_000 + read_fraction(&text[point + 1..])?
            }
        };
        if units <= PRICE_MAX {
            Some(Price { units })
        } else {
            None
        }
    }

    /// The price in millionths of the currency.
    pub fn units(&self) -> u64
        ensures value { result ≡ self.now }
        ensures bound { result ≤ PRICE_MAX }
    {
        self.units
    }
}

/// Where the first point of a text stands, if it has one.
fn point_of(text: &[u8]) -> Option<usize>
    ensures value { result ≡ position is_point text.now }
    ensures bound { IfSome result (λ point. point < length text.now) }
{
    text.iter().position(|byte| *byte == b'.')
}

/// The millionths that 1 to 6 decimal digits behind a point write.
fn read_fraction(digits: &[u8]) -> Option<u64>
    ensures value { result ≡ fraction_of digits.now }
    ensures bound { IfSome result (λ part. part < 1000000) }
{
    let value = read_digits(digits, 6)? as u64;
    Some(value * 10u64.pow(6 - digits.len() as u32))
}

/// The six decimals of a number of millionths below a million.
fn decimals_of(millionths: u32) -> [u8; 6]
    requires { millionths < 1000000 }
    ensures { result ≡ six_digits millionths }
{
    [
        b'0' + (millionths / 100_000 % 10) as u8,
        b'0' + (millionths / 10_000 % 10) as u8,
        b'0' + (millionths / 1_000 % 10) as u8,
        b'0' + (millionths / 100 % 10) as u8,
        b'0' + (millionths / 10 % 10) as u8,
        b'0' + (millionths % 10) as u8,
    ]
}

/// A cost in millionths of the currency as a decimal text: the whole part in its shortest spelling,
/// a point and six decimals.
pub fn write_cost(alloc: Global, cost: u128) -> Result<Vec<u8>, Memory>
    ensures { IfOk result (λ text. text.items ≡ cost_text cost) }
{
    let mut buffer = Buffer::new();
    let mut text = Vec::from_slice(alloc, buffer.format(cost / 1_000_000).as_bytes())?;
    text.push(b'.')?;
    text.extend_from_slice(&decimals_of((cost % 1_000_000) as u32))?;
    Ok(text)
}
