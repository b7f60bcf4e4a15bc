ghost use Rattle.std.specs.Prelude.{◌≡◌, ◌≤◌, true, false, length, MatchOption};
ghost use Rattle.std.specs.Option.{option_map};
ghost use Rattle.bound_tree.specs.ReadLine.{header_by, read_row, read_as};
ghost use Rattle.bound_tree.specs.LineHead.{without_prices, head_of, prices_of, is_beyond, IsRowOf, ReadsPrices};

use crate::fields::Fields;
use crate::line::LineHead;
use crate::word::{ROWS, SLOTS, Word};
use money::read_count;
use tqd_base::limits::{DUAL_MAX, LINE_MAX};

/// What one line of a tree says, but for its prices; the line is given without its line feed.
///
/// `None` where it is no line of a tree: where its words, the single spaces between them or the spelling of a number
/// are not right, or where it has more than 65,536 bytes. Numbers are not tested for their ranges.
pub fn line_head(line: &[u8]) -> Option<LineHead>
    ensures { result ≡ head_of line.now }
{
    if line.len() > LINE_MAX {
        return None;
    }
    let (word, fields) = Fields::of(line);
    head_by(Word::of(word)?, fields)
}

// What a word and the fields after it say, but for prices.
#[tactic(auto, unfolding(crate::specs::ReadLine::read_counts, crate::specs::ReadLine::read_as))]
fn head_by(word: Word, fields: Fields<'_>) -> Option<LineHead>
    requires { length fields ≤ 65537 }
    ensures { result ≡ option_map without_prices (read_as word fields.entry) }
{
    match word {
        Word::Header => {
            let [version] = fields.counts::<1>()?;
            header_of(version)
        }
        Word::NoPlan => {
            let [] = fields.counts::<0>()?;
            Some(LineHead::NoPlan)
        }
        Word::Plan => {
            let [cost, count] = fields.counts::<2>()?;
            Some(LineHead::Plan { cost, count })
        }
        Word::Buy => {
            let [supplier, good, units] = fields.counts::<3>()?;
            Some(LineHead::Buy {
                supplier,
                good,
                units,
            })
        }
        Word::Split => {
            let [supplier, at] = fields.counts::<2>()?;
            Some(LineHead::Split { supplier, at })
        }
        Word::Row => row_head(fields),
        Word::Bound => Some(LineHead::Bound {
            count: fields.price_count()?,
        }),
        Word::Empty => Some(LineHead::Empty {
            count: fields.price_count()?,
        }),
        Word::Winners => {
            let [] = fields.counts::<0>()?;
            Some(LineHead::Winners)
        }
    }
}

// The first line of a tree in the format of this version.
fn header_of(version: u128) -> Option<LineHead>
    ensures { result ≡ option_map without_prices (header_by version) }
{
    match version {
        ROWS => Some(LineHead::Header),
        SLOTS => Some(LineHead::Header2),
        _ => None,
    }
}

// The slot of a row, and how many prices come after it.
fn row_head(fields: Fields<'_>) -> Option<LineHead>
    requires { length fields ≤ 65537 }
    ensures { result ≡ option_map without_prices (read_row fields.entry) }
{
    let mut prices = fields;
    let slot = read_count(prices.next()?)?;
    let count = prices.price_count()?;
    Some(LineHead::Row { slot, count })
}

/// Reads the prices of a row, in millionths of the currency, into as many places.
///
/// `Some` with the first price beyond `DUAL_MAX` in absolute value, if there is one; then the places hold anything.
pub fn prices_into(line: &[u8], out: &mut [i64]) -> Option<i128>
    requires { IsRowOf (length out.old) (head_of line.now) }
    ensures { ReadsPrices (prices_of line.now) out.new result }
{
    let mut fields = Fields::of_prices(line);
    for place in out.iter_mut() {
        let price = fields.next_price();
        match within_limit(price) {
            Some(price) => *place = price,
            None => return Some(price),
        }
    }
    None
}

fn within_limit(price: i128) -> Option<i64>
    ensures { MatchOption result (is_beyond price ≡ true) (λ within. (within ≡ price) × (is_beyond price ≡ false)) }
{
    if i128::from(-DUAL_MAX) <= price && price <= i128::from(DUAL_MAX) {
        Some(price as i64)
    } else {
        None
    }
}
