//! The prices of the goods that a climb tries next. What is computed here is advice: where numbers are too great, it
//! wraps.

ghost use Rattle.std.specs.Prelude.{◌≡◌, ◌<◌, ◌≤◌, length, IfOk};
ghost use Rattle.std.specs.List.{All};
ghost use Rattle.lagrangian.specs.Priced.{IsGoodPrice};

use crate::scale::Pace;
use crate::weights::WHOLE;
use std::alloc::Global;
use tqd_base::Memory;
use tqd_instance::Job;

/// A good in a climb: the units that have to be bought of it, and how many more may be; its price at the centre of the
/// climb and the price that is tried, in prices of the climb; and the units that the mixture lacks of the need,
/// weighed.
#[derive(Clone, Copy, Debug)]
struct Quote {
    need: u64,
    room: u64,
    centre: i64,
    price: i64,
    lack: i64,
}

/// The goods of a job in a climb.
#[derive(Debug, Drop)]
pub(crate) struct Trial {
    quotes: Vec<Quote>,
    pace: Pace,
}

impl Trial {
    pub(crate) fn new(alloc: Global, job: &Job) -> Result<Trial, Memory> {
        let mut quotes = Vec::with_capacity(alloc, job.goods())?;
        for k in 0..job.goods() {
            let need = job.need(k);
            quotes.push(Quote {
                need,
                room: job.most(k) - need,
                centre: 0,
                price: 0,
                lack: 0,
            })?;
        }
        let pace = Pace {
            step: 1,
            fine: 0,
            coarse: 0,
        };
        Ok(Trial { quotes, pace })
    }

    /// Begins a round at a centre, with nothing bought.
    pub(crate) fn begin(&mut self, centre: &[i64], pace: Pace) {
        self.pace = pace;
        for (quote, price) in self.quotes.iter_mut().zip(centre.iter()) {
            quote.centre = pace.fine(*price);
            quote.lack = quote.need.wrapping_mul(WHOLE).cast_signed();
        }
    }

    /// Buys units of each good, weighed.
    pub(crate) fn buy(&mut self, weight: u64, units: &[u64]) {
        for (quote, number) in self.quotes.iter_mut().zip(units.iter()) {
            let bought = weight.wrapping_mul(*number).cast_signed();
            quote.lack = quote.lack.wrapping_sub(bought);
        }
    }

    /// Prices each good by what is lacking of it.
    pub(crate) fn settle(&mut self) {
        let pace = self.pace;
        for quote in self.quotes.iter_mut() {
            quote.price = pace.price(quote.centre, quote.lack, quote.room);
        }
    }

    /// Moves weight from a purchase to another, and prices the goods of which they have not the same units.
    pub(crate) fn shift(&mut self, amount: u64, from: &[u64], to: &[u64]) {
        let pace = self.pace;
        for (quote, (x, y)) in self.quotes.iter_mut().zip(from.iter().zip(to.iter())) {
            if *x != *y {
                let more = amount.wrapping_mul(y.wrapping_sub(*x)).cast_signed();
                quote.lack = quote.lack.wrapping_sub(more);
                quote.price = pace.price(quote.centre, quote.lack, quote.room);
            }
        }
    }

    /// A cost in millionths less the prices of the units.
    pub(crate) fn reduced(&self, cost: i128, units: &[u64]) -> i128 {
        let mut rest = self.pace.fine_amount(cost);
        for (quote, number) in self.quotes.iter().zip(units.iter()) {
            let paid = i128::from(quote.price).wrapping_mul(i128::from(*number));
            rest = rest.wrapping_sub(paid);
        }
        rest
    }

    /// How much weight is best moved, and at most `most`.
    pub(crate) fn amount(&self, gain: i128, from: &[u64], to: &[u64], most: u64) -> u64
        ensures { result ≤ most }
    {
        self.pace.amount(gain, distance(from, to), most)
    }

    /// Writes the prices that are tried, rounded to millionths.
    pub(crate) fn prices_into(&self, out: &mut Vec<i64>)
        requires { All IsGoodPrice out.old.items }
        ensures count { length out.new.items ≡ length out.old.items }
        ensures in_range { All IsGoodPrice out.new.items }
    {
        for k in 0..out.len().min(self.quotes.len()) {
            out[k] = self.pace.rounded(self.quotes[k].price);
        }
    }
}

/// The sum of the squares of what units of each good differ by.
fn distance(from: &[u64], to: &[u64]) -> u64 {
    let mut sum: u64 = 0;
    for (x, y) in from.iter().zip(to.iter()) {
        let apart = x.abs_diff(*y);
        sum = sum.wrapping_add(apart.wrapping_mul(apart));
    }
    sum
}
