//! How the steps of a climb are measured. What is computed here is advice: where numbers are too great, it wraps.

ghost use Rattle.std.specs.Prelude.{ℕ, ◌≡◌, ◌<◌, ◌≤◌, ◌≤ℤ◌, pos, neg_ℤ, IsTrue, ◌↔◌, IsSomeAnd};
ghost use Rattle.tqd_base.specs.declared.limits.TheConstants.{INTERVALS_MAX};
ghost use Rattle.tqd_instance.specs.Job.{suppliers, segments};
ghost use Rattle.lagrangian.specs.Priced.{IsGoodPrice};
ghost use Rattle.lagrangian.specs.Climbing.{Reaches};

use tqd_instance::Job;

/// The greatest absolute value of a price of a good at which a climb is priced, in millionths of the currency.
pub const GOOD_PRICE_MAX: i64 = 2_000_000_000_000_000;

/// The most bits that a price has more inside a climb.
const FINE_MAX: u32 = 10;

/// The most bits by which a step is less than a millionth.
const COARSE_MAX: u32 = 60;

/// The greatest step.
const STEP_MAX: u64 = 17_592_186_044_416;

/// What a step is worth: `step * 2^-coarse` millionths of the currency for each unit that a good lacks, where prices
/// have `fine` bits more than millionths.
#[derive(Clone, Copy, Debug)]
pub(crate) struct Pace {
    pub step: u64,
    pub fine: u32,
    pub coarse: u32,
}

impl Pace {
    /// A number of units, weighed, times the step, in prices of the climb.
    fn weighed(self, units: i64) -> i128 {
        let bits = 30u32.wrapping_add(self.coarse).wrapping_sub(self.fine);
        i128::from(units)
            .wrapping_mul(i128::from(self.step))
            .wrapping_shr(bits)
    }

    /// A number of units times the step, in prices of the climb.
    fn whole(self, units: u64) -> i128 {
        let product = i128::from(units).wrapping_mul(i128::from(self.step));
        if self.fine <= self.coarse {
            product.wrapping_shr(self.coarse - self.fine)
        } else {
            product.wrapping_shl(self.fine - self.coarse)
        }
    }

    /// A price of the climb one step from its centre, where a good lacks so many weighed units; a price below 0 takes
    /// up the `room` units that may be bought beyond the need.
    pub(crate) fn price(self, centre: i64, lack: i64, room: u64) -> i64 {
        let mut price = i128::from(centre).wrapping_add(self.weighed(lack));
        if price < 0 {
            price = price.wrapping_add(self.whole(room)).min(0);
        }
        price.clamp(i128::from(i64::MIN), i128::from(i64::MAX)) as i64
    }

    /// A price in millionths as a price of the climb.
    pub(crate) fn fine(self, price: i64) -> i64 {
        price.wrapping_shl(self.fine)
    }

    /// An amount in millionths as one of the climb.
    pub(crate) fn fine_amount(self, amount: i128) -> i128 {
        amount.wrapping_shl(self.fine)
    }

    /// A price of the climb, rounded to millionths and held within the limit.
    pub(crate) fn rounded(self, price: i64) -> i64
        ensures { IsGoodPrice result }
    {
        let half = 1i128.wrapping_shl(self.fine) / 2;
        let price = i128::from(price).wrapping_add(half).wrapping_shr(self.fine);
        let most = i128::from(GOOD_PRICE_MAX);
        price.clamp(-most, most) as i64
    }

    /// How much weight is best moved between two columns whose reduced costs differ by `gain`, and whose units by
    /// `distance`, the sum of the squares: at most `most`.
    pub(crate) fn amount(self, gain: i128, distance: u64, most: u64) -> u64
        ensures { result ≤ most }
    {
        let bits = 30u32.wrapping_add(self.coarse).wrapping_sub(self.fine);
        let divisor = u128::from(self.step).wrapping_mul(u128::from(distance));
        let room = u128::MAX.wrapping_shr(bits);
        let gain = gain.unsigned_abs();
        if divisor == 0 || gain > room {
            return most;
        }
        (gain.wrapping_shl(bits) / divisor).min(u128::from(most)) as u64
    }
}

/// The step after a round: longer where it rose.
pub(crate) fn next_step(step: u64, rose: bool) -> u64 {
    if rose {
        (step.wrapping_mul(3) / 2).saturating_add(1).min(STEP_MAX)
    } else {
        (step.wrapping_mul(7) / 10).max(1)
    }
}

/// The bits by which a step is less than a millionth: the least number with `gap * 2^bits >= distance * 2^24`.
pub(crate) fn coarse_bits(distance: u128, gap: i128) -> u32 {
    let goal = distance.wrapping_mul(16_777_216);
    let mut reach = gap.unsigned_abs();
    for bits in 0..COARSE_MAX {
        if reach >= goal {
            return bits;
        }
        reach = reach.wrapping_mul(2);
    }
    COARSE_MAX
}

/// The bits that prices have more inside a climb: as many as leave the costs of a job below 2^61.
pub(crate) fn fine_bits(job: &Job) -> u32 {
    let cost = most_units(job).wrapping_mul(u128::from(greatest_price(job)));
    let mut fine = 0;
    for bits in 1..FINE_MAX + 1 {
        if cost.wrapping_shl(bits) < 2_305_843_009_213_693_952 {
            fine = bits;
        }
    }
    fine
}

/// How many units of all goods may be bought at most.
fn most_units(job: &Job) -> u128 {
    let mut units: u128 = 0;
    for k in 0..job.goods() {
        units = units.wrapping_add(u128::from(job.most(k)));
    }
    units
}

/// The greatest price of a job.
fn greatest_price(job: &Job) -> u64 {
    let mut greatest = 0;
    for i in 0..job.suppliers() {
        greatest = dearest_of(job, i).max(greatest);
    }
    greatest
}

/// The greatest price of a supplier.
fn dearest_of(job: &Job, i: usize) -> u64
    requires { i < suppliers job.now }
{
    let mut greatest = 0;
    for j in 1..job.segments(i) + 1 {
        greatest = dearest(job.prices(i, j)).max(greatest);
    }
    greatest
}

/// The greatest of some prices.
fn dearest(prices: &[u64]) -> u64 {
    let mut greatest = 0;
    for price in prices {
        greatest = greatest.max(*price);
    }
    greatest
}

/// How far a value is from the target, or a share of the value where there is none.
pub(crate) fn gap(value: i128, target: Option<u128>, share: i128) -> i128
    requires { pos 1 ≤ℤ share }
{
    match target {
        Some(target) => i128::try_from(target)
            .unwrap_or(i128::MAX)
            .saturating_sub(value),
        None => value / share,
    }
}

/// Whether a value is at least the target.
pub(crate) fn reaches(value: i128, target: Option<u128>) -> bool
    ensures { IsTrue result ↔ Reaches target value }
{
    match target {
        Some(target) => 0 <= value && target <= value as u128,
        None => false,
    }
}
