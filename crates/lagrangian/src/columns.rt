ghost use Rattle.std.specs.Prelude.{ℕ, ◌≡◌, ◌<◌, ◌≤◌, ◌*◌, length, sum, slice_index, IfOk, IfSome};
ghost use Rattle.tqd_base.specs.declared.limits.TheConstants.{QTY_MAX};
ghost use Rattle.tqd_instance.specs.Job.{suppliers, goods};
ghost use Rattle.bound_tree.specs.Value.{cap};
ghost use Rattle.lagrangian.specs.Weights.{AreWeights};
ghost use Rattle.lagrangian.specs.Columns.{
  Mixture,
  weight_at,
  weight_in,
  units_at,
  units_in,
  AreColumns,
  HasPlaces,
  AreWithin,
  AreSegmentsIn,
  IsSegmentIn,
  AreCapsOf,
  Keeps,
};

use crate::column::Column;
use crate::means::{mean, weighed};
use crate::trial::Trial;
use crate::weights::{COLUMNS_MAX, WHOLE, Weights};
use std::alloc::Global;
use std::marker::Model;
use tqd_base::Memory;
use tqd_base::limits::QTY_MAX;
use tqd_instance::{Job, Numbers};

/// The columns of a supplier, each with its weight in the mixture of them. Their memory is taken when they are made.
#[derive(Debug, Drop)]
pub(crate) struct Columns {
    caps: Numbers,
    weights: Weights,
    list: Vec<Column>,
}

impl Model for Columns {
    ghost use Rattle.lagrangian.specs.Columns.{Mixture, AreColumns};

    ghost Value = { Mixture };

    ghost view = { λ c. record { caps = c.caps; weights = c.weights; columns = c.list.items } };

    ghost invariant = { λ c. AreColumns c.caps c.list.items };
}

/// The most units of each good that a purchase takes from a supplier.
#[tactic(auto, unfolding(bound_tree::specs::Value::cap))]
fn caps_of(alloc: Global, job: &Job, i: usize) -> Result<Vec<u64>, Memory>
    requires { i < suppliers job.now }
    ensures of_job { IfOk result (λ caps. AreCapsOf job.now i caps.items) }
    ensures small { IfOk result (λ caps. (k : ℕ) → slice_index caps.items k ≤ QTY_MAX) }
{
    let mut caps = Vec::with_capacity(alloc, job.goods())?;
    for k in 0..job.goods() {
        caps.push(job.stock(i, k).min(job.most(k)))?;
    }
    Ok(caps)
}

/// Free places for all columns of a supplier, of so many goods.
fn places(alloc: Global, caps: &Numbers) -> Result<Vec<Column>, Memory>
    requires { (k : ℕ) → slice_index caps.now k ≤ QTY_MAX }
    ensures { IfOk result (λ list. AreColumns caps.now list.items) }
{
    let mut list = Vec::with_capacity(alloc, COLUMNS_MAX)?;
    for _ in 0..COLUMNS_MAX {
        list.push(Column {
            segment: 0,
            cost: 0,
            age: 0,
            live: false,
            units: Numbers::zeros(alloc, caps.len())?,
        })?;
    }
    Ok(list)
}

impl Columns {
    /// No column of a supplier yet.
    pub(crate) fn new(alloc: Global, job: &Job, i: usize) -> Result<Columns, Memory>
        requires { i < suppliers job.now }
        ensures { IfOk result (λ columns. AreCapsOf job.now i columns.caps) }
    {
        let caps = Numbers::of(caps_of(alloc, job, i)?);
        let list = places(alloc, &caps)?;
        Ok(Columns {
            caps,
            weights: Weights::none(),
            list,
        })
    }

    /// Frees the places of columns outside a range of segments, and scales what is left to a whole.
    pub(crate) fn confine(&mut self, low: u8, high: u8)
        requires { low ≤ high }
        ensures caps { self.new.caps ≡ self.old.caps }
        ensures inside { AreSegmentsIn low high self.new }
    {
        for at in 0..COLUMNS_MAX {
            let segment = self.list[at].segment;
            if segment < low || high < segment {
                self.list[at].free(low);
                self.weights.clear(at);
            }
        }
        if let Some(at) = self.heaviest() {
            self.weights.scale();
            self.weights.fill(at);
        }
    }

    /// The column of the greatest weight, the first of equals.
    fn heaviest(&self) -> Option<usize>
        ensures { IfSome result (λ at. at < COLUMNS_MAX) }
    {
        let mut best = None;
        let mut most = 0;
        for at in 0..COLUMNS_MAX {
            let weight = self.weights.get(at);
            if self.list[at].live && (best.is_none() || weight > most) {
                best = Some(at);
                most = weight;
            }
        }
        best
    }

    /// Frees the places of columns that had no weight for more than so many rounds.
    pub(crate) fn forget(&mut self, age: u64)
        ensures { Keeps self.old self.new }
    {
        for at in 0..COLUMNS_MAX {
            let weight = self.weights.get(at);
            self.list[at].forget(weight, age);
        }
    }

    /// One round more for each column.
    pub(crate) fn grow(&mut self)
        ensures { Keeps self.old self.new }
    {
        for at in 0..COLUMNS_MAX {
            let weight = self.weights.get(at);
            self.list[at].grow(weight);
        }
    }

    /// Adds a purchase as a column, with the weight that all columns lack of a whole: the first one has all of it, and
    /// a later one has none. It takes the place of another where none is free, whose reduced cost at the prices of the
    /// goods goes on in a merged column.
    pub(crate) fn add(&mut self, segment: u8, cost: i128, units: &[u64], prices: &[i64])
        requires { AreWithin self.old.caps units.now }
        ensures caps { self.new.caps ≡ self.old.caps }
        ensures places { HasPlaces self.new }
        ensures whole { sum self.new.weights ≡ WHOLE }
        ensures inside { (low high : ℕ) → AreSegmentsIn low high self.old → IsSegmentIn low high segment
            → AreSegmentsIn low high self.new }
    {
        let at = self.enter(segment, cost, units, prices);
        self.weights.fill(at);
    }

    /// Makes sure that a purchase is among the columns, and answers where.
    fn enter(&mut self, segment: u8, cost: i128, units: &[u64], prices: &[i64]) -> usize
        requires { AreWithin self.old.caps units.now }
        ensures place { result < COLUMNS_MAX }
        ensures caps { self.new.caps ≡ self.old.caps }
        ensures inside { (low high : ℕ) → AreSegmentsIn low high self.old → IsSegmentIn low high segment
            → AreSegmentsIn low high self.new }
    {
        if let Some(at) = self.place_of(segment, cost, units) {
            self.list[at].renew();
            return at;
        }
        self.put(segment, cost, units, prices)
    }

    /// The place of a column that is this purchase.
    fn place_of(&self, segment: u8, cost: i128, units: &[u64]) -> Option<usize>
        ensures { IfSome result (λ at. at < COLUMNS_MAX) }
    {
        for at in 0..COLUMNS_MAX {
            if self.list[at].is(segment, cost, units) {
                return Some(at);
            }
        }
        None
    }

    /// Puts a purchase in a place that is free, or is made so, and answers which.
    fn put(&mut self, segment: u8, cost: i128, units: &[u64], prices: &[i64]) -> usize
        requires { AreWithin self.old.caps units.now }
        ensures place { result < COLUMNS_MAX }
        ensures caps { self.new.caps ≡ self.old.caps }
        ensures inside { (low high : ℕ) → AreSegmentsIn low high self.old → IsSegmentIn low high segment
            → AreSegmentsIn low high self.new }
    {
        let at = self.room(prices);
        self.list[at].put(segment, cost, units);
        at
    }

    /// A place for another column: a free one, or that of the oldest column without weight, or that of one of the two
    /// of least weight together, which are merged.
    fn room(&mut self, prices: &[i64]) -> usize
        ensures place { result < COLUMNS_MAX }
        ensures kept { Keeps self.old self.new }
    {
        match self.idle() {
            Some(at) => at,
            None => {
                let (a, b) = self.least_pair();
                self.merge(a, b, prices);
                b
            }
        }
    }

    /// The first free place, or else that of the oldest column without weight.
    fn idle(&self) -> Option<usize>
        ensures { IfSome result (λ at. at < COLUMNS_MAX) }
    {
        let mut best = None;
        let mut oldest = 0;
        for at in 0..COLUMNS_MAX {
            let column = &self.list[at];
            let age = if column.live { column.age } else { u64::MAX };
            if self.weights.get(at) == 0 && (best.is_none() || age > oldest) {
                best = Some(at);
                oldest = age;
            }
        }
        best
    }

    /// The two columns of least weight together, of one segment where there are such.
    fn least_pair(&self) -> (usize, usize)
        ensures first { result.0 < COLUMNS_MAX }
        ensures second { result.1 < COLUMNS_MAX }
    {
        let mut pair = (0, 1);
        let mut least = u64::MAX;
        for n in 0..COLUMNS_MAX * COLUMNS_MAX {
            let (a, b) = (n / COLUMNS_MAX, n % COLUMNS_MAX);
            let joint = self.joint(a, b);
            if a < b && joint < least {
                least = joint;
                pair = (a, b);
            }
        }
        pair
    }

    /// The weight of two columns together, and more than any such where their segments differ.
    fn joint(&self, a: usize, b: usize) -> u64
        requires first { a < COLUMNS_MAX }
        requires second { b < COLUMNS_MAX }
    {
        let joint = self.weights.get(a) + self.weights.get(b);
        if self.list[a].segment == self.list[b].segment {
            joint
        } else {
            joint + 2 * WHOLE
        }
    }

    /// Has a trial buy what the columns are together.
    pub(crate) fn buy(&self, trial: &mut Trial) {
        for at in 0..COLUMNS_MAX {
            let weight = self.weights.get(at);
            if weight > 0 {
                trial.buy(weight, self.list[at].units.as_slice());
            }
        }
    }

    /// Moves weight from the column of the greatest reduced cost to that of the least, as much as is best for the
    /// prices that are tried, and answers by how much the two differed.
    pub(crate) fn step(&mut self, trial: &mut Trial) -> i128
        ensures { Keeps self.old self.new }
    {
        if self.live_count() < 2 {
            return 0;
        }
        let reduced = self.reduced(trial);
        let (from, to) = (self.dearest(&reduced), self.cheapest(&reduced));
        let gain = reduced[from].wrapping_sub(reduced[to]);
        if gain <= 0 {
            return 0;
        }
        let amount = self.swap(from, to, gain, trial);
        self.weights.shift(from, to, amount);
        gain
    }

    /// Has a trial buy of one column in place of another, and answers how much.
    fn swap(&self, from: usize, to: usize, gain: i128, trial: &mut Trial) -> u64
        requires from { from < COLUMNS_MAX }
        requires to { to < COLUMNS_MAX }
        ensures { result ≤ slice_index self.now.weights from }
    {
        let (left, right) = (
            self.list[from].units.as_slice(),
            self.list[to].units.as_slice(),
        );
        let amount = trial.amount(gain, left, right, self.weights.get(from));
        trial.shift(amount, left, right);
        amount
    }

    fn live_count(&self) -> u64 {
        let mut count: u64 = 0;
        for column in &self.list {
            if column.live {
                count = count.wrapping_add(1);
            }
        }
        count
    }

    /// The costs of the columns less the prices that are tried.
    fn reduced(&self, trial: &Trial) -> [i128; 6] {
        let mut reduced = [0; 6];
        for at in 0..COLUMNS_MAX {
            let column = &self.list[at];
            if column.live {
                reduced[at] = trial.reduced(column.cost, column.units.as_slice());
            }
        }
        reduced
    }

    /// The column of the greatest reduced cost among those that have weight, the first of equals.
    fn dearest(&self, reduced: &[i128; 6]) -> usize
        ensures { result < COLUMNS_MAX }
    {
        let mut best = None;
        let mut most = 0;
        for at in 0..COLUMNS_MAX {
            if self.weights.get(at) > 0 && (best.is_none() || reduced[at] > most) {
                best = Some(at);
                most = reduced[at];
            }
        }
        best.unwrap_or(0)
    }

    /// The column of the least reduced cost, the first of equals.
    fn cheapest(&self, reduced: &[i128; 6]) -> usize
        ensures { result < COLUMNS_MAX }
    {
        let mut best = None;
        let mut least = 0;
        for at in 0..COLUMNS_MAX {
            if self.list[at].live && (best.is_none() || reduced[at] < least) {
                best = Some(at);
                least = reduced[at];
            }
        }
        best.unwrap_or(0)
    }

    /// Merges column `b` into column `a`: the mean of both by their weights, in whole units.
    fn merge(&mut self, a: usize, b: usize, prices: &[i64])
        requires first { a < COLUMNS_MAX }
        requires second { b < COLUMNS_MAX }
        ensures { Keeps self.old self.new }
    {
        let weight = self.weights.get(b);
        let segment = self.heavier_segment(a, b);
        let cost = self.merged_cost(a, b, prices);
        self.mix(a, b);
        self.list[a].label(segment, cost);
        self.weights.shift(b, a, weight);
    }

    /// The segment of the heavier of two columns.
    fn heavier_segment(&self, a: usize, b: usize) -> u8
        requires first { a < COLUMNS_MAX }
        requires second { b < COLUMNS_MAX }
        ensures { (low high : ℕ) → AreSegmentsIn low high self.now → IsSegmentIn low high result }
    {
        if self.weights.get(a) < self.weights.get(b) {
            self.list[b].segment
        } else {
            self.list[a].segment
        }
    }

    /// The cost at which the merged column has the mean of the reduced costs of both.
    fn merged_cost(&self, a: usize, b: usize, prices: &[i64]) -> i128
        requires first { a < COLUMNS_MAX }
        requires second { b < COLUMNS_MAX }
    {
        let (v, w) = (self.weights.get(a), self.weights.get(b));
        let whole = v.wrapping_add(w).max(1);
        let (left, right) = (&self.list[a], &self.list[b]);
        let costs = weighed(left.cost, v).wrapping_add(weighed(right.cost, w));
        let both = left
            .units
            .as_slice()
            .iter()
            .zip(right.units.as_slice().iter());
        let mut moved: i128 = 0;
        for (price, (x, y)) in prices.iter().zip(both) {
            let exact = x.wrapping_mul(v).wrapping_add(y.wrapping_mul(w));
            let rounding = mean(*x, v, *y, w)
                .wrapping_mul(whole)
                .wrapping_sub(exact)
                .cast_signed();
            moved = moved.wrapping_add(i128::from(*price).wrapping_mul(i128::from(rounding)));
        }
        costs.wrapping_add(moved).wrapping_div(i128::from(whole))
    }

    /// Gives column `a` the units of the merged column.
    fn mix(&mut self, a: usize, b: usize)
        requires first { a < COLUMNS_MAX }
        requires second { b < COLUMNS_MAX }
        ensures kept { Keeps self.old self.new }
        ensures weights { self.new.weights ≡ self.old.weights }
    {
        let (v, w) = (self.weights.get(a), self.weights.get(b));
        for k in 0..self.caps.len() {
            let units = mean(self.list[a].units.get(k), v, self.list[b].units.get(k), w);
            self.list[a].units.set(k, units);
        }
    }

    /// The weight of the columns of a segment.
    #[tactic(auto, unfolding(crate::specs::Columns::weight_in))]
    pub(crate) fn weight(&self, j: u8) -> u64
        ensures value { result ≡ weight_in self.now j }
        ensures within { result ≤ WHOLE }
    {
        let mut sum = 0;
        for at in 0..COLUMNS_MAX {
            sum += self.weight_at(j, at);
        }
        sum
    }

    /// The weight of a column where it is of a segment, and else 0.
    #[tactic(auto, unfolding(crate::specs::Columns::weight_at))]
    fn weight_at(&self, j: u8, at: usize) -> u64
        requires { at < COLUMNS_MAX }
        ensures value { result ≡ weight_at self.now j at }
        ensures within { result ≤ slice_index self.now.weights at }
        ensures bounded { AreWeights self.now.weights }
    {
        let weight = self.weights.get(at);
        if self.list[at].segment == j {
            weight
        } else {
            0
        }
    }

    /// The units of a good, weighed.
    #[tactic(auto, unfolding(crate::specs::Columns::units_in))]
    pub(crate) fn weighted(&self, k: usize) -> u64
        requires { k < length self.now.caps }
        ensures value { result ≡ units_in self.now k }
        ensures within { result ≤ slice_index self.now.caps k * WHOLE }
        ensures small { result ≤ QTY_MAX * WHOLE }
    {
        let mut sum = 0;
        for at in 0..COLUMNS_MAX {
            sum += self.units_at(k, at);
        }
        sum
    }

    /// The units of a good in a column times its weight.
    #[tactic(auto, unfolding(crate::specs::Columns::units_at))]
    fn units_at(&self, k: usize, at: usize) -> u64
        requires good { k < length self.now.caps }
        requires column { at < COLUMNS_MAX }
        ensures value { result ≡ units_at self.now k at }
        ensures within { result ≤ slice_index self.now.caps k * slice_index self.now.weights at }
        ensures small { slice_index self.now.caps k ≤ QTY_MAX }
        ensures bounded { AreWeights self.now.weights }
    {
        self.weights.get(at) * self.list[at].units.get(k)
    }

    /// The cost of the columns, weighed, in millionths of the currency; it wraps where that is beyond its type.
    pub(crate) fn weighted_cost(&self) -> i128 {
        let mut sum: i128 = 0;
        for at in 0..COLUMNS_MAX {
            sum = sum.wrapping_add(weighed(self.list[at].cost, self.weights.get(at)));
        }
        sum
    }
}
