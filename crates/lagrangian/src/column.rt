ghost use Rattle.std.specs.Prelude.{◌≡◌, length};

use tqd_instance::Numbers;

/// A purchase from one supplier: the segment of its total, its units of each good, and what they cost with the fee, in
/// millionths of the currency. Columns that are merged have the segment of the heavier one. A column that is not live
/// is a free place.
#[derive(Debug, Drop)]
pub(crate) struct Column {
    pub segment: u8,
    pub cost: i128,
    pub age: u64,
    pub live: bool,
    pub units: Numbers,
}

impl Column {
    /// Frees the place of the column.
    pub(crate) fn free(&mut self, segment: u8)
        ensures segment { self.new.segment ≡ segment }
        ensures units { self.new.units ≡ self.old.units }
    {
        self.segment = segment;
        self.live = false;
    }

    /// Makes the column a new one.
    pub(crate) fn renew(&mut self)
        ensures segment { self.new.segment ≡ self.old.segment }
        ensures units { self.new.units ≡ self.old.units }
    {
        self.live = true;
        self.age = 0;
    }

    /// One round more in which the column has weight or not.
    pub(crate) fn grow(&mut self, weight: u64)
        ensures segment { self.new.segment ≡ self.old.segment }
        ensures units { self.new.units ≡ self.old.units }
    {
        self.age = if weight > 0 {
            0
        } else {
            self.age.saturating_add(1)
        };
    }

    /// Frees the place of the column where it had no weight for more than so many rounds.
    pub(crate) fn forget(&mut self, weight: u64, age: u64)
        ensures segment { self.new.segment ≡ self.old.segment }
        ensures units { self.new.units ≡ self.old.units }
    {
        if weight == 0 && self.age > age {
            self.live = false;
        }
    }

    /// Gives the column another segment and cost, as a new one.
    pub(crate) fn label(&mut self, segment: u8, cost: i128)
        ensures segment { self.new.segment ≡ segment }
        ensures units { self.new.units ≡ self.old.units }
    {
        self.segment = segment;
        self.cost = cost;
        self.renew();
    }

    /// Makes the column this purchase.
    pub(crate) fn put(&mut self, segment: u8, cost: i128, units: &[u64])
        requires { length self.old.units ≡ length units.now }
        ensures segment { self.new.segment ≡ segment }
        ensures units { self.new.units ≡ units.now }
    {
        self.segment = segment;
        self.cost = cost;
        for (k, number) in units.iter().enumerate() {
            self.units.set(k, *number);
        }
        self.renew();
    }

    /// Whether the column is this purchase.
    pub(crate) fn is(&self, segment: u8, cost: i128, units: &[u64]) -> bool {
        self.live
            && self.segment == segment
            && self.cost == cost
            && same(self.units.as_slice(), units)
    }
}

/// Whether two lists of units are the same, as far as both go.
fn same(left: &[u64], right: &[u64]) -> bool {
    left.iter().zip(right.iter()).all(|(x, y)| *x == *y)
}
