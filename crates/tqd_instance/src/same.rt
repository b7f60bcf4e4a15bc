//! Whether two jobs have the same numbers.
ghost use Rattle.std.specs.Prelude.{◌≡◌, ◌↔◌, IsTrue};

use crate::job::Job;
use crate::list::Numbers;
use crate::supplier::{Segment, Segments, Supplier, Suppliers};

impl Job {
    /// Whether all numbers of the two jobs are equal. It takes no memory.
    #[tactic(auto, using(crate::proofs::JobSame::job_same))]
    pub fn same(&self, other: &Job) -> bool
        ensures { IsTrue result ↔ (self.now ≡ other.now) }
    {
        if !self.same_limits(other) {
            return false;
        }
        if !self.same_goods(other) {
            return false;
        }
        self.same_suppliers(other)
    }
}

impl Numbers {
    pub(crate) fn same(&self, other: &Numbers) -> bool
        ensures { IsTrue result ↔ (self.now ≡ other.now) }
    {
        self.as_slice() == other.as_slice()
    }
}

impl Segment {
    pub(crate) fn same(&self, other: &Segment) -> bool
        ensures { IsTrue result ↔ (self.now ≡ other.now) }
    {
        self.low() == other.low()
            && self.high() == other.high()
            && self.prices().same(other.prices())
    }
}

impl Segments {
    pub(crate) fn same(&self, other: &Segments) -> bool
        ensures { IsTrue result ↔ (self.now ≡ other.now) }
    {
        if self.len() != other.len() {
            return false;
        }
        for at in 0..self.len() {
            if !self.get(at).same(other.get(at)) {
                return false;
            }
        }
        true
    }
}

impl Supplier {
    pub(crate) fn same(&self, other: &Supplier) -> bool
        ensures { IsTrue result ↔ (self.now ≡ other.now) }
    {
        self.fee() == other.fee()
            && self.stocks().same(other.stocks())
            && self.segments().same(other.segments())
    }
}

impl Suppliers {
    pub(crate) fn same(&self, other: &Suppliers) -> bool
        ensures { IsTrue result ↔ (self.now ≡ other.now) }
    {
        if self.len() != other.len() {
            return false;
        }
        for at in 0..self.len() {
            if !self.get(at).same(other.get(at)) {
                return false;
            }
        }
        true
    }
}
