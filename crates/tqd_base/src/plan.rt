ghost use Rattle.std.specs.Prelude.{◌≡◌, ◌++◌, [], ◌∷◌, OnOk, OnErr};
ghost use Rattle.tqd_base.specs.Planned.{counted, is_due, is_of, number_of, one_less};

use crate::memory::Memory;
use std::alloc::Global;

/// A kind of call of a desk.
#[derive(Clone, Copy, Debug, PartialEq, Eq)]
pub enum DeskCall {
    Open,
    Take,
    Make,
    Put,
    Out,
    Close,
}

impl DeskCall {
    // The number of the kind.
    fn number(self) -> u8
        ensures { result ≡ number_of self }
    {
        match self {
            DeskCall::Open => 0,
            DeskCall::Take => 1,
            DeskCall::Make => 2,
            DeskCall::Put => 3,
            DeskCall::Out => 4,
            DeskCall::Close => 5,
        }
    }
}

/// A fault to come: the call of a kind that fails when so many more were made, itself counted. At 0 it has come.
#[derive(Clone, Copy, Debug)]
pub struct Planned {
    pub call: DeskCall,
    pub left: u64,
}

impl Planned {
    // Whether the fault is of a call of this kind.
    fn is_of(&self, call: DeskCall) -> bool
        ensures { result ≡ is_of call self.now }
    {
        self.call.number() == call.number()
    }

    // Counts a call of this kind.
    fn count(&mut self, call: DeskCall)
        ensures { self.new ≡ one_less call self.old }
    {
        if self.is_of(call) {
            self.left = self.left.saturating_sub(1);
        }
    }
}

// Counts a call of this kind.
fn count_all(faults: &mut [Planned], call: DeskCall)
    ensures { faults.new ≡ counted call faults.old }
{
    for fault in faults.iter_mut() {
        fault.count(call);
    }
}

/// The faults to come.
#[derive(Debug, Drop)]
pub struct Plan {
    faults: Vec<Planned>,
}

impl Plan {
    pub fn new(alloc: Global) -> Plan
        ensures { result.faults.items ≡ [] }
    {
        Plan {
            faults: Vec::new(alloc),
        }
    }

    // Plans that the nth call of a kind from now on fails, counted from 1.
    pub fn add(&mut self, call: DeskCall, nth: u64) -> Result<(), Memory>
        ensures added { OnOk result (self.new.faults.items ≡ self.old.faults.items ++ record { call = call; left = nth } ∷ []) }
        ensures stays { OnErr result (self.new.faults.items ≡ self.old.faults.items) }
    {
        let planned = Planned { call, left: nth };
        Ok(self.faults.push(planned)?)
    }

    // Whether the next call of a kind has to fail.
    fn is_next(&self, call: DeskCall) -> bool
        ensures { result ≡ is_due call self.now.faults.items }
    {
        self.faults
            .iter()
            .any(|fault| fault.is_of(call) && fault.left == 1)
    }

    // Counts a call, and says whether it has to fail.
    pub fn is_due(&mut self, call: DeskCall) -> bool
        ensures due { result ≡ is_due call self.old.faults.items }
        ensures counted { self.new.faults.items ≡ counted call self.old.faults.items }
    {
        let due = self.is_next(call);
        count_all(&mut self.faults, call);
        due
    }
}
