use crate::count::risen;
use crate::desk::{Desk, DeskStop};
use crate::memory::Memory;
use crate::plan::{DeskCall, Plan};
use crate::store::Store;
use std::alloc::Global;

/// A desk in memory whose calls fail as `fail` plans it. Opening a name that is not there fails.
#[derive(Debug, Drop)]
pub struct MemoryDesk {
    store: Store,
    plan: Plan,
    reading: u64,
    writing: u64,
    printing: u64,
}

impl MemoryDesk {
    ghost use Rattle.std.specs.Prelude.{◌≡◌, ◌≤◌, ◌++◌, ◌∷◌, [], ◌-◌, ◌^◌, Some, IfOk, OnOk, OnErr, Err, false};
    ghost use Rattle.std.specs.Option.{option_copied};
    ghost use Rattle.tqd_base.specs.Store.{IsEmptyWorld, HasNoFaults};
    ghost use Rattle.tqd_base.specs.Told.{with_file, told_of};
    ghost use Rattle.tqd_base.specs.MemoryState.{memory_state, planned, most_taken, KeepsPlan};
    ghost use Rattle.tqd_base.specs.Calls.{OpenGives};
    ghost use Rattle.tqd_base.specs.MemoryCalls.{FailedOpen};

    /// A desk without files, without output and without an open slot. It takes no memory.
    pub fn new(alloc: Global) -> Result<MemoryDesk, Memory>
        ensures empty { IfOk result (λ desk. IsEmptyWorld (memory_state desk).world) }
        ensures faults { IfOk result (λ desk. HasNoFaults (memory_state desk)) }
        ensures unplanned { IfOk result (λ desk. planned desk ≡ []) }
        ensures unbounded { IfOk result (λ desk. most_taken desk ≡ 2 ^ 64 - 1) }
    {
        Ok(MemoryDesk {
            store: Store::new(alloc),
            plan: Plan::new(alloc),
            reading: 0,
            writing: 0,
            printing: 0,
        })
    }

    /// Gives a file these bytes, a new file where none has that name.
    pub fn set_file(&mut self, name: &str, bytes: &[u8]) -> Result<(), Memory>
        ensures set { OnOk result (memory_state self.new ≡ with_file (memory_state self.old) name.now bytes.now) }
        ensures stays { OnErr result (memory_state self.new ≡ memory_state self.old) }
        ensures plan { KeepsPlan self.old self.new }
    {
        self.store.set_file(name, bytes)
    }

    /// Makes the nth call of a kind from now on fail, counted from 1. Of `close`, the calls on writing slots count alone.
    ///
    /// A `put` or an `out` that fails adds the first half of its piece, rounded down.
    pub fn fail(&mut self, call: DeskCall, nth: u64) -> Result<(), Memory>
        ensures added { OnOk result (planned self.new ≡ planned self.old ++ record { call = call; left = nth } ∷ []) }
        ensures stays { OnErr result (planned self.new ≡ planned self.old) }
        ensures state { memory_state self.new ≡ memory_state self.old }
        ensures most { most_taken self.new ≡ most_taken self.old }
    {
        self.plan.add(call, nth)
    }

    /// Bounds how many bytes one `take` gives.
    pub fn piece(&mut self, most: usize)
        requires { 1 ≤ most }
        ensures most { most_taken self.new ≡ most }
        ensures state { memory_state self.new ≡ memory_state self.old }
        ensures planned { planned self.new ≡ planned self.old }
    {
        self.store.bound(most);
    }

    /// The bytes of a file, or None exactly where no file has that name.
    pub fn file(&self, name: &str) -> Option<&[u8]>
        ensures { told_of (memory_state self.now).world name.now ≡ Some (option_copied result) }
    {
        self.store.file(name)
    }

    /// The output so far.
    pub fn output(&self) -> &[u8]
        ensures { (memory_state self.now).world.output ≡ Some result.now }
    {
        self.store.output()
    }

    // Counts a fault of opening a name, where memory for the name is to be had.
    fn failed_open(&mut self, name: &str) -> DeskStop
        ensures gives { OpenGives false (memory_state self.old) (memory_state self.new) name.now (Err result) }
        ensures faults { FailedOpen (memory_state self.old).faults (memory_state self.new).faults result }
        ensures plan { KeepsPlan self.old self.new }
    {
        match self.store.fail_name(name) {
            Ok(()) => {
                self.reading = risen(self.reading);
                DeskStop::Failed
            }
            Err(Memory) => DeskStop::Memory,
        }
    }
}

impl Desk for MemoryDesk {
    ghost use Rattle.std.specs.Prelude.{◌≡◌, ◌<◌, ◌≤◌, ◌&&◌, ◌||◌, false, is_none, if◌then◌else◌, length, IfOk, IsSome};
    ghost use Rattle.tqd_base.specs.MemoryState.{memory_state, planned, most_taken};
    ghost use Rattle.tqd_base.specs.MemoryCalls.{FailsWhere, Counts, PutsHalf, PrintsHalf};
    ghost use Rattle.tqd_base.specs.Planned.{counted, is_due};
    ghost use Rattle.tqd_base.specs.Calls.{OpenGives, TakeGives, MakeGives, PutGives, OutGives, CloseGives};
    ghost use Rattle.tqd_base.specs.World.{Reads, Writes, HasNoSlot};
    ghost use Rattle.tqd_base.specs.Kept.{file_at};
    ghost use Rattle.tqd_base.specs.Store.{is_writing_slot};
    ghost use Rattle.tqd_base.specs.declared.plan.DeskCall.TheVariants.{Open, Take, Make, Put, Out, Close};

    ghost state = { λ desk. memory_state desk };

    ghost absent_is_empty = { false };

    fn open(&mut self, _alloc: Global, name: &str) -> Result<u32, DeskStop>
        ensures gives { OpenGives false (memory_state self.old) (memory_state self.new) name.now result }
        ensures fails { FailsWhere (is_due Open (planned self.old) || is_none (file_at self.old.store.files.items name.now)) result }
        ensures faults { Counts Open (memory_state self.old).faults (memory_state self.new).faults result }
        ensures counted { planned self.new ≡ counted Open (planned self.old) }
        ensures most { most_taken self.new ≡ most_taken self.old }
    {
        if self.plan.is_due(DeskCall::Open) {
            return Err(self.failed_open(name));
        }
        if self.store.is_absent(name) {
            return Err(self.failed_open(name));
        }
        Ok(self.store.open(name)?)
    }

    fn take(&mut self, slot: u32, buffer: &mut [u8]) -> Result<usize, DeskStop>
        requires reads { Reads ((memory_state self.old).world.slots slot) }
        requires room { 0 < length buffer.old }
        ensures gives { TakeGives (memory_state self.old) (memory_state self.new) slot buffer.new result }
        ensures fails { FailsWhere (is_due Take (planned self.old)) result }
        ensures faults { Counts Take (memory_state self.old).faults (memory_state self.new).faults result }
        ensures bounded { IfOk result (λ count. count ≤ most_taken self.old) }
        ensures counted { planned self.new ≡ counted Take (planned self.old) }
        ensures most { most_taken self.new ≡ most_taken self.old }
    {
        if self.plan.is_due(DeskCall::Take) {
            self.store.fail_slot(slot);
            self.reading = risen(self.reading);
            return Err(DeskStop::Failed);
        }
        Ok(self.store.take(slot, buffer))
    }

    fn make(&mut self, _alloc: Global, name: &str) -> Result<u32, DeskStop>
        requires { HasNoSlot (memory_state self.old).world name.now }
        ensures gives { MakeGives (memory_state self.old) (memory_state self.new) name.now result }
        ensures fails { FailsWhere (is_due Make (planned self.old)) result }
        ensures faults { Counts Make (memory_state self.old).faults (memory_state self.new).faults result }
        ensures counted { planned self.new ≡ counted Make (planned self.old) }
        ensures most { most_taken self.new ≡ most_taken self.old }
    {
        if self.plan.is_due(DeskCall::Make) {
            self.writing = risen(self.writing);
            return Err(DeskStop::Failed);
        }
        Ok(self.store.make(name)?)
    }

    fn put(&mut self, slot: u32, piece: &[u8]) -> Result<(), DeskStop>
        requires { Writes ((memory_state self.old).world.slots slot) }
        ensures gives { PutGives (memory_state self.old) (memory_state self.new) slot piece.now result }
        ensures fails { FailsWhere (is_due Put (planned self.old)) result }
        ensures faults { Counts Put (memory_state self.old).faults (memory_state self.new).faults result }
        ensures half { PutsHalf (memory_state self.old) (memory_state self.new) slot piece.now result }
        ensures counted { planned self.new ≡ counted Put (planned self.old) }
        ensures most { most_taken self.new ≡ most_taken self.old }
    {
        if self.plan.is_due(DeskCall::Put) {
            let half = &piece[..piece.len() / 2];
            self.store.put(slot, half)?;
            self.writing = risen(self.writing);
            return Err(DeskStop::Failed);
        }
        Ok(self.store.put(slot, piece)?)
    }

    fn out(&mut self, piece: &[u8]) -> Result<(), DeskStop>
        ensures gives { OutGives (memory_state self.old) (memory_state self.new) piece.now result }
        ensures fails { FailsWhere (is_due Out (planned self.old)) result }
        ensures faults { Counts Out (memory_state self.old).faults (memory_state self.new).faults result }
        ensures half { PrintsHalf (memory_state self.old) (memory_state self.new) piece.now result }
        ensures counted { planned self.new ≡ counted Out (planned self.old) }
        ensures most { most_taken self.new ≡ most_taken self.old }
    {
        if self.plan.is_due(DeskCall::Out) {
            let half = &piece[..piece.len() / 2];
            self.store.out(half)?;
            self.printing = risen(self.printing);
            return Err(DeskStop::Failed);
        }
        Ok(self.store.out(piece)?)
    }

    fn close(&mut self, slot: u32) -> Result<(), DeskStop>
        requires { IsSome ((memory_state self.old).world.slots slot) }
        ensures gives { CloseGives (memory_state self.old) (memory_state self.new) slot result }
        ensures fails { FailsWhere (is_writing_slot ((memory_state self.old).world.slots slot) && is_due Close (planned self.old)) result }
        ensures faults { Counts Close (memory_state self.old).faults (memory_state self.new).faults result }
        ensures counted { planned self.new ≡ (if is_writing_slot ((memory_state self.old).world.slots slot) then counted Close (planned self.old) else planned self.old) }
        ensures most { most_taken self.new ≡ most_taken self.old }
    {
        let writes = self.store.is_writing(slot);
        self.store.end(slot);
        if !writes {
            return Ok(());
        }
        if self.plan.is_due(DeskCall::Close) {
            self.writing = risen(self.writing);
            return Err(DeskStop::Failed);
        }
        Ok(())
    }
}
