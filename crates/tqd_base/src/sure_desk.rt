use crate::desk::{Desk, DeskStop};
use crate::memory::Memory;
use crate::store::Store;
use std::alloc::Global;

/// A desk in memory that never fails: it has no faults, and reads a name that is not there as an empty file.
#[derive(Debug, Drop)]
pub struct SureDesk {
    store: Store,
}

impl SureDesk {
    ghost use Rattle.std.specs.Prelude.{◌≡◌, ◌≤◌, ◌-◌, ◌^◌, Some, IfOk, OnOk, OnErr};
    ghost use Rattle.std.specs.Option.{option_copied};
    ghost use Rattle.tqd_base.specs.Store.{IsEmptyWorld};
    ghost use Rattle.tqd_base.specs.Told.{with_file, told_of};
    ghost use Rattle.tqd_base.specs.SureState.{sure_state, sure_most};

    /// A desk without files, without output and without an open slot. It takes no memory.
    pub fn new(alloc: Global) -> Result<SureDesk, Memory>
        ensures empty { IfOk result (λ desk. IsEmptyWorld (sure_state desk).world) }
        ensures unbounded { IfOk result (λ desk. sure_most desk ≡ 2 ^ 64 - 1) }
    {
        Ok(SureDesk {
            store: Store::new(alloc),
        })
    }

    /// Gives a file these bytes, a new file where none has that name.
    pub fn set_file(&mut self, name: &str, bytes: &[u8]) -> Result<(), Memory>
        ensures set { OnOk result (sure_state self.new ≡ with_file (sure_state self.old) name.now bytes.now) }
        ensures stays { OnErr result (sure_state self.new ≡ sure_state self.old) }
        ensures most { sure_most self.new ≡ sure_most self.old }
    {
        self.store.set_file(name, bytes)
    }

    /// Bounds how many bytes one `take` gives.
    pub fn piece(&mut self, most: usize)
        requires { 1 ≤ most }
        ensures most { sure_most self.new ≡ most }
        ensures state { sure_state self.new ≡ sure_state self.old }
    {
        self.store.bound(most);
    }

    /// The bytes of a file, or None exactly where no file has that name.
    pub fn file(&self, name: &str) -> Option<&[u8]>
        ensures { told_of (sure_state self.now).world name.now ≡ Some (option_copied result) }
    {
        self.store.file(name)
    }

    /// The output so far.
    pub fn output(&self) -> &[u8]
        ensures { (sure_state self.now).world.output ≡ Some result.now }
    {
        self.store.output()
    }
}

impl Desk for SureDesk {
    ghost use Rattle.std.specs.Prelude.{◌≡◌, ◌<◌, ◌≤◌, true, length, IfOk, IsSome};
    ghost use Rattle.tqd_base.specs.World.{Reads, Writes, HasNoSlot};
    ghost use Rattle.tqd_base.specs.Calls.{OpenGives, TakeGives, MakeGives, PutGives, OutGives, CloseGives};
    ghost use Rattle.tqd_base.specs.SureState.{sure_state, sure_most};

    ghost state = { λ desk. sure_state desk };

    ghost absent_is_empty = { true };

    fn open(&mut self, _alloc: Global, name: &str) -> Result<u32, DeskStop>
        ensures gives { OpenGives true (sure_state self.old) (sure_state self.new) name.now result }
        ensures most { sure_most self.new ≡ sure_most self.old }
    {
        Ok(self.store.open(name)?)
    }

    fn take(&mut self, slot: u32, buffer: &mut [u8]) -> Result<usize, DeskStop>
        requires reads { Reads ((sure_state self.old).world.slots slot) }
        requires room { 0 < length buffer.old }
        ensures gives { TakeGives (sure_state self.old) (sure_state self.new) slot buffer.new result }
        ensures bounded { IfOk result (λ count. count ≤ sure_most self.old) }
        ensures most { sure_most self.new ≡ sure_most self.old }
    {
        Ok(self.store.take(slot, buffer))
    }

    fn make(&mut self, _alloc: Global, name: &str) -> Result<u32, DeskStop>
        requires { HasNoSlot (sure_state self.old).world name.now }
        ensures gives { MakeGives (sure_state self.old) (sure_state self.new) name.now result }
        ensures most { sure_most self.new ≡ sure_most self.old }
    {
        Ok(self.store.make(name)?)
    }

    fn put(&mut self, slot: u32, piece: &[u8]) -> Result<(), DeskStop>
        requires { Writes ((sure_state self.old).world.slots slot) }
        ensures gives { PutGives (sure_state self.old) (sure_state self.new) slot piece.now result }
        ensures most { sure_most self.new ≡ sure_most self.old }
    {
        Ok(self.store.put(slot, piece)?)
    }

    fn out(&mut self, piece: &[u8]) -> Result<(), DeskStop>
        ensures gives { OutGives (sure_state self.old) (sure_state self.new) piece.now result }
        ensures most { sure_most self.new ≡ sure_most self.old }
    {
        Ok(self.store.out(piece)?)
    }

    fn close(&mut self, slot: u32) -> Result<(), DeskStop>
        requires { IsSome ((sure_state self.old).world.slots slot) }
        ensures gives { CloseGives (sure_state self.old) (sure_state self.new) slot result }
        ensures most { sure_most self.new ≡ sure_most self.old }
    {
        self.store.end(slot);
        Ok(())
    }
}
