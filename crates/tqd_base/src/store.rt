ghost use Rattle.std.specs.Prelude.{◌≤◌, ◌<◌, IfSome, vec_len};
ghost use Rattle.std.proofs.Props.{props};

use crate::kept::{KeptSlot, SlotState, StoredFile, find};
use crate::memory::Memory;
use std::alloc::Global;

/// Files, output and slots in memory. A slot's number is its place in the list, which is never shortened, and the name
/// whose reading failed last is that of the slot at a place.
#[derive(Debug, Drop)]
pub struct Store {
    files: Vec<StoredFile>,
    output: Vec<u8>,
    slots: Vec<KeptSlot>,
    failed: Option<usize>,
    most: usize,
    alloc: Global,
    ghost some: { 1 ≤ most },
    ghost known: { IfSome failed (λ i. i < vec_len slots) } by { Prim.hlevel props },
}

impl Store {
    ghost use Rattle.std.specs.Prelude.{◌≡◌, ◌++◌, ℕ, length, Some, None, IfOk, OnOk, OnErr, IsSome, is_none, option_and_then, slice_get, ◌^◌, ◌-◌};
    ghost use Rattle.std.specs.Option.{option_map, option_copied};
    ghost use Rattle.tqd_base.specs.StoreWorld.{world_of, failed_of};
    ghost use Rattle.tqd_base.specs.World.{Reading, Reads, Writes, set_slot, set_file, append, print, bytes_at, name_at, left_at, shortened, IsReadable};
    ghost use Rattle.tqd_base.specs.Calls.{Moves};
    ghost use Rattle.tqd_base.specs.Kept.{file_at, slot_in};
    ghost use Rattle.tqd_base.specs.Store.{IsEmptyWorld, AddsSlot, MakesSlot, is_writing_slot};

    pub fn new(alloc: Global) -> Store
        ensures world { IsEmptyWorld (world_of result) }
        ensures failed { failed_of result ≡ None }
        ensures most { result.most ≡ 2 ^ 64 - 1 }
    {
        Store {
            files: Vec::new(alloc),
            output: Vec::new(alloc),
            slots: Vec::new(alloc),
            failed: None,
            most: usize::MAX,
            alloc,
        }
    }

    // The bytes of a file, or None where no file has that name.
    pub fn file(&self, name: &str) -> Option<&[u8]>
        ensures { option_copied result ≡ file_at self.now.files.items name.now }
    {
        match find(&self.files, name) {
            Some(i) => Some(self.files[i].bytes.as_slice()),
            None => None,
        }
    }

    // The output so far.
    pub fn output(&self) -> &[u8]
        ensures { (world_of self.now).output ≡ Some result.now }
    {
        self.output.as_slice()
    }

    // Bounds how many bytes one `take` gives.
    pub fn bound(&mut self, most: usize)
        requires { 1 ≤ most }
        ensures world { world_of self.new ≡ world_of self.old }
        ensures failed { failed_of self.new ≡ failed_of self.old }
        ensures most { self.new.most ≡ most }
    {
        self.most = most;
    }

    // Gives a file these bytes, a new one where no file has that name.
    pub fn set_file(&mut self, name: &str, bytes: &[u8]) -> Result<(), Memory>
        ensures set { OnOk result (world_of self.new ≡ set_file (world_of self.old) name.now bytes.now) }
        ensures stays { OnErr result (world_of self.new ≡ world_of self.old) }
        ensures failed { failed_of self.new ≡ failed_of self.old }
        ensures most { self.new.most ≡ self.old.most }
    {
        let bytes = Vec::from_slice(self.alloc, bytes)?;
        let name_kept = String::from_str(self.alloc, name)?;
        let file = StoredFile {
            name: name_kept,
            bytes,
        };
        match find(&self.files, name) {
            Some(i) => self.files[i] = file,
            None => self.files.push(file)?,
        }
        Ok(())
    }

    // Adds a slot at the end, which is in this state.
    fn add_slot(&mut self, name: &str, state: SlotState) -> Result<u32, Memory>
        ensures added { IfOk result (λ slot. AddsSlot (world_of self.old) (world_of self.new) slot (slot_in name.now state)) }
        ensures stays { OnErr result (world_of self.new ≡ world_of self.old) }
        ensures failed { failed_of self.new ≡ failed_of self.old }
        ensures most { self.new.most ≡ self.old.most }
    {
        let number = self.slots.len();
        if number >= u32::MAX as usize {
            return Err(Memory);
        }
        let name = String::from_str(self.alloc, name)?;
        self.slots.push(KeptSlot { name, state })?;
        Ok(number as u32)
    }

    // A copy of a file's bytes; of a name that is not there, none.
    fn copy(&self, name: &str) -> Result<Vec<u8>, Memory>
        ensures { IfOk result (λ bytes. bytes_at (world_of self.now) name.now ≡ Some bytes.items) }
    {
        match self.file(name) {
            Some(bytes) => Ok(Vec::from_slice(self.alloc, bytes)?),
            None => Ok(Vec::new(self.alloc)),
        }
    }

    // Whether no file has this name.
    pub fn is_absent(&self, name: &str) -> bool
        ensures readable { IsReadable result (world_of self.now) name.now }
        ensures absent { result ≡ is_none (file_at self.now.files.items name.now) }
    {
        match self.file(name) {
            Some(_) => false,
            None => true,
        }
    }

    // Whether an open slot writes.
    pub fn is_writing(&self, slot: u32) -> bool
        requires { IsSome ((world_of self.now).slots slot) }
        ensures { result ≡ is_writing_slot ((world_of self.now).slots slot) }
    {
        self.slots[slot as usize].is_writing()
    }

    // Opens a slot that reads a copy of the file's bytes.
    pub fn open(&mut self, name: &str) -> Result<u32, Memory>
        ensures opened { IfOk result (λ slot. AddsSlot (world_of self.old) (world_of self.new) slot (Some (Reading name.now (bytes_at (world_of self.old) name.now)))) }
        ensures stays { OnErr result (world_of self.new ≡ world_of self.old) }
        ensures failed { failed_of self.new ≡ failed_of self.old }
        ensures most { self.new.most ≡ self.old.most }
    {
        let bytes = self.copy(name)?;
        self.add_slot(name, SlotState::Reading(bytes, 0))
    }

    // Moves the first bytes left of a reading slot to the front of the buffer.
    pub fn take(&mut self, slot: u32, buffer: &mut [u8]) -> usize
        requires reads { Reads ((world_of self.old).slots slot) }
        requires room { 0 < length buffer.old }
        ensures fits { result ≤ length buffer.new }
        ensures bounded { result ≤ self.old.most }
        ensures moved { IfSome (left_at (world_of self.old) slot) (λ left. Moves left buffer.new result) }
        ensures world { world_of self.new ≡ set_slot (world_of self.old) slot (option_map (shortened result) ((world_of self.old).slots slot)) }
        ensures failed { failed_of self.new ≡ failed_of self.old }
        ensures most { self.new.most ≡ self.old.most }
    {
        let most = self.most;
        self.slots[slot as usize].take(most, buffer)
    }

    // Ends a slot.
    pub fn end(&mut self, slot: u32)
        requires { IsSome ((world_of self.old).slots slot) }
        ensures world { world_of self.new ≡ set_slot (world_of self.old) slot None }
        ensures failed { failed_of self.new ≡ failed_of self.old }
        ensures most { self.new.most ≡ self.old.most }
    {
        self.slots[slot as usize].state = SlotState::Closed;
    }

    // Opens a slot that writes the file, which is empty from then on.
    pub fn make(&mut self, name: &str) -> Result<u32, Memory>
        ensures made { IfOk result (λ slot. MakesSlot (world_of self.old) (world_of self.new) name.now slot) }
        ensures stays { OnErr result (world_of self.new ≡ world_of self.old) }
        ensures failed { failed_of self.new ≡ failed_of self.old }
        ensures most { self.new.most ≡ self.old.most }
    {
        let slot = self.add_slot(name, SlotState::Writing)?;
        match self.set_file(name, &[]) {
            Ok(()) => Ok(slot),
            Err(Memory) => {
                self.end(slot);
                Err(Memory)
            }
        }
    }

    // Adds a piece to the end of a writing slot's file.
    pub fn put(&mut self, slot: u32, piece: &[u8]) -> Result<(), Memory>
        requires { IsSome ((world_of self.old).slots slot) }
        ensures put { OnOk result (world_of self.new ≡ append (world_of self.old) (name_at (world_of self.old) slot) piece.now) }
        ensures stays { OnErr result (world_of self.new ≡ world_of self.old) }
        ensures failed { failed_of self.new ≡ failed_of self.old }
        ensures most { self.new.most ≡ self.old.most }
    {
        match find(&self.files, self.slots[slot as usize].name.as_str()) {
            Some(i) => self.files[i].grow(piece),
            None => Ok(()),
        }
    }

    // Adds a piece to the end of the output.
    pub fn out(&mut self, piece: &[u8]) -> Result<(), Memory>
        ensures out { OnOk result (world_of self.new ≡ print (world_of self.old) piece.now) }
        ensures stays { OnErr result (world_of self.new ≡ world_of self.old) }
        ensures failed { failed_of self.new ≡ failed_of self.old }
        ensures most { self.new.most ≡ self.old.most }
    {
        Ok(self.output.extend_from_slice(piece)?)
    }

    // Keeps a name as the one whose reading failed last.
    pub fn fail_name(&mut self, name: &str) -> Result<(), Memory>
        ensures world { world_of self.new ≡ world_of self.old }
        ensures failed { OnOk result (failed_of self.new ≡ Some name.now) }
        ensures most { self.new.most ≡ self.old.most }
        ensures stays { OnErr result (failed_of self.new ≡ failed_of self.old) }
    {
        let place = self.slots.len();
        let name = String::from_str(self.alloc, name)?;
        let state = SlotState::Closed;
        self.slots.push(KeptSlot { name, state })?;
        self.failed = Some(place);
        Ok(())
    }

    // Keeps the name of a slot as the one whose reading failed last.
    pub fn fail_slot(&mut self, slot: u32)
        requires { IsSome ((world_of self.old).slots slot) }
        ensures world { world_of self.new ≡ world_of self.old }
        ensures failed { failed_of self.new ≡ Some (name_at (world_of self.old) slot) }
        ensures most { self.new.most ≡ self.old.most }
    {
        self.failed = Some(slot as usize);
    }
}
