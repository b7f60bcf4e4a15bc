ghost use Rattle.std.specs.Prelude.{◌≡◌, ◌<◌, ℕ, None, IsSome, IfOk, OnErr, length};
ghost use Rattle.tqd_base.specs.RealState.{real_state, real_slot, real_world};
ghost use Rattle.tqd_base.specs.World.{IsIdle};
ghost use Rattle.tqd_base.specs.Store.{HasNoFaults};

use crate::count::risen;
use crate::desk::{Desk, DeskStop};
use crate::memory::Memory;
use crate::real_slot::{RealSlot, write_whole};
use std::alloc::Global;
use std::rt::Files;
use std::{fs, io};

/// The desk of a program that runs: files by their paths, and standard output.
///
/// It tells its slots and their names, and nothing of what the files and the output hold: what the system does with
/// them is outside of what is proved. Each error of the system is a fault, and so is a write that takes nothing of a
/// piece that is not empty. A slot's number is its place in the list, which is never shortened.
#[derive(Drop)]
pub struct RealDesk<'r, R: Files + Print> {
    rt: &'r R,
    alloc: Global,
    slots: Vec<RealSlot<R::File>>,
    reading: u64,
    writing: u64,
    printing: u64,
}

impl<'r, R: Files + Print> RealDesk<'r, R> {
    /// A desk without an open slot. It takes no memory.
    pub fn new(rt: &'r R, alloc: Global) -> RealDesk<'r, R>
        ensures idle { IsIdle (real_world result.slots.items) }
        ensures faults { HasNoFaults (real_state result.slots.items result.reading result.writing result.printing) }
    {
        RealDesk {
            rt,
            alloc,
            slots: Vec::new(alloc),
            reading: 0,
            writing: 0,
            printing: 0,
        }
    }
}

// Adds a slot that is not open.
fn add_slot<F: Drop>(slots: &mut Vec<RealSlot<F>>) -> Result<u32, Memory>
    ensures within { IfOk result (λ number. number < length slots.new.items) }
    ensures closed { IfOk result (λ number. (real_world slots.new.items).slots number ≡ None) }
    ensures world { real_world slots.new.items ≡ real_world slots.old.items }
{
    let number = slots.len();
    if number >= u32::MAX as usize {
        return Err(Memory);
    }
    slots.push(RealSlot::Closed)?;
    Ok(number as u32)
}

impl<'r, R: Files + Print> Desk for RealDesk<'r, R> {
    ghost use Rattle.std.specs.Prelude.{false};
    ghost use Rattle.tqd_base.specs.RealState.{real_state};

    ghost state = { λ desk. real_state desk.slots.items desk.reading desk.writing desk.printing };

    ghost absent_is_empty = { false };

    fn open(&mut self, _alloc: Global, name: &str) -> Result<u32, DeskStop> {
        let kept = String::from_str(self.alloc, name)?;
        let number = add_slot(&mut self.slots)?;
        match fs::open(self.rt, name) {
            Ok(file) => {
                self.slots[number as usize] = RealSlot::Reading(kept, file);
                Ok(number)
            }
            Err(_) => {
                self.reading = risen(self.reading);
                Err(DeskStop::Failed)
            }
        }
    }

    fn take(&mut self, slot: u32, buffer: &mut [u8]) -> Result<usize, DeskStop> {
        match self.slots[slot as usize].read(buffer) {
            Ok(count) => Ok(count),
            Err(_) => {
                self.reading = risen(self.reading);
                Err(DeskStop::Failed)
            }
        }
    }

    fn make(&mut self, _alloc: Global, name: &str) -> Result<u32, DeskStop> {
        let kept = String::from_str(self.alloc, name)?;
        let number = add_slot(&mut self.slots)?;
        match fs::create(self.rt, name) {
            Ok(file) => {
                self.slots[number as usize] = RealSlot::Writing(kept, file);
                Ok(number)
            }
            Err(_) => {
                self.writing = risen(self.writing);
                Err(DeskStop::Failed)
            }
        }
    }

    fn put(&mut self, slot: u32, piece: &[u8]) -> Result<(), DeskStop> {
        if self.slots[slot as usize].write(piece) {
            return Ok(());
        }
        self.writing = risen(self.writing);
        Err(DeskStop::Failed)
    }

    fn out(&mut self, piece: &[u8]) -> Result<(), DeskStop> {
        if write_whole(&mut io::writer(self.rt), piece) {
            return Ok(());
        }
        self.printing = risen(self.printing);
        Err(DeskStop::Failed)
    }

    fn close(&mut self, slot: u32) -> Result<(), DeskStop> {
        let ended = &mut self.slots[slot as usize];
        let fails = ended.fails_to_settle();
        *ended = RealSlot::Closed;
        if fails {
            self.writing = risen(self.writing);
            return Err(DeskStop::Failed);
        }
        Ok(())
    }
}
