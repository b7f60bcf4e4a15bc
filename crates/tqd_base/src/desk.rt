ghost use Rattle.std.specs.Prelude.{◌<◌, Bool, length, IsSome};
ghost use Rattle.tqd_base.specs.World.{State, Reads, Writes, HasNoSlot};
ghost use Rattle.tqd_base.specs.Calls.{OpenGives, TakeGives, MakeGives, PutGives, OutGives, CloseGives};

use crate::memory::Memory;
use std::alloc::{AllocError, Global};
use thiserror::Error;

/// Why a call of a desk failed: the device, or the want of memory.
#[derive(Clone, Copy, Debug, PartialEq, Eq, Error)]
pub enum DeskStop {
    #[error("the device failed")]
    Failed,
    #[error("out of memory")]
    Memory,
}

impl From<Memory> for DeskStop {
    ghost use Rattle.tqd_base.specs.declared.desk.DeskStop.TheVariants.{Memory};
    ghost use Rattle.std.specs.Prelude.{◌≡◌};

    ghost from_gives = { λ _ e. e ≡ Memory };

    fn from(_error: Memory) -> DeskStop {
        DeskStop::Memory
    }
}

impl From<AllocError> for DeskStop {
    ghost use Rattle.tqd_base.specs.declared.desk.DeskStop.TheVariants.{Memory};
    ghost use Rattle.std.specs.Prelude.{◌≡◌};

    ghost from_gives = { λ _ e. e ≡ Memory };

    fn from(_error: AllocError) -> DeskStop {
        DeskStop::Memory
    }
}

/// Where a program reads, writes and prints: named files in numbered slots, and an output.
///
/// A desk may tell what its files and its output hold; where it does not, the clauses on them say nothing. Each kind of
/// fault (reading, writing, printing) has a count that never falls, and a call fails only where the count of its kind
/// rose. A call leaves all as it was but for what its clause says, by cases on its answer.
pub trait Desk {
    /// The files, the output and the open slots, the counts of faults, and the name whose reading failed last.
    ghost state: { Self → State };

    /// Whether a name that is not there reads as an empty file.
    ghost absent_is_empty: { Bool };

    /// Opens a slot that reads the file of this name from its beginning.
    fn open(&mut self, alloc: Global, name: &str) -> Result<u32, DeskStop>
        ensures { OpenGives absent_is_empty (state self.old) (state self.new) name.now result };

    /// Moves bytes from the front of those that a reading slot has left to the front of the buffer, and says how many.
    /// It never answers Memory.
    fn take(&mut self, slot: u32, buffer: &mut [u8]) -> Result<usize, DeskStop>
        requires reads { Reads ((state self.old).world.slots slot) }
        requires room { 0 < length buffer.old }
        ensures { TakeGives (state self.old) (state self.new) slot buffer.new result };

    /// Opens a slot that writes the file of this name, which is empty from then on. No open slot may be of that name.
    fn make(&mut self, alloc: Global, name: &str) -> Result<u32, DeskStop>
        requires { HasNoSlot (state self.old).world name.now }
        ensures { MakeGives (state self.old) (state self.new) name.now result };

    /// Adds a piece to the end of a writing slot's file; where that fails, a prefix of the piece.
    fn put(&mut self, slot: u32, piece: &[u8]) -> Result<(), DeskStop>
        requires { Writes ((state self.old).world.slots slot) }
        ensures { PutGives (state self.old) (state self.new) slot piece.now result };

    /// Adds a piece to the end of the output; where that fails, a prefix of the piece.
    fn out(&mut self, piece: &[u8]) -> Result<(), DeskStop>
        ensures { OutGives (state self.old) (state self.new) piece.now result };

    /// Ends a slot, whatever it answers. Only a slot that writes may fail, and the file's bytes stay.
    /// It never answers Memory.
    fn close(&mut self, slot: u32) -> Result<(), DeskStop>
        requires { IsSome ((state self.old).world.slots slot) }
        ensures { CloseGives (state self.old) (state self.new) slot result };
}
