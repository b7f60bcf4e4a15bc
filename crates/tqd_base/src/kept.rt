ghost use Rattle.std.specs.Prelude.{◌≡◌, ◌<◌, ◌≤◌, length, IfSome, MatchOption, None, option_and_then, string_bytes, ◌++◌, OnOk, OnErr};
ghost use Rattle.std.specs.Option.{option_map, option_copied};
ghost use Rattle.tqd_base.specs.World.{Reads, left_of, shortened};
ghost use Rattle.tqd_base.specs.Calls.{Moves};
ghost use Rattle.tqd_base.specs.Kept.{file_at, IsFirstAt, slot_in};

use crate::memory::Memory;

/// A file that is kept in memory.
#[derive(Debug, Drop)]
pub struct StoredFile {
    pub name: String,
    pub bytes: Vec<u8>,
}

impl StoredFile {
    // Adds a piece at the end. On an error the bytes stay.
    pub fn grow(&mut self, piece: &[u8]) -> Result<(), Memory>
        ensures grown { OnOk result (self.new.bytes.items ≡ self.old.bytes.items ++ piece.now) }
        ensures stays { OnErr result (self.new.bytes.items ≡ self.old.bytes.items) }
        ensures named { string_bytes self.new.name ≡ string_bytes self.old.name }
    {
        Ok(self.bytes.extend_from_slice(piece)?)
    }
}

/// What a slot is at: it ended, it reads bytes of its own from a place on, or it writes.
#[derive(Debug, Drop)]
pub enum SlotState {
    Closed,
    Reading(Vec<u8>, usize),
    Writing,
}

/// A slot, which keeps its name when it has ended.
#[derive(Debug, Drop)]
pub struct KeptSlot {
    pub name: String,
    pub state: SlotState,
}

impl KeptSlot {
    ghost use Rattle.tqd_base.specs.Kept.{slot_of};
    ghost use Rattle.tqd_base.specs.Store.{is_writing_slot};

    // Whether the slot writes.
    #[tactic(auto, unfolding(crate::specs::Kept::slot_of, crate::specs::Store::is_writing_slot))]
    pub fn is_writing(&self) -> bool
        ensures { result ≡ is_writing_slot (slot_of self.now) }
    {
        matches!(self.state, SlotState::Writing)
    }

    // Moves at most so many of the bytes left to the front of the buffer.
    #[tactic(auto, unfolding(crate::specs::Kept::slot_of, crate::specs::World::Reads, crate::specs::World::shortened, crate::specs::World::left_of))]
    pub fn take(&mut self, most: usize, buffer: &mut [u8]) -> usize
        requires reads { Reads (slot_of self.old) }
        requires room { 0 < length buffer.old }
        requires some { 1 ≤ most }
        ensures fits { result ≤ length buffer.new }
        ensures bounded { result ≤ most }
        ensures moved { IfSome (option_and_then left_of (slot_of self.old)) (λ left. Moves left buffer.new result) }
        ensures after { slot_of self.new ≡ option_map (shortened result) (slot_of self.old) }
        ensures named { string_bytes self.new.name ≡ string_bytes self.old.name }
    {
        match &mut self.state {
            SlotState::Reading(bytes, at) => {
                let from = (*at).min(bytes.len());
                let count = (bytes.len() - from).min(most).min(buffer.len());
                buffer[..count].copy_from_slice(&bytes[from..from + count]);
                *at = from + count;
                count
            }
            _ => unreachable!(),
        }
    }
}

// The place of the first file of a name.
pub fn find(files: &[StoredFile], name: &str) -> Option<usize>
    ensures { MatchOption result (file_at files.now name.now ≡ None) (IsFirstAt files.now name.now) }
{
    for (i, file) in files.iter().enumerate() {
        if name == file.name.as_str() {
            return Some(i);
        }
    }
    None
}
