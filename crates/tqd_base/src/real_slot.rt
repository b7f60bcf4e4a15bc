ghost use Rattle.std.specs.Prelude.{◌≡◌, ◌≤◌, length, IfOk, true};
ghost use Rattle.tqd_base.specs.World.{Reads, Writes};

use std::fs::OpenFile;
use std::io;
use std::io::{ErrorKind, Read, Write};

/// A slot of a real file, or one that has ended.
#[derive(Drop)]
pub enum RealSlot<F> {
    Closed,
    Reading(String, F),
    Writing(String, F),
}

impl<F: Read + Write + OpenFile + Drop> RealSlot<F> {
    ghost use Rattle.tqd_base.specs.RealState.{real_slot};

    // Reads once.
    pub fn read(&mut self, buffer: &mut [u8]) -> io::Result<usize>
        requires { Reads (real_slot self.old) }
        ensures fits { IfOk result (λ n. n ≤ length buffer.new) }
        ensures same { real_slot self.new ≡ real_slot self.old }
    {
        match self {
            RealSlot::Reading(_, file) => file.read(buffer),
            _ => unreachable!(),
        }
    }

    // Writes a piece, and says whether the file took it whole.
    pub fn write(&mut self, piece: &[u8]) -> bool
        requires { Writes (real_slot self.old) }
        ensures { real_slot self.new ≡ real_slot self.old }
    {
        match self {
            RealSlot::Writing(_, file) => write_whole(file, piece),
            _ => unreachable!(),
        }
    }

    // Brings what a slot wrote to the disk, and says whether that failed.
    pub fn fails_to_settle(&mut self) -> bool
        ensures same { real_slot self.new ≡ real_slot self.old }
        ensures writes { result ≡ true → Writes (real_slot self.old) }
    {
        match self {
            RealSlot::Writing(_, file) => fails_to_reach_disk(file),
            _ => false,
        }
    }
}

// Brings a file to the disk, and says whether that failed. A device, a pipe or a terminal has no disk to be brought to:
// that the system answers so is no failure.
fn fails_to_reach_disk<F: Write + OpenFile>(file: &mut F) -> bool {
    if file.flush().is_err() {
        return true;
    }
    match file.sync_all() {
        Ok(()) => false,
        Err(error) => error.kind() != ErrorKind::InvalidInput,
    }
}

// Writes a piece, and says whether it was taken whole. A write that takes nothing is a failure.
pub fn write_whole<W: Write>(writer: &mut W, piece: &[u8]) -> bool {
    let mut rest = piece;
    while !rest.is_empty() {
        match writer.write(rest) {
            Ok(0) | Err(_) => return false,
            Ok(count) => rest = &rest[count..],
        }
    }
    true
}
