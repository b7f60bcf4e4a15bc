ghost use Rattle.std.specs.Prelude.{◌≡◌};
ghost use Rattle.tqd_base.specs.World.{Reads};
ghost use Rattle.tqd_base.specs.ReadAll.{ReadAllGives};
ghost use Rattle.tqd_base.specs.TakeAll.{TakeAllGives};

use crate::desk::{Desk, DeskStop};
use std::alloc::{AllocError, Global};
use thiserror::Error;

/// Why a file was not read whole.
#[derive(Clone, Copy, Debug, PartialEq, Eq, Error)]
pub enum ReadStop {
    #[error("the device failed")]
    Fault,
    #[error("the file is too large")]
    Size,
    #[error("out of memory")]
    Memory,
}

impl From<DeskStop> for ReadStop {
    ghost use Rattle.tqd_base.specs.Stops.{read_stop_of};

    ghost from_gives = { λ e r. r ≡ read_stop_of e };

    fn from(stop: DeskStop) -> ReadStop {
        match stop {
            DeskStop::Failed => ReadStop::Fault,
            DeskStop::Memory => ReadStop::Memory,
        }
    }
}

impl From<AllocError> for ReadStop {
    ghost use Rattle.tqd_base.specs.declared.read.ReadStop.TheVariants.{Memory};

    ghost from_gives = { λ _ r. r ≡ Memory };

    fn from(_error: AllocError) -> ReadStop {
        ReadStop::Memory
    }
}

/// How many bytes one call of `take` is offered room for.
const CHUNK: usize = 65_536;

// Takes what a reading slot has left, until nothing is left or more than the limit was taken.
fn take_all<D: Desk>(
    alloc: Global,
    desk: &mut D,
    slot: u32,
    limit: u64,
) -> Result<Vec<u8>, ReadStop>
    requires { Reads ((D.state desk.old).world.slots slot) }
    ensures { TakeAllGives (D.state desk.old) (D.state desk.new) slot limit result }
{
    let mut buffer = vec![in alloc; 0u8; CHUNK]?;
    let mut bytes = Vec::new(alloc);
    loop {
        let taken = desk.take(slot, &mut buffer)?;
        if taken == 0 {
            return Ok(bytes);
        }
        bytes.extend_from_slice(&buffer[..taken])?;
        if bytes.len() as u64 > limit {
            return Err(ReadStop::Size);
        }
    }
}

/// Reads the whole file of a name, of at most `limit` bytes.
///
/// It opens a slot, takes until nothing is left and closes it, so no slot that it opened stays open. It stops with Size
/// as soon as more than the limit was taken. Each turn takes at least one byte, so it always returns.
pub fn read_all<D: Desk>(
    alloc: Global,
    desk: &mut D,
    name: &str,
    limit: u64,
) -> Result<Vec<u8>, ReadStop>
    ensures { ReadAllGives D.absent_is_empty (D.state desk.old) (D.state desk.new) name.now limit result }
{
    let slot = desk.open(alloc, name)?;
    let read = take_all(alloc, desk, slot, limit);
    // A slot that reads never fails to close.
    let _closed = desk.close(slot);
    read
}
