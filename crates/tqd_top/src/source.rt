//! One step for each file of a command: its bytes are read, and then tested.
ghost use Rattle.std.specs.Prelude.{◌≡◌};
ghost use Rattle.plan_report.specs.declared.file.InputFile.{InputFile};
ghost use Rattle.tqd_base.specs.World.{Bytes};
ghost use Rattle.tqd_top.specs.JobOf.{Gives, Outcome, sized};
ghost use Rattle.tqd_top.specs.Inner.Steps.{InputGives, IsFileUnread, ReadGives, Yields};

use crate::no_value::{NoValue, bad};
use plan_report::{FileFault, InputFile};
use std::alloc::Global;
use tqd_base::limits::FILE_MAX;
use tqd_base::{Desk, ReadStop, read_all};

/// What a file is read for.
pub(crate) trait Source: Drop + Sized {
    /// What its bytes are read as.
    type Value;

    /// Which file of a command it is.
    ghost file_of: { Self → InputFile };

    /// What the bytes state: a value, or their first fault.
    ghost stated: { Self → Bytes → Outcome Self.Value };

    /// What has to hold of the files that were read before.
    ghost IsReady: { Self → Type 0 };

    /// Which file of a command it is.
    fn file(&self) -> InputFile
        ensures { result ≡ file_of self.now };

    /// The value that the bytes state.
    fn read(self, alloc: Global, bytes: Vec<u8>) -> Result<Self::Value, NoValue>
        requires { IsReady self }
        ensures { Yields (stated self bytes.items) result };
}

/// The bytes of a file, at most `limit`. A fault of the device comes before that the file is too long.
pub(crate) fn read_bytes<D: Desk>(
    alloc: Global,
    desk: &mut D,
    file: InputFile,
    name: &str,
    limit: u64,
) -> Result<Vec<u8>, NoValue>
    ensures { InputGives D.absent_is_empty (D.state desk.old) (D.state desk.new) file name.now limit result }
{
    match read_all(alloc, desk, name, limit) {
        Ok(bytes) => Ok(bytes),
        Err(ReadStop::Size) => Err(bad(alloc, FileFault::Size(file))),
        Err(ReadStop::Fault) => Err(NoValue::Unread(file)),
        Err(ReadStop::Memory) => Err(NoValue::Memory),
    }
}

/// What the file of a name states. A fault of the device comes first, then that the file is longer than 16,777,216
/// bytes, then a fault of its form.
pub(crate) fn read_file<D: Desk, S: Source>(
    alloc: Global,
    desk: &mut D,
    name: &str,
    source: S,
) -> Result<S::Value, NoValue>
    requires { S.IsReady source }
    ensures { ReadGives
        (Gives D.absent_is_empty (D.state desk.old).world name.now (sized (S.file_of source) (S.stated source)))
        (IsFileUnread (D.state desk.old) (D.state desk.new) (S.file_of source) name.now)
        (D.state desk.old) (D.state desk.new) result }
{
    let bytes = read_bytes(alloc, desk, source.file(), name, FILE_MAX)?;
    source.read(alloc, bytes)
}
