//! Reading the files of `requote`.
ghost use Rattle.std.specs.Prelude.{◌≡◌};
ghost use Rattle.command_words.specs.Words.{files_named};
ghost use Rattle.tqd_top.specs.Inner.Runs.{RequoteGives};

use crate::job::read_job;
use crate::no_value::NoValue;
use crate::reading::JobRead;
use crate::source::read_bytes;
use command_words::JobFiles;
use plan_report::InputFile;
use requote::OLD_MAX;
use std::alloc::Global;
use std::marker::Model;
use tqd_base::Desk;

/// The bytes of the file of an old tree, which contracts see as they are.
#[derive(Drop)]
pub(crate) struct OldTree {
    bytes: Vec<u8>,
}

impl Model for OldTree {
    ghost use Rattle.tqd_base.specs.World.{Bytes};

    ghost Value = { Bytes };

    ghost view = { λ old. old.bytes.items };
}

impl OldTree {
    /// The bytes.
    pub(crate) fn as_bytes(&self) -> &[u8]
        ensures { result.now ≡ self.now }
    {
        &self.bytes
    }
}

/// What the files of a `requote` state: the job, and the old tree.
#[derive(Drop)]
pub(crate) struct RequoteRead {
    pub job: JobRead,
    pub old: OldTree,
}

/// The job that files state, and then the bytes of the file of an old tree, at most 268,435,456; or what halted the
/// reading first. Every slot that was opened is closed, and but for the count and the name of a fault of reading the
/// desk is as it was.
pub(crate) fn read_requote<D: Desk>(
    alloc: Global,
    desk: &mut D,
    files: &JobFiles<'_>,
    old: &str,
) -> Result<RequoteRead, NoValue>
    ensures { RequoteGives D.absent_is_empty (D.state desk.old) (D.state desk.new)
        (files_named files.now) old.now result }
{
    let job = read_job(alloc, desk, files)?;
    let bytes = read_bytes(alloc, desk, InputFile::Old, old, OLD_MAX)?;
    Ok(RequoteRead {
        job,
        old: OldTree { bytes },
    })
}
