//! Reading the offers and the terms, and building the job.
ghost use Rattle.std.specs.Prelude.{◌≡◌, Option};
ghost use Rattle.std.specs.Option.{option_copied};
ghost use Rattle.offer_reader.specs.Book.{HasNoTerms};
ghost use Rattle.plan_report.specs.declared.file.InputFile.TheVariants.{Terms as InTerms};
ghost use Rattle.tqd_top.specs.JobOf.{JobGives, JobOf, OffersOf, TermsGive, TermsOf};
ghost use Rattle.tqd_top.specs.Inner.ReadBook.{IsReadBook};
ghost use Rattle.tqd_top.specs.Inner.Steps.{Answers, ReadGives};
ghost use Rattle.tqd_top.specs.Unread.{FailsAtGiven, IsUnread, IsUnreadOffers};
ghost use Rattle.command_words.specs.Words.{files_named};

use crate::input::read_needs;
use crate::kept::OffersKept;
use crate::no_value::{NoValue, bad_offers};
use crate::reading::{JobRead, OffersRead};
use crate::source::read_file;
use crate::sources::{OffersFile, TermsFile};
use command_words::JobFiles;
use plan_report::FileFault;
use std::alloc::Global;
use tqd_base::{Desk, Stop};
use tqd_instance::Job;

/// The offers with the terms that a file states; without a file, the offers as they are.
fn read_given_terms<D: Desk>(
    alloc: Global,
    desk: &mut D,
    read: OffersRead,
    terms: Option<&str>,
) -> Result<OffersRead, NoValue>
    requires no_terms { HasNoTerms read.book.parts }
    requires facts { IsReadBook read }
    ensures { ReadGives (TermsGive D.absent_is_empty (D.state desk.old).world (option_copied terms.entry) read)
        (λ file. (file ≡ InTerms) × FailsAtGiven (D.state desk.old) (D.state desk.new) (option_copied terms.entry))
        (D.state desk.old) (D.state desk.new) result }
{
    match terms {
        Some(name) => read_file(alloc, desk, name, TermsFile(read)),
        None => Ok(read),
    }
}

/// The offers that files state, after orders and bill.
pub(crate) fn read_offer_files<D: Desk>(
    alloc: Global,
    desk: &mut D,
    files: &JobFiles<'_>,
) -> Result<OffersKept, NoValue>
    ensures { ReadGives (OffersOf D.absent_is_empty (D.state desk.old).world (files_named files.now))
        (IsUnreadOffers D.absent_is_empty (D.state desk.old) (D.state desk.new) (files_named files.now))
        (D.state desk.old) (D.state desk.new) result }
{
    let read = read_needs(alloc, desk, files.orders, files.bill)?;
    read_file(alloc, desk, files.offers, OffersFile(read))
}

/// The offers and the terms that files state, after orders and bill.
fn read_term_files<D: Desk>(
    alloc: Global,
    desk: &mut D,
    files: &JobFiles<'_>,
) -> Result<OffersRead, NoValue>
    ensures { ReadGives (TermsOf D.absent_is_empty (D.state desk.old).world (files_named files.now))
        (IsUnread D.absent_is_empty (D.state desk.old) (D.state desk.new) (files_named files.now))
        (D.state desk.old) (D.state desk.new) result }
{
    let kept = read_offer_files(alloc, desk, files)?;
    read_given_terms(alloc, desk, kept.into_offers(), files.terms)
}

fn job_of(alloc: Global, read: OffersRead) -> Result<JobRead, NoValue>
    requires { IsReadBook read }
    ensures { Answers (JobGives read) result }
{
    match Job::build(alloc, read.book.parts()) {
        Ok(job) => {
            let OffersRead { bill, needs, book } = read;
            Ok(JobRead {
                bill,
                needs,
                book,
                job,
            })
        }
        Err(Stop::Refused(fault)) => Err(bad_offers(alloc, FileFault::Job(fault), &read)),
        Err(Stop::Memory) => Err(NoValue::Memory),
    }
}

/// The job that files state, with all that was read for it; or what halted the reading first. Every slot that was
/// opened is closed, and but for the count and the name of a fault of reading the desk is as it was.
pub(crate) fn read_job<D: Desk>(
    alloc: Global,
    desk: &mut D,
    files: &JobFiles<'_>,
) -> Result<JobRead, NoValue>
    ensures { ReadGives (JobOf D.absent_is_empty (D.state desk.old).world (files_named files.now))
        (IsUnread D.absent_is_empty (D.state desk.old) (D.state desk.new) (files_named files.now))
        (D.state desk.old) (D.state desk.new) result }
{
    let read = read_term_files(alloc, desk, files)?;
    job_of(alloc, read)
}
