//! The job of one word of `scenarios`.
ghost use Rattle.std.specs.Prelude.{◌≡◌, Option};
ghost use Rattle.std.specs.Option.{option_copied};
ghost use Rattle.plan_report.specs.declared.file.InputFile.TheVariants.{Scenario as OfScenario};
ghost use Rattle.tqd_top.specs.Scenarios.{ScenarioGives, ScenarioJobGives, ScenarioTermsGive, scenario_stated};
ghost use Rattle.tqd_top.specs.Inner.ReadBook.{IsReadBook, IsScenarioBook};
ghost use Rattle.tqd_top.specs.Inner.Steps.{Answers, ReadGives};
ghost use Rattle.tqd_top.specs.Unread.{FailsAtGiven};

use crate::kept::OffersKept;
use crate::no_value::{NoValue, bad, bad_offers};
use crate::source::{Source, read_file};
use offer_reader::{OfferBook, read_terms};
use plan_report::{FileFault, InputFile};
use std::alloc::Global;
use tqd_base::{Desk, Stop};
use tqd_instance::Job;

/// The terms of the word with this number, of these offers.
#[derive(Drop)]
struct ScenarioFile<'a> {
    kept: &'a OffersKept,
    at: u32,
}

impl<'a> Source for ScenarioFile<'a> {
    type Value = OfferBook;

    ghost file_of = { λ source. OfScenario source.at };

    ghost stated = { λ source. scenario_stated source.kept.now source.at };

    ghost IsReady = { λ source. Unit {0} };

    fn file(&self) -> InputFile {
        InputFile::Scenario(self.at)
    }

    fn read(self, alloc: Global, bytes: Vec<u8>) -> Result<OfferBook, NoValue> {
        let ScenarioFile { kept, at } = self;
        let book = kept.book_again(alloc)?;
        let offers = kept.offers();
        match read_terms(alloc, book, &bytes, &offers.bill, &offers.needs) {
            Ok(book) => Ok(book),
            Err(Stop::Refused(fault)) => Err(bad(alloc, FileFault::ScenarioTerms { at, fault })),
            Err(Stop::Memory) => Err(NoValue::Memory),
        }
    }
}

/// The book of the offers with the terms of the word with this number; without a file, the book as it is.
fn read_scenario_terms<D: Desk>(
    alloc: Global,
    desk: &mut D,
    kept: &OffersKept,
    at: u32,
    terms: Option<&str>,
) -> Result<OfferBook, NoValue>
    ensures { let named = option_copied terms.entry in
        ReadGives (ScenarioTermsGive D.absent_is_empty (D.state desk.old).world kept.now at named)
        (λ file. (file ≡ OfScenario at) × FailsAtGiven (D.state desk.old) (D.state desk.new) named)
        (D.state desk.old) (D.state desk.new) result }
{
    match terms {
        Some(name) => read_file(alloc, desk, name, ScenarioFile { kept, at }),
        None => Ok(kept.book_again(alloc)?),
    }
}

/// The job of a book with the terms of the word with this number.
fn scenario_job(alloc: Global, kept: &OffersKept, at: u32, book: &OfferBook) -> Result<Job, NoValue>
    requires facts { IsReadBook kept.now }
    requires book { IsScenarioBook kept.now book.now }
    ensures { Answers (ScenarioJobGives kept.now at book.now) result }
{
    match Job::build(alloc, book.parts()) {
        Ok(job) => Ok(job),
        Err(Stop::Refused(fault)) => {
            let fault = FileFault::ScenarioJob { at, fault };
            Err(bad_offers(alloc, fault, kept.offers()))
        }
        Err(Stop::Memory) => Err(NoValue::Memory),
    }
}

/// The job that the offers make with the terms of the word with this number; without a file, with no terms.
pub(crate) fn read_scenario<D: Desk>(
    alloc: Global,
    desk: &mut D,
    kept: &OffersKept,
    at: u32,
    terms: Option<&str>,
) -> Result<Job, NoValue>
    requires { IsReadBook kept.now }
    ensures { let named = option_copied terms.entry in
        ReadGives (ScenarioGives D.absent_is_empty (D.state desk.old).world kept.now at named)
        (λ file. (file ≡ OfScenario at) × FailsAtGiven (D.state desk.old) (D.state desk.new) named)
        (D.state desk.old) (D.state desk.new) result }
{
    let book = read_scenario_terms(alloc, desk, kept, at, terms)?;
    scenario_job(alloc, kept, at, &book)
}
