ghost use Rattle.std.specs.Prelude.{◌≡◌, ◌++◌, IfOk, OnOk};
ghost use Rattle.plan_report.specs.FaultText.{IsExplodeFaultNamed, IsFaultNamed, IsJobFaultNamed, bill_cause, explode_cause, fault_cause, fault_file, fault_text, file_name, job_cause, no_price, of_scenario, size_cause, unread_text};
ghost use Rattle.plan_report.specs.OfferText.{offer_cause};
ghost use Rattle.plan_report.specs.RowText.{in_row, rows_cause};
ghost use Rattle.plan_report.specs.TermText.{term_cause};

use crate::fault::FileFault;
use crate::file::InputFile;
use crate::names::Names;
use crate::text::{add_counted, add_number, add_word};
use bom_explode::ExplodeFault;
use bom_reader::{BillFault, NameList};
use csv_rows::RowFault;
use offer_reader::{OfferFault, TermFault};
use std::alloc::Global;
use tqd_base::Memory;
use tqd_instance::JobFault;

// A word and the number of a scenario.
fn add_scenario(alloc: Global, text: &mut Vec<u8>, word: &str, at: u32) -> Result<(), Memory>
    ensures { OnOk result (text.new.items ≡ text.old.items ++ of_scenario word.now at) }
{
    add_word(text, word)?;
    add_counted(alloc, text, " ", u128::from(at))
}

// The name of a file.
fn add_file(alloc: Global, text: &mut Vec<u8>, file: InputFile) -> Result<(), Memory>
    ensures { OnOk result (text.new.items ≡ text.old.items ++ file_name file) }
{
    match file {
        InputFile::Orders => add_word(text, "orders"),
        InputFile::Bill => add_word(text, "bill"),
        InputFile::Offers => add_word(text, "offers"),
        InputFile::Terms => add_word(text, "terms"),
        InputFile::Tree => add_word(text, "tree"),
        InputFile::Old => add_word(text, "old tree"),
        InputFile::Scenario(at) => add_scenario(alloc, text, "terms", at),
    }
}

fn size_cause(file: InputFile) -> &'static str
    ensures { result.now ≡ size_cause file }
{
    match file {
        InputFile::Tree => "more than 4611686018427387904 bytes",
        InputFile::Old => "more than 268435456 bytes",
        _ => "more than 16777216 bytes",
    }
}

fn add_in_row(alloc: Global, text: &mut Vec<u8>, at: u64, cause: &str) -> Result<(), Memory>
    ensures { OnOk result (text.new.items ≡ text.old.items ++ in_row at cause.now) }
{
    add_word(text, "row ")?;
    add_number(alloc, text, at)?;
    add_word(text, ": ")?;
    add_word(text, cause)
}

#[tactic(auto, using(crate::proofs::Texts::appends))]
fn add_rows_cause(alloc: Global, text: &mut Vec<u8>, fault: RowFault) -> Result<(), Memory>
    ensures { OnOk result (text.new.items ≡ text.old.items ++ rows_cause fault) }
{
    match fault {
        RowFault::Empty => add_word(text, "no header"),
        RowFault::Header => add_word(text, "wrong header"),
        RowFault::Width { at, found } => {
            add_in_row(alloc, text, at, "")?;
            add_number(alloc, text, found)?;
            add_word(text, " fields")
        }
        RowFault::Text { at, field } => {
            add_in_row(alloc, text, at, "field ")?;
            add_number(alloc, text, field)?;
            add_word(text, " is not UTF-8")
        }
    }
}

fn add_bill_cause(alloc: Global, text: &mut Vec<u8>, fault: BillFault) -> Result<(), Memory>
    ensures { OnOk result (text.new.items ≡ text.old.items ++ bill_cause fault) }
{
    match fault {
        BillFault::Rows(fault) => add_rows_cause(alloc, text, fault),
        BillFault::TooManyLines => add_word(text, "more than 100000 lines"),
        BillFault::Name { at } => add_in_row(alloc, text, at, "bad name"),
        BillFault::Quantity { at } => add_in_row(alloc, text, at, "bad quantity"),
        BillFault::TooManyNames { at } => add_in_row(alloc, text, at, "more than 20000 names"),
        BillFault::Twice { at } => add_in_row(alloc, text, at, "given twice"),
    }
}

#[tactic(auto, using(crate::proofs::Texts::appends))]
fn add_explode_cause(
    text: &mut Vec<u8>,
    fault: ExplodeFault,
    names: &Names<'_>,
) -> Result<(), Memory>
    requires { IsExplodeFaultNamed names.now.names.now fault }
    ensures { OnOk result (text.new.items ≡ text.old.items ++ explode_cause names.now.names.now fault) }
{
    match fault {
        ExplodeFault::Circle(n) => {
            add_word(text, "circle through ")?;
            add_word(text, names.name(n as usize))
        }
        ExplodeFault::NeedRange(n) => {
            add_word(text, "need of ")?;
            add_word(text, names.name(n as usize))?;
            add_word(text, " above 100000000")
        }
    }
}

fn add_offer_cause(alloc: Global, text: &mut Vec<u8>, fault: OfferFault) -> Result<(), Memory>
    ensures { OnOk result (text.new.items ≡ text.old.items ++ offer_cause fault) }
{
    match fault {
        OfferFault::Rows(fault) => add_rows_cause(alloc, text, fault),
        OfferFault::Name { at } => add_in_row(alloc, text, at, "bad name"),
        OfferFault::From { at } => add_in_row(alloc, text, at, "bad from"),
        OfferFault::Price { at } => add_in_row(alloc, text, at, "bad price"),
        OfferFault::Twice { at } => add_in_row(alloc, text, at, "given twice"),
        OfferFault::TooManySuppliers { at } => {
            add_in_row(alloc, text, at, "more than 64 suppliers")
        }
        OfferFault::TooManyIntervals { at } => {
            add_in_row(alloc, text, at, "more than 16 intervals")
        }
    }
}

#[tactic(auto, using(crate::proofs::Texts::appends))]
fn add_term_cause(alloc: Global, text: &mut Vec<u8>, fault: TermFault) -> Result<(), Memory>
    ensures { OnOk result (text.new.items ≡ text.old.items ++ term_cause fault) }
{
    match fault {
        TermFault::Rows(fault) => add_rows_cause(alloc, text, fault),
        TermFault::UnknownKind { at } => add_in_row(alloc, text, at, "unknown kind"),
        TermFault::OrderMultiple { at } => {
            add_in_row(alloc, text, at, "order multiples are not supported")
        }
        TermFault::Field { at, field } => {
            add_in_row(alloc, text, at, "bad field ")?;
            add_number(alloc, text, field)
        }
        TermFault::UnknownSupplier { at } => add_in_row(alloc, text, at, "unknown supplier"),
        TermFault::UnknownPart { at } => add_in_row(alloc, text, at, "unknown part"),
        TermFault::Twice { at } => add_in_row(alloc, text, at, "given twice"),
    }
}

fn add_no_price(
    alloc: Global,
    text: &mut Vec<u8>,
    part: &str,
    from: u64,
    supplier: &str,
) -> Result<(), Memory>
    ensures { OnOk result (text.new.items ≡ text.old.items ++ no_price part.now from supplier.now) }
{
    add_word(text, "no price of ")?;
    add_word(text, part)?;
    add_word(text, " from ")?;
    add_number(alloc, text, from)?;
    add_word(text, " at ")?;
    add_word(text, supplier)
}

#[tactic(auto, using(crate::proofs::Texts::appends))]
fn add_job_cause(
    alloc: Global,
    text: &mut Vec<u8>,
    fault: JobFault,
    names: &Names<'_>,
) -> Result<(), Memory>
    requires { IsJobFaultNamed names.now.names.now names.now.goods.now names.now.suppliers.now fault }
    ensures { OnOk result (text.new.items ≡ text.old.items ++ job_cause names.now.names.now names.now.goods.now names.now.suppliers.now fault) }
{
    match fault {
        JobFault::TooManyGoods(count) => {
            add_number(alloc, text, count)?;
            add_word(text, " goods, at most 1000")
        }
        JobFault::MissingPrice {
            supplier,
            from,
            good,
        } => {
            let part = names.good(good as usize);
            add_no_price(alloc, text, part, from, names.supplier(supplier as usize))
        }
        JobFault::ShareOrder { supplier } => {
            add_word(text, "share of ")?;
            add_word(text, names.supplier(supplier as usize))?;
            add_word(text, ": low above high")
        }
        JobFault::WinnerOrder => add_word(text, "winners: low above high"),
    }
}

// What a fault is of.
fn add_fault_file(alloc: Global, text: &mut Vec<u8>, fault: &FileFault) -> Result<(), Memory>
    ensures { OnOk result (text.new.items ≡ text.old.items ++ fault_file fault.now) }
{
    match fault {
        FileFault::Size(file) => add_file(alloc, text, *file),
        FileFault::Orders(_) => add_word(text, "orders"),
        FileFault::Bill(_) | FileFault::Explode(_) => add_word(text, "bill"),
        FileFault::Offers(_) | FileFault::NoSupplier => add_word(text, "offers"),
        FileFault::Terms(_) => add_word(text, "terms"),
        FileFault::Job(_) => add_word(text, "job"),
        FileFault::ScenarioTerms { at, .. } => add_scenario(alloc, text, "terms", *at),
        FileFault::ScenarioJob { at, .. } => add_scenario(alloc, text, "job", *at),
    }
}

fn add_cause(
    alloc: Global,
    text: &mut Vec<u8>,
    fault: &FileFault,
    names: &Names<'_>,
) -> Result<(), Memory>
    requires { IsFaultNamed names.now.names.now names.now.goods.now names.now.suppliers.now fault.now }
    ensures { OnOk result (text.new.items ≡ text.old.items ++ fault_cause names.now.names.now names.now.goods.now names.now.suppliers.now fault.now) }
{
    match fault {
        FileFault::Size(file) => add_word(text, size_cause(*file)),
        FileFault::Orders(fault) => add_bill_cause(alloc, text, *fault),
        FileFault::Bill(fault) => add_bill_cause(alloc, text, *fault),
        FileFault::Explode(fault) => add_explode_cause(text, *fault, names),
        FileFault::Offers(fault) => add_offer_cause(alloc, text, *fault),
        FileFault::Terms(fault) => add_term_cause(alloc, text, *fault),
        FileFault::Job(fault) => add_job_cause(alloc, text, *fault, names),
        FileFault::ScenarioTerms { fault, .. } => add_term_cause(alloc, text, *fault),
        FileFault::ScenarioJob { fault, .. } => add_job_cause(alloc, text, *fault, names),
        FileFault::NoSupplier => add_word(text, "no such supplier"),
    }
}

/// The text of a fault of the files: the file, and the cause. Rows are numbered from 1, which is the header.
///
/// `goods` has for each good of the job the number of its name in `names`, and `suppliers` the names of the suppliers, as
/// far as they are known where the fault comes.
#[tactic(auto, unfolding(crate::specs::FaultText::fault_text))]
pub fn fault_text(
    alloc: Global,
    fault: &FileFault,
    names: &NameList,
    goods: &[u32],
    suppliers: &NameList,
) -> Result<Vec<u8>, Memory>
    requires { IsFaultNamed names.now goods.now suppliers.now fault.now }
    ensures { IfOk result (λ text. text.items ≡ fault_text names.now goods.now suppliers.now fault.now) }
{
    let named = Names {
        names,
        goods,
        suppliers,
    };
    let mut text = Vec::new(alloc);
    add_word(&mut text, "bad input: ")?;
    add_fault_file(alloc, &mut text, fault)?;
    add_word(&mut text, ": ")?;
    add_cause(alloc, &mut text, fault, &named)?;
    add_word(&mut text, "\n")?;
    Ok(text)
}

/// The text for an input file that could not be read.
#[tactic(auto, unfolding(crate::specs::FaultText::unread_text))]
pub fn unread_text(alloc: Global, file: InputFile) -> Result<Vec<u8>, Memory>
    ensures { IfOk result (λ text. text.items ≡ unread_text file) }
{
    let mut text = Vec::new(alloc);
    add_word(&mut text, "cannot read ")?;
    add_file(alloc, &mut text, file)?;
    add_word(&mut text, "\n")?;
    Ok(text)
}
