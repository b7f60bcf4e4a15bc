use crate::file::InputFile;
use bom_explode::ExplodeFault;
use bom_reader::BillFault;
use offer_reader::{OfferFault, TermFault};
use tqd_instance::JobFault;

/// The first fault of the files that a command reads.
#[derive(Clone, Copy, Debug, PartialEq, Eq)]
pub enum FileFault {
    /// A file has more bytes than are read: more than 16,777,216, or more than 2^62 in the tree, or more than 268,435,456 in
    /// the old tree.
    Size(InputFile),
    /// A fault of the orders.
    Orders(BillFault),
    /// A fault of the bill.
    Bill(BillFault),
    /// The bill has a circle, or a need that is too great.
    Explode(ExplodeFault),
    /// A fault of the offers.
    Offers(OfferFault),
    /// A fault of the terms.
    Terms(TermFault),
    /// A fault of the job that the files state.
    Job(JobFault),
    /// A fault of the terms of a scenario. Scenarios are numbered from 1.
    ScenarioTerms { at: u32, fault: TermFault },
    /// A fault of the job that the files state with the terms of a scenario.
    ScenarioJob { at: u32, fault: JobFault },
    /// Nobody of the name that was asked for offers a part that is needed.
    NoSupplier,
}
