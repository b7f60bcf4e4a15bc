//! Terms whose job, or whose first fault, is known.

use crate::offers::{bill_of_two, needs_of};
use csv_rows::RowFault;
use offer_reader::{OfferBook, TermFault, read_offers, read_terms};
use std::alloc::Global;
use std::process::Abort;
use tqd_base::Stop;
use tqd_instance::{Job, JobFault};

/// A sells both goods, B the first alone, and C a part that is no good.
const OFFERS: &str = "supplier,from,part,price\nA,1,x,1\nA,1,y,2\nB,1,x,1\nC,1,z,1\n";

/// What is read of a file of terms.
fn read(alloc: Global, terms: &str) -> Result<OfferBook, Stop<TermFault>> {
    let Some(bill) = bill_of_two(alloc) else {
        return Err(Stop::Memory);
    };
    let Some(needs) = needs_of(alloc, &bill) else {
        return Err(Stop::Memory);
    };
    match read_offers(alloc, OFFERS.as_bytes(), &bill, &needs) {
        Ok(book) => read_terms(alloc, book, terms.as_bytes(), &bill, &needs),
        Err(_) => Err(Stop::Memory),
    }
}

/// The fault that a file of terms is refused with, if it is.
fn fault_of(alloc: Global, terms: &str) -> Option<TermFault> {
    match read(alloc, terms) {
        Err(Stop::Refused(fault)) => Some(fault),
        Ok(_) | Err(Stop::Memory) => None,
    }
}

/// Files, and the first fault of each.
const FAULTS: [(&str, TermFault); 14] = [
    // the form of a row comes first
    (
        "kind,supplier,part,low,high\nfee,A,,,x\n",
        TermFault::Field { at: 2, field: 5 },
    ),
    (
        "kind,supplier,part,low,high\nfee,A,,,1000001\n",
        TermFault::Field { at: 2, field: 5 },
    ),
    (
        "kind,supplier,part,low,high\nover,,x,1,any\n",
        TermFault::Field { at: 2, field: 4 },
    ),
    (
        "kind,supplier,part,low,high\nover,A,x,1,any\n",
        TermFault::Field { at: 2, field: 2 },
    ),
    (
        "kind,supplier,part,low,high\nstock,A,,,1\n",
        TermFault::Field { at: 2, field: 3 },
    ),
    (
        "kind,supplier,part,low,high\nwinners,,,,65\n",
        TermFault::Field { at: 2, field: 5 },
    ),
    (
        "kind,supplier,part,low,high\nmultiple,A,r,10,\n",
        TermFault::OrderMultiple { at: 2 },
    ),
    (
        "kind,supplier,part,low,high\nfee,A,,,1\nfees,A,,,1\n",
        TermFault::UnknownKind { at: 3 },
    ),
    // then its names, and last whether it stood before
    (
        "kind,supplier,part,low,high\ntotal,D,,,5\n",
        TermFault::UnknownSupplier { at: 2 },
    ),
    (
        "kind,supplier,part,low,high\nstock,D,w,,5\n",
        TermFault::UnknownSupplier { at: 2 },
    ),
    (
        "kind,supplier,part,low,high\nstock,A,w,,5\n",
        TermFault::UnknownPart { at: 2 },
    ),
    (
        "kind,supplier,part,low,high\nfee,A,,,1\nfee,A,,,1\n",
        TermFault::Twice { at: 3 },
    ),
    // rows on suppliers that have no part in the job are counted
    (
        "kind,supplier,part,low,high\ntotal,C,,,1\ntotal,C,,,2\n",
        TermFault::Twice { at: 3 },
    ),
    // the form of all rows comes before the names of the first
    (
        "kind,supplier,part,low,high\ntotal,D,,,5\ntotal,A\n",
        TermFault::Rows(RowFault::Width { at: 3, found: 2 }),
    ),
];

#[test]
fn terms_are_refused_by_their_first_fault(rt: HostRuntime) {
    for (terms, fault) in FAULTS {
        assert_eq!(rt; fault_of(rt.alloc(), terms), Some(fault), "at {terms}");
    }
}

/// What is built of the parts with a file of terms, which has to be read.
fn job_of(alloc: Global, terms: &str) -> Result<Job, Stop<JobFault>> {
    match read(alloc, terms) {
        Ok(book) => Job::build(alloc, book.parts()),
        Err(_) => Err(Stop::Memory),
    }
}

/// The fault of the job with a file of terms, if it has one.
fn job_fault(alloc: Global, terms: &str) -> Option<JobFault> {
    match job_of(alloc, terms) {
        Err(Stop::Refused(fault)) => Some(fault),
        Ok(_) | Err(Stop::Memory) => None,
    }
}

#[test]
fn the_order_of_limits_is_left_to_the_job(rt: HostRuntime) {
    for (terms, fault) in [
        (
            "kind,supplier,part,low,high\nshare,A,,900,100\n",
            JobFault::ShareOrder { supplier: 0 },
        ),
        (
            "kind,supplier,part,low,high\nwinners,,,2,1\n",
            JobFault::WinnerOrder,
        ),
    ] {
        assert_eq!(rt; job_fault(rt.alloc(), terms), Some(fault), "at {terms}");
    }
}

/// Terms of the first supplier, of several kinds, and of the goods.
const TERMS: &str = "kind,supplier,part,low,high
stock,A,x,,60
fee,A,,,9.99
total,A,,,70
over,,,,any
over,,x,,10
winners,,,1,
";

/// Terms that have no part in the job, as B does not offer the second good. So nothing is limited.
const IDLE: &str = "kind,supplier,part,low,high
stock,B,y,,5
stock,B,z,,5
share,C,,900,100
over,,z,,5
fee,C,,,1
";

/// The stock of a good at a supplier, the most of the good that may be bought, and the fee of the supplier.
fn limits(rt: &impl Abort, job: &Job, i: usize, k: usize) -> (u64, u64, u64) {
    assert!(rt; i < job.suppliers());
    assert!(rt; k < job.goods());
    (job.stock(i, k), job.most(k), job.fee(i))
}

#[test]
fn terms_limit_suppliers_and_goods(rt: HostRuntime) {
    for (terms, i, k, want) in [
        (TERMS, 0, 0, (60, 110, 9_990_000)),
        (TERMS, 0, 1, (100_000_000, 100_000_000, 9_990_000)),
        (IDLE, 1, 0, (100_000_000, 100, 0)),
        (IDLE, 1, 1, (0, 50, 0)),
    ] {
        let Ok(job) = job_of(rt.alloc(), terms) else {
            panic!(rt; "no job of {terms}")
        };
        assert_eq!(rt; limits(&rt, &job, i, k), want, "at {i} {k}");
    }
}

/// The winner limits of a job, how many segments the first supplier has, and where its first one ends.
fn intervals(rt: &impl Abort, job: &Job) -> ((u64, u64), u8, u64) {
    assert!(rt; 0 < job.suppliers());
    let segments = job.segments(0);
    assert!(rt; 1 <= segments);
    (job.winners(), segments, job.high(0, 1))
}

#[test]
fn terms_limit_totals_and_winners(rt: HostRuntime) {
    for (terms, want) in [(TERMS, ((1, 64), 1, 70)), (IDLE, ((0, 64), 1, 100_000_000))] {
        let Ok(job) = job_of(rt.alloc(), terms) else {
            panic!(rt; "no job of {terms}")
        };
        assert_eq!(rt; intervals(&rt, &job), want);
    }
}
