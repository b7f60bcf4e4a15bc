//! The texts of faults.

use crate::answers::{is_text, list_of};
use bom_explode::ExplodeFault;
use bom_reader::{BillFault, NameList};
use csv_rows::RowFault;
use offer_reader::{OfferFault, TermFault};
use plan_report::{FileFault, InputFile, fault_text, unread_text};
use std::alloc::{AllocError, Global};
use std::process::Abort;
use std::test::Fail;
use tqd_instance::JobFault;

#[test]
fn files_that_are_not_read(rt: HostRuntime) {
    let alloc = rt.alloc();
    for (file, unread, size) in [
        (
            InputFile::Orders,
            "cannot read orders\n",
            "bad input: orders: more than 16777216 bytes\n",
        ),
        (
            InputFile::Bill,
            "cannot read bill\n",
            "bad input: bill: more than 16777216 bytes\n",
        ),
        (
            InputFile::Offers,
            "cannot read offers\n",
            "bad input: offers: more than 16777216 bytes\n",
        ),
        (
            InputFile::Terms,
            "cannot read terms\n",
            "bad input: terms: more than 16777216 bytes\n",
        ),
        (
            InputFile::Tree,
            "cannot read tree\n",
            "bad input: tree: more than 4611686018427387904 bytes\n",
        ),
        (
            InputFile::Old,
            "cannot read old tree\n",
            "bad input: old tree: more than 268435456 bytes\n",
        ),
        (
            InputFile::Scenario(1),
            "cannot read terms 1\n",
            "bad input: terms 1: more than 16777216 bytes\n",
        ),
        (
            InputFile::Scenario(16),
            "cannot read terms 16\n",
            "bad input: terms 16: more than 16777216 bytes\n",
        ),
    ] {
        assert!(rt; is_text(unread_text(alloc, file), unread), "{unread}");
        let none = NameList::empty(alloc);
        let printed = fault_text(alloc, &FileFault::Size(file), &none, &[], &none);
        assert!(rt; is_text(printed, size), "{size}");
    }
}

/// Whether the texts of a fault of orders and of one of a bill say this cause.
fn says_cause(alloc: Global, fault: BillFault, cause: &str) -> Result<bool, AllocError> {
    let none = NameList::empty(alloc);
    let orders = format!(in alloc; "bad input: orders: {cause}\n")?;
    let bill = format!(in alloc; "bad input: bill: {cause}\n")?;
    let of_orders = fault_text(alloc, &FileFault::Orders(fault), &none, &[], &none);
    let of_bill = fault_text(alloc, &FileFault::Bill(fault), &none, &[], &none);
    Ok(is_text(of_orders, orders.as_str()) && is_text(of_bill, bill.as_str()))
}

#[test]
fn faults_of_orders_and_bills(rt: HostRuntime) -> Result<(), Fail> {
    for (fault, cause) in [
        (BillFault::Rows(RowFault::Empty), "no header"),
        (BillFault::Rows(RowFault::Header), "wrong header"),
        (
            BillFault::Rows(RowFault::Width { at: 2, found: 1 }),
            "row 2: 1 fields",
        ),
        (
            BillFault::Rows(RowFault::Text { at: 10, field: 3 }),
            "row 10: field 3 is not UTF-8",
        ),
        (BillFault::TooManyLines, "more than 100000 lines"),
        (BillFault::Name { at: 2 }, "row 2: bad name"),
        (BillFault::Quantity { at: 3 }, "row 3: bad quantity"),
        (
            BillFault::TooManyNames { at: 10_002 },
            "row 10002: more than 20000 names",
        ),
        (BillFault::Twice { at: 4 }, "row 4: given twice"),
    ] {
        assert!(rt; says_cause(rt.alloc(), fault, cause)?, "{cause}");
    }
    Ok(())
}

#[test]
fn faults_of_the_explosion(rt: HostRuntime) -> Result<(), Fail> {
    let alloc = rt.alloc();
    let none = NameList::empty(alloc);
    let names = list_of(alloc, &["p", "q", "r"])?;
    assert!(rt; names.len() == 3);
    for (fault, text) in [
        (
            ExplodeFault::Circle(0),
            "bad input: bill: circle through p\n",
        ),
        (
            ExplodeFault::NeedRange(2),
            "bad input: bill: need of r above 100000000\n",
        ),
    ] {
        let printed = fault_text(alloc, &FileFault::Explode(fault), &names, &[], &none);
        assert!(rt; is_text(printed, text), "{text}");
    }
    Ok(())
}

#[test]
fn faults_of_offers(rt: HostRuntime) {
    let alloc = rt.alloc();
    let none = NameList::empty(alloc);
    for (fault, text) in [
        (
            OfferFault::Rows(RowFault::Width { at: 2, found: 3 }),
            "bad input: offers: row 2: 3 fields\n",
        ),
        (
            OfferFault::Name { at: 2 },
            "bad input: offers: row 2: bad name\n",
        ),
        (
            OfferFault::From { at: 3 },
            "bad input: offers: row 3: bad from\n",
        ),
        (
            OfferFault::Price { at: 2 },
            "bad input: offers: row 2: bad price\n",
        ),
        (
            OfferFault::Twice { at: 12 },
            "bad input: offers: row 12: given twice\n",
        ),
        (
            OfferFault::TooManySuppliers { at: 66 },
            "bad input: offers: row 66: more than 64 suppliers\n",
        ),
        (
            OfferFault::TooManyIntervals { at: 18 },
            "bad input: offers: row 18: more than 16 intervals\n",
        ),
    ] {
        let printed = fault_text(alloc, &FileFault::Offers(fault), &none, &[], &none);
        assert!(rt; is_text(printed, text), "{text}");
    }
}

#[test]
fn faults_of_terms(rt: HostRuntime) {
    let alloc = rt.alloc();
    let none = NameList::empty(alloc);
    for (fault, text) in [
        (
            TermFault::Rows(RowFault::Header),
            "bad input: terms: wrong header\n",
        ),
        (
            TermFault::UnknownKind { at: 2 },
            "bad input: terms: row 2: unknown kind\n",
        ),
        (
            TermFault::OrderMultiple { at: 2 },
            "bad input: terms: row 2: order multiples are not supported\n",
        ),
        (
            TermFault::Field { at: 2, field: 5 },
            "bad input: terms: row 2: bad field 5\n",
        ),
        (
            TermFault::UnknownSupplier { at: 3 },
            "bad input: terms: row 3: unknown supplier\n",
        ),
        (
            TermFault::UnknownPart { at: 4 },
            "bad input: terms: row 4: unknown part\n",
        ),
        (
            TermFault::Twice { at: 5 },
            "bad input: terms: row 5: given twice\n",
        ),
    ] {
        let printed = fault_text(alloc, &FileFault::Terms(fault), &none, &[], &none);
        assert!(rt; is_text(printed, text), "{text}");
    }
}

#[test]
fn faults_of_jobs(rt: HostRuntime) -> Result<(), Fail> {
    let alloc = rt.alloc();
    let names = list_of(alloc, &["pump", "x", "y"])?;
    let suppliers = list_of(alloc, &["A", "B"])?;
    assert!(rt; names.len() == 3);
    assert!(rt; suppliers.len() == 2);
    for (fault, text) in [
        (
            JobFault::TooManyGoods(1_001),
            "bad input: job: 1001 goods, at most 1000\n",
        ),
        (
            JobFault::MissingPrice {
                supplier: 0,
                from: 150,
                good: 1,
            },
            "bad input: job: no price of y from 150 at A\n",
        ),
        (
            JobFault::ShareOrder { supplier: 1 },
            "bad input: job: share of B: low above high\n",
        ),
        (
            JobFault::WinnerOrder,
            "bad input: job: winners: low above high\n",
        ),
    ] {
        let printed = fault_text(alloc, &FileFault::Job(fault), &names, &[1, 2], &suppliers);
        assert!(rt; is_text(printed, text), "{text}");
    }
    Ok(())
}

#[test]
fn faults_of_scenarios_and_of_a_supplier(rt: HostRuntime) -> Result<(), Fail> {
    let alloc = rt.alloc();
    let names = list_of(alloc, &["x", "y"])?;
    let suppliers = list_of(alloc, &["A", "B"])?;
    assert!(rt; names.len() == 2);
    assert!(rt; suppliers.len() == 2);
    let unknown_kind = TermFault::UnknownKind { at: 2 };
    let wrong_header = TermFault::Rows(RowFault::Header);
    let share_order = JobFault::ShareOrder { supplier: 1 };
    for (fault, text) in [
        (
            FileFault::ScenarioTerms {
                at: 1,
                fault: unknown_kind,
            },
            "bad input: terms 1: row 2: unknown kind\n",
        ),
        (
            FileFault::ScenarioTerms {
                at: 16,
                fault: wrong_header,
            },
            "bad input: terms 16: wrong header\n",
        ),
        (
            FileFault::ScenarioJob {
                at: 2,
                fault: JobFault::WinnerOrder,
            },
            "bad input: job 2: winners: low above high\n",
        ),
        (
            FileFault::ScenarioJob {
                at: 10,
                fault: share_order,
            },
            "bad input: job 10: share of B: low above high\n",
        ),
        (
            FileFault::NoSupplier,
            "bad input: offers: no such supplier\n",
        ),
    ] {
        let printed = fault_text(alloc, &fault, &names, &[0, 1], &suppliers);
        assert!(rt; is_text(printed, text), "{text}");
    }
    Ok(())
}
