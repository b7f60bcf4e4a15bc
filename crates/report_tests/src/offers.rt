//! Offers whose book, or whose first fault, is known.

use bom_explode::{Needs, explode};
use bom_reader::{Bill, no_bill, read_orders};
use csv_rows::RowFault;
use offer_reader::{OfferBook, OfferFault, read_offers};
use std::alloc::Global;
use tqd_base::Stop;

/// The orders of 100 units of x and 50 of y, without a bill.
pub(crate) fn bill_of_two(alloc: Global) -> Option<Bill> {
    match read_orders(alloc, b"product,quantity\nx,100\ny,50\n") {
        Ok(orders) => Some(no_bill(orders)),
        Err(_) => None,
    }
}

pub(crate) fn needs_of(alloc: Global, bill: &Bill) -> Option<Needs> {
    match explode(alloc, bill) {
        Ok(needs) => Some(needs),
        Err(_) => None,
    }
}

/// What is read of a file of offers.
fn read(alloc: Global, offers: &str) -> Result<OfferBook, Stop<OfferFault>> {
    let Some(bill) = bill_of_two(alloc) else {
        return Err(Stop::Memory);
    };
    let Some(needs) = needs_of(alloc, &bill) else {
        return Err(Stop::Memory);
    };
    read_offers(alloc, offers.as_bytes(), &bill, &needs)
}

/// How many suppliers a book has, the number of this one, and whether the name sells and is offered.
fn said_of(alloc: Global, offers: &str, name: &str) -> Option<(usize, Option<u32>, bool, bool)> {
    match read(alloc, offers) {
        Ok(book) => Some((
            book.suppliers().len(),
            book.suppliers().number(name),
            book.sells(name),
            book.is_offered(name),
        )),
        Err(_) => None,
    }
}

/// The fault that a file of offers is refused with, if it is.
fn fault_of(alloc: Global, offers: &str) -> Option<OfferFault> {
    match read(alloc, offers) {
        Err(Stop::Refused(fault)) => Some(fault),
        Ok(_) | Err(Stop::Memory) => None,
    }
}

/// Offers of two suppliers: A in two intervals, and B.
const OFFERS: &str = "supplier,from,part,price
A,1,x,1.00
A,1,y,2.00
A,150,x,0.90
A,150,y,1.50
B,1,x,0.95
B,1,y,1.60
";

/// A part that is no good makes no supplier, but its seller and the part are known.
const NO_GOOD: &str = "supplier,from,part,price\nC,1,z,1\nB,1,x,1\nA,1,y,0\n";

#[test]
fn suppliers_of_goods_are_numbered(rt: HostRuntime) {
    for (offers, name, number, sells, offered) in [
        (OFFERS, "A", Some(0), true, false),
        (OFFERS, "B", Some(1), true, false),
        (NO_GOOD, "B", Some(0), true, false),
        (NO_GOOD, "A", Some(1), true, false),
        (NO_GOOD, "C", None, true, false),
        (NO_GOOD, "z", None, false, true),
        (NO_GOOD, "D", None, false, false),
        (NO_GOOD, "w", None, false, false),
    ] {
        assert_eq!(rt;
            said_of(rt.alloc(), offers, name),
            Some((2, number, sells, offered)),
            "of {name}"
        );
    }
}

/// 16 intervals of the first good. Another part that begins at a total which stands adds no interval, and one that is
/// no good none either.
const INTERVALS: &str = "supplier,from,part,price
A,1,x,1\nA,2,x,1\nA,3,x,1\nA,4,x,1\nA,5,x,1\nA,6,x,1\nA,7,x,1\nA,8,x,1
A,9,x,1\nA,10,x,1\nA,11,x,1\nA,12,x,1\nA,13,x,1\nA,14,x,1\nA,15,x,1\nA,16,x,1
A,16,y,1\nA,17,z,1
";

/// The same, and one interval more.
const MORE_INTERVALS: &str = "supplier,from,part,price
A,1,x,1\nA,2,x,1\nA,3,x,1\nA,4,x,1\nA,5,x,1\nA,6,x,1\nA,7,x,1\nA,8,x,1
A,9,x,1\nA,10,x,1\nA,11,x,1\nA,12,x,1\nA,13,x,1\nA,14,x,1\nA,15,x,1\nA,16,x,1
A,16,y,1\nA,17,z,1\nA,17,y,1
";

#[test]
fn intervals_are_counted(rt: HostRuntime) {
    assert!(rt; said_of(rt.alloc(), INTERVALS, "A") == Some((1, Some(0), true, false)));
    assert_eq!(rt;
        fault_of(rt.alloc(), MORE_INTERVALS),
        Some(OfferFault::TooManyIntervals { at: 20 })
    );
}

/// 64 suppliers of the first good. Another part at one of them brings none, and one that is no good none either.
const SUPPLIERS: &str = "supplier,from,part,price
1,1,x,1\n2,1,x,1\n3,1,x,1\n4,1,x,1\n5,1,x,1\n6,1,x,1\n7,1,x,1\n8,1,x,1
9,1,x,1\n10,1,x,1\n11,1,x,1\n12,1,x,1\n13,1,x,1\n14,1,x,1\n15,1,x,1\n16,1,x,1
17,1,x,1\n18,1,x,1\n19,1,x,1\n20,1,x,1\n21,1,x,1\n22,1,x,1\n23,1,x,1\n24,1,x,1
25,1,x,1\n26,1,x,1\n27,1,x,1\n28,1,x,1\n29,1,x,1\n30,1,x,1\n31,1,x,1\n32,1,x,1
33,1,x,1\n34,1,x,1\n35,1,x,1\n36,1,x,1\n37,1,x,1\n38,1,x,1\n39,1,x,1\n40,1,x,1
41,1,x,1\n42,1,x,1\n43,1,x,1\n44,1,x,1\n45,1,x,1\n46,1,x,1\n47,1,x,1\n48,1,x,1
49,1,x,1\n50,1,x,1\n51,1,x,1\n52,1,x,1\n53,1,x,1\n54,1,x,1\n55,1,x,1\n56,1,x,1
57,1,x,1\n58,1,x,1\n59,1,x,1\n60,1,x,1\n61,1,x,1\n62,1,x,1\n63,1,x,1\n64,1,x,1
1,1,y,1\n65,1,z,1
";

/// The same, and one supplier more.
const MORE_SUPPLIERS: &str = "supplier,from,part,price
1,1,x,1\n2,1,x,1\n3,1,x,1\n4,1,x,1\n5,1,x,1\n6,1,x,1\n7,1,x,1\n8,1,x,1
9,1,x,1\n10,1,x,1\n11,1,x,1\n12,1,x,1\n13,1,x,1\n14,1,x,1\n15,1,x,1\n16,1,x,1
17,1,x,1\n18,1,x,1\n19,1,x,1\n20,1,x,1\n21,1,x,1\n22,1,x,1\n23,1,x,1\n24,1,x,1
25,1,x,1\n26,1,x,1\n27,1,x,1\n28,1,x,1\n29,1,x,1\n30,1,x,1\n31,1,x,1\n32,1,x,1
33,1,x,1\n34,1,x,1\n35,1,x,1\n36,1,x,1\n37,1,x,1\n38,1,x,1\n39,1,x,1\n40,1,x,1
41,1,x,1\n42,1,x,1\n43,1,x,1\n44,1,x,1\n45,1,x,1\n46,1,x,1\n47,1,x,1\n48,1,x,1
49,1,x,1\n50,1,x,1\n51,1,x,1\n52,1,x,1\n53,1,x,1\n54,1,x,1\n55,1,x,1\n56,1,x,1
57,1,x,1\n58,1,x,1\n59,1,x,1\n60,1,x,1\n61,1,x,1\n62,1,x,1\n63,1,x,1\n64,1,x,1
1,1,y,1\n65,1,z,1\n65,1,y,1
";

#[test]
fn suppliers_are_counted(rt: HostRuntime) {
    assert!(rt; said_of(rt.alloc(), SUPPLIERS, "64") == Some((64, Some(63), true, false)));
    assert_eq!(rt;
        fault_of(rt.alloc(), MORE_SUPPLIERS),
        Some(OfferFault::TooManySuppliers { at: 68 })
    );
}

/// Files, and the first fault of each.
const FAULTS: [(&str, OfferFault); 9] = [
    (
        "supplier,from,part,price\nA,1,x\n",
        OfferFault::Rows(RowFault::Width { at: 2, found: 3 }),
    ),
    (
        "supplier,from,part,price\nA,1,x,1\n,1,y,1\n",
        OfferFault::Name { at: 3 },
    ),
    (
        "supplier,from,part,price\nA,0,x,1\n",
        OfferFault::From { at: 2 },
    ),
    (
        "supplier,from,part,price\nA,100000001,x,1\n",
        OfferFault::From { at: 2 },
    ),
    (
        "supplier,from,part,price\nA,1,x,0.1000001\n",
        OfferFault::Price { at: 2 },
    ),
    // the total comes before the price
    (
        "supplier,from,part,price\nA,x,x,x\n",
        OfferFault::From { at: 2 },
    ),
    // the total is compared by its value, and parts that are no goods are tested too
    (
        "supplier,from,part,price\nA,1,x,1\nA,01,x,2\n",
        OfferFault::Twice { at: 3 },
    ),
    (
        "supplier,from,part,price\nA,1,z,1\nB,1,z,1\nA,1,z,2\n",
        OfferFault::Twice { at: 4 },
    ),
    (
        "supplier,from,part,price\nA,1,z,1\nA,1,,1\n",
        OfferFault::Name { at: 3 },
    ),
];

#[test]
fn offers_are_refused_by_their_first_fault(rt: HostRuntime) {
    for (offers, fault) in FAULTS {
        assert_eq!(rt; fault_of(rt.alloc(), offers), Some(fault), "at {offers}");
    }
}
