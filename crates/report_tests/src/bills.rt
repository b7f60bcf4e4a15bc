//! Orders and bills, and the first fault of each.

use bom_reader::*;
use csv_rows::RowFault;
use money::write_count;
use std::alloc::Global;
use std::test::*;
use tqd_base::{Memory, Stop};

/// Whether the list has these names.
fn has_names(list: &NameList, names: &[&str]) -> bool {
    if list.len() != names.len() {
        return false;
    }
    for n in 0..list.len() {
        if list.name(n) != names[n] || list.number(names[n]) != Some(n as u32) {
            return false;
        }
    }
    true
}

/// Whether the bill has these names with these units ordered.
fn has_orders(bill: &Bill, names: &[&str], ordered: &[u64]) -> bool {
    if !has_names(bill.names(), names) || names.len() != ordered.len() {
        return false;
    }
    for n in 0..ordered.len() {
        if n >= bill.names().len() || bill.ordered(n) != ordered[n] {
            return false;
        }
    }
    true
}

/// Whether the bill has these lines.
fn has_lines(bill: &Bill, lines: &[(u32, u32, u64)]) -> bool {
    if bill.lines() != lines.len() {
        return false;
    }
    for at in 0..bill.lines() {
        if bill.line(at) != lines[at] {
            return false;
        }
    }
    true
}

/// The bill of two files, or of the orders alone where the second is empty.
fn bill_of(alloc: Global, orders: &[u8], bill: &[u8]) -> Result<Bill, Stop<BillFault>> {
    let orders = read_orders(alloc, orders)?;
    if bill.is_empty() {
        Ok(no_bill(orders))
    } else {
        read_bill(alloc, orders, bill)
    }
}

/// Whether the bill of two files is this one.
fn is_bill(
    alloc: Global,
    files: (&[u8], &[u8]),
    names: &[&str],
    ordered: &[u64],
    lines: &[(u32, u32, u64)],
) -> bool {
    match bill_of(alloc, files.0, files.1) {
        Ok(bill) => has_orders(&bill, names, ordered) && has_lines(&bill, lines),
        Err(_) => false,
    }
}

/// The fault that the orders are refused with, if they are.
fn orders_fault(alloc: Global, orders: &[u8]) -> Option<BillFault> {
    match read_orders(alloc, orders) {
        Err(Stop::Refused(fault)) => Some(fault),
        Ok(_) | Err(Stop::Memory) => None,
    }
}

/// The fault that a bill after the order of `a` is refused with, if it is.
fn bill_fault(alloc: Global, bill: &[u8]) -> Option<BillFault> {
    match bill_of(alloc, b"product,quantity\na,1\n", bill) {
        Err(Stop::Refused(fault)) => Some(fault),
        Ok(_) | Err(Stop::Memory) => None,
    }
}

/// Orders of so many products, whose names are numbers.
fn numbered(alloc: Global, count: u32) -> Result<Vec<u8>, Memory> {
    let mut file = Vec::from_slice(alloc, b"product,quantity\n")?;
    for n in 0..count {
        let name = write_count(alloc, n as u128)?;
        file.extend_from_slice(&name)?;
        file.extend_from_slice(b",1\n")?;
    }
    Ok(file)
}

/// How many names the bill after so many orders has.
fn names_after(alloc: Global, count: u32, bill: &[u8]) -> Result<usize, Stop<BillFault>> {
    let orders = numbered(alloc, count)?;
    let bill = bill_of(alloc, &orders, bill)?;
    Ok(bill.names().len())
}

/// A bill with the same row so many times.
fn repeated(alloc: Global, times: u32) -> Result<Vec<u8>, Memory> {
    let mut file = Vec::from_slice(alloc, b"assembly,part,quantity\n")?;
    for _ in 0..times {
        file.extend_from_slice(b"a,b,1\n")?;
    }
    Ok(file)
}

/// The fault of a bill with the same row so many times, if it has one.
fn repeated_fault(alloc: Global, times: u32) -> Option<BillFault> {
    match repeated(alloc, times) {
        Ok(bill) => bill_fault(alloc, &bill),
        Err(_) => None,
    }
}

#[test]
fn a_bill_of_two_products(rt: HostRuntime) {
    let orders = b"product,quantity\npump,40\nvalve,25\n".as_slice();
    let bill =
        b"assembly,part,quantity\npump,seal,2\npump,bolt,8\npump,housing,1\nvalve,seal,1\nvalve,bolt,4\n".as_slice();
    assert!(rt;
        is_bill(
            rt.alloc(),
            (orders, bill),
            &["pump", "valve", "seal", "bolt", "housing"],
            &[40, 25, 0, 0, 0],
            &[(0, 2, 2), (0, 3, 8), (0, 4, 1), (1, 2, 1), (1, 3, 4)],
        )
    );
}

#[test]
fn names_by_first_appearance(rt: HostRuntime) {
    let orders = b"product,quantity\np,1\n".as_slice();
    // The assembly comes before the part, and a name keeps its number.
    let chain = b"assembly,part,quantity\nq,r,100000\np,q,100000000\nr,p,1\n".as_slice();
    assert!(rt;
        is_bill(
            rt.alloc(),
            (orders, chain),
            &["p", "q", "r"],
            &[1, 0, 0],
            &[(1, 2, 100_000), (0, 1, 100_000_000), (2, 0, 1)],
        )
    );
    // A circle, and a name that is its own part, are for the explosion to find.
    let circle = b"assembly,part,quantity\nb,p,1\np,b,1\nb,b,1".as_slice();
    assert!(rt;
        is_bill(
            rt.alloc(),
            (orders, circle),
            &["p", "b"],
            &[1, 0],
            &[(1, 0, 1), (0, 1, 1), (1, 1, 1)],
        )
    );
}

#[test]
fn orders_alone(rt: HostRuntime) {
    let marked = b"\xEF\xBB\xBFproduct,quantity\r\n\"r\",\"0100\"\r\n".as_slice();
    assert!(rt; is_bill(rt.alloc(), (marked, b"".as_slice()), &["r"], &[100], &[]));
    let spaced =
        b"product,quantity\n r,0\nr,100000000\n\"r,\"\"1\",000000000000000007\n".as_slice();
    assert!(rt;
        is_bill(
            rt.alloc(),
            (spaced, b"".as_slice()),
            &[" r", "r", "r,\"1"],
            &[0, 100_000_000, 7],
            &[],
        )
    );
    let nothing = b"product,quantity\n".as_slice();
    let no_rows = b"assembly,part,quantity\n".as_slice();
    assert!(rt; is_bill(rt.alloc(), (nothing, no_rows), &[], &[], &[]));
}

#[test]
fn orders_refused(rt: HostRuntime) {
    for (orders, fault) in [
        (b"".as_slice(), BillFault::Rows(RowFault::Empty)),
        (
            b"product,quantity\nr\n".as_slice(),
            BillFault::Rows(RowFault::Width { at: 2, found: 1 }),
        ),
        (
            b"product,quantity\n,x\na,\xFF\n".as_slice(),
            BillFault::Rows(RowFault::Text { at: 3, field: 2 }),
        ),
        (
            b"product,quantity\na,\xFF\nb\n".as_slice(),
            BillFault::Rows(RowFault::Text { at: 2, field: 2 }),
        ),
        (
            b"product,quantity\n\xFF\n".as_slice(),
            BillFault::Rows(RowFault::Width { at: 2, found: 1 }),
        ),
        (
            b"product,quantity\n,1\n".as_slice(),
            BillFault::Name { at: 2 },
        ),
        (
            b"product,quantity\na,1\nb\x1F,x\n".as_slice(),
            BillFault::Name { at: 3 },
        ),
        (
            b"product,quantity\n\x7F,1\n".as_slice(),
            BillFault::Name { at: 2 },
        ),
        (
            b"product,quantity\na,1\na,100000001\n".as_slice(),
            BillFault::Quantity { at: 3 },
        ),
        (
            b"product,quantity\na,0000000000000000001\n".as_slice(),
            BillFault::Quantity { at: 2 },
        ),
        (
            b"product,quantity\na,1\nb,1\na,2\n".as_slice(),
            BillFault::Twice { at: 4 },
        ),
    ] {
        assert_eq!(rt; orders_fault(rt.alloc(), orders), Some(fault));
    }
}

#[test]
fn bills_refused(rt: HostRuntime) {
    for (bill, fault) in [
        (
            b"assembly,part\na,b\n".as_slice(),
            BillFault::Rows(RowFault::Header),
        ),
        (
            b"assembly,part,quantity\na,b,1,\n".as_slice(),
            BillFault::Rows(RowFault::Width { at: 2, found: 4 }),
        ),
        (
            b"assembly,part,quantity\na,,x\n".as_slice(),
            BillFault::Name { at: 2 },
        ),
        (
            b"assembly,part,quantity\n\x7F,b,1\n".as_slice(),
            BillFault::Name { at: 2 },
        ),
        (
            b"assembly,part,quantity\na,b,0\n".as_slice(),
            BillFault::Quantity { at: 2 },
        ),
        (
            b"assembly,part,quantity\na,b,1\na,b,100000001\n".as_slice(),
            BillFault::Quantity { at: 3 },
        ),
        (
            b"assembly,part,quantity\na,b,1\nc,b,1\nb,a,1\na,b,2\n".as_slice(),
            BillFault::Twice { at: 5 },
        ),
    ] {
        assert_eq!(rt; bill_fault(rt.alloc(), bill), Some(fault));
    }
}

#[test]
fn names_of_64_bytes(rt: HostRuntime) {
    let too_long =
        b"product,quantity\n0123456789abcdef0123456789abcdef0123456789abcdef0123456789abcde\xC3\xA9,1\n".as_slice();
    assert_eq!(rt;
        orders_fault(rt.alloc(), too_long),
        Some(BillFault::Name { at: 2 })
    );
    assert!(rt;
        is_bill(
            rt.alloc(),
            (
                b"product,quantity\n0123456789abcdef0123456789abcdef0123456789abcdef0123456789abcd\xC3\xA9,1\n".as_slice(),
                b"".as_slice(),
            ),
            &["0123456789abcdef0123456789abcdef0123456789abcdef0123456789abcd\u{e9}"],
            &[1],
            &[],
        )
    );
}

#[test]
fn at_most_20000_names(rt: HostRuntime) {
    let header = b"assembly,part,quantity\n".as_slice();
    let one_more = b"assembly,part,quantity\n0,1,1\nx,x,1\n".as_slice();
    let two_more = b"assembly,part,quantity\n0,1,1\nx,y,1\n".as_slice();
    for (count, bill, answer) in [
        (20_000, header, Ok(20_000)),
        (
            20_001,
            header,
            Err(Stop::Refused(BillFault::TooManyNames { at: 20_002 })),
        ),
        (19_999, one_more, Ok(20_000)),
        (
            19_999,
            two_more,
            Err(Stop::Refused(BillFault::TooManyNames { at: 3 })),
        ),
    ] {
        assert_eq!(rt; names_after(rt.alloc(), count, bill), answer);
    }
}

#[test]
fn at_most_100000_lines(rt: HostRuntime) {
    assert_eq!(rt;
        repeated_fault(rt.alloc(), 100_000),
        Some(BillFault::Twice { at: 3 })
    );
    assert_eq!(rt;
        repeated_fault(rt.alloc(), 100_001),
        Some(BillFault::TooManyLines)
    );
}

#[test]
fn a_list_of_names(rt: HostRuntime) {
    let mut list = NameList::empty(rt.alloc());
    for (name, number) in [("b", 0), ("a", 1), ("b", 0), ("", 2)] {
        assert_eq!(rt; list.add(name), Ok(number));
    }
    assert!(rt; has_names(&list, &["b", "a", ""]));
    assert_eq!(rt; list.number("c"), None);
}
