//! Bills whose needs are known.

use bom_explode::{ExplodeFault, Needs, explode};
use bom_reader::{Bill, BillFault, no_bill, read_bill, read_orders};
use std::alloc::{AllocError, Global};
use std::test::*;
use tqd_base::Stop;

/// The bill of two files, or of the orders alone where the second is empty.
fn bill_of(alloc: Global, orders: &[u8], bill: &[u8]) -> Result<Bill, Stop<BillFault>> {
    let orders = read_orders(alloc, orders)?;
    if bill.is_empty() {
        Ok(no_bill(orders))
    } else {
        read_bill(alloc, orders, bill)
    }
}

/// Whether a number is that of this name.
fn is_name(bill: &Bill, n: u32, name: &str) -> bool {
    (n as usize) < bill.names().len() && bill.names().name(n as usize) == name
}

/// Whether these are all the goods, in this order, with these units.
fn are_goods(bill: &Bill, needs: &Needs, wanted: &[(&str, u64)]) -> bool {
    if needs.goods().len() != wanted.len() {
        return false;
    }
    for k in 0..wanted.len() {
        let (name, units) = wanted[k];
        let good = needs.goods()[k];
        if !is_name(bill, good, name) || needs.units(k) != units {
            return false;
        }
        if needs.good_of(good) != Some(k as u32) {
            return false;
        }
    }
    true
}

/// Whether the goods of two files are these.
fn gives(alloc: Global, orders: &[u8], bill: &[u8], wanted: &[(&str, u64)]) -> bool {
    let Ok(bill) = bill_of(alloc, orders, bill) else {
        return false;
    };
    match explode(alloc, &bill) {
        Ok(needs) => are_goods(&bill, &needs, wanted),
        Err(_) => false,
    }
}

/// Whether two files are refused for a circle, and the name that is carried is this.
fn has_circle(alloc: Global, orders: &[u8], bill: &[u8], name: &str) -> bool {
    let Ok(bill) = bill_of(alloc, orders, bill) else {
        return false;
    };
    match explode(alloc, &bill) {
        Err(Stop::Refused(ExplodeFault::Circle(n))) => is_name(&bill, n, name),
        _ => false,
    }
}

/// Whether two files are refused for a need that is too great, and the name that is carried is this.
fn needs_too_many(alloc: Global, orders: &[u8], bill: &[u8], name: &str) -> bool {
    let Ok(bill) = bill_of(alloc, orders, bill) else {
        return false;
    };
    match explode(alloc, &bill) {
        Err(Stop::Refused(ExplodeFault::NeedRange(n))) => is_name(&bill, n, name),
        _ => false,
    }
}

/// A bill of lines from p0 to p1, from p1 to p2 and so on, each with this quantity, and then of this row.
fn chain(alloc: Global, lines: u32, quantity: u64, last: &str) -> Result<String, AllocError> {
    let mut bill = String::from_str(alloc, "assembly,part,quantity\n")?;
    for n in 0..lines {
        let next = n as u64 + 1;
        let row = format!(in alloc; "p{n},p{next},{quantity}\n")?;
        bill.push_str(row.as_str())?;
    }
    bill.push_str(last)?;
    Ok(bill)
}

const ORDER_A: &[u8] = b"product,quantity\na,1\n";

const ORDER_P: &[u8] = b"product,quantity\np0,1\n";

#[test]
fn parts_are_needed_by_all_their_assemblies(rt: HostRuntime) {
    let alloc = rt.alloc();
    let two_ways = b"assembly,part,quantity\na,b,2\na,c,3\nb,d,5\nc,d,7\n";
    assert!(rt; gives(alloc, ORDER_A, two_ways, &[("d", 31)]));
    let pumps = b"product,quantity\npump,40\nvalve,25\n";
    let parts =
        b"assembly,part,quantity\npump,seal,2\npump,bolt,8\npump,housing,1\nvalve,seal,1\nvalve,bolt,4\n";
    assert!(rt;
        gives(
            alloc,
            pumps,
            parts,
            &[("seal", 105), ("bolt", 420), ("housing", 40)]
        )
    );
}

#[test]
fn goods_are_needed_and_are_no_assemblies(rt: HostRuntime) {
    let alloc = rt.alloc();
    assert!(rt; gives(alloc, b"product,quantity\nr,5\n", b"", &[("r", 5)]));
    assert!(rt; gives(alloc, b"product,quantity\nr,0\ns,1\n", b"", &[("s", 1)]));
    assert!(rt;
        gives(
            alloc,
            b"product,quantity\nr,100000000\n",
            b"",
            &[("r", 100_000_000)]
        )
    );
    let ordered_assembly = b"product,quantity\na,1\nb,2\n";
    assert!(rt;
        gives(
            alloc,
            ordered_assembly,
            b"assembly,part,quantity\na,b,1\nb,c,1\n",
            &[("c", 3)]
        )
    );
    let nothing = b"product,quantity\na,0\n";
    assert!(rt; gives(alloc, nothing, b"assembly,part,quantity\na,b,1\n", &[]));
}

#[test]
fn circles_are_refused_with_the_least_name_on_one(rt: HostRuntime) {
    let alloc = rt.alloc();
    assert!(rt;
        has_circle(
            alloc,
            ORDER_A,
            b"assembly,part,quantity\na,b,1\nb,a,1\n",
            "a"
        )
    );
    assert!(rt;
        has_circle(
            alloc,
            ORDER_A,
            b"assembly,part,quantity\na,b,1\nb,b,1\n",
            "b"
        )
    );
    let above_and_below = b"product,quantity\ntop,1\nbottom,1\n";
    let ring =
        b"assembly,part,quantity\ntwo,bottom,1\ntop,one,1\none,three,1\nthree,two,1\ntwo,one,1\n";
    assert!(rt; has_circle(alloc, above_and_below, ring, "two"));
    let between = b"product,quantity\nmiddle,0\nlow,0\nhigh,0\n";
    let two_rings =
        b"assembly,part,quantity\nhigh,x,1\nx,high,1\nx,middle,1\nmiddle,low,1\nlow,y,1\ny,low,1\n";
    assert!(rt; has_circle(alloc, between, two_rings, "low"));
}

#[test]
fn needs_that_are_too_great_are_refused_with_the_least_name(rt: HostRuntime) -> Result<(), Fail> {
    let alloc = rt.alloc();
    let order = b"product,quantity\np,1\n";
    let product = b"assembly,part,quantity\np,q,100000\nq,r,100000\n";
    assert!(rt; needs_too_many(alloc, order, product, "r"));
    let doubled = chain(alloc, 27, 2, "")?;
    assert!(rt; needs_too_many(alloc, ORDER_P, doubled.as_bytes(), "p27"));
    let less = chain(alloc, 26, 2, "")?;
    assert!(rt; gives(alloc, ORDER_P, less.as_bytes(), &[("p26", 67_108_864)]));
    let more = chain(alloc, 40, 2, "")?;
    assert!(rt; needs_too_many(alloc, ORDER_P, more.as_bytes(), "p27"));
    Ok(())
}

#[test]
fn long_chains_are_exploded(rt: HostRuntime) -> Result<(), Fail> {
    let alloc = rt.alloc();
    let longest = chain(alloc, 19_999, 1, "")?;
    assert!(rt; gives(alloc, ORDER_P, longest.as_bytes(), &[("p19999", 1)]));
    let closed = chain(alloc, 19_999, 1, "p19999,p0,1\n")?;
    assert!(rt; has_circle(alloc, ORDER_P, closed.as_bytes(), "p0"));
    Ok(())
}

/// Takes a type whose values may go to other threads, and be read by several.
fn is_shared<T: Send + Sync>() {}

#[test]
fn needs_may_go_to_other_threads() {
    is_shared::<Needs>();
    is_shared::<ExplodeFault>();
}
