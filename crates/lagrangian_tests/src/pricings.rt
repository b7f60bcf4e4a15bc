//! One supplier sells two goods, for 10 and 20 a unit, and from some total on for 8 and 15; the fee is 7, and 60 and 40
//! units have to be bought.

ghost use Rattle.std.specs.Prelude.{IsTrue, ◌↔◌};
ghost use Rattle.std.specs.List.{All};
ghost use Rattle.interval_box.specs.Ranges.{IsBoxOf};
ghost use Rattle.lagrangian.specs.Priced.{IsGoodPrice};
ghost use Rattle.lagrangian.specs.Pricing.{IsMadeFor};

use interval_box::IntervalBox;
use lagrangian::Pricing;
use std::alloc::Global;
use std::process::Abort;
use std::test::Fail;
use tqd_base::{Memory, Stop};
use tqd_instance::{FeeRow, Job, JobFault, JobParts, PriceRow};

fn parts(alloc: Global, from: u64) -> Result<JobParts, Memory> {
    let mut parts = JobParts::new(alloc, 1)?;
    parts.add_need(60)?;
    parts.add_need(40)?;
    for (from, good, price) in [(1, 0, 10), (1, 1, 20), (from, 0, 8), (from, 1, 15)] {
        parts.add_price(PriceRow {
            supplier: 0,
            from,
            good,
            price,
        })?;
    }
    parts.add_fee(FeeRow {
        supplier: 0,
        fee: 7,
    })?;
    Ok(parts)
}

fn built(rt: &impl Abort, alloc: Global, from: u64) -> Result<Job, Stop<JobFault>> {
    let parts = parts(alloc, from)?;
    let formed = parts.is_well_formed(alloc)?;
    assert!(rt; formed);
    Job::build(alloc, &parts)
}

/// The box of all segments, or of those up to segment 1.
fn box_of(rt: &impl Abort, job: &Job, all: bool) -> IntervalBox
    ensures { IsBoxOf job.now result }
{
    let root = IntervalBox::root(job);
    if all {
        return root;
    }
    assert!(rt; root.low_of(0) <= 1 && 1 < root.high_of(0));
    root.halves(0, 1).0
}

/// Whether prices of goods are in their range.
fn are_good(prices: &[i64]) -> bool
    ensures { IsTrue result ↔ All IsGoodPrice prices.now }
{
    for price in prices {
        if !is_good(*price) {
            return false;
        }
    }
    true
}

fn is_good(price: i64) -> bool
    ensures { IsTrue result ↔ IsGoodPrice price }
{
    -2_000_000_000_000_000 <= price && price <= 2_000_000_000_000_000
}

/// Where the second segment begins, whether the box has it, the prices of the goods, and what has to be found: the price
/// of each segment's place with what the segment is worth, the least segment, its units, and the value.
#[derive(Clone, Copy)]
struct Case {
    from: u64,
    all: bool,
    goods: [i64; 2],
    found: [(i64, i128); 2],
    least: u8,
    units: [u64; 2],
    value: i128,
}

/// What a pricing has of its one supplier.
fn read(rt: &impl Abort, pricing: &Pricing, job: &Job) -> (u8, [u64; 2], [(i64, i128); 2])
    requires { IsMadeFor job.now pricing.now }
{
    assert!(rt; job.suppliers() == 1 && job.goods() == 2);
    let units = [pricing.units(0, 0), pricing.units(0, 1)];
    let found = [
        (pricing.place(0, 1), pricing.worth(0, 1)),
        (pricing.place(0, 2), pricing.worth(0, 2)),
    ];
    (pricing.least(0), units, found)
}

/// Prices the goods, and sees that all is found.
fn agrees(rt: &impl Abort, alloc: Global, case: &Case) -> Result<(), Stop<JobFault>> {
    let job = built(rt, alloc, case.from)?;
    let area = box_of(rt, &job, case.all);
    let goods = case.goods.as_slice();
    assert!(rt; goods.len() == job.goods() && are_good(goods));
    let mut pricing = Pricing::new(alloc, &job)?;
    pricing.price(&job, &area, goods);
    let (least, units, found) = read(rt, &pricing, &job);
    assert_eq!(rt; (least, units), (case.least, case.units));
    assert_eq!(rt; found, case.found);
    assert_eq!(rt; pricing.value(), case.value);
    assert_eq!(rt; pricing.goods(), goods);
    let row = pricing.row(alloc, &job, &area)?;
    assert_eq!(rt; row.value(&job, &area), case.value);
    Ok(())
}

#[test]
fn places_worths_and_units_are_found(rt: HostRuntime) -> Result<(), Fail> {
    // 100 units come for less than their goods' prices, or 40: both places have the price 0.
    let balanced = Case {
        from: 100,
        all: true,
        goods: [9, 21],
        found: [(0, -33), (0, -293)],
        least: 2,
        units: [60, 40],
        value: 1_087,
    };
    // No unit does: one unit costs 3 more, and 100 units 1 more each.
    let too_few = Case {
        from: 100,
        all: true,
        goods: [7, 14],
        found: [(3, 10), (1, 107)],
        least: 0,
        units: [0, 0],
        value: 980,
    };
    // All 100 do, and 99 may be bought: the dearest of them, of the first good, is left.
    let too_many = Case {
        from: 100,
        all: false,
        goods: [15, 30],
        found: [(-5, -688), (0, 0)],
        least: 1,
        units: [59, 40],
        value: 1_412,
    };
    // 101 units are not to be had: the price of the place is the greatest.
    let none = Case {
        from: 101,
        all: true,
        goods: [9, 21],
        found: [(0, -33), (4_000_000_000_000_000, 3_999_999_999_999_707)],
        least: 1,
        units: [0, 40],
        value: 1_347,
    };
    for case in [balanced, too_few, too_many, none] {
        agrees(&rt, rt.alloc(), &case)?;
    }
    Ok(())
}
