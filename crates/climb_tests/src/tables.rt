//! What a table says of changes of one price.

use crate::fixture::{row, steps};
use interval_box::IntervalBox;
use price_climb::ClimbTable;
use std::alloc::Global;
use std::process::Abort;
use std::test::Fail;
use tqd_base::Memory;
use tqd_base::limits::DUAL_MAX;
use tqd_instance::Job;

/// What a change gives: the value before it, the value that it is said to have, whether it is made, and the value and
/// the price of the good afterwards.
type Given = (i128, Option<i128>, bool, i128, i64);

/// What a change of the row 80000 0 0 of the root gives.
fn given(
    rt: &impl Abort,
    alloc: Global,
    job: &Job,
    place: usize,
    delta: i64,
) -> Result<Given, Memory> {
    let root = IntervalBox::root(job);
    let prices = row(rt, alloc, job, &root, &[80_000, 0, 0])?;
    assert!(rt; -DUAL_MAX <= delta);
    assert!(rt; delta <= DUAL_MAX);
    let mut table = ClimbTable::new(alloc, job, root, prices)?;
    assert!(rt; place < table.places());
    let before = table.value();
    let after = table.after(place, delta);
    let made = table.change(place, delta);
    let value = table.value();
    let row = table.row();
    assert!(rt; 0 < job.goods());
    Ok((before, after, made, value, row.good(0)))
}

/// The value of the row is 8.00. A millionth less for the good takes 100 of it, and more for it gives nothing. A total
/// at 1 millionth a unit in the second segment gives as much as it takes; at 1 less, it takes 100,000,000, the most
/// that the total can be.
#[test]
fn a_table_has_the_value_after_a_change(rt: HostRuntime) -> Result<(), Fail> {
    let job = steps(&rt, rt.alloc())?;
    for (place, delta, after, price) in [
        (0, -1, Some(7_999_900), 79_999),
        (0, 1, Some(8_000_000), 80_001),
        (0, DUAL_MAX, None, 80_000),
        (2, 1, Some(8_000_000), 80_000),
        (2, -1, Some(-92_000_000), 80_000),
    ] {
        let got = given(&rt, rt.alloc(), &job, place, delta)?;
        let value = after.unwrap_or(8_000_000);
        assert_eq!(rt; got, (8_000_000, after, after.is_some(), value, price));
    }
    Ok(())
}
