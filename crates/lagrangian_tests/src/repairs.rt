//! Which single box is near a pick.

ghost use Rattle.interval_box.specs.Ranges.{IsBoxOf};

use interval_box::IntervalBox;
use lagrangian::{Pricing, repaired};
use std::alloc::Global;
use std::process::Abort;
use std::test::Fail;
use tqd_base::{Memory, Stop};
use tqd_instance::{Job, JobFault, JobParts, PriceRow};

fn price(from: u64, price: u64) -> PriceRow {
    PriceRow {
        supplier: 0,
        from,
        good: 0,
        price,
    }
}

/// One good at one supplier, with two intervals: 0.10 from 1 and 0.08 from 100.
fn steps(rt: &impl Abort, alloc: Global, need: u64) -> Result<Job, Stop<JobFault>> {
    let mut parts = JobParts::new(alloc, 1)?;
    parts.add_need(need)?;
    parts.add_price(price(1, 100_000))?;
    parts.add_price(price(100, 80_000))?;
    let formed = parts.is_well_formed(alloc)?;
    assert!(rt; formed);
    Job::build(alloc, &parts)
}

/// The segment of the single box near a pick, by a pricing in which nothing is worth anything.
fn near(
    rt: &impl Abort,
    alloc: Global,
    job: &Job,
    area: &IntervalBox,
    pick: u8,
) -> Result<Option<u8>, Memory>
    requires { IsBoxOf job.now area.now }
{
    let pricing = Pricing::new(alloc, job)?;
    assert!(rt; job.suppliers() == 1);
    let single = repaired(job, area, &[pick], &pricing);
    match single {
        Some(area) => Ok(Some(area.low_of(0))),
        None => Ok(None),
    }
}

/// Of 100 units, 99 are too few. Of 50, 100 are too many and 0 too few. A pick beyond the last segment is the last.
#[test]
fn a_pick_is_changed_until_there_is_room(rt: HostRuntime) -> Result<(), Fail> {
    for (need, pick, want) in [
        (100, 0, 2),
        (100, 1, 2),
        (100, 2, 2),
        (100, 9, 2),
        (50, 1, 1),
        (50, 2, 1),
    ] {
        let job = steps(&rt, rt.alloc(), need)?;
        let root = IntervalBox::root(&job);
        let got = near(&rt, rt.alloc(), &job, &root, pick)?;
        assert_eq!(rt; got, Some(want));
    }
    Ok(())
}

/// In the half without the second segment there is no room for 100 units.
#[test]
fn no_box_is_near_where_there_is_no_room(rt: HostRuntime) -> Result<(), Fail> {
    let job = steps(&rt, rt.alloc(), 100)?;
    let root = IntervalBox::root(&job);
    assert!(rt; root.low_of(0) <= 1);
    assert!(rt; 1 < root.high_of(0));
    let (low, _high) = root.halves(0, 1);
    let got = near(&rt, rt.alloc(), &job, &low, 1)?;
    assert_eq!(rt; got, None);
    Ok(())
}
