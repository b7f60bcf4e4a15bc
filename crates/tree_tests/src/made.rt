//! Jobs that are made from a seed.

use order_gen::make_job;
use std::alloc::Global;
use std::process::Abort;
use std::test::Fail;
use tqd_base::Memory;
use tqd_instance::Job;

/// The need of a job's first good, and the ends and prices of its three intervals at the first supplier.
fn first_of(rt: &impl Abort, job: &Job) -> (u64, [(u64, u64); 3]) {
    assert!(rt; 0 < job.goods());
    assert!(rt; 0 < job.suppliers());
    assert!(rt; 3 == job.segments(0));
    let offers = [
        (job.low(0, 1), job.price(0, 1, 0)),
        (job.low(0, 2), job.price(0, 2, 0)),
        (job.low(0, 3), job.price(0, 3, 0)),
    ];
    (job.need(0), offers)
}

fn made(rt: &impl Abort, alloc: Global, seed: u64) -> Result<(u64, [(u64, u64); 3]), Memory> {
    let job = make_job(alloc, seed, 1, 1)?;
    Ok(first_of(rt, &job))
}

#[test]
fn a_seed_makes_its_job(rt: HostRuntime) -> Result<(), Fail> {
    for (seed, want) in [
        (
            1,
            (839, [(1, 1_751_500), (421, 1_681_440), (842, 1_611_380)]),
        ),
        (0, (1, [(1, 1_211_700), (2, 1_163_232), (4, 1_114_764)])),
    ] {
        assert_eq!(rt; made(&rt, rt.alloc(), seed)?, want);
    }
    Ok(())
}
