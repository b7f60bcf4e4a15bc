//! Lanes of tickets, by one thread and by two.

ghost use Rattle.std.specs.Prelude.{◌≡◌, [], IfOk};

use std::alloc::{AllocError, Global};
use std::sync::Wait;
use std::test::Fail;
use std::thread::join;
use steal_pool::{Lane, Pass, Thief};

fn crosses_threads<T: Send>() {}

fn is_shared<T: Send + Sync>() {}

#[test]
fn a_lane_and_its_passes_cross_threads() {
    crosses_threads::<Lane>();
    crosses_threads::<Pass>();
    is_shared::<Thief>();
}

#[test]
fn each_ticket_is_popped_or_stolen(rt: HostRuntime) -> Result<(), Fail> {
    let Ok((mut lane, thief, mut first)) = Lane::new(rt.alloc(), 2, 2) else {
        panic!(rt; "there was no memory")
    };
    let mut pass = first.split(&mut lane, 1);
    let Ok(shared) = thief.share(rt.alloc()) else {
        panic!(rt; "there was no memory")
    };
    let (one, two, three) = (lane.push(5), lane.push(6), lane.push(7));
    let stolen = shared.steal(&rt, &mut pass);
    let popped = lane.pop();
    let none = lane.pop();
    first.join(&mut lane, pass);
    let Ok(left) = lane.close(rt.alloc(), first) else {
        panic!(rt; "there was no memory")
    };
    assert!(rt; one.is_ok() && two.is_ok() && three == Err(7));
    assert!(rt; stolen == Some(5) && popped == Some(6) && none.is_none());
    assert!(rt; left.len() == 0);
    Ok(())
}

#[test]
fn a_closed_lane_gives_what_is_left_in_order(rt: HostRuntime) -> Result<(), Fail> {
    let Ok((mut lane, _thief, pass)) = Lane::new(rt.alloc(), 3, 1) else {
        panic!(rt; "there was no memory")
    };
    let pushed = (lane.push(8), lane.push(4), lane.push(8));
    let popped = lane.pop();
    let Ok(left) = lane.close(rt.alloc(), pass) else {
        panic!(rt; "there was no memory")
    };
    assert!(rt; pushed == (Ok(()), Ok(()), Ok(())) && popped == Some(8));
    assert!(rt; left.len() == 2);
    assert!(rt; left.get(0) == 4 && left.get(1) == 8);
    Ok(())
}

// Pushes the tickets below `count`.
fn fill(lane: &mut Lane, count: u64) -> bool
    ensures { (lane.new.lane ≡ lane.old.lane) × (lane.new.parts ≡ lane.old.parts) }
{
    for ticket in 0..count {
        if lane.push(ticket).is_err() {
            return false;
        }
    }
    true
}

// Steals until the lane is found empty.
fn steal_all<R: Wait>(
    rt: &R,
    alloc: Global,
    thief: &Thief,
    mut pass: Pass,
) -> Result<(Pass, Vec<u64>), AllocError>
    requires { (pass.lane ≡ thief.now.lane) × (pass.got ≡ []) }
    ensures { IfOk result (λ r. (r.0.lane ≡ pass.lane) × (r.0.parts ≡ pass.parts) × (r.0.got ≡ r.1.items)) }
{
    let mut tickets = Vec::new(alloc);
    for _ in rt.forever() {
        let Some(ticket) = thief.steal(rt, &mut pass) else {
            break;
        };
        tickets.push(ticket)?;
    }
    Ok((pass, tickets))
}

#[test]
fn two_threads_steal_each_ticket_once(rt: HostRuntime) -> Result<(), Fail> {
    let Ok((mut lane, thief, mut first)) = Lane::new(rt.alloc(), 1_000, 2) else {
        panic!(rt; "there was no memory")
    };
    let second = first.split(&mut lane, 1);
    assert!(rt; fill(&mut lane, 1_000));
    let shared = &thief;
    let (mine, theirs) = join(
        &rt,
        || -> Result<(Pass, Vec<u64>), AllocError>
            requires { (first.lane ≡ shared.now.lane) × (first.got ≡ []) }
            ensures { IfOk result (λ r. (r.0.lane ≡ first.lane) × (r.0.parts ≡ first.parts)) }
        { steal_all(&rt, rt.alloc(), shared, first) },
        || -> Result<(Pass, Vec<u64>), AllocError>
            requires { (second.lane ≡ shared.now.lane) × (second.got ≡ []) }
            ensures { IfOk result (λ r. (r.0.lane ≡ second.lane) × (r.0.parts ≡ second.parts)) }
        { steal_all(&rt, rt.alloc(), shared, second) },
    );
    let (mut first, mut tickets) = mine?;
    let (second, others) = theirs?;
    first.join(&mut lane, second);
    let Ok(left) = lane.close(rt.alloc(), first) else {
        panic!(rt; "there was no memory")
    };
    tickets.extend_from_slice(others.as_slice())?;
    tickets.extend_from_slice(left.into_vec().as_slice())?;
    tickets.sort()?;
    assert!(rt; tickets.len() == 1_000);
    for (at, ticket) in tickets.iter().enumerate() {
        assert!(rt; *ticket == at as u64);
    }
    Ok(())
}
