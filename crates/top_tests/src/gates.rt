//! One worker passes the gate, and two workers are in boxes at once, one of them by a ticket of the other's lane.
use crate::runs::{empty_desk, set, words_of};
use search_run::{Gate, Way};
use std::alloc::Global;
use std::process::Abort;
use std::sync::Wait;
use std::sync::atomic::{AtomicBool, AtomicU64, Ordering};
use std::test::Fail;
use std::thread;
use std::thread::Threads;
use tqd_top::run;

/// How often the worker that is held looks for another one.
const TURNS: u32 = 10_000_000;

/// A gate that holds the first worker at a box other than the root until another worker is at one. Workers are told by
/// their number and one, and 0 is nobody.
#[derive(Drop)]
struct Turnstile {
    held: AtomicU64,
    other: AtomicU64,
    /// One of the two came by a stolen ticket.
    stolen: AtomicBool,
    /// The worker that was held was let go without the other.
    let_go: AtomicBool,
}

impl Turnstile {
    fn new() -> Turnstile {
        Turnstile {
            held: AtomicU64::new(0),
            other: AtomicU64::new(0),
            stolen: AtomicBool::new(false),
            let_go: AtomicBool::new(false),
        }
    }

    fn note(&self, way: Way) {
        if let Way::Stolen(_) = way {
            self.stolen.store(true, Ordering::SeqCst);
        }
    }

    fn hold(&self) {
        for _ in 0..TURNS {
            if self.other.load(Ordering::SeqCst) != 0 {
                return;
            }
            thread::yield_now();
        }
        self.let_go.store(true, Ordering::SeqCst);
    }
}

// Whether a place for a worker was empty, and is taken by this one now.
fn takes(place: &AtomicU64, mark: u64) -> bool {
    place
        .compare_exchange(0, mark, Ordering::SeqCst, Ordering::SeqCst)
        .is_ok()
}

impl Gate for Turnstile {
    fn enter(&self, worker: u32, number: u64, way: Way, _best: Option<u128>) {
        let mark = u64::from(worker) + 1;
        if number == 0 {
            return;
        }
        if takes(&self.held, mark) {
            self.note(way);
            self.hold();
        } else if self.held.load(Ordering::SeqCst) != mark && takes(&self.other, mark) {
            self.note(way);
        }
    }

    fn leave(&self) {}
}

const ORDERS: &str = "product,quantity\nx,100\ny,50\n";

const OFFERS: &str =
    "supplier,from,part,price\nA,1,x,1.00\nA,1,y,2.00\nA,150,x,0.90\nA,150,y,1.50\nB,1,x,0.95\nB,1,y,1.60\n";

const TERMS: &str = "kind,supplier,part,low,high\nwinners,,,2,\n";

const TEXT: &str =
    "solved\t175.050000\nsupplier\tA\t1\t1\t1.000000\nbuy\tx\t1\t1.000000\t1.000000\nsupplier\tB\t149\t1\t174.050000\n\
     buy\tx\t99\t0.950000\t94.050000\nbuy\ty\t50\t1.600000\t80.000000\n";

/// Solves the job before a gate.
fn solve_before<R: Threads + Wait + Abort + Sync, G: Gate + Sync>(
    rt: &R,
    alloc: Global,
    line: &str,
    gate: &G,
) -> Result<(), Fail> {
    let mut desk = empty_desk(alloc)?;
    set(&mut desk, "o", ORDERS).map_err(|_| "memory")?;
    set(&mut desk, "f", OFFERS).map_err(|_| "memory")?;
    set(&mut desk, "t", TERMS).map_err(|_| "memory")?;
    let words = words_of(alloc, line)?;
    let ended = run(rt, alloc, &words, &mut desk, gate);
    assert_eq!(rt; ended.status, 0);
    assert_eq!(rt; desk.output(), TEXT.as_bytes());
    Ok(())
}

/// A gate that counts the boxes, and how often none was left.
#[derive(Drop)]
struct Turns {
    boxes: AtomicU64,
    ends: AtomicU64,
}

impl Gate for Turns {
    fn enter(&self, _worker: u32, _number: u64, _way: Way, _best: Option<u128>) {
        let _before = self.boxes.fetch_add(1, Ordering::SeqCst);
    }

    fn leave(&self) {
        let _before = self.ends.fetch_add(1, Ordering::SeqCst);
    }
}

#[test]
fn one_worker_passes_the_gate(rt: HostRuntime) -> Result<(), Fail> {
    let gate = Turns {
        boxes: AtomicU64::new(0),
        ends: AtomicU64::new(0),
    };
    solve_before(&rt, rt.alloc(), "solve o - f t tree", &gate)?;
    assert!(rt; gate.boxes.load(Ordering::SeqCst) != 0, "nobody came");
    assert_eq!(rt; gate.ends.load(Ordering::SeqCst), 1);
    Ok(())
}

#[test]
fn two_workers_are_in_boxes_at_once(rt: HostRuntime) -> Result<(), Fail> {
    let gate = Turnstile::new();
    solve_before(&rt, rt.alloc(), "solve o - f t tree --workers 2", &gate)?;
    assert!(rt; gate.other.load(Ordering::SeqCst) != 0, "nobody else came");
    assert!(rt; gate.stolen.load(Ordering::SeqCst), "no ticket was stolen");
    assert!(rt;
        !gate.let_go.load(Ordering::SeqCst),
        "nobody else came in time"
    );
    Ok(())
}
