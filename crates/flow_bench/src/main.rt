//! Times the cheapest circulation on made nets of the shape that a bound has, a hub, suppliers and goods, and the bound
//! of the root of a made job, each from zeros and from other numbers.
//!
//! It prints on standard output what was found, and whether its cost is the least by a second computation, the same in
//! every run; and on standard error how long each took.
#![tactic(auto)]

ghost use Rattle.std.specs.Prelude.{◌+◌, ◌≤◌};
ghost use Rattle.flow_prices.specs.Prices.{AreStart};

mod bounds;
mod least;
mod nets;

use crate::bounds::{GOODS, SUPPLIERS, is_tight, made_job, row_of};
use crate::least::{cost, least_cost, start_of};
use crate::nets::{Shape, Totals, made_net};
use box_bound::{bound, bound_from};
use flow_prices::{NumberList, Priced, cheapest_from};
use interval_box::IntervalBox;
use mcf_lower::Net;
use std::alloc::Global;
use std::io;
use std::time::Instant;

/// The greatest units on an arc and the greatest price that are made.
const UNITS: u64 = 100_000;

const PRICES: u64 = 100_000_000;

const SHAPES: [Shape; 2] = [
    Shape {
        suppliers: 20,
        goods: 100,
    },
    Shape {
        suppliers: 64,
        goods: 1_000,
    },
];

/// A linear congruential generator, after Knuth's MMIX.
#[derive(Clone, Copy, Debug, PartialEq, Eq)]
struct Draws {
    state: u64,
}

impl Draws {
    // A number below the bound.
    fn below(&mut self, bound: u64) -> u64
        requires { 1 ≤ bound }
        ensures { result + 1 ≤ bound }
    {
        self.state = self
            .state
            .wrapping_mul(6_364_136_223_846_793_005)
            .wrapping_add(1_442_695_040_888_963_407);
        (self.state >> 33) % bound
    }
}

// How many units of a good have to be bought.
fn need(good: u32) -> u64 {
    let mut draws = Draws {
        state: u64::from(good),
    };
    draws.below(UNITS);
    1 + draws.below(UNITS)
}

// Finds a cheapest circulation from these numbers, prints what it is, and gives its numbers.
fn run(
    rt: &HostRuntime,
    net: &Net,
    name: &str,
    start: &NumberList,
) -> io::Result<Option<NumberList>>
    requires { AreStart net.now start.now }
{
    let begin = Instant::now(rt)?;
    let answer = cheapest_from(rt.alloc(), net, start);
    let took = begin.elapsed(rt)?.as_micros();
    eprintln!(rt; "{name}: {took} us")?;
    match answer {
        Ok(Priced::Flow { flow, numbers }) => {
            let is_least = cost(net, &flow) == least_cost(net, &numbers);
            println!(rt; "{name}: a circulation, cheapest: {is_least}")?;
            Ok(Some(numbers))
        }
        Ok(Priced::Cut(_)) => {
            println!(rt; "{name}: a cut")?;
            Ok(None)
        }
        Err(_) => {
            println!(rt; "{name}: out of memory")?;
            Ok(None)
        }
    }
}

// The net of this shape and these totals, from zeros and from the numbers of the first net of the shape.
fn run_totals(
    rt: &HostRuntime,
    shape: &Shape,
    totals: Totals,
    kept: &mut Vec<i64>,
) -> io::Result<()> {
    let alloc = rt.alloc();
    let Shape { suppliers, goods } = *shape;
    let Ok(Some(net)) = made_net(alloc, shape, totals) else {
        return println!(rt; "no net");
    };
    let Ok(zeros) = start_of(alloc, &net, &[]) else {
        return println!(rt; "out of memory");
    };
    let Ok(name) = format!(in alloc; "{suppliers} suppliers, {goods} goods, {totals:?}") else {
        return println!(rt; "out of memory");
    };
    let numbers = run(rt, &net, &name, &zeros)?;
    if let (Some(numbers), true) = (numbers, kept.is_empty()) {
        *kept = numbers.into_vec();
    }
    let Ok(start) = start_of(alloc, &net, kept) else {
        return println!(rt; "out of memory");
    };
    let Ok(name) = format!(in alloc; "{name}, from other numbers") else {
        return println!(rt; "out of memory");
    };
    run(rt, &net, &name, &start)?;
    Ok(())
}

// The bound of the root of the made job, from zeros and from its own prices.
fn run_root(rt: &HostRuntime) -> io::Result<()> {
    let alloc = rt.alloc();
    let Ok(job) = made_job(alloc) else {
        return println!(rt; "out of memory");
    };
    let root = IntervalBox::root(&job);
    println!(rt; "the root of a made job of {SUPPLIERS} suppliers and {GOODS} goods")?;
    let begin = Instant::now(rt)?;
    let bounded = bound(alloc, &job, &root);
    let took = begin.elapsed(rt)?.as_micros();
    eprintln!(rt; "the bound of the root: {took} us")?;
    let Ok(bounded) = bounded else {
        return println!(rt; "out of memory");
    };
    println!(rt; "from zeros, tight: {}", is_tight(&job, &root, &bounded))?;
    let Some(row) = row_of(&job, &root, bounded) else {
        return println!(rt; "no purchase");
    };
    let begin = Instant::now(rt)?;
    let bounded = bound_from(alloc, &job, &root, &row);
    let took = begin.elapsed(rt)?.as_micros();
    eprintln!(rt; "the same from its prices: {took} us")?;
    let Ok(bounded) = bounded else {
        return println!(rt; "out of memory");
    };
    println!(rt;
        "from its prices, tight: {}",
        is_tight(&job, &root, &bounded)
    )
}

fn main(rt: HostRuntime) -> io::Result<()> {
    for shape in SHAPES {
        let mut kept = Vec::new(rt.alloc());
        for totals in [Totals::Loose, Totals::Close, Totals::Segment] {
            run_totals(&rt, &shape, totals, &mut kept)?;
        }
    }
    run_root(&rt)
}
