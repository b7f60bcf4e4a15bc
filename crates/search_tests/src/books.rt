//! Books of a small job, call by call.

ghost use Rattle.std.specs.Prelude.{IfOk};
ghost use Rattle.tqd_instance.specs.Plan.{IsSizedFor};
ghost use Rattle.interval_box.specs.Ranges.{IsBoxOf};
ghost use Rattle.bound_tree.specs.Prices.{Fits};

use bound_tree::{Leaf, Row, TreeNode, prices_fit};
use interval_box::IntervalBox;
use search_book::{Book, BookVerdict, Close, Improve, State, Take, laws};
use std::alloc::Global;
use std::process::Abort;
use std::test::Fail;
use tqd_base::limits::QTY_MAX;
use tqd_base::{Memory, Stop};
use tqd_instance::{Job, JobFault, JobParts, Plan, PriceRow, Standing};

fn price(from: u64, price: u64) -> PriceRow {
    PriceRow {
        supplier: 0,
        from,
        good: 0,
        price,
    }
}

/// One good at one supplier, with two intervals: 0.10 from 1 and 0.08 from 100. The need is 100.
fn steps(rt: &impl Abort, alloc: Global) -> Result<Job, Stop<JobFault>> {
    let mut parts = JobParts::new(alloc, 1)?;
    parts.add_need(100)?;
    parts.add_price(price(1, 100_000))?;
    parts.add_price(price(100, 80_000))?;
    let formed = parts.is_well_formed(alloc)?;
    assert!(rt; formed);
    Job::build(alloc, &parts)
}

/// The row of these prices, that of the good first.
fn row(
    rt: &impl Abort,
    alloc: Global,
    job: &Job,
    area: &IntervalBox,
    prices: &[i64],
) -> Result<Row, Memory>
    requires { IsBoxOf job.now area.now }
    ensures { IfOk result (λ row. Fits job.now area.now row) }
{
    assert!(rt; prices_fit(job, area, prices));
    let (goods, places) = prices.split_at(job.goods());
    Row::build(alloc, job, area, goods, places)
}

/// The plan that buys so many units.
fn plan_of(rt: &impl Abort, alloc: Global, job: &Job, units: u64) -> Result<Plan, Memory>
    ensures { IfOk result (λ plan. IsSizedFor job.now plan) }
{
    let mut plan = Plan::zero(alloc, job.suppliers(), job.goods())?;
    assert!(rt; 0 < plan.suppliers());
    assert!(rt; 0 < plan.goods());
    assert!(rt; units <= QTY_MAX);
    plan.set(0, 0, units);
    Ok(plan)
}

/// Offers the plan of 100 units, which costs 8.00.
fn improved(rt: &impl Abort, alloc: Global, book: &mut Book) -> Result<Improve, Memory> {
    let job = book.job();
    let plan = plan_of(rt, alloc, job, 100)?;
    let Standing::Feasible(cost) = job.standing(&plan) else {
        panic!(rt; "100 units are feasible");
    };
    Ok(book.improve(plan, cost))
}

/// Offers a bound with this price of the good to the first node, which is Taken.
fn closed(rt: &impl Abort, alloc: Global, book: &mut Book, price: i64) -> Result<Close, Memory> {
    assert!(rt; book.state(0) == Some(State::Taken));
    let area = book.area(0);
    let row = row(rt, alloc, book.job(), &area, [price, 0, 0].as_slice())?;
    Ok(book.close(0, Leaf::Bound(row)))
}

/// Splits a node that is Taken at a segment of its only supplier.
fn split(
    rt: &impl Abort,
    book: &mut Book,
    cut: (u64, u8),
    keep_low: bool,
) -> Result<(u64, u64), Memory> {
    let (n, at) = cut;
    assert!(rt; book.state(n) == Some(State::Taken));
    let area = book.area(n);
    assert!(rt; area.low_of(0) <= at);
    assert!(rt; at < area.high_of(0));
    book.split(n, 0, at, keep_low)
}

fn taken(rt: &impl Abort, book: &mut Book, n: u64) -> Option<State> {
    assert!(rt; n < book.nodes());
    match book.take(n) {
        Take::Got(_) => None,
        Take::NotOpen(state) => Some(state),
    }
}

fn given_back(rt: &impl Abort, book: &mut Book, n: u64) {
    assert!(rt; book.state(n) == Some(State::Taken));
    book.give_back(n);
}

/// A call of a book and what it has to answer.
#[derive(Clone, Copy)]
enum Call {
    /// The number of the node that is taken.
    TakeFirst(Option<u64>),
    /// A node, and the state for which it is not taken.
    Take(u64, Option<State>),
    Improve(Improve),
    /// The price of the good in the row of a bound for the first node.
    Close(i64, Close),
    /// A node, the segment at which it is split, and whether its low half is kept.
    Split(u64, u8, bool),
    GiveBack(u64),
    Release,
}

/// Makes a call. Whether it answers what it has to.
fn answers(rt: &impl Abort, alloc: Global, book: &mut Book, call: Call) -> Result<bool, Memory> {
    match call {
        Call::TakeFirst(want) => Ok(book.take_first().map(|got| got.0) == want),
        Call::Take(n, want) => Ok(taken(rt, book, n) == want),
        Call::Improve(want) => Ok(improved(rt, alloc, book)? == want),
        Call::Close(price, want) => Ok(closed(rt, alloc, book, price)? == want),
        Call::Split(n, at, keep_low) => {
            let count = book.nodes();
            let halves = (count, count.saturating_add(1));
            Ok(split(rt, book, (n, at), keep_low)? == halves)
        }
        Call::GiveBack(n) => {
            given_back(rt, book, n);
            Ok(true)
        }
        Call::Release => {
            book.release_all();
            Ok(true)
        }
    }
}

/// How many nodes are Open and Taken, how many there are, and the verdict.
type Counts = (u64, u64, u64, Option<BookVerdict>);

fn counts(book: &Book) -> Counts {
    (
        book.open_count(),
        book.taken_count(),
        book.nodes(),
        book.verdict(),
    )
}

/// Makes calls of a new book of the job, each with the counts that it has to lead to.
fn walk<'j>(
    rt: &impl Abort,
    alloc: Global,
    job: &'j Job,
    calls: &[(Call, Counts)],
) -> Result<Book<'j>, Memory> {
    let mut book = Book::open(alloc, job)?;
    for &(call, want) in calls {
        let answered = answers(rt, alloc, &mut book, call)?;
        assert!(rt; answered);
        assert!(rt; counts(&book) == want);
    }
    Ok(book)
}

fn is_sent<T: Send>(_value: &T) {}

#[test]
fn a_node_is_taken_once(rt: HostRuntime) -> Result<(), Fail> {
    let job = steps(&rt, rt.alloc())?;
    let calls = [
        (Call::TakeFirst(Some(0)), (0, 1, 1, None)),
        (Call::TakeFirst(None), (0, 1, 1, None)),
        (Call::Take(0, Some(State::Taken)), (0, 1, 1, None)),
        (Call::GiveBack(0), (1, 0, 1, None)),
        (Call::Take(0, None), (0, 1, 1, None)),
    ];
    let book = walk(&rt, rt.alloc(), &job, calls.as_slice())?;
    is_sent(&book);
    assert!(rt; book.state(1).is_none());
    Ok(())
}

#[test]
fn a_split_keeps_one_half_and_opens_the_other(rt: HostRuntime) -> Result<(), Fail> {
    let job = steps(&rt, rt.alloc())?;
    let calls = [
        (Call::TakeFirst(Some(0)), (0, 1, 1, None)),
        (Call::Split(0, 0, true), (1, 1, 3, None)),
        (Call::Take(0, Some(State::Split(1, 2))), (1, 1, 3, None)),
        (Call::GiveBack(1), (2, 0, 3, None)),
        (Call::TakeFirst(Some(1)), (1, 1, 3, None)),
        (Call::Take(2, None), (0, 2, 3, None)),
        (Call::Release, (2, 0, 3, None)),
        (Call::TakeFirst(Some(1)), (1, 1, 3, None)),
    ];
    let book = walk(&rt, rt.alloc(), &job, calls.as_slice())?;
    let areas = boxes(&rt, &job);
    for n in 0..4 {
        for at in 0..3 {
            assert!(rt; book.is_taken_at(n, &areas[at]) == (n == 1 && at == 1));
        }
    }
    Ok(())
}

#[test]
fn a_node_that_is_split_has_its_box_still(rt: HostRuntime) -> Result<(), Fail> {
    let job = steps(&rt, rt.alloc())?;
    let calls = [
        (Call::TakeFirst(Some(0)), (0, 1, 1, None)),
        (Call::Split(0, 0, false), (1, 1, 3, None)),
        (Call::Split(2, 1, true), (2, 1, 5, None)),
    ];
    let book = walk(&rt, rt.alloc(), &job, calls.as_slice())?;
    let areas = boxes(&rt, &job);
    for n in 0..3 {
        assert!(rt; (n as u64) < book.nodes());
        assert!(rt; book.area(n as u64) == areas[n]);
    }
    Ok(())
}

/// The root of the job of one supplier, and its halves at segment 0.
fn boxes(rt: &impl Abort, job: &Job) -> [IntervalBox; 3] {
    let root = IntervalBox::root(job);
    assert!(rt; root.low_of(0) == 0);
    assert!(rt; 0 < root.high_of(0));
    let (low, high) = root.halves(0, 0);
    [root, low, high]
}

#[test]
fn a_bound_closes_where_it_reaches_the_best_cost(rt: HostRuntime) -> Result<(), Fail> {
    let alloc = rt.alloc();
    let job = steps(&rt, alloc)?;
    let best = Some(8_000_000);
    let least = Some(BookVerdict::Least(8_000_000));
    let calls = [
        (Call::Take(0, None), (0, 1, 1, None)),
        (Call::Close(80_000, Close::Short(None)), (0, 1, 1, None)),
        (Call::Improve(Improve::Better), (0, 1, 1, None)),
        (Call::Improve(Improve::Kept(8_000_000)), (0, 1, 1, None)),
        (Call::Close(79_999, Close::Short(best)), (0, 1, 1, None)),
        (Call::Close(80_000, Close::Closed), (0, 0, 1, least)),
    ];
    let book = walk(&rt, alloc, &job, calls.as_slice())?;
    assert!(rt; book.verdict().is_some());
    let done = book.finish(alloc)?;
    assert!(rt; done.plan.is_some_and(|(_, cost)| cost == 8_000_000));
    assert!(rt; done.tree.len() == 1);
    assert!(rt; matches!(done.tree.node(0), TreeNode::Leaf(Leaf::Bound(_))));
    Ok(())
}

#[test]
fn laws_of_the_book_are_promised() {
    laws::later_is_reflexive();
    laws::later_is_transitive();
    laws::events_lead_later();
    laws::events_lead_to_one_state();
    laws::events_keep_the_cover();
    laws::every_run_is_covered();
    laws::nodes_are_settled_once();
    laws::nodes_are_bounded();
    laws::every_list_of_events_has_one_run();
    laws::every_list_of_events_keeps_the_cover();
    laws::due_size_falls();
    laws::events_take_nodes();
    laws::states_settle_where_none_waits();
    laws::settled_states_decide();
}
