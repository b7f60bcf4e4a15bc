//! What a worker makes of a box: steps that are written into the book later.
ghost use Rattle.std.specs.Prelude.{◌≡◌, ◌+◌, ◌<◌, None};
ghost use Rattle.tqd_base.specs.declared.limits.TheConstants.{SUPPLIERS_MAX};
ghost use Rattle.interval_box.specs.Halves.{IsProper};
ghost use Rattle.search_run.specs.Stages.{rank};
ghost use Rattle.search_run.specs.Thoughts.{half_of};

use crate::many::Way;
use bound_tree::{Leaf, Row};
use interval_box::IntervalBox;
use tqd_instance::Plan;

/// How far the work on a box has come. The stages follow one another in this order, and the last one closes or splits
/// the box.
#[derive(Clone, Copy, Debug, PartialEq, Eq)]
pub(crate) enum Stage {
    /// Tests of winners and totals, and a first plan.
    Enter,
    /// Cuts by the winner limits.
    Winners,
    /// Cuts by what may be bought in all, and what is needed.
    Totals,
    /// Goods' prices are raised towards the best bound.
    Climb,
    /// A plan near the weighted purchase of the climb.
    Weighted,
    /// A plan near the segments of least worth.
    Least,
    /// Cuts by the worths of segments.
    Worths,
    /// The split.
    Split,
}

impl Stage {
    /// The stage that follows; none follows the last.
    pub(crate) fn next(self) -> Stage
        requires { 0 < rank self }
        ensures { rank result + 1 ≡ rank self }
    {
        match self {
            Stage::Enter => Stage::Winners,
            Stage::Winners => Stage::Totals,
            Stage::Totals => Stage::Climb,
            Stage::Climb => Stage::Weighted,
            Stage::Weighted => Stage::Least,
            Stage::Least => Stage::Worths,
            Stage::Worths => Stage::Split,
            Stage::Split => unreachable!(),
        }
    }
}

/// The box of a node that a worker has, how far the work on it has come, and how the worker came by it.
#[derive(Clone, Copy, Debug)]
pub(crate) struct Task {
    pub(crate) number: u64,
    pub(crate) area: IntervalBox,
    pub(crate) stage: Stage,
    pub(crate) way: Way,
}

impl Task {
    /// The same box at the next stage.
    pub(crate) fn staged(self) -> Task
        requires { 0 < rank self.stage }
        ensures number { result.number ≡ self.number }
        ensures area { result.area ≡ self.area }
        ensures stage { rank result.stage < rank self.stage }
    {
        Task {
            stage: self.stage.next(),
            ..self
        }
    }
}

/// A box that a worker took, at the first stage.
pub(crate) fn entered(number: u64, area: &IntervalBox, way: Way) -> Task
    ensures number { result.number ≡ number }
    ensures area { result.area ≡ area.now }
{
    Task {
        number,
        area: *area,
        stage: Stage::Enter,
        way,
    }
}

/// A feasible plan, with its cost in millionths of the currency.
#[derive(Drop)]
pub(crate) struct Offer {
    pub(crate) plan: Plan,
    pub(crate) cost: u128,
}

/// An end of a supplier's range, the low one or the high one, split off at the number `at`, with the leaf that closes
/// it.
#[derive(Drop)]
pub(crate) struct Cut {
    pub(crate) supplier: usize,
    pub(crate) at: u8,
    pub(crate) low: bool,
    pub(crate) leaf: Leaf,
}

/// A split of a box at the number `at` of a supplier's range, and the half that is kept.
#[derive(Clone, Copy, Debug)]
pub(crate) struct Branch {
    pub(crate) supplier: usize,
    pub(crate) at: u8,
    pub(crate) keep_low: bool,
}

/// What is to be done with a box.
#[derive(Drop)]
pub(crate) enum Act {
    /// Nothing: the work goes on with the next stage.
    Stay,
    /// No purchase in it is feasible: an Empty or a Winners leaf closes it.
    Kill(Leaf),
    /// A row of the box closes it where its value reaches the cost of the best plan. Else the work goes on.
    Reach(Row),
    /// The plan beside it is a least purchase of the box, as the row shows.
    Solve(Row),
    /// Ends of ranges are split off and closed, one after another.
    Trim(Vec<Cut>),
    /// A row, where there is one, closes the box where its value reaches the cost of the best plan. Else it is split.
    Split { bound: Option<Row>, branch: Branch },
}

/// What a worker found out about a box, without a look at the book: a feasible plan, where it met one, and what is to be
/// done with the box.
#[derive(Drop)]
pub(crate) struct Thought {
    pub(crate) offer: Option<Offer>,
    pub(crate) act: Act,
}

impl Thought {
    /// A thought without a plan.
    pub(crate) fn of(act: Act) -> Thought
        ensures offer { result.offer ≡ None }
        ensures act { result.act ≡ act }
    {
        Thought { offer: None, act }
    }
}

/// The low or the high half of a proper split.
pub(crate) fn half_of(area: &IntervalBox, i: usize, s: u8, low: bool) -> IntervalBox
    requires supplier { i < SUPPLIERS_MAX }
    requires proper { IsProper area.now i s }
    ensures { result ≡ half_of area.now i s low }
{
    let halves = area.halves(i, s);
    if low { halves.0 } else { halves.1 }
}
