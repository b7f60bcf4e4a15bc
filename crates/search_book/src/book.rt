ghost use Rattle.std.specs.Prelude.{◌≡◌, ◌<◌, ◌≤◌, ◌+◌, ◌*◌, ◌⊎◌, length, IfOk, IfSome, IsTrue, MatchOption, SomeIff, ◌↔◌};
ghost use Rattle.interval_box.specs.Ranges.{IsBoxOf, IsRoot};
ghost use Rattle.interval_box.specs.Size.{size};
ghost use Rattle.search_book.specs.Nodes.{area_of, phase_of, HasPhase};
ghost use Rattle.search_book.specs.BookState.{best_cost, IsOpening};
ghost use Rattle.search_book.specs.Counts.{open_count, taken_count};
ghost use Rattle.search_book.specs.Answers.{state_of, IsSettled, IsTakenAt, IsUnsettled, VerdictSays};
ghost use Rattle.search_book.specs.Taken.{NoneTaken};

use crate::above::split_above;
use crate::answers::{BookVerdict, State};
use crate::node::{Node, Phase};
use crate::node_box::NodeBox;
use interval_box::IntervalBox;
use std::alloc::Global;
use std::marker::Model;
use tqd_base::Memory;
use tqd_instance::{Job, Plan};

/// The book of a search on a job: numbered nodes, each with its box and what became of it, and the best plan found.
///
/// Every value of the type is covered: the best plan is feasible and costs what stands beside it, each leaf kills its
/// box against that cost, the nodes of a split have the halves of its box, and node 0 has the root's.
#[derive(Debug, Drop)]
pub struct Book<'j> {
    pub(crate) job: &'j Job,
    pub(crate) nodes: Vec<Node>,
    pub(crate) best: Option<(Plan, u128)>,
    pub(crate) open_nodes: u64,
    pub(crate) taken_nodes: u64,
    pub(crate) first_open: usize,
}

impl<'j> Model for Book<'j> {
    ghost use Rattle.search_book.specs.BookState.{BookState};

    ghost Value = { BookState };

    ghost use Rattle.search_book.specs.Kept.{IsKept};

    ghost view = { λ b. record { job = b.job.now; nodes = b.nodes.items; best = b.best } };

    ghost invariant = { λ b. IsKept
        (record { job = b.job.now; nodes = b.nodes.items; best = b.best })
        b.open_nodes b.taken_nodes b.first_open };
}

impl<'j> Book<'j> {
    /// The book in which node 0 is Open and has the root of the job, and no plan is known.
    pub fn open(alloc: Global, job: &'j Job) -> Result<Book<'j>, Memory>
        ensures opening { IfOk result (IsOpening job.now) }
        ensures takes { IfOk result NoneTaken }
    {
        let mut nodes = Vec::new(alloc);
        nodes.push(Node {
            area: NodeBox::hold(alloc, IntervalBox::root(job))?,
            phase: Phase::Open,
        })?;
        Ok(Book {
            job,
            nodes,
            best: None,
            open_nodes: 1,
            taken_nodes: 0,
            first_open: 0,
        })
    }

    /// The job of the book.
    pub fn job(&self) -> &'j Job
        ensures { result.now ≡ self.now.job }
    {
        self.job
    }

    /// The cost of the best plan in millionths of the currency, or none where no plan is known.
    pub fn best(&self) -> Option<u128>
        ensures { result ≡ best_cost self.now }
    {
        match &self.best {
            Some((_, cost)) => Some(*cost),
            None => None,
        }
    }

    /// The number of Open nodes.
    pub fn open_count(&self) -> u64
        ensures { result ≡ open_count self.now }
    {
        self.open_nodes
    }

    /// The number of Taken nodes.
    pub fn taken_count(&self) -> u64
        ensures { result ≡ taken_count self.now }
    {
        self.taken_nodes
    }

    /// The number of nodes, which are numbered from 0. With P the size of the root, there are at most 2 * P - 1.
    pub fn nodes(&self) -> u64
        ensures count { result ≡ length self.now.nodes }
        ensures some { 0 < result }
        ensures root { IsRoot self.now.job (area_of self.now.nodes 0) }
        ensures bounded { result + 1 ≤ 2 * size self.now.job (area_of self.now.nodes 0) }
    {
        self.nodes.len() as u64
    }

    /// What became of a node, or none exactly where no node has this number.
    pub fn state(&self, n: u64) -> Option<State>
        ensures state { SomeIff result (n < length self.now.nodes) (state_of (phase_of self.now.nodes n)) }
        ensures is_open { (result ≡ Some State.Open) ↔ HasPhase self.now.nodes n Phase.Open }
        ensures is_taken { (result ≡ Some State.Taken) ↔ HasPhase self.now.nodes n Phase.Taken }
    {
        match self.nodes.get(n as usize) {
            Some(node) => Some(state(&node.phase)),
            None => None,
        }
    }

    /// The box of a node. That of a node that is split or closed is no more held, and is worked out from the splits above
    /// it, for each of which the nodes before are searched.
    pub fn area(&self, n: u64) -> IntervalBox
        requires { n < length self.now.nodes }
        ensures value { result ≡ area_of self.now.nodes n }
        ensures of_job { IsBoxOf self.now.job result }
    {
        if let Some(area) = self.nodes[n as usize].area.held() {
            return area;
        }
        match split_above(&self.nodes, n as usize) {
            Some((above, half)) => half.of(&self.area(above as u64)),
            None => IntervalBox::root(self.job),
        }
    }

    /// Whether a node is Taken and has this box. False where no node has this number.
    pub fn is_taken_at(&self, n: u64, area: &IntervalBox) -> bool
        ensures { IsTrue result ↔ IsTakenAt self.now n area.now }
    {
        if self.state(n) != Some(State::Taken) {
            return false;
        }
        self.area(n) == *area
    }

    /// What the search found out, or none exactly where a node is Open or Taken.
    pub fn verdict(&self) -> Option<BookVerdict>
        ensures settled { MatchOption result (IsUnsettled self.now) (λ _. IsSettled self.now) }
        ensures verdict { IfSome result (VerdictSays self.now) }
    {
        if self.open_nodes != 0 || self.taken_nodes != 0 {
            return None;
        }
        match self.best() {
            Some(cost) => Some(BookVerdict::Least(cost)),
            None => Some(BookVerdict::NoPurchase),
        }
    }
}

pub(crate) fn state(phase: &Phase) -> State
    ensures { result ≡ state_of phase.now }
{
    match phase {
        Phase::Open => State::Open,
        Phase::Taken => State::Taken,
        Phase::Split { low, high, .. } => State::Split(*low, *high),
        Phase::Closed(_) => State::Closed,
    }
}
