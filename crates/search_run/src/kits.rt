ghost use Rattle.std.specs.Prelude.{◌≡◌, ◌<◌, IfOk, OnOk, vec_len};

use crate::many::Way;
use best_word::{BestWord, Seat};
use std::alloc::Global;
use std::sync::Wait;
use steal_pool::{Lane, Pass, Thief};
use tqd_base::Memory;

/// How many tickets may be pushed into a lane.
const ROOM: usize = 65_536;

/// The lane of another worker, as one that steals from it has it.
#[derive(Drop)]
pub(crate) struct Source {
    owner: u32,
    thief: Thief,
    pass: Pass,
    ghost same_lane: { pass.lane ≡ thief.lane },
}

impl Source {
    fn steal<R: Wait>(&mut self, rt: &R) -> Option<u64> {
        self.thief.steal(rt, &mut self.pass)
    }
}

/// The least cost that a worker has published, as another one sees it.
#[derive(Drop)]
pub(crate) struct Hint<'w> {
    word: &'w BestWord,
    seat: Seat,
    ghost same_word: { seat.word ≡ word.now.word },
}

impl<'w> Hint<'w> {
    /// The least cost that was published, or none. Nothing rests on it.
    pub(crate) fn see(&mut self) -> Option<u128> {
        match self.word.see(&mut self.seat) {
            u64::MAX => None,
            cost => Some(u128::from(cost)),
        }
    }

    /// Publishes a cost in millionths of the currency; one past 2^64 - 1 as that.
    pub(crate) fn publish(&mut self, cost: u128) {
        self.word.publish(&mut self.seat, least(cost));
    }
}

fn least(cost: u128) -> u64 {
    if cost < u128::from(u64::MAX) {
        cost as u64
    } else {
        u64::MAX
    }
}

/// What a worker has of its own.
#[derive(Drop)]
pub(crate) struct Kit<'w> {
    pub(crate) number: u32,
    lane: Lane,
    sources: Vec<Source>,
    pub(crate) hint: Hint<'w>,
}

impl<'w> Kit<'w> {
    /// Keeps a ticket, or drops it where the lane has no room left.
    pub(crate) fn push(&mut self, ticket: u64) {
        let _ = self.lane.push(ticket);
    }

    /// A ticket of the worker's own lane, or else of another one, each of which is tried once.
    pub(crate) fn ticket<R: Wait>(&mut self, rt: &R) -> Option<(u64, Way)> {
        if let Some(ticket) = self.lane.pop() {
            return Some((ticket, Way::Own));
        }
        for source in &mut self.sources {
            if let Some(ticket) = source.steal(rt) {
                return Some((ticket, Way::Stolen(source.owner)));
            }
        }
        None
    }
}

/// The kits of so many workers, from a seat of the word that they share.
pub(crate) fn kits_of<'w>(
    alloc: Global,
    workers: u32,
    word: &'w BestWord,
    first: Seat,
) -> Result<Vec<Kit<'w>>, Memory>
    requires word { first.word ≡ word.now.word }
    requires parts { workers < first.parts }
{
    let mut sources = sources_of(alloc, workers)?;
    let lanes = lanes_of(alloc, workers, &mut sources)?;
    let hints = hints_of(alloc, workers, word, first)?;
    let mut kits = Vec::new(alloc);
    for (number, (lane, (sources, hint))) in (0..workers).zip(
        lanes.into_iter().zip(sources.into_iter().zip(hints)),
    ) {
        kits.push(Kit {
            number,
            lane,
            sources,
            hint,
        })?;
    }
    Ok(kits)
}

fn hints_of<'w>(
    alloc: Global,
    workers: u32,
    word: &'w BestWord,
    mut first: Seat,
) -> Result<Vec<Hint<'w>>, Memory>
    requires word { first.word ≡ word.now.word }
    requires parts { workers < first.parts }
{
    let mut hints = Vec::new(alloc);
    for _ in 0..workers {
        let seat = word.split(&mut first, 1);
        hints.push(Hint { word, seat })?;
    }
    Ok(hints)
}

fn lanes_of(
    alloc: Global,
    workers: u32,
    sources: &mut Vec<Vec<Source>>,
) -> Result<Vec<Lane>, Memory>
    requires { vec_len sources.old ≡ workers }
{
    let mut lanes = Vec::new(alloc);
    for owner in 0..workers {
        lanes.push(lane_of(alloc, owner, workers, sources)?)?;
    }
    Ok(lanes)
}

/// An empty list for each worker.
fn sources_of(alloc: Global, workers: u32) -> Result<Vec<Vec<Source>>, Memory>
    ensures { IfOk result (λ v. vec_len v ≡ workers) }
{
    let mut sources = Vec::new(alloc);
    for _ in 0..workers {
        sources.push(Vec::new(alloc))?;
    }
    Ok(sources)
}

/// The lane of a worker. Each other worker gets a pass of it.
fn lane_of(
    alloc: Global,
    owner: u32,
    workers: u32,
    sources: &mut Vec<Vec<Source>>,
) -> Result<Lane, Memory>
    requires { vec_len sources.old ≡ workers }
    ensures { OnOk result (vec_len sources.new ≡ workers) }
{
    let (mut lane, thief, mut first) = Lane::new(alloc, ROOM, u64::from(workers) + 1)?;
    for worker in 0..workers {
        if worker != owner {
            let pass = first.split(&mut lane, 1);
            let thief = thief.share(alloc)?;
            sources[worker as usize].push(Source { owner, thief, pass })?;
        }
    }
    Ok(lane)
}
