ghost use Rattle.std.specs.Prelude.{◌≡◌, ℕ, ◌+◌, ◌≤◌, ◌↔◌, [], ◌∷◌, ◌++◌, length, drop};
ghost use Rattle.std.specs.Prelude.{IfOk, IfErr, OnOk, IsErr, MatchOption};
ghost use Rattle.steal_pool.specs.LaneAccount.{times};
ghost use Rattle.steal_pool.specs.Seen.{IsSameLane};

use crate::account::{Drain, LaneWorker, Push, Take};
use crate::cuts::{hold, open};
use crate::pass::Pass;
use crate::thief::Thief;
use crate::ticket_list::TicketList;
use std::alloc::Global;
use std::marker::{Brand, Model};
use tqd_base::Memory;

/// A first-in first-out deque of tickets, in the hands of its owner.
#[derive(Drop)]
pub struct Lane {
    pub(crate) worker: LaneWorker,
    room: usize,
    count: usize,
}

impl Model for Lane {
    ghost use Rattle.std.specs.Prelude.{◌≡◌};
    ghost use Rattle.counted_deque.specs.Counted.{owner_deque, owner_view, owner_index, owner_capacity};
    ghost use Rattle.counted_deque.specs.Counted.{dry_pops, held_steals};
    ghost use Rattle.steal_pool.specs.Seen.{LaneSeen, IsOwner};

    ghost Value = { LaneSeen };

    ghost view = { λ l.
        let known = owner_view l.worker in record {
          lane = (owner_deque l.worker).0;
          room = l.room;
          parts = known.whole;
          put = known.put;
          got = known.got;
          dry = dry_pops l.worker;
        } };

    ghost invariant = { λ l. (held_steals l.worker ≡ 0)
        × IsOwner (owner_view l.worker) l.count l.room (owner_index l.worker) (owner_capacity l.worker) };
}

impl Lane {
    /// A lane with room for so many tickets, its first thief, and its first pass, which has all parts.
    pub fn new(alloc: Global, room: usize, parts: u64) -> Result<(Lane, Thief, Pass), Memory>
        requires parts { 1 ≤ parts }
        requires room { (1 ≤ room) × (room ≤ 1_048_576) }
        ensures lane { IfOk result (λ r. r.0 ≡
            record { lane = r.0.lane; room = room; parts = parts; put = []; got = []; dry = 0 }) }
        ensures thief { IfOk result (λ r. r.1.lane ≡ r.0.lane) }
        ensures pass { IfOk result (λ r. r.2 ≡ record { lane = r.0.lane; parts = parts; got = []; dry = 0 }) }
    {
        let mut worker = LaneWorker::fifo_as(alloc, room)?;
        let stealer = worker.stealer()?;
        let token = open::<Brand>(&mut worker, parts);
        let lane = Lane {
            worker,
            room,
            count: 0,
        };
        Ok((lane, Thief { stealer }, Pass { token }))
    }

    /// Adds the ticket at the back, or gives it back, exactly where `room` tickets were put. It takes no `Wait`, so no
    /// body can take a lock.
    pub fn push(&mut self, ticket: u64) -> Result<(), u64>
        ensures same { IsSameLane self.old self.new }
        ensures refused { IsErr result ↔ (length self.old.put ≡ self.old.room) }
        ensures given_back { IfErr result (λ back. (back ≡ ticket) × (self.new ≡ self.old)) }
        ensures added { OnOk result (self.new ≡ record self.old { put = self.old.put ++ ticket ∷ [] }) }
    {
        if self.count == self.room {
            return Err(ticket);
        }
        let Ok(()) = self.worker.push::<Push>(ticket) else {
            unreachable!()
        };
        self.count += 1;
        Ok(())
    }

    /// Takes the ticket at the front. None comes only where the step of this call by which `dry` rose found the lane
    /// empty. It takes no `Wait`, so no body can take a lock.
    pub fn pop(&mut self) -> Option<u64>
        ensures same { IsSameLane self.old self.new }
        ensures taken { MatchOption result (self.new ≡ record self.old { dry = self.old.dry + 1 })
            (λ ticket. self.new ≡ record self.old { got = self.old.got ++ ticket ∷ [] }) }
    {
        self.worker.pop::<Take>()
    }

    /// The tickets that are left, the front first. The pass has all parts, so nobody can steal any more.
    pub fn close(self, alloc: Global, pass: Pass) -> Result<TicketList, Memory>
        requires { (pass.lane ≡ self.lane) × (pass.parts ≡ self.parts) }
        ensures front_first { IfOk result (λ list. list ≡ drop (length self.got + length pass.got) self.put) }
        ensures as_often { IfOk result (λ list. (ticket : ℕ) →
            times ticket self.put ≡ times ticket self.got + times ticket pass.got + times ticket list) }
    {
        let Lane {
            mut worker,
            room: _,
            count: _,
        } = self;
        let Pass { token } = pass;
        hold(&mut worker, token);
        let mut tickets = Vec::new(alloc);
        while let Some(ticket) = worker.pop::<Drain>() {
            tickets.push(ticket)?;
        }
        Ok(TicketList::of(tickets))
    }
}
