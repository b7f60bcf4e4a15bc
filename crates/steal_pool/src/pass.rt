ghost use Rattle.std.specs.Prelude.{◌≡◌, ◌+◌, ◌-◌, ◌<◌, ◌≤◌, [], ◌++◌};

use crate::account::Token;
use crate::cuts::{blank, cut, hold, release};
use crate::lane::Lane;
use std::marker::{Brand, Model};
use std::mem;

/// The right of one thread to steal from a lane, and its part of the right to close it. It has no bytes.
#[derive(Drop)]
pub struct Pass {
    pub(crate) token: Token,
}

impl Model for Pass {
    ghost use Rattle.counted_deque.specs.Counted.{pass_deque, pass_view, dry_steals, IsCountedPassOf};
    ghost use Rattle.steal_pool.specs.Seen.{PassSeen, IsPass};

    ghost Value = { PassSeen };

    ghost view = { λ p.
        let known = pass_view p.token in
        record { lane = (pass_deque p.token).0; parts = known.parts; got = known.got; dry = dry_steals p.token } };

    ghost invariant = { λ p. IsCountedPassOf (pass_deque p.token) p.token × IsPass (pass_view p.token) };
}

impl Pass {
    /// A new pass with so many of the pass's parts, with which nothing was stolen.
    pub fn split(&mut self, lane: &mut Lane, parts: u64) -> Pass
        requires lane { self.old.lane ≡ lane.old.lane }
        requires parts { (1 ≤ parts) × (parts < self.old.parts) }
        ensures lane { lane.new ≡ lane.old }
        ensures kept { self.new ≡ record self.old { parts = self.old.parts - parts } }
        ensures new { result ≡ record { lane = self.old.lane; parts = parts; got = []; dry = 0 } }
    {
        let worker = &mut lane.worker;
        let held = mem::replace(&mut self.token, blank(worker));
        hold(worker, held);
        let token = cut::<Brand>(worker, parts);
        self.token = release(worker);
        Pass { token }
    }

    /// Takes the other pass into the pass.
    pub fn join(&mut self, lane: &mut Lane, other: Pass)
        requires { (self.old.lane ≡ lane.old.lane) × (other.lane ≡ lane.old.lane) }
        ensures lane { lane.new ≡ lane.old }
        ensures joined { self.new ≡ record {
          lane = self.old.lane;
          parts = self.old.parts + other.parts;
          got = self.old.got ++ other.got;
          dry = self.old.dry + other.dry;
        } }
    {
        let Pass { token } = other;
        let worker = &mut lane.worker;
        let held = mem::replace(&mut self.token, blank(worker));
        hold(worker, held);
        hold(worker, token);
        self.token = release(worker);
    }
}
