ghost use Rattle.std.specs.Prelude.{◌≡◌, ◌+◌, ◌-◌, ◌<◌, ◌≤◌, min, IfOk};
ghost use Rattle.best_word.specs.WordAccount.{unset};

use crate::account::{Account, Cut, Law, Look, Merge, Portion, Publish};
use atomic_table::Table;
use std::alloc::Global;
use std::marker::{Brand, Model};
use tqd_base::Memory;

/// The least cost that any seat has published, or 2^64 - 1. It may be shared by any number of threads.
#[derive(Drop)]
pub struct BestWord {
    table: Table<(), Account, u64, Law, Global>,
}

impl Model for BestWord {
    ghost use Rattle.std.specs.Prelude.{◌≡◌};
    ghost use Rattle.best_word.specs.Seen.{WordSeen};

    ghost Value = { WordSeen };

    ghost view = { λ b. record { word = b.table.shared.table_id; parts = b.table.shared.key } };

    ghost invariant = { λ b. (b.table.shared.table_id.words ≡ 1) × (b.table.shared.table_id.slots ≡ 0) };
}

/// The right of one thread to step on a word, and its part of the right to close it. It has no bytes.
#[derive(Drop)]
pub struct Seat {
    token: atomic_table::Seat<(), Account>,
}

impl Model for Seat {
    ghost use Rattle.std.specs.Prelude.{◌≡◌, ◌≤◌, []};
    ghost use Rattle.best_word.specs.Seen.{SeatSeen};
    ghost use Rattle.best_word.specs.WordAccount.{unset};

    ghost Value = { SeatSeen };

    ghost view = { λ s. record { word = s.token.table_id; put = s.token.me.0.put; seen = s.token.me.0.seen; looks = s.token.me.0.looks; parts = s.token.me.0.parts } };

    ghost invariant = { λ s. (s.token.me.1 ≡ []) × (s.token.me.0.put ≤ unset) × (s.token.me.0.seen ≤ unset) × (1 ≤ s.token.me.0.parts) };
}

impl BestWord {
    /// A word that nothing was published to, and its first seat, which has all parts.
    pub fn new(alloc: Global, parts: u64) -> Result<(BestWord, Seat), Memory>
        requires { 1 ≤ parts }
        ensures { IfOk result (λ r. (r.0.parts ≡ parts) × (r.1 ≡ record { word = r.0.word; put = unset; seen = unset; looks = 0; parts = parts })) }
    {
        let (table, token) = Table::of_words(alloc, &[u64::MAX], &parts)?;
        Ok((BestWord { table }, Seat { token }))
    }

    /// The best cost at one load of the word, by which the seat's `looks` rises. It takes no `Wait`, so no body can take a lock.
    pub fn see(&self, seat: &mut Seat) -> u64
        requires { seat.old.word ≡ self.now.word }
        ensures at_most { (result ≤ seat.old.put) × (result ≤ seat.old.seen) }
        ensures seat { seat.new ≡ record seat.old { seen = result; looks = seat.old.looks + 1 } }
    {
        self.table.shared.load::<Look>(&mut seat.token, 0)
    }

    /// Lowers the best cost to `cost` by one fetch_min, by which the seat's `looks` rises, and answers the best cost before it.
    /// It takes no `Wait`, so no body can take a lock.
    pub fn publish(&self, seat: &mut Seat, cost: u64) -> u64
        requires { seat.old.word ≡ self.now.word }
        ensures at_most { (result ≤ seat.old.put) × (result ≤ seat.old.seen) }
        ensures seat { seat.new ≡ record seat.old { put = min seat.old.put cost; seen = min seat.old.seen result; looks = seat.old.looks + 1 } }
    {
        self.table
            .shared
            .fetch_min::<Publish>(&mut seat.token, 0, cost)
    }

    /// A new seat with so many of the seat's parts, which has published nothing and has seen what the seat has seen.
    pub fn split(&self, seat: &mut Seat, parts: u64) -> Seat
        requires word { seat.old.word ≡ self.now.word }
        requires parts { (1 ≤ parts) × (parts < seat.old.parts) }
        ensures kept { seat.new ≡ record seat.old { parts = seat.old.parts - parts } }
        ensures new { result ≡ record { word = seat.old.word; put = unset; seen = seat.old.seen; looks = 0; parts = parts } }
    {
        self.cut::<Brand>(seat, parts)
    }

    fn cut<N: Portion>(&self, seat: &mut Seat, _parts: u64) -> Seat
        requires word { seat.old.word ≡ self.now.word }
        requires parts { (1 ≤ _parts) × (_parts < seat.old.parts) }
        requires portion { N.parts ≡ _parts }
        ensures kept { seat.new ≡ record seat.old { parts = seat.old.parts - _parts } }
        ensures new { result ≡ record { word = seat.old.word; put = unset; seen = seat.old.seen; looks = 0; parts = _parts } }
    {
        let token = self.table.shared.split_seat::<Cut<N>>(&mut seat.token);
        Seat { token }
    }

    /// Takes the other seat into the seat.
    pub fn join(&self, seat: &mut Seat, other: Seat)
        requires { (seat.old.word ≡ self.now.word) × (other.word ≡ self.now.word) }
        ensures { seat.new ≡ record { word = seat.old.word; put = min seat.old.put other.put; seen = min seat.old.seen other.seen; looks = seat.old.looks + other.looks; parts = seat.old.parts + other.parts } }
    {
        let Seat { token } = other;
        self.table.shared.join_seat::<Merge>(&mut seat.token, token);
    }

    /// The best cost of all. The seat has all parts, so no other seat is left.
    pub fn close(self, seat: Seat) -> u64
        requires { (seat.word ≡ self.word) × (seat.parts ≡ self.parts) }
        ensures answer { result ≡ seat.put }
        ensures at_most { result ≤ seat.seen }
    {
        let BestWord { table } = self;
        let Seat { token } = seat;
        let closed = table.close_with(token);
        let best = closed.word(0);
        closed.free();
        best
    }
}
