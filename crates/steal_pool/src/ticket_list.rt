ghost use Rattle.std.specs.Prelude.{◌≡◌, ◌<◌, length, slice_index};

use std::marker::Model;

/// The tickets that a lane held when it was closed, the front first. Contracts see it as their list.
#[derive(Drop)]
pub struct TicketList {
    tickets: Vec<u64>,
}

impl Model for TicketList {
    ghost use Rattle.std.specs.Prelude.{ℕ, List};

    ghost Value = { List ℕ };

    ghost view = { λ l. l.tickets.items };
}

impl TicketList {
    pub(crate) fn of(tickets: Vec<u64>) -> TicketList
        ensures { result ≡ tickets.items }
    {
        TicketList { tickets }
    }

    /// The number of tickets.
    pub fn len(&self) -> usize
        ensures { result ≡ length self.now }
    {
        self.tickets.len()
    }

    /// The ticket at this place from the front, counted from 0.
    pub fn get(&self, at: usize) -> u64
        requires { at < length self.now }
        ensures { result ≡ slice_index self.now at }
    {
        self.tickets[at]
    }

    /// The tickets as a vector.
    pub fn into_vec(self) -> Vec<u64>
        ensures { result.items ≡ self }
    {
        let TicketList { tickets } = self;
        tickets
    }
}
