ghost use Rattle.std.specs.Prelude.{◌<◌};

/// A generator of numbers: a linear congruence with 2^31 states, of which a draw takes the high bits.
#[derive(Drop)]
pub(crate) struct Draws {
    state: u64,
    pub ghost small: { state < 2147483648 },
}

impl Draws {
    ghost use Rattle.std.specs.Prelude.{◌≡◌, ◌≤◌};
    ghost use Rattle.order_gen.specs.Draws.{draw, first_state, state_after};

    /// The generator in the state that a seed begins with.
    pub(crate) fn new(seed: u64) -> Draws
        ensures { result.state ≡ first_state seed }
    {
        Draws {
            state: seed % 2_147_483_648,
        }
    }

    /// Moves the state, and gives a number below `m`.
    #[tactic(auto, unfolding(crate::specs::Draws::draw, crate::specs::Draws::state_after))]
    pub(crate) fn below(&mut self, m: u64) -> u64
        requires { 1 ≤ m }
        ensures value { result ≡ draw self.old.state 0 m }
        ensures within { result < m }
        ensures state { self.new.state ≡ state_after self.old.state 1 }
    {
        self.state = (self.state * 1_103_515_245 + 12_345) % 2_147_483_648;
        self.state / 65_536 % m
    }
}
