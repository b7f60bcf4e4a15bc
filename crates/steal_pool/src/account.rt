// What proofs know of an owner and of a pass, the rule that each step keeps, and what each step does. No value of the
// structs is made.
ghost use Rattle.std.specs.Prelude.{◌≡◌, ℕ};

use counted_deque::{CountedPass, CountedWorker};
use crossbeam_deque::Stealer;
use crossbeam_deque::protocol::{Join, Outcome, Protocol, Split};
use std::alloc::Global;
use std::collections::LinkedList;
use std::marker::{Brand, PhantomData};

/// What an owner or a pass stands for: whether it is the owner, what it put and got, what it holds of other passes and
/// the parts, and of the owner the parts of the lane. It exists in proofs alone.
pub struct Account {
    pub owns: bool,
    pub put: LinkedList<u64>,
    pub got: LinkedList<u64>,
    pub held: LinkedList<u64>,
    pub parts: u64,
    pub whole: u64,
}

pub type LaneWorker = CountedWorker<u64, Global, Account, Law>;

pub type LaneStealer = Stealer<u64, Global, Account, Law>;

pub type Token = CountedPass<u64, Account, Global>;

/// The rule of the deque.
pub struct Law;

impl Protocol<u64, Account> for Law {
    ghost use Rattle.steal_pool.specs.LaneAccount.{LaneAccount, opened, spent};

    ghost holds = { LaneAccount };

    ghost first = { opened };

    ghost guest = { spent };
}

/// A push.
pub struct Push;

impl Outcome<u64, Account> for Push {
    ghost use Rattle.steal_pool.specs.LaneAccount.{pushed};

    ghost then = { λ before tickets after. after ≡ pushed before tickets };
}

/// A pop or a steal.
pub struct Take;

impl Outcome<u64, Account> for Take {
    ghost use Rattle.steal_pool.specs.LaneAccount.{took};

    ghost then = { λ before tickets after. after ≡ took before tickets };
}

/// A pop of an owner with all parts: it takes the ticket that was put after those that are gone, and finds the lane
/// empty only where all that was put is gone.
pub struct Drain;

impl Outcome<u64, Account> for Drain {
    ghost use Rattle.std.specs.Prelude.{◌≡◌, ℕ, ◌+◌, ◌++◌, length, drop};
    ghost use Rattle.std.specs.List.{sum_by};
    ghost use Rattle.steal_pool.specs.LaneAccount.{took, gone, weight_of};

    ghost then = { λ before tickets after. (after ≡ took before tickets)
        × (drop (gone before) before.put ≡ tickets ++ drop (gone before + length tickets) before.put) };

    ghost empty = { λ account. (length account.put ≡ gone account)
        × ((h : ℕ → ℕ) → sum_by h account.put ≡ weight_of h account) };
}

/// How many parts a new pass gets. The call that cuts it off picks the number.
pub trait Portion {
    ghost parts: { ℕ };
}

impl Portion for Brand {
    ghost parts = { 0 };
}

/// The lane gets its parts, and its first pass has them.
pub struct Open<N: Portion> {
    portion: PhantomData<N>,
}

impl<N: Portion> Split<Account> for Open<N> {
    ghost use Rattle.steal_pool.specs.LaneAccount.{parted, fresh};

    ghost left = { parted N.parts };

    ghost right = { λ _. fresh N.parts };
}

/// A new pass with a portion of the parts that the owner holds.
pub struct Cut<N: Portion> {
    portion: PhantomData<N>,
}

impl<N: Portion> Split<Account> for Cut<N> {
    ghost use Rattle.steal_pool.specs.LaneAccount.{keeping, fresh};

    ghost left = { keeping N.parts };

    ghost right = { λ _. fresh N.parts };
}

/// A pass with all that the owner holds.
pub struct Release;

impl Split<Account> for Release {
    ghost use Rattle.steal_pool.specs.LaneAccount.{released, regained};

    ghost left = { released };

    ghost right = { regained };
}

/// A pass with nothing.
pub struct Blank;

impl Split<Account> for Blank {
    ghost use Rattle.steal_pool.specs.LaneAccount.{spent};

    ghost left = { λ owner. owner };

    ghost right = { λ _. spent };
}

/// The owner holds what a pass had.
pub struct Hold;

impl Join<Account> for Hold {
    ghost use Rattle.steal_pool.specs.LaneAccount.{holding, spent};

    ghost both = { holding };

    ghost spent = { spent };
}
