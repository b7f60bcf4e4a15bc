// What proofs know of a seat, the rule that each step keeps, and what each step does. No value of these types is made.
ghost use Rattle.std.specs.Prelude.{◌≡◌, ℕ, ◌≤◌};

use atomic_table::{Join, Play, Split, TableRule};
use std::marker::{Brand, PhantomData};

/// What a seat stands for. It exists in proofs alone, so `looks` has no greatest value.
pub struct Account {
    pub put: u64,
    pub seen: u64,
    pub looks: u64,
    pub parts: u64,
}

/// The rule of the table, whose one word is the best cost. Its key is the number of parts.
pub struct Law;

impl TableRule<(), Account, u64> for Law {
    ghost use Rattle.best_word.specs.WordAccount.{WordAccount, opened};

    ghost holds = { λ parts state. WordAccount parts state.words state.views };

    ghost first = { opened };
}

/// One load: the seat sees the word that was found.
pub struct Look;

impl Play<(), Account> for Look {
    ghost use Rattle.best_word.specs.WordAccount.{looked};

    ghost then = { λ step before found after. (found ≤ before.0.put) × (found ≤ before.0.seen) × (after ≡ (looked before.0 found, before.1)) };
}

/// One fetch_min: the seat puts the cost, and sees the word that was found.
pub struct Publish;

impl Play<(), Account> for Publish {
    ghost use Rattle.best_word.specs.WordAccount.{published};

    ghost then = { λ step before found after. (found ≤ before.0.put) × (found ≤ before.0.seen) × (after ≡ (published before.0 step.first found, before.1)) };
}

/// How many parts a new seat gets. The call that splits a seat picks the number.
pub trait Portion {
    ghost parts: { ℕ };
}

impl Portion for Brand {
    ghost parts = { 0 };
}

/// The new seat gets its portion of the parts.
pub struct Cut<N: Portion> {
    portion: PhantomData<N>,
}

impl<N: Portion> Split<Account> for Cut<N> {
    ghost use Rattle.best_word.specs.WordAccount.{keeping, cut_off};

    ghost left = { keeping N.parts };

    ghost right = { cut_off N.parts };
}

/// One seat takes in another, which is spent.
pub struct Merge;

impl Join<Account> for Merge {
    ghost use Rattle.best_word.specs.WordAccount.{joined, spent};

    ghost both = { joined };

    ghost spent = { spent };
}
