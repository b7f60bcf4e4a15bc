// A number that contracts alone see.
ghost use Rattle.std.specs.Prelude.{◌≡◌, ◌+◌};

use boxcar::tag::{Names, Tag};
use std::marker::Model;
use std::mem;

// How many steps found a deque empty. It has no bytes, and the number has no greatest value.
#[derive(Drop)]
pub(crate) struct Dry {
    tag: Tag,
}

impl Model for Dry {
    ghost use Rattle.std.specs.Prelude.{ℕ, slice_index};

    ghost Value = { ℕ };

    ghost view = { λ d. slice_index d.tag.numbers 0 };
}

// The ways in which a number is made of others.
struct Nought;

impl Names<()> for Nought {
    ghost use Rattle.std.specs.Prelude.{[], ◌∷◌};

    ghost numbers = { λ _. 0 ∷ [] };
}

struct Next;

impl Names<Dry> for Next {
    ghost use Rattle.std.specs.Prelude.{[], ◌∷◌, ◌+◌};

    ghost numbers = { λ dry. (dry + 1) ∷ [] };
}

struct Sum;

impl Names<(Dry, Dry)> for Sum {
    ghost use Rattle.std.specs.Prelude.{[], ◌∷◌, ◌+◌};

    ghost numbers = { λ both. (both.0 + both.1) ∷ [] };
}

impl Dry {
    // No step was counted yet.
    pub(crate) fn none() -> Dry
        ensures { result ≡ 0 }
    {
        Dry {
            tag: Tag::of::<(), Nought>(&()),
        }
    }

    // A step found the deque empty.
    pub(crate) fn rise(&mut self)
        ensures { self.new ≡ self.old + 1 }
    {
        self.tag = Tag::of::<Dry, Next>(self);
    }

    // The other's steps count here from now on.
    pub(crate) fn add(&mut self, other: Dry)
        ensures { self.new ≡ self.old + other }
    {
        let both = (mem::replace(self, Dry::none()), other);
        self.tag = Tag::of::<(Dry, Dry), Sum>(&both);
    }
}
