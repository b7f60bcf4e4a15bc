ghost use Rattle.std.specs.Prelude.{◌<◌, ◌≤◌};
ghost use Rattle.tqd_base.specs.declared.limits.TheConstants.{QTY_MAX};
ghost use Rattle.lagrangian.specs.declared.offer.TheConstants.{TOP};

/// The level of a unit whose price is that of its good, so that no level is a number below 0: half of `TOP`.
pub(crate) const ZERO: u64 = 4_000_000_000_000_000;

/// The greatest level that a place's price stands for, above the level of every offer.
pub(crate) const TOP: u64 = 8_000_000_000_000_000;

/// Units of a good that a supplier has in a segment, and their level: what is left of their price, in millionths,
/// beside the good's price, counted up from `ZERO`.
#[derive(Clone, Copy, Debug)]
pub(crate) struct Offer {
    pub(crate) level: u64,
    pub(crate) cap: u64,
    pub ghost below_top: { level < TOP },
    pub ghost within: { cap ≤ QTY_MAX },
}
