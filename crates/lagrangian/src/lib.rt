//! Lagrangian bounds: goods' prices are the multipliers of the needs.
//!
//! A `Pricing` has, for prices of the goods, the best price of each segment's place, what each segment is worth there, the
//! first segment of each range that is worth the least, and the cheapest units in it. `specs/` says what a level is and
//! when it balances units with a range of totals (`Levels`), how units are shared up to a level (`Filling`), what a best
//! place and cheapest units are (`Priced`), what a pricing has (`PricingState`), and when it is that of a box (`Pricing`).
//! A pricing takes no memory after it is made, but for the row that it answers.
//!
//! The best price of a place is where what is offered at lower levels brings the total between the segment's low and
//! high: the optimum of a continuous knapsack. That no other is better is weak duality in one segment.
//!
//! A `Climber` raises prices of the goods towards the best bound of a box, by a proximal bundle (Kiwiel 1990; Frangioni
//! 2002), and keeps for each supplier a mixture of purchases (Barahona and Anbil 2000). `specs/Climbing` says what a climb
//! promises: at its end the pricing is that of its prices, it answers Reached exactly where the value is at the target,
//! and no row of the prices that it came with has a greater value. All else that it computes is advice.
//!
//! `repaired` changes picks of the suppliers, one at a time, into a single box with room for a feasible purchase
//! (`specs/Repair`), where the worths of a pricing say what a change costs.
#![tactic(auto)]

mod bundle;
mod climb;
mod column;
mod columns;
mod fill;
mod first_prices;
mod gather;
mod goods;
mod lack;
mod level;
mod means;
mod offer;
mod place;
mod pricing;
mod repair;
mod scale;
mod supplier;
mod suppliers;
mod swap;
mod totals;
mod trial;
mod weights;

pub use climb::{Climb, Climber};
pub use pricing::Pricing;
pub use repair::repaired;
pub use totals::{Limits, high_at, highs, low_at, lows};
pub use weights::WHOLE;
