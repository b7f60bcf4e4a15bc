ghost use Rattle.std.specs.Prelude.{IfOk};
ghost use Rattle.mcf_lower.specs.Net.{IsNetwork};
ghost use Rattle.flow_prices.specs.Answers.{IsAnswer};
ghost use Rattle.interval_box.specs.Ranges.{IsBoxOf};
ghost use Rattle.bound_tree.specs.Prices.{Fits};
ghost use Rattle.box_bound.specs.BoxNet.{IsNetOf};
ghost use Rattle.box_bound.specs.Bounded.{IsBounded, IsNoLower};

use crate::flow::{flow_cost, plan_of, sure_fees};
use crate::net::net_of;
use crate::row::{cut_numbers, higher, row_of, start_numbers};
use bound_tree::Row;
use flow_prices::{Priced, cheapest, cheapest_from};
use interval_box::IntervalBox;
use mcf_lower::Net;
use std::alloc::Global;
use tqd_base::Memory;
use tqd_instance::{Job, Plan};

/// The bound of a box: a plan of least relaxed cost, that cost, `relaxed`, in millionths of the currency, and a row of
/// prices whose value in the box is at least as much; or a row whose free value in the box is above 0.
#[derive(Debug, Drop)]
pub enum Bounded {
    Flow { plan: Plan, relaxed: u128, row: Row },
    Empty(Row),
}

/// The bound that a cheapest circulation of a box's net is, or a cut of it.
fn answer_of(
    alloc: Global,
    job: &Job,
    area: &IntervalBox,
    net: &Net,
    priced: Priced,
) -> Result<Bounded, Memory>
    requires of_job { IsBoxOf job.now area.now }
    requires net { IsNetOf job.now area.now net.now }
    requires network { IsNetwork net.now }
    requires priced { IsAnswer net.now priced }
    ensures { IfOk result (λ bounded. IsBounded job.now area.now bounded) }
{
    match priced {
        Priced::Flow { flow, numbers } => {
            let plan = plan_of(alloc, job, &flow)?;
            let relaxed = flow_cost(net, &flow) + u128::from(sure_fees(job, area));
            let row = row_of(alloc, job, area, &numbers)?;
            Ok(Bounded::Flow { plan, relaxed, row })
        }
        Priced::Cut(set) => {
            let numbers = cut_numbers(alloc, job, &set)?;
            Ok(Bounded::Empty(row_of(alloc, job, area, &numbers)?))
        }
    }
}

/// The bound of a box. `Flow` comes exactly where the box has a relaxed purchase.
pub fn bound(alloc: Global, job: &Job, area: &IntervalBox) -> Result<Bounded, Memory>
    requires { IsBoxOf job.now area.now }
    ensures { IfOk result (λ bounded. IsBounded job.now area.now bounded) }
{
    let net = net_of(alloc, job, area)?;
    let priced = cheapest(alloc, &net)?;
    answer_of(alloc, job, area, &net, priced)
}

/// The bound of a box, searched for from the prices of a row of it: a flow comes with a row of at least that row's
/// value.
pub fn bound_from(
    alloc: Global,
    job: &Job,
    area: &IntervalBox,
    start: &Row,
) -> Result<Bounded, Memory>
    requires of_job { IsBoxOf job.now area.now }
    requires fits { Fits job.now area.now start.now }
    ensures bounded { IfOk result (λ bounded. IsBounded job.now area.now bounded) }
    ensures no_lower { IfOk result (λ bounded. IsNoLower job.now area.now start.now bounded) }
{
    let net = net_of(alloc, job, area)?;
    let numbers = start_numbers(alloc, job, area, start)?;
    let priced = cheapest_from(alloc, &net, &numbers)?;
    match answer_of(alloc, job, area, &net, priced)? {
        Bounded::Flow { plan, relaxed, row } => {
            let better = higher(alloc, job, area, row, start)?;
            Ok(Bounded::Flow {
                plan,
                relaxed,
                row: better,
            })
        }
        Bounded::Empty(row) => Ok(Bounded::Empty(row)),
    }
}
