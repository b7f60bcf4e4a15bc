ghost use Rattle.std.specs.Prelude.{◌≡◌, ℕ, ◌<◌, slice_index, MatchBool, IfOk};
ghost use Rattle.mcf_lower.specs.Net.{IsNetwork};
ghost use Rattle.mcf_lower.specs.Ends.{IsIndex};
ghost use Rattle.mcf_lower.specs.Tree.{HasSizes};
ghost use Rattle.mcf_lower.specs.Pseudoflow.{IsPseudoflow, IsLess, IsCutOff};

use crate::index::Index;
use crate::labels::Labels;
use crate::net::Net;
use crate::pseudoflow::Pseudoflow;
use crate::search::search;
use tqd_base::Memory;

/// Brings units to `root` until it lacks none, and says whether there were enough.
fn serve(
    net: &Net,
    index: &Index,
    flow: &mut Pseudoflow,
    root: u32,
    labels: &mut Labels,
) -> Result<bool, Memory>
    requires network { IsNetwork net.now }
    requires index { IsIndex net.now index.now }
    requires pseudoflow { IsPseudoflow net.now flow.old }
    requires sizes { HasSizes net.now.nodes labels.old }
    requires inside { root < net.now.nodes }
    ensures pseudoflow { IfOk result (λ _. IsPseudoflow net.now flow.new) }
    ensures sizes { IfOk result (λ _. HasSizes net.now.nodes labels.new) }
    ensures less { IfOk result (λ _. IsLess flow.old.demand.items flow.new.demand.items) }
    ensures served { IfOk result (λ served. MatchBool served (slice_index flow.new.demand.items root ≡ 0) (IsCutOff net.now flow.new labels.new)) }
{
    while flow.demand[root as usize] > 0 {
        let Some(source) = search(net, index, flow, root, labels) else {
            return Ok(false);
        };
        flow.send(net, labels, source)?;
    }
    Ok(true)
}

/// Brings units to each node that lacks some, and says whether there were enough.
pub(crate) fn serve_all(
    net: &Net,
    index: &Index,
    flow: &mut Pseudoflow,
    labels: &mut Labels,
) -> Result<bool, Memory>
    requires index { IsIndex net.now index.now }
    requires pseudoflow { IsPseudoflow net.now flow.old }
    requires sizes { HasSizes net.now.nodes labels.old }
    ensures pseudoflow { IfOk result (λ _. IsPseudoflow net.now flow.new) }
    ensures served { IfOk result (λ served. MatchBool served
        ((v : ℕ) → v < net.now.nodes → slice_index flow.new.demand.items v ≡ 0) (IsCutOff net.now flow.new labels.new)) }
{
    for root in 0..net.nodes() {
        if !serve(net, index, flow, root, labels)? {
            return Ok(false);
        }
    }
    Ok(true)
}
