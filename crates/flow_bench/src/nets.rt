//! Made nets of the shape that a bound has: node 0 is the hub, then come the suppliers, then the goods.

ghost use Rattle.mcf_lower.specs.Net.{IsNetwork};

use crate::{Draws, PRICES, UNITS, need};
use mcf_lower::{ARCS_MAX, NODES_MAX, Net, NetArc};
use std::alloc::Global;
use tqd_base::Memory;
use tqd_base::limits::FLOW_MAX;

/// How many units are bought of each supplier.
#[derive(Clone, Copy, Debug, PartialEq, Eq)]
pub enum Totals {
    /// From half an even share up to a hundred of them.
    Loose,
    /// From half an even share up to 2 % more than one.
    Close,
    /// Between limits half an even share apart, as in a box of one segment a supplier.
    Segment,
}

/// How large a net is made.
#[derive(Clone, Copy, Debug, PartialEq, Eq)]
pub struct Shape {
    pub suppliers: u32,
    pub goods: u32,
}

// How many units have to be bought of each supplier, if all sell as much.
fn even_share(shape: &Shape) -> u64 {
    let mut sum = 0u64;
    for good in 0..shape.goods {
        sum = sum.saturating_add(need(good));
    }
    sum / u64::from(shape.suppliers.max(1))
}

// The least and the greatest total of a supplier.
fn limits(totals: Totals, share: u64, draws: &mut Draws) -> (u64, u64) {
    let half = share / 2;
    match totals {
        Totals::Loose => (half, share.saturating_mul(100)),
        Totals::Close => (half, share.saturating_add(share / 50)),
        Totals::Segment => {
            let low = half.saturating_mul(draws.below(4));
            (low, low.saturating_add(half))
        }
    }
}

// Adds an arc, and says whether it was one.
fn add(net: &mut Net, ends: (u32, u32), bounds: (u64, u64), price: u64) -> Result<bool, Memory> {
    let (tail, head) = ends;
    let (low, cap) = bounds;
    let there = tail < net.nodes() && head < net.nodes() && net.arcs() < ARCS_MAX;
    if !there || low > cap || cap > FLOW_MAX as u64 || price > PRICES {
        return Ok(false);
    }
    net.add(NetArc {
        tail,
        head,
        low: low as i64,
        cap: cap as i64,
        cost: price as i64,
    })?;
    Ok(true)
}

// The arcs of the goods of a supplier.
fn add_offers(net: &mut Net, shape: &Shape, node: u32, draws: &mut Draws) -> Result<bool, Memory> {
    for good in 0..shape.goods {
        let stock = (need(good) / 4).saturating_add(draws.below(UNITS));
        let head = shape.suppliers.saturating_add(1).saturating_add(good);
        let price = 1 + draws.below(PRICES);
        if !add(net, (node, head), (0, stock), price)? {
            return Ok(false);
        }
    }
    Ok(true)
}

// The arcs of the totals and the offers of all suppliers.
fn add_suppliers(net: &mut Net, shape: &Shape, totals: Totals) -> Result<bool, Memory> {
    let share = even_share(shape);
    let mut draws = Draws { state: 7 };
    for supplier in 0..shape.suppliers {
        let node = supplier.saturating_add(1);
        let limits = limits(totals, share, &mut draws);
        if !add(net, (0, node), limits, 0)? || !add_offers(net, shape, node, &mut draws)? {
            return Ok(false);
        }
    }
    Ok(true)
}

// The arcs of what has to be bought, and up to a twentieth more.
fn add_needs(net: &mut Net, shape: &Shape) -> Result<bool, Memory> {
    for good in 0..shape.goods {
        let node = shape.suppliers.saturating_add(1).saturating_add(good);
        let need = need(good);
        if !add(net, (node, 0), (need, need.saturating_add(need / 20)), 0)? {
            return Ok(false);
        }
    }
    Ok(true)
}

/// A net of this shape, or none where one of its arcs cannot be one.
pub fn made_net(alloc: Global, shape: &Shape, totals: Totals) -> Result<Option<Net>, Memory> {
    let nodes = shape
        .suppliers
        .saturating_add(shape.goods)
        .saturating_add(1);
    let mut net = Net::new(alloc, nodes.min(NODES_MAX))?;
    if add_suppliers(&mut net, shape, totals)? && add_needs(&mut net, shape)? {
        Ok(Some(net))
    } else {
        Ok(None)
    }
}
