use crate::chains::Chains;
use crate::structure::names;
use bom_reader::Bill;
use std::alloc::Global;
use std::marker::Model;
use tqd_base::Memory;

/// What has to be bought: goods, as numbers of names in rising order, and of each the units needed, from 1 to 100,000,000.
///
/// Contracts see it as `Needed` of `specs/`, two lists of one length. All needs keep what `IsNeeded` there says.
#[derive(Debug, Drop)]
pub struct Needs {
    goods: Vec<u32>,
    units: Vec<u64>,
}

impl Model for Needs {
    ghost use Rattle.bom_explode.specs.Needs.{Needed, IsNeeded};

    ghost Value = { Needed };

    ghost view = { λ needs. record { goods = needs.goods.items; units = needs.units.items } };

    ghost invariant = { λ needs. IsNeeded (record { goods = needs.goods.items; units = needs.units.items }) };
}

impl Needs {
    ghost use Rattle.std.specs.Prelude.{◌≡◌, ◌≢◌, ◌↔◌, ◌<◌, ◌≤◌, ℕ, length, slice_index, IfOk, IsTrue, MatchOption};
    ghost use Rattle.tqd_base.specs.declared.limits.TheConstants.{QTY_MAX};
    ghost use Rattle.bom_explode.specs.Structure.{structure_of, IsStructure};
    ghost use Rattle.bom_explode.specs.Ways.{along};
    ghost use Rattle.bom_explode.specs.Chains.{AreChains};
    ghost use Rattle.bom_explode.specs.Needs.{IsNeeded, IsGood, AreGoods};
    ghost use Rattle.bom_explode.specs.Solution.{need_of, AreCapped};
    ghost use Rattle.bom_explode.specs.declared.structure.Way.TheVariants.{Down};

    /// The goods, as numbers of names in rising order.
    pub fn goods(&self) -> &[u32]
        ensures value { result.now ≡ self.now.goods }
        ensures kept { IsNeeded self.now }
    {
        &self.goods
    }

    /// The units needed of the good at a place, from 1 to 100,000,000.
    pub fn units(&self, k: usize) -> u64
        requires { k < length self.now.goods }
        ensures value { result ≡ slice_index self.now.units k }
        ensures some { 1 ≤ result }
        ensures within { result ≤ QTY_MAX }
    {
        self.units[k]
    }

    /// The place of a name among the goods, if it is one.
    pub fn good_of(&self, name: u32) -> Option<u32>
        ensures { MatchOption result ((k : ℕ) → k < length self.now.goods → slice_index self.now.goods k ≢ name)
            (λ k. (k < length self.now.goods) × (slice_index self.now.goods k ≡ name)) }
    {
        match self.goods.binary_search(&name) {
            Ok(k) => Some(k as u32),
            Err(_) => None,
        }
    }

    /// The goods of a bill of which every need can be counted.
    pub(crate) fn of(
        alloc: Global,
        bill: &Bill,
        down: &Chains,
        amounts: &[u64],
    ) -> Result<Needs, Memory>
        requires chains { AreChains (along Down (structure_of bill.now)) down.now.first.items down.now.next.items }
        requires amounts { AreCapped (structure_of bill.now) amounts.now }
        requires counted { (n : ℕ) → n < (structure_of bill.now).names → need_of (structure_of bill.now) n ≤ QTY_MAX }
        ensures { IfOk result (λ needs. AreGoods (structure_of bill.now) (need_of (structure_of bill.now)) needs.goods needs.units) }
    {
        let mut goods = Vec::new(alloc);
        let mut units = Vec::new(alloc);
        for n in 0..names(bill) {
            let amount = amounts[n as usize];
            if down.first[n as usize] == 0 && amount > 0 {
                goods.push(n)?;
                units.push(amount)?;
            }
        }
        Ok(Needs { goods, units })
    }
}
