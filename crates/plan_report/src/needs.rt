ghost use Rattle.std.specs.Prelude.{◌≡◌, ◌<◌, ◌++◌, All, length, IfOk};
ghost use Rattle.plan_report.specs.NeedsText.{need_text, needs_text};

use crate::text::add_line;
use bom_explode::Needs;
use bom_reader::Bill;
use money::write_count;
use std::alloc::Global;
use tqd_base::Memory;

/// The text of the needs of a bill: for each good in order its part and the units of it, and the empty text where there
/// is no good.
#[tactic(auto, using(crate::proofs::Texts::texts), unfolding(crate::specs::NeedsText::need_text, crate::specs::NeedsText::needs_text))]
pub fn needs_text(alloc: Global, bill: &Bill, needs: &Needs) -> Result<Vec<u8>, Memory>
    requires { All (λ n. n < length bill.now.names) needs.now.goods }
    ensures { IfOk result (λ text. text.items ≡ needs_text bill.now.names needs.now.goods needs.now.units) }
{
    let names = bill.names();
    let goods = needs.goods();
    let mut text = Vec::new(alloc);
    for k in 0..goods.len() {
        let units = write_count(alloc, u128::from(needs.units(k)))?;
        let part = names.name(goods[k] as usize);
        add_line(&mut text, "need", &[part.as_bytes(), &units])?;
    }
    Ok(text)
}
