//! What offers and terms are read against: the names of orders and bill, and the goods.
ghost use Rattle.std.specs.Prelude.{◌≡◌, ◌==◌, position};
ghost use Rattle.offer_reader.specs.Offers.{good_of};

use bom_explode::Needs;
use bom_reader::NameList;

/// The number of the good with this name, where it is one.
pub(crate) fn good_of(names: &NameList, needs: &Needs, name: &str) -> Option<u32>
    ensures { result ≡ good_of (record { names = names.now; goods = needs.now.goods }) name.now }
{
    match names.number(name) {
        Some(number) => place_of(needs, number),
        None => None,
    }
}

/// The place of a name among the goods.
fn place_of(needs: &Needs, name: u32) -> Option<u32>
    ensures { result ≡ position (λ good. good == name) needs.now.goods }
{
    let goods = needs.goods();
    let _ = goods.len();
    needs.good_of(name)
}
