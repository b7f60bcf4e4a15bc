ghost use Rattle.std.specs.Prelude.{◌≡◌, ◌<◌, length, slice_index};
ghost use Rattle.plan_report.specs.Named.{name_at, good_at};

use bom_reader::NameList;

/// Where the names in a text are: those of orders and bill, for each good the number of its name, and the suppliers.
#[derive(Clone, Copy)]
pub(crate) struct Names<'a> {
    pub names: &'a NameList,
    pub goods: &'a [u32],
    pub suppliers: &'a NameList,
}

impl Names<'_> {
    pub(crate) fn name(&self, n: usize) -> &str
        requires { n < length self.now.names.now }
        ensures { result.now ≡ name_at self.now.names.now n }
    {
        self.names.name(n)
    }

    pub(crate) fn good(&self, k: usize) -> &str
        requires good { k < length self.now.goods.now }
        requires named { slice_index self.now.goods.now k < length self.now.names.now }
        ensures { result.now ≡ good_at self.now.names.now self.now.goods.now k }
    {
        self.name(self.goods[k] as usize)
    }

    pub(crate) fn supplier(&self, i: usize) -> &str
        requires { i < length self.now.suppliers.now }
        ensures { result.now ≡ name_at self.now.suppliers.now i }
    {
        self.suppliers.name(i)
    }
}
