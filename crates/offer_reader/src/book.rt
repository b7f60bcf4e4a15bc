ghost use Rattle.std.specs.Prelude.{◌≡◌};
ghost use Rattle.bom_reader.specs.Names.{has_name};

use bom_reader::NameList;
use std::marker::Model;
use tqd_instance::JobParts;

/// What was read of offers, and of terms where there are any: everyone who sells, every part that is offered, the suppliers
/// that offer a good, numbered by first appearance, and the parts of the job.
///
/// Contracts see it as `BookData` of `specs/`. Every book keeps what `IsBook` there says.
#[derive(Drop)]
pub struct OfferBook {
    pub(crate) sellers: NameList,
    pub(crate) offered: NameList,
    pub(crate) suppliers: NameList,
    pub(crate) parts: JobParts,
}

impl Model for OfferBook {
    ghost use Rattle.offer_reader.specs.Book.{BookData, IsBook};

    ghost Value = { BookData };

    ghost view = { λ book. record { sellers = book.sellers; offered = book.offered; suppliers = book.suppliers; parts = book.parts } };

    ghost invariant = { λ book. IsBook (record { sellers = book.sellers; offered = book.offered; suppliers = book.suppliers; parts = book.parts }) };
}

/// Whether a name is in a list.
pub(crate) fn has_name(names: &NameList, name: &str) -> bool
    ensures { result ≡ has_name names.now name.now }
{
    names.number(name).is_some()
}

impl OfferBook {
    ghost use Rattle.tqd_instance.specs.Parts.{IsWellFormed};
    ghost use Rattle.offer_reader.specs.Book.{IsBook};

    /// The suppliers that offer a good, at most 64.
    pub fn suppliers(&self) -> &NameList
        ensures value { result.now ≡ self.now.suppliers }
        ensures kept { IsBook self.now }
    {
        &self.suppliers
    }

    /// Whether a name stands as a supplier in a row of the offers.
    pub fn sells(&self, name: &str) -> bool
        ensures { result ≡ has_name self.now.sellers name.now }
    {
        has_name(&self.sellers, name)
    }

    /// Whether a name stands as a part in a row of the offers.
    pub fn is_offered(&self, name: &str) -> bool
        ensures { result ≡ has_name self.now.offered name.now }
    {
        has_name(&self.offered, name)
    }

    /// The parts of the job. They are well formed, so that `Job::build` takes them.
    pub fn parts(&self) -> &JobParts
        ensures value { result.now ≡ self.now.parts }
        ensures formed { IsWellFormed result.now }
        ensures kept { IsBook self.now }
    {
        &self.parts
    }
}
