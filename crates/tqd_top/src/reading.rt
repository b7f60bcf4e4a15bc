//! What the files of a command state, file by file.
use bom_explode::Needs;
use bom_reader::Bill;
use offer_reader::OfferBook;
use tqd_instance::Job;

/// What orders and a bill state: the bill, and the needs that it explodes to.
#[derive(Drop)]
pub struct NeedsRead {
    pub bill: Bill,
    pub needs: Needs,
}

/// What offers and terms state after that.
#[derive(Drop)]
pub struct OffersRead {
    pub bill: Bill,
    pub needs: Needs,
    pub book: OfferBook,
}

/// And the job of all of them.
#[derive(Drop)]
pub struct JobRead {
    pub bill: Bill,
    pub needs: Needs,
    pub book: OfferBook,
    pub job: Job,
}
