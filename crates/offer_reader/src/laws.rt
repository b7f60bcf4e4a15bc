//! What follows from the definitions alone.
ghost use Rattle.offer_reader.specs.Laws.{OfferFaultsAreFirst, OfferFormComesFirst, OffersAreWhole};
ghost use Rattle.offer_reader.specs.TermLaws.{TermFaultsAreFirst, TermFormComesFirst, TermsAreWhole};

/// Offers come exactly where the rows state them: two names, a total and a price in each row, no supplier, total and part
/// twice, not more than 64 suppliers of goods, and not more than 16 different totals at any of them. They have the prices
/// of goods in the order of their rows, and names are numbered by first appearance.
pub fn offers_are_whole()
    ensures { OffersAreWhole }
{}

/// Each fault of offers comes exactly where a row has it after rows that state offers: the names before the total, this
/// before the price, and these before the repeat, the 65th supplier of goods, and the 17th total at a supplier.
pub fn offer_faults_are_first()
    ensures { OfferFaultsAreFirst }
{}

/// Terms come exactly where the rows state them: a kind and fields of its forms in each row, a supplier and a part that are
/// known, and no kind, supplier and part twice. They are those of the rows whose supplier offers a good and whose part is
/// one; the other rows say nothing of the job.
pub fn terms_are_whole()
    ensures { TermsAreWhole }
{}

/// Each fault of terms comes exactly where a row has it after rows that state terms: the kind before the fields, these in
/// their order, then the supplier, the part, and the repeat.
pub fn term_faults_are_first()
    ensures { TermFaultsAreFirst }
{}

/// A fault of the form of a file of offers comes exactly where its records have it, before all other faults.
pub fn offer_form_comes_first()
    ensures { OfferFormComesFirst }
{}

/// A fault of the form of a file of terms comes exactly where its records have it, before all other faults.
pub fn term_form_comes_first()
    ensures { TermFormComesFirst }
{}
