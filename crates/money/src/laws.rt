//! What the texts are, in the words of the format: laws of the definitions that the readers and
//! writers are proved against. The functions do nothing.
ghost use Rattle.money.specs.Laws.{CountsAreShortest, SignedAreShortest, QuantitiesMayBePadded, PricesAreDecimal, CostsAreDecimal, CostsArePrices};

/// A text is read as a count exactly where it is the shortest spelling of a number below 10^23.
pub fn counts_are_shortest()
    ensures { CountsAreShortest }
{}

/// A text is read as a signed number exactly where it is the shortest spelling of one whose absolute
/// value is below 10^23.
pub fn signed_are_shortest()
    ensures { SignedAreShortest }
{}

/// A text is read as a quantity exactly where it is the shortest spelling of a number within the
/// bounds, with any zeros before it, of at most 18 bytes.
pub fn quantities_may_be_padded()
    ensures { QuantitiesMayBePadded }
{}

/// A text is read as a price exactly where it is a decimal number of the stated form, within the
/// limit, and the price is that number.
pub fn prices_are_decimal()
    ensures { PricesAreDecimal }
{}

/// A cost's text is a decimal number with six decimals, and it is the cost.
pub fn costs_are_decimal()
    ensures { CostsAreDecimal }
{}

/// The text of a cost within the limit of prices is read as that price.
pub fn costs_are_prices()
    ensures { CostsArePrices }
{}
