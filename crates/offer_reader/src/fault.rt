use csv_rows::RowFault;

/// The first fault of a file of offers. Rows are numbered from 1, which is the header.
#[derive(Clone, Copy, Debug, PartialEq, Eq)]
pub enum OfferFault {
    /// The file is not rows of texts under the header: the first fault of its form.
    Rows(RowFault),
    /// The supplier or the part is not 1 to 64 bytes, or holds a byte below 32 or the byte 127.
    Name { at: u64 },
    /// The total from which the price holds is not 1 to 18 digits, or not from 1 to 100,000,000.
    From { at: u64 },
    /// The price is not 1 to 7 digits with at most six decimals, or above 1,000,000.
    Price { at: u64 },
    /// The supplier, the total and the part stood in an earlier row.
    Twice { at: u64 },
    /// The row brings the 65th supplier of a good.
    TooManySuppliers { at: u64 },
    /// The row brings the 17th total from which a price of a good holds at its supplier.
    TooManyIntervals { at: u64 },
}
