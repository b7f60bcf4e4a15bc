use csv_rows::RowFault;

/// The first fault of a file of orders or of a bill. Rows are numbered from 1, which is the header.
#[derive(Clone, Copy, Debug, PartialEq, Eq)]
pub enum BillFault {
    /// The file is not rows of texts under the header: the first fault of its form.
    Rows(RowFault),
    /// A bill has more than 100,000 rows after the header. Orders have no such limit.
    TooManyLines,
    /// A name in the row is not 1 to 64 bytes, or holds a byte below 32 or the byte 127.
    Name { at: u64 },
    /// The quantity in the row is not 1 to 18 digits, or not from 0 to 100,000,000 in orders, or
    /// from 1 to that in a bill.
    Quantity { at: u64 },
    /// The row brings name 20,001 of orders and bill together.
    TooManyNames { at: u64 },
    /// The product, or the pair of assembly and part, stood in an earlier row.
    Twice { at: u64 },
}
