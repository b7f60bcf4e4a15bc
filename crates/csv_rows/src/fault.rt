/// The first fault of a file of rows. Rows are numbered from 1, which is the header, and fields from 1.
#[derive(Clone, Copy, Debug, PartialEq, Eq)]
pub enum RowFault {
    /// There is no record.
    Empty,
    /// The first record is not the names of the columns.
    Header,
    /// A row has another number of fields than the header: this many.
    Width { at: u64, found: u64 },
    /// A field of a row is not UTF-8.
    Text { at: u64, field: u64 },
}
