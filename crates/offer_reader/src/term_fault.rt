use csv_rows::RowFault;

/// The first fault of a file of terms. Rows are numbered from 1, which is the header; fields count from 1.
#[derive(Clone, Copy, Debug, PartialEq, Eq)]
pub enum TermFault {
    /// The file is not rows of texts under the header: the first fault of its form.
    Rows(RowFault),
    /// The kind is none of those that are known.
    UnknownKind { at: u64 },
    /// The kind is `multiple`: orders in multiples are not supported.
    OrderMultiple { at: u64 },
    /// The first field that is not of the form that its kind asks for.
    Field { at: u64, field: u64 },
    /// The supplier stands in no row of the offers.
    UnknownSupplier { at: u64 },
    /// The part is no name of orders or bill, and stands in no row of the offers.
    UnknownPart { at: u64 },
    /// The kind, the supplier and the part stood in an earlier row.
    Twice { at: u64 },
}
