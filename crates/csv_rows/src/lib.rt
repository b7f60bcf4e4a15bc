//! Files of comma-separated rows under a known header, as tables of texts.
//!
//! [`rows`] answers what `table_of` of `specs/` says of the records that `csv` gives for the bytes:
//! the rows after the header, or the first fault. The header has to be the known names, byte for
//! byte; each row has as many fields as the header, and each field is UTF-8. Of two rows the earlier
//! decides, and within a row its width before its texts. Only the want of memory is left open.
//!
//! A [`Table`] is seen by contracts as the list of its rows, and a row as the list of its fields.
#![tactic(auto)]

mod fault;
pub mod laws;
mod reading;
mod table;

pub use fault::RowFault;
pub use reading::rows;
pub use table::Table;
