ghost use Rattle.std.specs.Prelude.{◌≡◌, ◌<◌, ◌/◌, [], length, slice_index_or};
ghost use Rattle.csv.specs.Records.{fields_of};
ghost use Rattle.csv_rows.specs.Rows.{rows_of};

use csv::StringRecord;
use std::marker::Model;

/// The rows of a file after its header, each of as many fields as the header has.
#[derive(Drop)]
pub struct Table {
    /// The fields of all rows, one row after the other, so that short rows take little memory.
    texts: StringRecord,
    /// How many fields a row has.
    width: usize,
    /// How many rows there are.
    rows: usize,
}

impl Model for Table {
    ghost use Rattle.std.specs.Prelude.{◌<◌, ◌^◌, ℕ, List, length};
    ghost use Rattle.csv_rows.specs.Rows.{rows_of};
    ghost use Rattle.csv.specs.Records.{fields_of};

    ghost Value = { List (List (List ℕ)) };

    ghost view = { λ table. rows_of table.width table.rows (fields_of table.texts) };

    ghost invariant = { λ table. length (fields_of table.texts) < 2 ^ 64 };
}

impl Table {
    /// The table of these fields, row after row; what is left over of them is in none.
    pub(crate) fn of_fields(texts: StringRecord, width: usize) -> Table
        requires { 0 < width }
        ensures { result ≡ rows_of width (length (fields_of texts) / width) (fields_of texts) }
    {
        let rows = texts.len() / width;
        Table { texts, width, rows }
    }

    /// How many rows there are after the header.
    pub fn len(&self) -> usize
        ensures { result ≡ length self.now }
    {
        self.rows
    }

    /// A field of a row, both counted from 0.
    pub fn field(&self, row: usize, field: usize) -> &str
        requires row { row < length self.now }
        requires field { field < length (slice_index_or self.now row []) }
        ensures { result.now ≡ slice_index_or (slice_index_or self.now row []) field [] }
    {
        match self.texts.get(row * self.width + field) {
            Some(text) => text,
            None => unreachable!(),
        }
    }
}
