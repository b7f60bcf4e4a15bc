ghost use Rattle.std.specs.Prelude.{◌≡◌, ◌<◌, ◌↔◌, ◌+◌, ℕ, List, [], ◌∷◌, ◌++◌, map, length};
ghost use Rattle.std.specs.Prelude.{slice_index_or, All, IfErr, IfOk, IsTrue, IsUtf8};
ghost use Rattle.csv.specs.Reading.{default_config, records, strip_bom};
ghost use Rattle.csv.specs.Records.{field_at, fields_of};
ghost use Rattle.tqd_base.specs.declared.memory.Stop.TheVariants.{Refused};
ghost use Rattle.csv_rows.specs.declared.fault.RowFault.TheVariants.{Text};
ghost use Rattle.csv_rows.specs.Rows.{Answers, AnswersBy, names_of, records_of, row_fault, rows_fault};
ghost use Rattle.csv_rows.specs.Rows.{table_of, unless};
ghost use Rattle.csv_rows.specs.Reading.{HasRead, ReadsOn};

use crate::fault::RowFault;
use crate::table::Table;
use csv::{ByteRecord, Reader, ReaderBuilder, StringRecord};
use std::alloc::{AllocError, Global};
use std::str;
use tqd_base::{Memory, Stop};

/// U+FEFF in UTF-8, which some programs put before a text.
const MARK: [u8; 3] = [0xEF, 0xBB, 0xBF];

/// Reads the rows of a file under a header.
///
/// `header` has the names of the columns with one comma between two of them. Where the bytes begin
/// with a UTF-8 mark, it is dropped: a rule of this program. The records are those that `csv` gives
/// for the bytes that remain, with commas and double quotes, no trimming and records of any length.
/// Of several faults the answer has that of the earliest row, and in one row its width before its
/// texts.
pub fn rows(alloc: Global, bytes: &[u8], header: &str) -> Result<Table, Stop<RowFault>>
    ensures table { Answers result (table_of (names_of header.now) (records_of bytes.now)) }
    ensures width { IfOk result (λ table. All (λ row. length row ≡ length (names_of header.now)) table) }
{
    let names = column_names(alloc, header)?;
    let mut reader = reader_of(alloc, bytes);
    let mut row = ByteRecord::new(alloc);
    if !read_next(&mut reader, &mut row)? {
        return Err(Stop::Refused(RowFault::Empty));
    }
    if !has_names(&row, &names) {
        return Err(Stop::Refused(RowFault::Header));
    }
    read_rows(alloc, &mut reader, row.len())
}

/// The names of the columns.
fn column_names(alloc: Global, header: &str) -> Result<Vec<&str>, AllocError>
    ensures { IfOk result (λ names. map (λ name. name.now) names.items ≡ names_of header.now) }
{
    header.split(',').collect(alloc)
}

/// The bytes without a UTF-8 mark at their start.
fn without_mark(bytes: &[u8]) -> &[u8]
    ensures { result.now ≡ strip_bom bytes.now }
{
    if bytes.starts_with(&MARK) {
        &bytes[MARK.len()..]
    } else {
        bytes
    }
}

/// A reader of all the records.
fn reader_of(alloc: Global, bytes: &[u8]) -> Reader<&[u8]>
    ensures { HasRead (strip_bom (strip_bom bytes.now)) [] result }
{
    ReaderBuilder::new()
        .has_headers(false)
        .flexible(true)
        .from_reader(alloc, without_mark(bytes))
}

/// Reads the next record, if there is one. Over bytes in memory nothing but memory can be wanting.
fn read_next(reader: &mut Reader<&[u8]>, row: &mut ByteRecord) -> Result<bool, Memory>
    ensures { IfOk result (λ found. (text : List ℕ) (past : List (List (List ℕ))) →
        HasRead text past reader.old → ReadsOn text past found (fields_of row.new) reader.new) }
{
    reader.read_byte_record(row).map_err(|_| Memory)
}

/// Whether the field at this place is the name.
fn is_field(row: &ByteRecord, field: usize, name: &str) -> bool
    ensures { IsTrue result ↔ (field_at (fields_of row.now) field ≡ Some name.now) }
{
    match row.get(field) {
        Some(bytes) => bytes == name.as_bytes(),
        None => false,
    }
}

/// Whether the fields are the names.
fn has_names(row: &ByteRecord, names: &[&str]) -> bool
    ensures { IsTrue result ↔ (fields_of row.now ≡ map (λ name. name.now) names.now) }
{
    if row.len() != names.len() {
        return false;
    }
    for field in 0..names.len() {
        if !is_field(row, field, names[field]) {
            return false;
        }
    }
    true
}

/// The text of a field, which is refused where it is not UTF-8.
fn text_at(row: &ByteRecord, field: usize, at: u64) -> Result<&str, Stop<RowFault>>
    requires { field < length (fields_of row.now) }
    ensures text { IfOk result (λ text.
        (text.now ≡ slice_index_or (fields_of row.now) field []) × IsUtf8 text.now) }
    ensures fault { IfErr result (λ stop. (stop ≡ Refused (Text at (field + 1)))
        × ¬ (IsUtf8 (slice_index_or (fields_of row.now) field []))) }
{
    match row.get(field) {
        Some(bytes) => match str::from_utf8(bytes) {
            Ok(text) => Ok(text),
            Err(_) => Err(Stop::Refused(RowFault::Text {
                at,
                field: field as u64 + 1,
            })),
        },
        None => unreachable!(),
    }
}

/// Adds the fields of a record to those of the rows before it, where it has no fault as a row.
fn add_row(
    texts: &mut StringRecord,
    row: &ByteRecord,
    width: usize,
    at: u64,
) -> Result<(), Stop<RowFault>>
    ensures { AnswersBy (λ _. fields_of texts.new) result
        (unless (row_fault width at (fields_of row.now)) (fields_of texts.old ++ fields_of row.now)) }
{
    if row.len() != width {
        return Err(Stop::Refused(RowFault::Width {
            at,
            found: row.len() as u64,
        }));
    }
    for field in 0..row.len() {
        texts.push_field(text_at(row, field, at)?)?;
    }
    Ok(())
}

/// Reads the rows after the header.
fn read_rows(
    alloc: Global,
    reader: &mut Reader<&[u8]>,
    width: usize,
) -> Result<Table, Stop<RowFault>>
    requires { 0 < width }
    ensures { (text : List ℕ) (first : List (List ℕ)) → HasRead text (first ∷ []) reader.old →
        (others : List (List (List ℕ))) × (records default_config text ≡ first ∷ others)
        × Answers result (unless (rows_fault width 2 others) others) }
{
    let mut texts = StringRecord::new(alloc);
    let mut row = ByteRecord::new(alloc);
    for at in 2..u64::MAX {
        if !read_next(reader, &mut row)? {
            return Ok(Table::of_fields(texts, width));
        }
        add_row(&mut texts, &row, width, at)?;
    }
    // No memory holds so many rows.
    Err(Stop::Memory)
}
