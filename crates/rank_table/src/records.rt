//! The records of a table: their fields, and writing them.

ghost use Rattle.std.specs.Prelude.{◌≡◌, [], ◌∷◌, ◌++◌, Some, IfOk, OnOk, option_map};
ghost use Rattle.csv.specs.Records.{fields_of, partial_of};
ghost use Rattle.rank_papers.specs.ReportLines.{named_in};
ghost use Rattle.rank_table.specs.Tables as tables;
ghost use Rattle.rank_table.specs.Written as written;

use crate::numbers::{degrees_text, elevation_text, value_text};
use csv::{ByteRecord, Writer, WriterBuilder};
use ghcn_fields::{Memory, write_date};
use ghcn_files::{Station, Stations};
use itoa::Buffer;
use rank_papers::{Row, unit_of};
use rank_query::Score;
use std::alloc::Global;

/// How many fields a record has without those of a station.
const ROW_FIELDS: usize = 8;

/// The names of the fields of a row, and then those of its station.
const NAMES: [&[u8]; 11] = [
    b"query",
    b"rank",
    b"id",
    b"first",
    b"last",
    b"value",
    b"unit",
    b"name",
    b"latitude",
    b"longitude",
    b"elevation",
];

/// The names of the fields of a table, with a station list or without one.
pub(crate) fn header(alloc: Global, stations: Option<&Stations>) -> Result<ByteRecord, Memory>
    ensures { IfOk result (λ names.
        fields_of names ≡ tables.header (option_map (λ s. s.now) stations.entry)) }
{
    let names = match stations {
        None => &NAMES[..ROW_FIELDS],
        Some(_) => &NAMES[..],
    };
    Ok(ByteRecord::from_fields(alloc, names)?)
}

/// The fields of a row with its rank, for a query of this text and score.
pub(crate) fn row_record(
    alloc: Global,
    query: &str,
    score: Score,
    rank: u64,
    row: &Row,
) -> Result<ByteRecord, Memory>
    ensures fields { IfOk result (λ made.
        fields_of made ≡ tables.row_fields query.now score rank (named_in row.now)) }
    ensures whole { IfOk result (λ made. partial_of made ≡ []) }
{
    let mut buffer = Buffer::new();
    let mut made = ByteRecord::new(alloc);
    push(&mut made, query.as_bytes())?;
    push(&mut made, buffer.format(rank).as_bytes())?;
    push(&mut made, &row.candidate.id.0)?;
    push(&mut made, &write_date(row.candidate.first))?;
    push(&mut made, &write_date(row.candidate.last))?;
    push(&mut made, &value_text(alloc, score, row.candidate.score)?)?;
    push(&mut made, unit_of(score))?;
    push(&mut made, &row.name)?;
    Ok(made)
}

/// Adds the fields of a station.
pub(crate) fn add_place(
    alloc: Global,
    row: &mut ByteRecord,
    station: &Station,
) -> Result<(), Memory>
    requires { partial_of row.old ≡ [] }
    ensures { OnOk result (fields_of row.new ≡ fields_of row.old ++ tables.place_fields station.now) }
{
    push(row, &degrees_text(alloc, station.latitude)?)?;
    push(row, &degrees_text(alloc, station.longitude)?)?;
    push(row, &elevation_text(alloc, station.elevation)?)?;
    Ok(())
}

/// Adds a field.
fn push(row: &mut ByteRecord, field: &[u8]) -> Result<(), Memory>
    requires { partial_of row.old ≡ [] }
    ensures fields { OnOk result (fields_of row.new ≡ fields_of row.old ++ field.now ∷ []) }
    ensures whole { OnOk result (partial_of row.new ≡ []) }
{
    row.push_field(field)?;
    Ok(())
}

/// A writer of records into memory, which has written none.
pub(crate) fn new_writer(alloc: Global) -> Writer<Vec<u8>>
    ensures { written.HasWritten (λ v. Some v.items) result [] }
{
    WriterBuilder::new().from_writer(Vec::new(alloc))
}

/// Writes a record. It has as many fields as those before it, so that it is refused only if memory is.
pub(crate) fn write(writer: &mut Writer<Vec<u8>>, row: &ByteRecord) -> Result<(), Memory>
    ensures { OnOk result (written.Writes (λ v. Some v.items) writer.old writer.new (fields_of row.now ∷ [])) }
{
    let Ok(()) = writer.write_byte_record(row) else {
        return Err(Memory);
    };
    Ok(())
}

/// The text that a writer has written.
pub(crate) fn text_of(writer: Writer<Vec<u8>>) -> Result<Vec<u8>, Memory>
    ensures { IfOk result (λ text. written.IsTextOf (λ v. Some v.items) writer text.items) }
{
    match writer.into_inner() {
        Ok(text) => Ok(text),
        Err(_) => Err(Memory),
    }
}
