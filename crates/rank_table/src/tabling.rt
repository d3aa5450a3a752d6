//! The table of reports: a header, and a record for each of their rows.
//!
//! ```text
//! query,rank,id,first,last,value,unit,name                                without a station list
//! query,rank,id,first,last,value,unit,name,latitude,longitude,elevation   with one
//! ```
//!
//! A field with a comma, a quote or a line end is put into quotes, and a quote in it is doubled. A record ends by a
//! line feed.

ghost use Rattle.std.specs.Prelude.{◌≡◌, [], Ok, IfOk, IfErr, OnOk, option_map};
ghost use Rattle.ghcn_fields.specs.Refusals.{IsRefusal};
ghost use Rattle.csv.specs.Records.{fields_of, partial_of};
ghost use Rattle.rank_table.specs.Laws.{IsBadRow, IsReadBack};
ghost use Rattle.rank_table.specs.Reading.{is_memory};
ghost use Rattle.rank_table.specs.Reports.{placed_in, placed_report};
ghost use Rattle.rank_table.specs.Tables as tables;
ghost use Rattle.rank_table.specs.Written as written;

use crate::laws::{tables_are_read_back, unlisted_rows_are_refused};
use crate::records::{add_place, header, new_writer, row_record, text_of, write};
use crate::{PlacedReport, TableFault};
use csv::{ByteRecord, Writer};
use ghcn_fields::Memory;
use ghcn_files::{StationId, Stations};
use std::alloc::Global;

/// The table of reports. With a station list a record has the coordinates and the elevation of its row's station, and
/// the first row whose station isn't listed is refused.
pub fn table(
    alloc: Global,
    reports: &[PlacedReport],
    stations: Option<&Stations>,
) -> Result<Vec<u8>, TableFault>
    ensures ok { IfOk result (λ text. tables.table_of (option_map (λ s. s.now) stations.entry)
        (tables.rows_of (placed_in reports.now)) ≡ Ok text.items) }
    ensures err { IfErr result (λ why. IsRefusal is_memory why
        (tables.table_of (option_map (λ s. s.now) stations.entry) (tables.rows_of (placed_in reports.now)))) }
    ensures back { IfOk result (λ text. IsReadBack (option_map (λ s. s.now) stations.entry)
        (tables.rows_of (placed_in reports.now)) text.items) }
    ensures wrong { IfErr result (IsBadRow (option_map (λ s. s.now) stations.entry)
        (tables.rows_of (placed_in reports.now))) }
{
    // Clauses `back` and `wrong` are the laws.
    tables_are_read_back();
    unlisted_rows_are_refused();
    write_table(alloc, reports, stations)
}

/// The table of reports.
fn write_table(
    alloc: Global,
    reports: &[PlacedReport],
    stations: Option<&Stations>,
) -> Result<Vec<u8>, TableFault>
    ensures ok { IfOk result (λ text. tables.table_of (option_map (λ s. s.now) stations.entry)
        (tables.rows_of (placed_in reports.now)) ≡ Ok text.items) }
    ensures err { IfErr result (λ why. IsRefusal is_memory why
        (tables.table_of (option_map (λ s. s.now) stations.entry) (tables.rows_of (placed_in reports.now)))) }
{
    let mut writer = new_writer(alloc);
    let names = header(alloc, stations)?;
    write(&mut writer, &names)?;
    for report in reports {
        write_rows(alloc, &mut writer, report, stations)?;
    }
    Ok(text_of(writer)?)
}

/// Writes a record for each row of a report.
fn write_rows(
    alloc: Global,
    writer: &mut Writer<Vec<u8>>,
    report: &PlacedReport,
    stations: Option<&Stations>,
) -> Result<(), TableFault>
    ensures ok { OnOk result (written.WritesRows (λ v. Some v.items) writer.old writer.new
        (tables.records_of (option_map (λ s. s.now) stations.entry) (tables.rows_in (placed_report report.now)))) }
    ensures err { IfErr result (λ why. IsRefusal is_memory why
        (tables.records_of (option_map (λ s. s.now) stations.entry) (tables.rows_in (placed_report report.now)))) }
{
    let query = &report.report.query;
    let text = query.text(alloc)?;
    for (place, row) in report.report.rows.iter().enumerate() {
        let rank = place as u64 + 1;
        let fields = row_record(alloc, text.as_str(), query.score(), rank, row)?;
        let Some(fields) = with_place(alloc, fields, &row.candidate.id, stations)? else {
            let line = report.before + rank + 2;
            return Err(TableFault::NotListed {
                file: report.file,
                line,
            });
        };
        write(writer, &fields)?;
    }
    Ok(())
}

/// A record with the fields of the station of this ID, if that is listed. Without a station list it stays as it is.
fn with_place(
    alloc: Global,
    mut row: ByteRecord,
    id: &StationId,
    stations: Option<&Stations>,
) -> Result<Option<ByteRecord>, Memory>
    requires { partial_of row ≡ [] }
    ensures { IfOk result (λ made. option_map fields_of made
        ≡ tables.fields_with_place (fields_of row) (option_map (λ s. s.now) stations.entry) id.now) }
{
    let Some(stations) = stations else {
        return Ok(Some(row));
    };
    let Some(station) = stations.get(id) else {
        return Ok(None);
    };
    add_place(alloc, &mut row, station)?;
    Ok(Some(row))
}
