//! Making a table of reports, from the texts of files to its own.

ghost use Rattle.std.specs.Prelude.{◌≡◌, Ok, IfOk, IfErr, map, option_map};
ghost use Rattle.ghcn_fields.specs.Refusals.{IsRefusal};
ghost use Rattle.ghcn_files.specs.Listed as listed;
ghost use Rattle.rank_table.specs.Reports.{texts_in};
ghost use Rattle.extremes.specs.Tables as tables;

use ghcn_fields::Memory;
use ghcn_files::{Stations, StationsFault};
use rank_table::{TableFault, read_reports, table};
use std::alloc::{AllocError, Global};
use std::fmt;
use thiserror::Error;

/// A table of reports as comma-separated values.
#[derive(Debug, Drop)]
pub struct TableText {
    pub bytes: Vec<u8>,
}

/// Why no table is made: the station list's error, or the first error of the reports.
#[derive(Clone, Copy, Debug, PartialEq, Eq, Error)]
pub enum TablingFault {
    Stations(StationsFault),
    Reports(TableFault),
}

impl fmt::Display for TablingFault {
    ghost use Rattle.std.specs.Prelude.{Some};
    ghost use Rattle.extremes.specs.FaultTexts.{tabling_fault_text};

    ghost output = { λ fault. Some (tabling_fault_text fault) };

    fn fmt<W: fmt::Write>(&self, f: &mut fmt::Formatter<W>) -> fmt::Result {
        match self {
            TablingFault::Stations(cause) => write!(f, "{cause}"),
            TablingFault::Reports(why) => write!(f, "{why}"),
        }
    }
}

impl From<StationsFault> for TablingFault {
    ghost use Rattle.std.specs.Prelude.{◌≡◌};
    ghost use Rattle.extremes.specs.declared.table.TablingFault.TheVariants as faults;

    ghost from_gives = { λ cause fault. fault ≡ faults.Stations cause };

    fn from(cause: StationsFault) -> Self {
        TablingFault::Stations(cause)
    }
}

impl From<TableFault> for TablingFault {
    ghost use Rattle.std.specs.Prelude.{◌≡◌};
    ghost use Rattle.extremes.specs.declared.table.TablingFault.TheVariants as faults;

    ghost from_gives = { λ why fault. fault ≡ faults.Reports why };

    fn from(why: TableFault) -> Self {
        TablingFault::Reports(why)
    }
}

impl From<AllocError> for TablingFault {
    ghost use Rattle.std.specs.Prelude.{◌≡◌};
    ghost use Rattle.extremes.specs.declared.table.TablingFault.TheVariants as faults;
    ghost use Rattle.rank_table.specs.declared.fault.TableFault.TheVariants as reports;

    ghost from_gives = { λ _ fault. fault ≡ faults.Reports (reports.Memory (record {})) };

    fn from(_refused: AllocError) -> Self {
        TablingFault::Reports(TableFault::Memory(Memory))
    }
}

/// The table of the reports that texts hold, with the places of a station list if there is one.
///
/// The first error is reported: that of the station list, then that of the format of the texts, in their order, and
/// then the first row whose station isn't listed.
pub fn table_texts(
    alloc: Global,
    stations: Option<&[u8]>,
    texts: &[Vec<u8>],
) -> Result<TableText, TablingFault>
    ensures ok { IfOk result (λ made. tables.IsTableOf (option_map (λ text. text.now) stations.entry)
        (map (λ text. text.items) texts.now) made.bytes.items) }
    ensures err { IfErr result (λ fault. IsRefusal tables.is_memory fault
        (tables.table_of_texts (option_map (λ text. text.now) stations.entry) (map (λ text. text.items) texts.now))) }
    ensures wrong { IfErr result (tables.SaysWrong (option_map (λ text. text.now) stations.entry)
        (map (λ text. text.items) texts.now)) }
{
    let stations = read_list(alloc, stations)?;
    let texts = slices(alloc, texts)?;
    let reports = read_reports(alloc, texts.as_slice())?;
    let bytes = table(alloc, reports.as_slice(), stations.as_ref())?;
    Ok(TableText { bytes })
}

/// The stations of a list, if there is one.
fn read_list(alloc: Global, text: Option<&[u8]>) -> Result<Option<Stations>, StationsFault>
    ensures ok { IfOk result (λ list. tables.listed_if_any (option_map (λ text. text.now) text.entry) ≡ Ok list) }
    ensures err { IfErr result (λ fault. IsRefusal listed.is_memory fault
        (tables.listed_if_any (option_map (λ text. text.now) text.entry))) }
{
    match text {
        None => Ok(None),
        Some(text) => Ok(Some(Stations::read(alloc, text)?)),
    }
}

/// Texts, lent.
fn slices(alloc: Global, texts: &[Vec<u8>]) -> Result<Vec<&[u8]>, AllocError>
    ensures { IfOk result (λ lent. texts_in lent.items ≡ map (λ text. text.items) texts.now) }
{
    let mut lent = Vec::new(alloc);
    for text in texts {
        lent.push(text.as_slice())?;
    }
    Ok(lent)
}
