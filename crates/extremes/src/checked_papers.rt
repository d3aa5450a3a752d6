//! The reports and the certificates of a list of queries, as they are read from a folder.

ghost use Rattle.std.specs.Prelude.{◌≡◌, ◌∷◌, [], true, IfErr, IfOk, OnOk, string_bytes};
ghost use Rattle.rank_input.specs.Feeding.{AreAllOf, AreOpened};
ghost use Rattle.extremes.specs.JudgeEach.{StopsJudging};
ghost use Rattle.extremes.specs.Merges.{AreBothOf};
ghost use Rattle.extremes.specs.PaperPaths.{all_paths, both_paths, known_papers};

use crate::merge::PartTexts;
use crate::paper_paths::{certificate_path, report_path};
use ghcn_fields::Memory;
use rank_input::{Archive, Fault, read_whole};
use std::alloc::{AllocError, Global};

/// Why the checks of a list of queries stop.
#[derive(Debug, Drop)]
pub enum JudgingStop {
    /// An error of the files, or out of memory.
    Input(Fault),
    /// The report or the certificate of this path can't be read.
    NotRead(String),
}

impl From<Fault> for JudgingStop {
    ghost use Rattle.std.specs.Prelude.{◌≡◌};
    ghost use Rattle.extremes.specs.declared.checked_papers.JudgingStop.TheVariants as stops;

    ghost from_gives = { λ fault stop. stop ≡ stops.Input fault };

    fn from(fault: Fault) -> Self {
        JudgingStop::Input(fault)
    }
}

impl From<Memory> for JudgingStop {
    ghost use Rattle.std.specs.Prelude.{◌≡◌};
    ghost use Rattle.extremes.specs.declared.checked_papers.JudgingStop.TheVariants as stops;
    ghost use Rattle.rank_input.specs.declared.fault.Fault.TheVariants as faults;

    ghost from_gives = { λ memory stop. stop ≡ stops.Input (faults.Memory memory) };

    fn from(memory: Memory) -> Self {
        JudgingStop::Input(Fault::Memory(memory))
    }
}

impl From<AllocError> for JudgingStop {
    ghost use Rattle.std.specs.Prelude.{◌≡◌};
    ghost use Rattle.extremes.specs.declared.checked_papers.JudgingStop.TheVariants as stops;
    ghost use Rattle.rank_input.specs.declared.fault.Fault.TheVariants as faults;

    ghost from_gives = { λ _ stop. stop ≡ stops.Input (faults.Memory (record {})) };

    fn from(_refused: AllocError) -> Self {
        JudgingStop::Input(Fault::Memory(Memory))
    }
}

/// Opens the report and then the certificate of each of that many queries in a folder; or
/// returns the path of the first that can't be opened. Queries are numbered from 1.
pub(crate) fn try_papers<A: Archive>(
    alloc: Global,
    archive: &A,
    folder: &str,
    queries: usize,
) -> Result<(), JudgingStop>
    ensures opened { OnOk result (AreOpened (A.opens archive.now) (all_paths folder.now 1 queries)) }
    ensures stopped { IfErr result (StopsJudging (A.opens archive.now) (all_paths folder.now 1 queries)) }
{
    for at in 0..queries {
        try_both(alloc, archive, folder, at as u64 + 1)?;
    }
    Ok(())
}

/// Opens the report and then the certificate of a query.
fn try_both<A: Archive>(
    alloc: Global,
    archive: &A,
    folder: &str,
    number: u64,
) -> Result<(), JudgingStop>
    ensures opened { OnOk result (AreOpened (A.opens archive.now) (both_paths folder.now number)) }
    ensures stopped { IfErr result (StopsJudging (A.opens archive.now) (both_paths folder.now number)) }
{
    let report = report_path(alloc, folder, number)?;
    try_paper(archive, report)?;
    let certificate = certificate_path(alloc, folder, number)?;
    try_paper(archive, certificate)?;
    Ok(())
}

/// Opens a report or a certificate.
fn try_paper<A: Archive>(archive: &A, path: String) -> Result<(), JudgingStop>
    ensures opened { OnOk result (A.opens archive.now (string_bytes path) true) }
    ensures stopped { IfErr result (StopsJudging (A.opens archive.now) (string_bytes path ∷ [])) }
{
    match archive.open(&path) {
        Ok(_file) => Ok(()),
        Err(_) => Err(JudgingStop::NotRead(path)),
    }
}

/// Reads the report and then the certificate of a query, or returns the path of the one that can't be
/// read.
pub(crate) fn read_papers<A: Archive>(
    alloc: Global,
    archive: &A,
    folder: &str,
    number: u64,
) -> Result<PartTexts, JudgingStop>
    ensures read { IfOk result (λ texts. AreBothOf (known_papers (A.bytes_of archive.now) folder.now number)
        (texts.report.items, texts.certificate.items)) }
    ensures opened { OnOk result (AreOpened (A.opens archive.now) (both_paths folder.now number)) }
    ensures stopped { IfErr result (StopsJudging (A.opens archive.now) (both_paths folder.now number)) }
{
    let named = report_path(alloc, folder, number)?;
    let report = read_paper(alloc, archive, named)?;
    let named = certificate_path(alloc, folder, number)?;
    let certificate = read_paper(alloc, archive, named)?;
    Ok(PartTexts {
        report,
        certificate,
    })
}

/// Reads a report or a certificate whole.
fn read_paper<A: Archive>(alloc: Global, archive: &A, path: String) -> Result<Vec<u8>, JudgingStop>
    ensures read { IfOk result (λ text. AreAllOf (A.bytes_of archive.now (string_bytes path)) text.items) }
    ensures opened { OnOk result (A.opens archive.now (string_bytes path) true) }
    ensures stopped { IfErr result (StopsJudging (A.opens archive.now) (string_bytes path ∷ [])) }
{
    match read_whole(alloc, archive, &path) {
        Ok(text) => Ok(text),
        Err(_) => Err(JudgingStop::NotRead(path)),
    }
}
