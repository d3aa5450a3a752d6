//! The folder of a list of queries: it gets the certificate and the report of each query in new files.

ghost use Rattle.std.specs.Prelude.{◌≡◌, ◌∷◌, [], None, Some, IfErr, IfOk, OnOk, option_map, string_bytes};
ghost use Rattle.extremes.specs.PapersFolder.{IsFirstThere, IsFolder, IsMissing, PuttingStops, files_of, new_files, new_paths, paper_paths, paths_of};
ghost use Rattle.extremes.specs.PaperPaths as paths;
ghost use Rattle.extremes.specs.Targets.{ArePut, IsPut};

use crate::delivery::write_whole;
use crate::paper_paths::{CERTIFICATE, REPORT, certificate_path, paper_path, report_path};
use crate::papers::Papers;
use crate::target::Target;
use ghcn_fields::Memory;
use rank_input::{Fault, below};
use std::alloc::{AllocError, Global};

/// Why the rankings of a list of queries stop.
#[derive(Debug, Drop)]
pub enum Stop {
    /// An error of the files, or out of memory.
    Input(Fault),
    /// The file of this path isn't written whole.
    NotWritten(String),
}

impl From<Fault> for Stop {
    ghost use Rattle.std.specs.Prelude.{◌≡◌};
    ghost use Rattle.extremes.specs.declared.papers_folder.Stop.TheVariants as stops;

    ghost from_gives = { λ fault stop. stop ≡ stops.Input fault };

    fn from(fault: Fault) -> Self {
        Stop::Input(fault)
    }
}

impl From<Memory> for Stop {
    ghost use Rattle.std.specs.Prelude.{◌≡◌};
    ghost use Rattle.extremes.specs.declared.papers_folder.Stop.TheVariants as stops;
    ghost use Rattle.rank_input.specs.declared.fault.Fault.TheVariants as faults;

    ghost from_gives = { λ memory stop. stop ≡ stops.Input (faults.Memory memory) };

    fn from(memory: Memory) -> Self {
        Stop::Input(Fault::Memory(memory))
    }
}

impl From<AllocError> for Stop {
    ghost use Rattle.std.specs.Prelude.{◌≡◌};
    ghost use Rattle.extremes.specs.declared.papers_folder.Stop.TheVariants as stops;
    ghost use Rattle.rank_input.specs.declared.fault.Fault.TheVariants as faults;

    ghost from_gives = { λ _ stop. stop ≡ stops.Input (faults.Memory (record {})) };

    fn from(_refused: AllocError) -> Self {
        Stop::Input(Fault::Memory(Memory))
    }
}

/// The path of the folder, if there is one for the files of a list of queries and it isn't there.
pub(crate) fn missing_folder<'f, T: Target>(
    alloc: Global,
    target: &T,
    folder: &'f Option<String>,
) -> Result<Option<&'f str>, AllocError>
    ensures { IfOk result (λ missing. IsMissing (T.exists target.now) (option_map string_bytes folder.now)
        (option_map (λ path. path.now) missing)) }
{
    match folder {
        Some(folder) => {
            let there = folder_there(alloc, target, folder)?;
            Ok(if there { None } else { Some(folder) })
        }
        None => Ok(None),
    }
}

/// Whether there is a folder by a path.
fn folder_there<T: Target>(alloc: Global, target: &T, folder: &str) -> Result<bool, AllocError>
    ensures { IfOk result (λ there. IsFolder (T.exists target.now) folder.now there) }
{
    let inside = below(alloc, folder, ".")?;
    Ok(target.is_there(folder) && target.is_there(&inside))
}

/// The path of the first file that is there, of those that the queries of a list get, if one is and
/// there is a folder for them.
pub(crate) fn first_paper_there<T: Target>(
    alloc: Global,
    target: &T,
    folder: &Option<String>,
    queries: usize,
) -> Result<Option<String>, AllocError>
    ensures { IfOk result (λ path. IsFirstThere (T.exists target.now)
        (new_paths (option_map string_bytes folder.now) queries) (option_map string_bytes path)) }
{
    match folder {
        Some(folder) => first_there(alloc, target, folder, queries),
        None => Ok(None),
    }
}

/// The path of the first file that is there, of those that the queries of a list get in a folder, if
/// one is. They are numbered from 1.
fn first_there<T: Target>(
    alloc: Global,
    target: &T,
    folder: &str,
    queries: usize,
) -> Result<Option<String>, AllocError>
    ensures { IfOk result (λ path. IsFirstThere (T.exists target.now) (paper_paths folder.now 1 queries)
        (option_map string_bytes path)) }
{
    for at in 0..queries {
        let found = paper_there(alloc, target, folder, at as u64 + 1)?;
        if let Some(path) = found {
            return Ok(Some(path));
        }
    }
    Ok(None)
}

/// The path of the certificate's file or of the report's file of a query, if one is there.
fn paper_there<T: Target>(
    alloc: Global,
    target: &T,
    folder: &str,
    number: u64,
) -> Result<Option<String>, AllocError>
    ensures { IfOk result (λ path. IsFirstThere (T.exists target.now) (paths_of folder.now number)
        (option_map string_bytes path)) }
{
    let certificate = certificate_path(alloc, folder, number)?;
    if target.is_there(&certificate) {
        return Ok(Some(certificate));
    }
    let report = report_path(alloc, folder, number)?;
    if target.is_there(&report) {
        return Ok(Some(report));
    }
    Ok(None)
}

/// Puts the certificate and then the report of a query into new files of a folder, if there is one.
pub(crate) fn put_papers<T: Target>(
    alloc: Global,
    folder: Option<&str>,
    number: u64,
    papers: &Papers,
    target: &mut T,
) -> Result<(), Stop>
    ensures ok { OnOk result (ArePut T.creates T.abandons T.contents target.old target.new
        (new_files (option_map (λ f. f.now) folder.entry) number (papers.now ∷ [])) None) }
    ensures stopped { IfErr result (PuttingStops
        (new_files (option_map (λ f. f.now) folder.entry) number (papers.now ∷ []))
        (ArePut T.creates T.abandons T.contents target.old target.new)) }
{
    match folder {
        Some(folder) => put_both(alloc, folder, number, papers, target),
        None => Ok(()),
    }
}

/// Puts the certificate and then the report of a query into new files of a folder.
fn put_both<T: Target>(
    alloc: Global,
    folder: &str,
    number: u64,
    papers: &Papers,
    target: &mut T,
) -> Result<(), Stop>
    ensures ok { OnOk result (ArePut T.creates T.abandons T.contents target.old target.new
        (files_of folder.now number papers.now) None) }
    ensures stopped { IfErr result (PuttingStops (files_of folder.now number papers.now)
        (ArePut T.creates T.abandons T.contents target.old target.new)) }
{
    put_paper(
        alloc,
        folder,
        number,
        CERTIFICATE,
        &papers.certificate,
        target,
    )?;
    put_paper(alloc, folder, number, REPORT, &papers.report, target)
}

/// Puts the certificate or the report of a query into a new file of a folder.
fn put_paper<T: Target>(
    alloc: Global,
    folder: &str,
    number: u64,
    kind: &str,
    paper: &[u8],
    target: &mut T,
) -> Result<(), Stop>
    ensures ok { OnOk result (ArePut T.creates T.abandons T.contents target.old target.new
        ((paths.paper_path folder.now number kind.now, paper.now) ∷ []) None) }
    ensures stopped { IfErr result (PuttingStops ((paths.paper_path folder.now number kind.now, paper.now) ∷ [])
        (ArePut T.creates T.abandons T.contents target.old target.new)) }
{
    let path = paper_path(alloc, folder, number, kind)?;
    if put_new(&path, paper, target) {
        Ok(())
    } else {
        Err(Stop::NotWritten(path))
    }
}

/// Puts a certificate or a report into a new file of a path, and abandons it if it isn't written
/// whole. Returns whether it is.
fn put_new<T: Target>(path: &str, paper: &[u8], target: &mut T) -> bool
    ensures { IsPut T.creates T.abandons T.contents target.old target.new (Some path.now) paper.now result }
{
    if target.create(path).is_err() {
        return false;
    }
    let whole = write_whole(paper, target);
    if !whole {
        target.abandon();
    }
    whole
}
