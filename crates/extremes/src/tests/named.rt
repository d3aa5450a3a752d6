//! Runs of commands over an archive in memory: a folder, a list of more names, and lists of queries.

use super::*;
use crate::run::run_command;
use command_line::{CheckArguments, Command, DescribeArguments, NamedFiles, RankArguments};
use explanations::ForPeople;
use rank_input::{Archive, Place};
use std::alloc::{AllocError, Global};
use std::io;
use std::io::Read;
use std::rt::Files;
use std::sync::Wait;
use std::test::Fail;
use std::thread::Threads;
use std::time::Clock;

/// How many bytes a line of the daily files has, with its line feed.
const LINE: usize = 270;

/// The names in the folder, in no order.
const FOLDER: &[u8] = b"b.dly\0.c.dly\0notes.txt\0a.dly\0";

/// The names in the list.
const LIST: &[u8] = b"\nlast.dly\r\n";

/// Stations, a folder, lists, and files of one daily line each.
#[derive(Drop)]
struct InMemory;

/// What the file of a path holds.
fn bytes_at(path: &str) -> Option<&'static [u8]> {
    match path {
        "stations" => Some(STATIONS),
        "folder/a.dly" => Some(&DAILY[..LINE]),
        "folder/b.dly" => Some(&DAILY[LINE..2 * LINE]),
        "last.dly" => Some(&DAILY[2 * LINE..]),
        "short.dly" => Some(b"ZZA00000001\n"),
        "list" => Some(LIST),
        "short" => Some(b"last.dly\nshort.dly\n"),
        "queries" => Some(b"top 3 highest TMAX\r\ntop 1 highest TMAX\n"),
        "three" => Some(b"top 3 highest TMAX\ntop 1 highest TMAX\ntop 3 highest TMAX\n"),
        "misprint" => Some(b"top 3 highest TMAX\ntop 1 highest\n"),
        "garbled" => Some(b"top 3 highest TMAX\n\xff\n"),
        "nothing" => Some(b""),
        "papers/1.report"
        | "papers/3.report"
        | "swapped/2.report"
        | "twice/1.report"
        | "twice/2.report" => Some(REPORT),
        "papers/1.certificate" | "papers/3.certificate" | "swapped/2.certificate" => Some(
            CERTIFICATE,
        ),
        "twice/1.certificate" | "twice/2.certificate" => Some(CERTIFICATE),
        "papers/2.report" | "swapped/1.report" => Some(BEST),
        "papers/2.certificate" | "swapped/1.certificate" => Some(BEST_CERTIFICATE),
        "half/1.report" | "half/1.certificate" | "half/2.report" => Some(b""),
        "report" => Some(REPORT),
        "certificate" => Some(CERTIFICATE),
        _ => None,
    }
}

/// An open file. No contract says what it holds.
#[derive(Drop)]
struct Bytes(&'static [u8]);

impl Read for Bytes {
    fn read(&mut self, buf: &mut [u8]) -> io::Result<usize> {
        self.0.read(buf)
    }
}

/// The certificate of [`REPORT`].
const CERTIFICATE: &[u8] = b"extremes certificate 2
query top 3 highest TMAX
kth 305
scan ZZA00000001 311 2
scan ZZA00000002 311 1
scan ZZA00000003 250 0
end 3
";

/// The certificate of [`BEST`].
const BEST_CERTIFICATE: &[u8] = b"extremes certificate 2
query top 1 highest TMAX
kth 311
scan ZZA00000001 311 1
scan ZZA00000002 311 0
skip ZZA00000003 250
end 3
";

impl Archive for InMemory {
    ghost use Rattle.std.specs.Prelude.{None, ⊤};

    type File = Bytes;

    ghost bytes_of = { λ _ _. None };

    ghost opens = { λ _ _ _. ⊤ };

    ghost names_of = { λ _ _. None };

    fn open(&self, path: &str) -> io::Result<Bytes> {
        match bytes_at(path) {
            Some(bytes) => Ok(Bytes(bytes)),
            None => Err(io::Error::from(io::ErrorKind::NotFound)),
        }
    }

    fn open_at(&self, path: &str, byte: u64) -> io::Result<Bytes> {
        match bytes_at(path) {
            Some(bytes) => Ok(Bytes(bytes.get(byte as usize..).unwrap_or(b""))),
            None => Err(io::Error::from(io::ErrorKind::NotFound)),
        }
    }

    fn look(&self, path: &str) -> Place {
        if path == "folder" {
            return Place::Folder;
        }
        match bytes_at(path) {
            Some(bytes) => Place::File(bytes.len() as u64),
            None => Place::Other,
        }
    }

    fn names(&self, alloc: Global, _folder: &str) -> io::Result<Vec<u8>> {
        let mut names = Vec::new(alloc);
        names.extend_from_slice(FOLDER)?;
        Ok(names)
    }
}

/// The folder, and then a list of more.
pub(super) fn named(alloc: Global, list: &str) -> Result<NamedFiles, AllocError> {
    let mut paths = Vec::new(alloc);
    paths.push(String::from_str(alloc, "folder")?)?;
    Ok(NamedFiles {
        paths,
        list: Some(String::from_str(alloc, list)?),
        null: false,
        progress: true,
    })
}

/// A command to rank them.
fn ranking(alloc: Global, list: &str) -> Result<Command, AllocError> {
    Ok(Command::Rank(RankArguments {
        stations: String::from_str(alloc, "stations")?,
        query: String::from_str(alloc, "top 3 highest TMAX")?,
        workers: 4,
        guess: None,
        certificate: None,
        files: named(alloc, list)?,
    }))
}

/// A command to check a report and a certificate against them.
fn judging(alloc: Global, list: &str) -> Result<Command, AllocError> {
    Ok(Command::Check(CheckArguments {
        stations: String::from_str(alloc, "stations")?,
        query: String::from_str(alloc, "top 3 highest TMAX")?,
        report: String::from_str(alloc, "report")?,
        certificate: String::from_str(alloc, "certificate")?,
        part: false,
        workers: 4,
        files: named(alloc, list)?,
    }))
}

/// A command to describe them.
fn describing(alloc: Global, list: &str) -> Result<Command, AllocError> {
    Ok(Command::Describe(DescribeArguments {
        stations: String::from_str(alloc, "stations")?,
        workers: 4,
        files: named(alloc, list)?,
    }))
}

/// What a run prints on standard output and on standard error, and how it ends.
pub(super) fn run_of<R: Files + Threads + Wait + AllocGlobal + Clock + Eprint + Sync>(
    rt: &R,
    asked: Command,
) -> (Vec<u8>, String, Ending) {
    let alloc = rt.alloc();
    let (mut target, mut out) = (SystemTarget::new(rt), Vec::new(alloc));
    let mut messages = KeptLines::new(alloc);
    let mut words = ForPeople::new(alloc, false);
    let ending = run_command(
        rt,
        &InMemory,
        asked,
        &mut messages,
        &mut target,
        &mut out,
        &mut words,
    );
    (out, messages.text, ending)
}

#[test]
fn a_folder_and_a_list_are_ranked(rt: HostRuntime) -> Result<(), Fail> {
    let (out, lines, ending) = run_of(&rt, ranking(rt.alloc(), "list")?);
    assert_eq!(rt; ending, Ending::Done);
    assert_eq!(rt; out.as_slice(), REPORT);
    assert_eq!(rt; lines.as_str(), "");
    Ok(())
}

#[test]
fn a_folder_and_a_list_are_checked(rt: HostRuntime) -> Result<(), Fail> {
    let (out, lines, ending) = run_of(&rt, judging(rt.alloc(), "list")?);
    assert_eq!(rt; out.as_slice(), b"accepted\n".as_slice());
    assert_eq!(rt; ending, Ending::Done);
    assert_eq!(rt; lines.as_str(), "");
    Ok(())
}

#[test]
fn a_folder_and_a_list_are_described(rt: HostRuntime) -> Result<(), Fail> {
    let (out, lines, ending) = run_of(&rt, describing(rt.alloc(), "list")?);
    assert_eq!(rt; ending, Ending::Done);
    assert!(rt; out.as_slice().starts_with(b"extremes description 1\n"));
    assert_eq!(rt; lines.as_str(), "");
    Ok(())
}

#[test]
fn a_bad_line_of_a_file_of_a_list(rt: HostRuntime) -> Result<(), Fail> {
    let alloc = rt.alloc();
    let refused = "refused 5 DailyLine file 4 line 1 Short\nat short.dly:1\n";
    for asked in [
        ranking(alloc, "short")?,
        judging(alloc, "short")?,
        describing(alloc, "short")?,
    ] {
        let (out, lines, ending) = run_of(&rt, asked);
        assert_eq!(rt; ending, Ending::Refused);
        assert_eq!(rt; lines.as_str(), refused);
        assert!(rt; out.is_empty());
    }
    for asked in [
        ranking(alloc, "no\nlist")?,
        judging(alloc, "no\nlist")?,
        describing(alloc, "no\nlist")?,
    ] {
        let (out, lines, ending) = run_of(&rt, asked);
        assert_eq!(rt; ending, Ending::File);
        assert_eq!(rt; lines.as_str(), "file not read no?list\n");
        assert!(rt; out.is_empty());
    }
    Ok(())
}
