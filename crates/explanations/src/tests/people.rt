//! What people read, whatever the error.

use super::*;
use rank_input::{Archive, Place};
use std::io;

#[test]
fn names_with_control_characters(rt: HostRuntime) -> Result<(), Fail> {
    let alloc = rt.alloc();
    let cases = [
        (
            "d\u{e4}ten/\u{3b1}.dly",
            "d\u{e4}ten/\u{3b1}.dly: it looks compressed, by gzip; unpack it first",
        ),
        (
            "a\nb\u{1b}[31m\u{7f}.dly",
            "a?b?[31m?.dly: it looks compressed, by gzip; unpack it first",
        ),
        // U+009B begins a command of a terminal too.
        (
            "a\u{9b}1m",
            "a??1m: it looks compressed, by gzip; unpack it first",
        ),
    ];
    for (name, expected) in cases {
        let says = COMPRESSED;
        let said = format!(in alloc; "{}", Explanation::Of { name, says })?;
        assert_eq!(rt; said.as_str(), expected);
    }
    Ok(())
}

#[test]
fn first_bytes_of_gzip(rt: HostRuntime) {
    let cases = [
        (b"\x1f\x8b\x08".as_slice(), true),
        (b"\x1f\x8b".as_slice(), true),
        (b"\x1f".as_slice(), false),
        (b"\x8b\x1f".as_slice(), false),
        (b"".as_slice(), false),
    ];
    for (text, expected) in cases {
        assert_eq!(rt; looks_compressed(text), expected);
    }
}

#[test]
fn meanings_of_warnings(rt: HostRuntime) -> Result<(), Fail> {
    let alloc = rt.alloc();
    let cases = [
        (UNLISTED, "unlisted: "),
        (FOREIGN, "foreign: "),
        (ODD, "odd: "),
    ];
    for (says, front) in cases {
        let said = format!(in alloc; "{}", Explanation::Plain(says))?;
        assert!(rt; said.starts_with(front) && said.len() <= 100);
    }
    Ok(())
}

#[test]
fn words_that_people_read(rt: HostRuntime) -> Result<(), Fail> {
    let alloc = rt.alloc();
    let given = Given {
        query: "top 1 dry",
        stations: "/dev/null",
        files: &[],
    };
    let fault = Fault::StationLine {
        line: 2,
        why: StationWhy::Short,
    };
    let warnings = Warnings {
        foreign: Foreign {
            count: 1,
            first: Some(0),
        },
        odd: OddLines {
            count: 1,
            first: Some(LinePlace { file: 0, line: 1 }),
        },
    };
    let archive = System(&rt);
    let said = "a query has at most 256 bytes\n\
        out of memory: the system gave no more\n\
        /dev/null:2: too few columns; a line of the station list has at least 30\n\
        out: this run reads it or prints to it, or it holds something other than a certificate\n\
        foreign: files that have lines, but none of PRCP SNOW SNWD TMAX TMIN\n\
        odd: lines that aren't laid out as daily lines are; daily lines may be lost with them\n\
        unlisted: lines of stations that aren't in the station list; they were left out\n\
        data: a folder without .dly files, or a list without names\n\
        list: a name in it isn't UTF-8 text\n\
        out of memory: the system gave no more\n\
        file not written: the system took only a part or nothing; is there room, and may you write there?\n\
        no such file: ";
    for is_read in [false, true] {
        let mut words = ForPeople::new(alloc, is_read);
        words.explain_query(alloc, QueryFault::QueryTooLong, "x");
        words.explain_parts(alloc, MergeFault::Memory(Memory), &[]);
        words.explain_input(alloc, &archive, fault, given);
        words.explain_use(alloc, "out");
        words.explain_warnings(alloc, warnings, 3);
        let (empty, other) = (
            String::from_str(alloc, "data")?,
            String::from_str(alloc, "list")?,
        );
        words.explain_names(alloc, &archive, &NotNamed::Empty(empty), None);
        words.explain_names(alloc, &archive, &NotNamed::NotText(other), None);
        words.explain_names(alloc, &archive, &NotNamed::Memory, None);
        words.explain_unwritten(alloc);
        let absent = String::from_str(alloc, "no such file")?;
        words.explain_names(alloc, &archive, &NotNamed::Unreadable(absent), Some("-"));
        assert_eq!(rt; words.lines().starts_with(said), is_read);
        assert_eq!(rt; words.lines().is_empty(), !is_read);
    }
    Ok(())
}

/// An archive without files.
#[derive(Drop)]
struct NoFiles;

impl Archive for NoFiles {
    ghost use Rattle.std.specs.Prelude.{None, ⊤};

    type File = &'static [u8];

    ghost bytes_of = { λ _ _. None };

    ghost opens = { λ _ _ _. ⊤ };

    ghost names_of = { λ _ _. None };

    fn open(&self, _path: &str) -> io::Result<&'static [u8]> {
        Err(io::Error::from(io::ErrorKind::NotFound))
    }

    fn open_at(&self, _path: &str, _byte: u64) -> io::Result<&'static [u8]> {
        Err(io::Error::from(io::ErrorKind::NotFound))
    }

    fn look(&self, _path: &str) -> Place {
        Place::Other
    }

    fn names(&self, _alloc: Global, _folder: &str) -> io::Result<Vec<u8>> {
        Err(io::Error::from(io::ErrorKind::NotFound))
    }
}

#[test]
fn lists_that_cannot_be_read(rt: HostRuntime) -> Result<(), Fail> {
    let alloc = rt.alloc();
    let cases = [
        ("-", Some("-"), "/dev/stdin: "),
        ("-", Some("list"), "-: "),
        ("-", None, "-: "),
        ("list", Some("list"), "list: "),
        ("folder", Some("-"), "folder: "),
    ];
    for (name, list, expected) in cases {
        let why = NotNamed::Unreadable(String::from_str(alloc, name)?);
        let mut words = ForPeople::new(alloc, true);
        words.explain_names(alloc, &NoFiles, &why, list);
        assert!(rt;
            words.lines().starts_with(expected),
            "{name} {list:?}: {}",
            words.lines()
        );
    }
    Ok(())
}
