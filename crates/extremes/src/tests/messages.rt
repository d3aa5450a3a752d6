//! The lines on standard error.

use super::*;
use crate::describe::DescriptionText;
use crate::judgement::Judgement;
use crate::messages::Messages;
use crate::papers::Papers;
use crate::print::{
    DailyPaths, not_named, not_read, not_written, print_description, print_judgement, print_ranked,
};
use crate::rank::Ranked;
use ghcn_series::{DailyWhy, Foreign, LinePlace, OddLines, Warnings};
use rank_check::Verdict;
use rank_input::NotNamed;
use std::alloc::{AllocError, Global};
use std::fmt::{Display, Write};
use std::process::Abort;
use std::test::Fail;

/// The lines that were printed, as long as there is memory.
#[derive(Drop)]
pub(super) struct KeptLines {
    pub(super) text: String,
}

impl KeptLines {
    pub(super) fn new(alloc: Global) -> KeptLines {
        KeptLines {
            text: String::new(alloc),
        }
    }
}

impl Messages for KeptLines {
    ghost use Rattle.std.specs.Prelude.{⊤};

    ghost prints = { λ _ _ _. ⊤ };

    fn print<D: Display + Drop>(&mut self, text: D) {
        let _ = writeln!(self.text, "{text}");
    }
}

/// The paths of that many files.
fn paths(alloc: Global, count: u64) -> Result<Vec<String>, AllocError> {
    (0..count)
        .map(|number| format!(in alloc; "file {number}.dly"))
        .try_collect(alloc)
}

/// Files that are the arguments.
fn as_arguments<'p>(files: &'p [String]) -> DailyPaths<'p> {
    DailyPaths {
        paths: files,
        arguments: files,
    }
}

/// This number of foreign files and of odd lines; the first of both are in one file.
fn warnings(foreign: u64, odd: u64, file: u64) -> Warnings {
    Warnings {
        foreign: Foreign {
            count: foreign,
            first: if foreign > 0 { Some(file) } else { None },
        },
        odd: OddLines {
            count: odd,
            first: if odd > 0 {
                Some(LinePlace { file, line: 12 })
            } else {
                None
            },
        },
    }
}

#[test]
fn lines_beside_a_report(rt: HostRuntime) -> Result<(), Fail> {
    let alloc = rt.alloc();
    let files = paths(alloc, 300)?;
    let cases = [
        (0, 0, 0, 0, None, ""),
        (0, 0, 0, 1, None, "unlisted 1\n"),
        (1, 0, 0, 0, None, "foreign 1 file 0.dly\n"),
        (0, 1, 1, 0, None, "odd 1 file 1.dly:12\n"),
        (100, 0, 256, 0, None, "foreign 100 file 256.dly\n"),
        (
            2,
            7,
            299,
            3000,
            None,
            "foreign 2 file 299.dly\nodd 7 file 299.dly:12\nunlisted 3000\n",
        ),
        (2, 7, 1, 3, Some(Fault::QueryEnds), "refused 9 QueryEnds\n"),
        (
            2,
            7,
            1,
            3,
            Some(Fault::Memory(ghcn_fields::Memory)),
            "refused 3 Memory\n",
        ),
    ];
    for (foreign, odd, file, unlisted, fault, expected) in cases {
        let answer = match fault {
            Some(fault) => Err(fault),
            None => Ok(Papers {
                report: Vec::new(alloc),
                certificate: Vec::new(alloc),
                unlisted,
            }),
        };
        let ranked = Ranked {
            answer,
            warnings: warnings(foreign, odd, file),
            dataset: None,
        };
        let mut messages = KeptLines::new(alloc);
        let (mut target, mut out) = (SystemTarget::new(&rt), Vec::new(alloc));
        print_ranked(
            &mut messages,
            ranked,
            as_arguments(&files),
            None,
            &mut target,
            &mut out,
        );
        assert_eq!(rt; messages.text.as_str(), expected);
    }
    Ok(())
}

#[test]
fn lines_beside_a_description_and_a_verdict(rt: HostRuntime) -> Result<(), Fail> {
    let alloc = rt.alloc();
    let files = paths(alloc, 2)?;
    let expected = "foreign 2 file 1.dly\nodd 7 file 1.dly:12\n";
    let text = DescriptionText {
        bytes: Vec::new(alloc),
        warnings: warnings(2, 7, 1),
    };
    let (mut messages, mut out) = (KeptLines::new(alloc), Vec::new(alloc));
    print_description(&mut messages, Ok(text), as_arguments(&files), &mut out);
    assert_eq!(rt; messages.text.as_str(), expected);
    let judged = (Judgement::Whole(Verdict::Accepted), warnings(2, 7, 1));
    let mut messages = KeptLines::new(alloc);
    print_judgement(&mut messages, Ok(judged), as_arguments(&files), &mut out);
    assert_eq!(rt; messages.text.as_str(), expected);
    assert_eq!(rt; out.as_slice(), b"accepted\n".as_slice());
    Ok(())
}

#[test]
fn lines_of_a_file(rt: HostRuntime) {
    let mut messages = KeptLines::new(rt.alloc());
    assert_eq!(rt; not_read(&mut messages, "no such file.dly"), Ending::File);
    assert_eq!(rt; messages.text.as_str(), "file not read no such file.dly\n");
}

/// A path whose line feed and colour would change what a terminal or a script sees.
const ODD_PATH: &str = "a\nb \u{e4}\u{1b}[31m.dly";

#[test]
fn lines_of_paths_with_control_characters(rt: HostRuntime) -> Result<(), Fail> {
    let alloc = rt.alloc();
    let mut files = Vec::new(alloc);
    files.push(String::from_str(alloc, ODD_PATH)?)?;
    let named = DailyPaths {
        paths: &files,
        arguments: &[],
    };
    let (mut messages, mut out) = (KeptLines::new(alloc), Vec::new(alloc));
    not_read(&mut messages, ODD_PATH);
    not_written(&mut messages, ODD_PATH);
    print_description(&mut messages, Err(bad_line(1)), named, &mut out);
    let judged = (Judgement::Whole(Verdict::Accepted), warnings(1, 7, 0));
    print_judgement(&mut messages, Ok(judged), named, &mut out);
    let expected = "file not read a?b ???[31m.dly\n\
        file not written a?b ???[31m.dly\n\
        refused 5 DailyLine file 1 line 40 DuplicateMonth\n\
        at a?b ???[31m.dly:40\n\
        foreign 1 a?b ???[31m.dly\n\
        odd 7 a?b ???[31m.dly:12\n";
    assert_eq!(rt; messages.text.as_str(), expected);
    Ok(())
}

/// An error of line 40 of the file of this number.
fn bad_line(file: u64) -> Fault {
    Fault::DailyLine {
        file,
        line: 40,
        why: DailyWhy::DuplicateMonth,
    }
}

#[test]
fn places_of_bad_daily_lines(rt: HostRuntime) -> Result<(), Fail> {
    let alloc = rt.alloc();
    let (files, same, fewer) = (paths(alloc, 3)?, paths(alloc, 3)?, paths(alloc, 2)?);
    let cases = [
        (
            same.as_slice(),
            bad_line(3),
            "refused 5 DailyLine file 3 line 40 DuplicateMonth\n",
        ),
        (
            fewer.as_slice(),
            bad_line(1),
            "refused 5 DailyLine file 1 line 40 DuplicateMonth\nat file 0.dly:40\n",
        ),
        (
            fewer.as_slice(),
            bad_line(3),
            "refused 5 DailyLine file 3 line 40 DuplicateMonth\nat file 2.dly:40\n",
        ),
        (
            fewer.as_slice(),
            Fault::UnexpectedWord(3),
            "refused 8 UnexpectedWord 3\n",
        ),
    ];
    for (arguments, fault, expected) in cases {
        let files = DailyPaths {
            paths: files.as_slice(),
            arguments,
        };
        let (mut messages, mut out) = (KeptLines::new(alloc), Vec::new(alloc));
        let ending = print_description(&mut messages, Err(fault), files, &mut out);
        assert_eq!(rt; ending, Ending::Refused);
        assert_eq!(rt; messages.text.as_str(), expected);
        let mut messages = KeptLines::new(alloc);
        print_judgement(&mut messages, Err(fault), files, &mut out);
        assert_eq!(rt; messages.text.as_str(), expected);
        assert!(rt; out.is_empty());
    }
    Ok(())
}

/// Prints why files can't be named.
fn check_not_named<R: Abort + AllocGlobal>(rt: &R, why: &NotNamed, ending: Ending, line: &str) {
    let mut messages = KeptLines::new(rt.alloc());
    assert_eq!(rt; not_named(&mut messages, why), ending);
    assert_eq!(rt; messages.text.as_str(), line);
}

#[test]
fn lines_of_names(rt: HostRuntime) -> Result<(), Fail> {
    let alloc = rt.alloc();
    let list = NotNamed::Unreadable(String::from_str(alloc, "a list")?);
    check_not_named(&rt, &list, Ending::File, "file not read a list\n");
    let empty = NotNamed::Empty(String::from_str(alloc, "-")?);
    check_not_named(&rt, &empty, Ending::File, "file not read -\n");
    let folder = NotNamed::NotText(String::from_str(alloc, "x/y/")?);
    check_not_named(&rt, &folder, Ending::File, "file not read x/y/\n");
    check_not_named(
        &rt,
        &NotNamed::Memory,
        Ending::Refused,
        "refused 3 Memory\n",
    );
    Ok(())
}
