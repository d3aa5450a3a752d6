//! What runs are given, and how errors are reported.

ghost use Rattle.std.specs.Prelude.{[], IfSome};
ghost use Rattle.ghcn_files.specs.Elements.{everything};
ghost use Rattle.ghcn_series.specs.Gathered.{HasReadByRows};
ghost use Rattle.rank_input.specs.Taken.{HasTakenSome};
ghost use Rattle.rank_input.specs.Takes as takes;

use ghcn_fields::Memory;
use ghcn_files::{Keep, LineWhy, StationWhy};
use ghcn_series::{DailyWhy, RowReader};
use rank_input::{Fault, Intake, Question, workers_for};
use std::alloc::Global;
use std::test::Fail;

const STATIONS: &[u8] = b"ZZA00000001  10.0000   20.0000  100.0    ALPHA\n";

/// Ends that many files.
fn end_files(question: &mut Question, count: u64)
    requires { HasTakenSome question.old }
    ensures { HasTakenSome question.new }
{
    for _ in 0..count {
        question.files.end_of_file();
    }
}

/// What is reported of files of which the first begins so, that many end, and the last begins so.
fn fault_of(alloc: Global, query: &str, first: &[u8], count: u64, last: &[u8]) -> Option<Fault> {
    let mut question = Question::new(alloc, query, STATIONS);
    question.files.piece(first);
    end_files(&mut question, count);
    question.files.piece(last);
    question.finish().err()
}

/// An intake that was given this station list and a file.
fn share(alloc: Global, stations: &[u8], file: &[u8]) -> Intake<RowReader>
    ensures { takes.HasTaken HasReadByRows result
        (takes.with_file_end (takes.with_bytes (takes.file_input everything stations.now []) file.now)) }
{
    let mut intake = Intake::<RowReader>::new(alloc, stations, Keep::everything());
    intake.piece(file);
    intake.end_of_file();
    intake
}

/// An intake of two files that came to two intakes, if these can be joined.
fn joined(alloc: Global, stations: &[u8], file: &[u8], other: &[u8]) -> Option<Intake<RowReader>>
    ensures { IfSome result (takes.HasTakenSome HasReadByRows) }
{
    let first = share(alloc, stations, file);
    first.join(share(alloc, stations, other))
}

/// How many bytes two shares have, and their error, if they can be joined.
fn found_in(
    alloc: Global,
    stations: &[u8],
    file: &[u8],
    other: &[u8],
) -> Option<(u64, Option<Fault>)> {
    let both = joined(alloc, stations, file, other)?;
    Some((both.bytes, both.finish().err()))
}

#[test]
fn intakes_of_two_shares(rt: HostRuntime) {
    let alloc = rt.alloc();
    let short = Some(Fault::StationLine {
        line: 1,
        why: StationWhy::Short,
    });
    assert_eq!(rt; found_in(alloc, STATIONS, b"\n", b"  \n"), Some((4, None)));
    assert_eq!(rt; found_in(alloc, STATIONS, b"", b""), Some((0, None)));
    assert_eq!(rt; found_in(alloc, b"ZZ", b"x", b"\n"), Some((2, short)));
    assert_eq!(rt; found_in(alloc, STATIONS, b"x", b"\n"), None);
    assert_eq!(rt; found_in(alloc, STATIONS, b"\n", b"x"), None);
}

/// The error of a line of a file.
fn daily_line(file: u64, line: u64, why: DailyWhy) -> Fault {
    Fault::DailyLine { file, line, why }
}

#[test]
fn files_behind_a_fault_are_counted(rt: HostRuntime) {
    let fault = daily_line(1, 1, DailyWhy::Line(LineWhy::Short));
    let bad_query = Fault::UnexpectedWord(3);
    let cases: [(&str, &[u8], u64, &[u8], Fault); 5] = [
        ("top 1 dry", b"x", 1 << 20, b"", fault),
        ("top 1 dry", b"x", 1 << 20, b"y", Fault::TooManyFiles),
        ("top 1 dry", b"x", (1 << 20) + 1, b"", Fault::TooManyFiles),
        ("top 1 dry", b"", (1 << 20) + 1, b"", Fault::TooManyFiles),
        ("top 1 icy", b"x", (1 << 20) + 1, b"", bad_query),
    ];
    for (query, first, count, last, expected) in cases {
        let found = fault_of(rt.alloc(), query, first, count, last);
        assert_eq!(rt; found, Some(expected), "{count} files, at {query}");
    }
}

#[test]
fn texts_of_faults(rt: HostRuntime) -> Result<(), Fail> {
    let cases = [
        (
            Fault::StationLine {
                line: 3,
                why: StationWhy::Duplicate,
            },
            "refused 1 StationLine line 3 Duplicate",
        ),
        (Fault::TooManyStations, "refused 2 TooManyStations"),
        (Fault::Memory(Memory), "refused 3 Memory"),
        (
            daily_line(2, 7, DailyWhy::Line(LineWhy::BadValue(31))),
            "refused 5 DailyLine file 2 line 7 BadValue 31",
        ),
        (
            daily_line(1, 2, DailyWhy::DuplicateMonth),
            "refused 5 DailyLine file 1 line 2 DuplicateMonth",
        ),
        (Fault::TooManyFiles, "refused 6 TooManyFiles"),
        (Fault::QueryTooLong, "refused 7 QueryTooLong"),
        (Fault::UnexpectedWord(4), "refused 8 UnexpectedWord 4"),
        (Fault::QueryEnds, "refused 9 QueryEnds"),
        (Fault::OutOfLimits(2), "refused 10 OutOfLimits 2"),
        (Fault::BadDate(6), "refused 11 BadDate 6"),
        (Fault::BadBox(8), "refused 12 BadBox 8"),
        (Fault::EmptyPeriod, "refused 13 EmptyPeriod"),
        (Fault::BadWorkers, "refused 18 BadWorkers"),
        (Fault::BadGuess, "refused 19 BadGuess"),
    ];
    for (fault, text) in cases {
        let told = fault.to_string(rt.alloc())?;
        assert_eq!(rt; told.as_str(), text);
    }
    Ok(())
}

#[test]
fn workers_that_are_worth_starting(rt: HostRuntime) {
    let cases = [
        (0, 1),
        (270, 1),
        (16_777_215, 1),
        (16_777_216, 64),
        (30_000_000_000, 64),
        (u64::MAX, 64),
    ];
    for (bytes, workers) in cases {
        assert_eq!(rt; workers_for(64, bytes), workers, "{bytes} bytes");
    }
    assert_eq!(rt; workers_for(4, 16_777_216), 4);
}
