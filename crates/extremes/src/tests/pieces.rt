//! Rankings of files that come in pieces, or from a source.

use super::*;
use crate::rank::rank_intake;
use ghcn_files::LineWhy;
use ghcn_series::DailyWhy;
use rank_input::{Question, feed};
use std::alloc::{AllocError, Global};
use std::process::Abort;
use std::sync::Wait;
use std::test::Fail;
use std::thread::Threads;

/// What two workers rank of files that come in pieces of a length.
fn ranked_by_pieces<R: Threads + Wait + AllocGlobal + Sync>(
    rt: &R,
    files: &[&[u8]],
    length: usize,
) -> Result<Vec<u8>, Fault> {
    let query = "top 3 highest TMAX";
    let mut question = Question::new(rt.alloc(), query, STATIONS);
    for file in files {
        for piece in file.chunks(length.max(1)) {
            question.files.piece(piece);
        }
        question.files.end_of_file();
    }
    Ok(rank_intake(rt, question, 2, None, &Open).answer?.report)
}

/// A file of DAILY's lines with a carriage return before each line feed.
fn with_returns(alloc: Global) -> Result<Vec<u8>, AllocError> {
    let mut text = Vec::new(alloc);
    for line in DAILY.split(|b| *b == b'\n') {
        if !line.is_empty() {
            text.extend_from_slice(line)?;
            text.extend_from_slice(b"\r\n")?;
        }
    }
    Ok(text)
}

/// Ranks files by pieces of several lengths, each of which returns the same report or error.
fn check_pieces<R: Abort + AllocGlobal + Threads + Wait + Sync>(
    rt: &R,
    files: &[&[u8]],
    expected: Result<&[u8], Fault>,
) {
    for length in [1, 269, 270, 700, 65_536] {
        let found = ranked_by_pieces(rt, files, length);
        let report = found.as_ref().map(|report| report.as_slice());
        assert_eq!(rt; report.ok(), expected.ok(), "pieces of {length} bytes");
        assert_eq!(rt; found.err(), expected.err(), "pieces of {length} bytes");
    }
}

#[test]
fn pieces_of_any_length(rt: HostRuntime) -> Result<(), Fail> {
    let returns = with_returns(rt.alloc())?;
    let (first, others) = DAILY.split_at(270);
    let cut = &DAILY[..539];
    let short = Fault::DailyLine {
        file: 2,
        line: 1,
        why: DailyWhy::Line(LineWhy::Short),
    };
    let repeated = Fault::DailyLine {
        file: 3,
        line: 1,
        why: DailyWhy::DuplicateMonth,
    };
    check_pieces(&rt, &[DAILY], Ok(REPORT));
    check_pieces(&rt, &[&returns], Ok(REPORT));
    check_pieces(&rt, &[first, b"", others], Ok(REPORT));
    check_pieces(&rt, &[first, &others[..200], b"x"], Err(short));
    check_pieces(&rt, &[b"", cut, DAILY, &DAILY[..200]], Err(repeated));
    check_pieces(&rt, &[first, &cut[270..], &others[270..]], Ok(REPORT));
    Ok(())
}

#[test]
fn sources_are_fed_whole(rt: HostRuntime) {
    for length in [1, 270, 700, 4096] {
        let mut buffer = [0; 4096];
        let mut question = Question::new(rt.alloc(), "top 3 highest TMAX", STATIONS);
        let mut source: &[u8] = DAILY;
        assert!(rt;
            feed(
                &mut question.files,
                &mut source,
                &mut buffer[..length.min(4096)]
            )
            .is_ok()
        );
        let bytes = question.files.bytes;
        let found = rank_intake(&rt, question, 1, None, &Open).answer;
        let report = found.as_ref().map(|papers| papers.report.as_slice()).ok();
        assert_eq!(rt; report, Some(REPORT), "a buffer of {length} bytes");
        assert_eq!(rt; bytes, 810, "a buffer of {length} bytes");
    }
}
