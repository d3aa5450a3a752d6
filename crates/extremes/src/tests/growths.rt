//! Rankings and checks of which `tests/grow` refuses one allocation after the other.
//!
//! A test prints `memory` if the call that it is about met the refusal, and `answered` if it
//! returned what it has to.

use super::each::ranking;
use super::judged_each::judging;
use super::named::run_of;
use super::*;
use crate::each::{RankedEach, rank_each};
use crate::judge::judge;
use crate::merge::{MergingFault, PartTexts, merge_texts};
use crate::papers_folder::Stop;
use ghcn_fields::Memory;
use ghcn_series::RowReader;
use rank_check::Verdict;
use rank_input::{Intake, QueriesFault, needed_by, read_queries};
use rank_merge::MergeFault;
use std::alloc::{AllocError, Global};
use std::process::Abort;
use std::test::Fail;

const BEST_CERTIFICATE: &[u8] = b"extremes certificate 2
query top 1 highest TMAX
kth 311
scan ZZA00000001 311 1
scan ZZA00000002 311 0
skip ZZA00000003 250
end 3
";

const ALL: &[u8] = b"extremes report 1
query top 10 highest TMAX
1 ZZA00000001 2020-07-01 2020-07-01 31.1 C ALPHA
2 ZZA00000002 2020-07-01 2020-07-01 31.1 C BRAVO
3 ZZA00000001 2020-07-02 2020-07-02 30.5 C ALPHA
4 ZZA00000003 2020-07-01 2020-07-01 25.0 C CHARLIE
end 4 all
";

const ALL_CERTIFICATE: &[u8] = b"extremes certificate 2
query top 10 highest TMAX
kth none
scan ZZA00000001 311 2
scan ZZA00000002 311 1
scan ZZA00000003 250 1
end 3
";

const NO_DATA: &[u8] = b"extremes report 1
query top 10 highest TMAX
end 0 all
";

const NO_DATA_CERTIFICATE: &[u8] = b"extremes certificate 1
query top 10 highest TMAX
kth none
end 0
";

/// Prints what a call met: a report and a certificate or a verdict, which were compared before, or
/// out of memory.
fn print_met<R: Abort + Print>(rt: &R, fault: Option<Fault>) -> Result<(), Fail> {
    match fault {
        None => println!(rt; "answered")?,
        Some(fault) => {
            assert_eq!(rt; fault, Fault::Memory(Memory));
            println!(rt; "memory")?;
        }
    }
    Ok(())
}

#[test]
fn a_ranking_by_four_workers(rt: HostRuntime) -> Result<(), Fail> {
    let query = "top 1 highest TMAX";
    let ranked = rank(&rt, STATIONS, &[DAILY], query, 4, None, &Open);
    if let Ok(papers) = &ranked {
        let (report, certificate) = (papers.report.as_slice(), papers.certificate.as_slice());
        assert_eq!(rt; report, BEST);
        let judged = judge(rt.alloc(), STATIONS, &[DAILY], query, report, certificate);
        assert!(rt; matches!(judged, Ok(Verdict::Accepted) | Err(Fault::Memory(_))));
    }
    print_met(&rt, ranked.err())
}

/// Ranks on one thread under a guess that skips too much.
fn check_taken_back<R: Abort + Print + AllocGlobal>(
    rt: &R,
    query: &str,
    guess: i64,
    report: &[u8],
    certificate: &[u8],
) -> Result<(), Fail> {
    let ranked = rank_serial(rt.alloc(), STATIONS, &[DAILY], query, Some(guess));
    if let Ok(papers) = &ranked {
        assert_eq!(rt; papers.report.as_slice(), report);
        assert_eq!(rt; papers.certificate.as_slice(), certificate);
    }
    print_met(rt, ranked.err())
}

#[test]
fn a_guess_above_every_value(rt: HostRuntime) -> Result<(), Fail> {
    check_taken_back(&rt, "top 1 highest TMAX", 1000, BEST, BEST_CERTIFICATE)
}

#[test]
fn a_guess_where_fewer_are_there_than_asked_for(rt: HostRuntime) -> Result<(), Fail> {
    check_taken_back(&rt, "top 10 highest TMAX", 300, ALL, ALL_CERTIFICATE)
}

#[test]
fn a_judgement_of_right_papers(rt: HostRuntime) -> Result<(), Fail> {
    let query = "top 1 highest TMAX";
    let judged = judge(
        rt.alloc(),
        STATIONS,
        &[DAILY],
        query,
        BEST,
        BEST_CERTIFICATE,
    );
    if let Ok(verdict) = &judged {
        assert_eq!(rt; *verdict, Verdict::Accepted);
    }
    print_met(&rt, judged.err())
}

/// The report and the certificate of a part.
fn part(alloc: Global, report: &[u8], certificate: &[u8]) -> Result<PartTexts, AllocError> {
    Ok(PartTexts {
        report: Vec::from_slice(alloc, report)?,
        certificate: Vec::from_slice(alloc, certificate)?,
    })
}

#[test]
fn a_merge_of_merged_papers(rt: HostRuntime) -> Result<(), Fail> {
    let query = "top 10 highest TMAX";
    let (Ok(none), Ok(all)) = (
        part(rt.alloc(), NO_DATA, NO_DATA_CERTIFICATE),
        part(rt.alloc(), ALL, ALL_CERTIFICATE),
    ) else {
        return print_met(&rt, Some(Fault::Memory(Memory)));
    };
    match merge_texts(rt.alloc(), query, &[none, all]) {
        Ok(papers) => {
            assert_eq!(rt; papers.report.as_slice(), ALL);
            assert_eq!(rt; papers.certificate.as_slice(), ALL_CERTIFICATE);
            print_met(&rt, None)
        }
        Err(fault) => {
            assert_eq!(rt; fault, MergingFault::Parts(MergeFault::Memory(Memory)));
            print_met(&rt, Some(Fault::Memory(Memory)))
        }
    }
}

/// A list of three queries.
const THREE: &[u8] = b"top 3 highest TMAX
top 1 highest TMAX
top 3 highest TMAX
";

/// The reports of these, one after another.
const THREE_REPORTS: &[u8] = b"extremes report 1
query top 3 highest TMAX
1 ZZA00000001 2020-07-01 2020-07-01 31.1 C ALPHA
2 ZZA00000002 2020-07-01 2020-07-01 31.1 C BRAVO
3 ZZA00000001 2020-07-02 2020-07-02 30.5 C ALPHA
end 3
extremes report 1
query top 1 highest TMAX
1 ZZA00000001 2020-07-01 2020-07-01 31.1 C ALPHA
end 1
extremes report 1
query top 3 highest TMAX
1 ZZA00000001 2020-07-01 2020-07-01 31.1 C ALPHA
2 ZZA00000002 2020-07-01 2020-07-01 31.1 C BRAVO
3 ZZA00000001 2020-07-02 2020-07-02 30.5 C ALPHA
end 3
";

#[test]
fn rankings_of_three_queries_by_four_workers(rt: HostRuntime) -> Result<(), Fail> {
    let queries = match read_queries(rt.alloc(), THREE) {
        Ok(queries) => queries,
        Err(fault) => {
            assert_eq!(rt; fault, QueriesFault::Memory(Memory));
            return print_met(&rt, Some(Fault::Memory(Memory)));
        }
    };
    let mut intake: Intake<RowReader> = Intake::new(rt.alloc(), STATIONS, needed_by(&queries));
    intake.piece(DAILY);
    intake.end_of_file();
    let mut target = SystemTarget::new(&rt);
    let RankedEach { reports, .. } = rank_each(&rt, intake, &queries, 4, None, &mut target);
    match reports {
        Ok(reports) => {
            assert_eq!(rt; reports.as_slice(), THREE_REPORTS);
            print_met(&rt, None)
        }
        Err(stop) => {
            assert!(rt; matches!(stop, Stop::Input(Fault::Memory(_))));
            print_met(&rt, Some(Fault::Memory(Memory)))
        }
    }
}

/// Prints what a run met, which prints this text if there is enough memory, and otherwise one line
/// alone: that it is out of memory, or the file for which there is none.
fn print_run<R: Abort + Print>(
    rt: &R,
    run: (Vec<u8>, String, Ending),
    text: &[u8],
) -> Result<(), Fail> {
    let (out, lines, ending) = run;
    if ending == Ending::Done {
        assert_eq!(rt; out.as_slice(), text);
        assert_eq!(rt; lines.as_str(), "");
        return print_met(rt, None);
    }
    assert!(rt; out.is_empty());
    let line = lines.as_str();
    if ending == Ending::File {
        assert!(rt; line.starts_with("file not "));
    } else {
        assert_eq!(rt; line, "refused 3 Memory\n");
    }
    print_met(rt, Some(Fault::Memory(Memory)))
}

#[test]
fn a_run_over_three_queries(rt: HostRuntime) -> Result<(), Fail> {
    match ranking(rt.alloc(), "three", "stations", "list", 4) {
        Ok(asked) => print_run(&rt, run_of(&rt, asked), THREE_REPORTS),
        Err(_) => print_met(&rt, Some(Fault::Memory(Memory))),
    }
}

#[test]
fn a_check_of_three_queries(rt: HostRuntime) -> Result<(), Fail> {
    let text = b"accepted\naccepted\naccepted\n";
    match judging(rt.alloc(), "three", "papers", "stations", "list") {
        Ok(asked) => print_run(&rt, run_of(&rt, asked), text),
        Err(_) => print_met(&rt, Some(Fault::Memory(Memory))),
    }
}
