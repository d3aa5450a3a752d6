//! Worked runs of the ranking and of the command line.

mod delivered;
mod each;
mod gated;
mod growths;
mod judged;
mod judged_each;
mod merged;
mod messages;
mod named;
mod pieces;
mod tabled;
mod words;

use crate::ending::Ending;
use crate::print::print_answer;
use crate::rank::{rank, rank_serial};
use crate::sample;
use crate::system_target::SystemTarget;
use messages::KeptLines;
use rank_crew::Open;
use rank_input::Fault;

const STATIONS: &[u8] = b"ZZA00000001  10.0000   20.0000  100.0    ALPHA
ZZA00000002  11.0000   21.0000  100.0    BRAVO
ZZA00000003  12.0000   22.0000  100.0    CHARLIE
";

const DAILY: &[u8] =
    b"ZZA00000001202007TMAX  311     305   -9999   -9999   -9999   -9999   -9999   -9999   -9999   -9999   -9999   -9999   -9999   -9999   -9999   -9999   -9999   -9999   -9999   -9999   -9999   -9999   -9999   -9999   -9999   -9999   -9999   -9999   -9999   -9999   -9999   
ZZA00000002202007TMAX  311   -9999   -9999   -9999   -9999   -9999   -9999   -9999   -9999   -9999   -9999   -9999   -9999   -9999   -9999   -9999   -9999   -9999   -9999   -9999   -9999   -9999   -9999   -9999   -9999   -9999   -9999   -9999   -9999   -9999   -9999   
ZZA00000003202007TMAX  250   -9999   -9999   -9999   -9999   -9999   -9999   -9999   -9999   -9999   -9999   -9999   -9999   -9999   -9999   -9999   -9999   -9999   -9999   -9999   -9999   -9999   -9999   -9999   -9999   -9999   -9999   -9999   -9999   -9999   -9999   
";

const REPORT: &[u8] = b"extremes report 1
query top 3 highest TMAX
1 ZZA00000001 2020-07-01 2020-07-01 31.1 C ALPHA
2 ZZA00000002 2020-07-01 2020-07-01 31.1 C BRAVO
3 ZZA00000001 2020-07-02 2020-07-02 30.5 C ALPHA
end 3
";

const BEST: &[u8] = b"extremes report 1
query top 1 highest TMAX
1 ZZA00000001 2020-07-01 2020-07-01 31.1 C ALPHA
end 1
";

const SAMPLE_CERTIFICATE: &[u8] = b"extremes certificate 2
query top 1 highest TMAX
kth 311
scan ZZA00000001 311 1
end 1
";

#[test]
fn the_right_report(rt: HostRuntime) {
    let ranked = rank_serial(rt.alloc(), STATIONS, &[DAILY], "top 3 highest TMAX", None);
    let report = ranked.as_ref().map(|papers| papers.report.as_slice()).ok();
    assert_eq!(rt; report, Some(REPORT));
}

#[test]
fn reports_are_printed_whole(rt: HostRuntime) {
    let (mut target, mut out) = (SystemTarget::new(&rt), Vec::new(rt.alloc()));
    let mut messages = KeptLines::new(rt.alloc());
    let ranked = rank_serial(rt.alloc(), STATIONS, &[DAILY], "top 3 highest TMAX", None);
    assert_eq!(rt;
        print_answer(&mut messages, ranked, None, &mut target, &mut out),
        Ending::Done
    );
    let faulty = rank_serial(rt.alloc(), STATIONS, &[DAILY], "top 3 highest", None);
    assert_eq!(rt;
        print_answer(&mut messages, faulty, None, &mut target, &mut out),
        Ending::Refused
    );
    assert_eq!(rt; out.as_slice(), REPORT);
    assert_eq!(rt; messages.text.as_str(), "refused 9 QueryEnds\n");
}

#[test]
fn a_guess_changes_nothing(rt: HostRuntime) {
    let guesses = [
        None,
        Some(-2_147_483_648),
        Some(305),
        Some(306),
        Some(311),
        Some(1000),
        Some(2_147_483_648),
    ];
    for guess in guesses {
        let ranked = rank_serial(rt.alloc(), STATIONS, &[DAILY], "top 3 highest TMAX", guess);
        let report = ranked.as_ref().map(|papers| papers.report.as_slice()).ok();
        assert_eq!(rt; report, Some(REPORT), "at {guess:?}");
    }
}

#[test]
fn guesses_and_the_first_fault(rt: HostRuntime) {
    let cases: [(Option<i64>, &str, &[u8], Option<Fault>); 6] = [
        (Some(-2_147_483_649), "top", b"x", Some(Fault::BadGuess)),
        (Some(2_147_483_649), "top", b"x", Some(Fault::BadGuess)),
        (Some(2_147_483_648), "top", b"x", Some(Fault::QueryEnds)),
        (None, "top 1 highest TMAX", b"", None),
        (Some(-2_147_483_648), "top 1 highest TMAX", b"", None),
        (None, "top 1 icy 30", b"", Some(Fault::UnexpectedWord(3))),
    ];
    for (guess, query, stations, fault) in cases {
        let found = rank_serial(rt.alloc(), stations, &[], query, guess).err();
        assert_eq!(rt; found, fault, "at {guess:?} {query}");
    }
}

#[test]
fn the_right_report_of_a_thousand_files(rt: HostRuntime) {
    let mut files: [&[u8]; 1000] = [b""; 1000];
    files[999] = DAILY;
    let query = "top 3 highest TMAX";
    let alone = rank_serial(rt.alloc(), STATIONS, &files, query, None);
    let crewed = rank(&rt, STATIONS, &files, query, 4, None, &Open);
    for ranked in [alone, crewed] {
        let report = ranked.as_ref().map(|papers| papers.report.as_slice()).ok();
        assert_eq!(rt; report, Some(REPORT));
    }
}

#[test]
fn workers_and_the_first_fault(rt: HostRuntime) {
    let cases = [
        (0, Some(-2_147_483_649), Some(Fault::BadWorkers)),
        (65, None, Some(Fault::BadWorkers)),
        (64, Some(2_147_483_649), Some(Fault::BadGuess)),
        (64, Some(2_147_483_648), None),
        (64, Some(-2_147_483_648), None),
        (1, None, None),
        (4, Some(305), None),
    ];
    for (workers, guess, fault) in cases {
        let query = "top 3 highest TMAX";
        let ranked = rank(&rt, STATIONS, &[DAILY], query, workers, guess, &Open);
        let report = ranked.as_ref().map(|papers| papers.report.as_slice()).ok();
        let expected = if fault.is_none() { Some(REPORT) } else { None };
        assert_eq!(rt; report, expected, "{workers} workers, guess {guess:?}");
        assert_eq!(rt; ranked.err(), fault, "{workers} workers, guess {guess:?}");
    }
}

#[test]
fn the_sample_by_sixty_four_workers(rt: HostRuntime) {
    let guesses = [None, Some(-2_147_483_648), Some(2_147_483_648)];
    for guess in guesses {
        let files = [sample::DAILY];
        let ranked = rank(
            &rt,
            sample::STATIONS,
            &files,
            sample::QUERY,
            64,
            guess,
            &Open,
        );
        let report = ranked.as_ref().map(|papers| papers.report.as_slice()).ok();
        assert_eq!(rt; report, Some(BEST), "guess {guess:?}");
        let certificate = ranked
            .as_ref()
            .map(|papers| papers.certificate.as_slice())
            .ok();
        assert_eq!(rt; certificate, Some(SAMPLE_CERTIFICATE), "guess {guess:?}");
    }
}
