//! Checks of the report and the certificate of a run, by all files and by a part of them.

use super::*;
use crate::judge::{judge, judge_part};
use crate::judgement::{Judgement, ending};
use rank_check::{Paper, Refusal, Verdict, Why};
use rank_parts::PartVerdict;
use std::test::Fail;

#[test]
fn papers_are_judged(rt: HostRuntime) -> Result<(), Fail> {
    let query = "top 3 highest TMAX";
    let Ok(papers) = rank(&rt, STATIONS, &[DAILY], query, 4, None, &Open) else {
        return Err(Fail::from("no papers"));
    };
    let (report, certificate) = (papers.report.as_slice(), papers.certificate.as_slice());
    let other = Verdict::Refused {
        paper: Paper::Report,
        line: 2,
        why: Why::OtherQuery,
    };
    let cases: [(&str, Result<Verdict, Fault>, &str); 3] = [
        ("top 03 highest TMAX", Ok(Verdict::Accepted), "accepted"),
        (
            "top 2 highest TMAX",
            Ok(other),
            "refused report line 2 OtherQuery",
        ),
        (
            "top 3 highest",
            Err(Fault::QueryEnds),
            "refused 9 QueryEnds",
        ),
    ];
    for (asked, expected, text) in cases {
        let judged = judge(rt.alloc(), STATIONS, &[DAILY], asked, report, certificate);
        let told = match judged {
            Ok(verdict) => verdict.to_string(rt.alloc())?,
            Err(fault) => fault.to_string(rt.alloc())?,
        };
        assert_eq!(rt; told.as_str(), text);
        assert_eq!(rt; judged, expected, "at {asked}");
    }
    assert_eq!(rt; ending(&Judgement::Whole(Verdict::Accepted)), Ending::Done);
    assert_eq!(rt; ending(&Judgement::Whole(other)), Ending::Refused);
    Ok(())
}

#[test]
fn papers_are_judged_by_a_part(rt: HostRuntime) -> Result<(), Fail> {
    let query = "top 3 highest TMAX";
    let Ok(papers) = rank(&rt, STATIONS, &[DAILY], query, 4, None, &Open) else {
        return Err(Fail::from("no papers"));
    };
    let (report, certificate) = (papers.report.as_slice(), papers.certificate.as_slice());
    let part: &[u8] = &DAILY[..270];
    let judged = judge_part(rt.alloc(), STATIONS, &[part], query, report, certificate);
    let accepted = PartVerdict::Accepted {
        series: 1,
        lines: 3,
    };
    assert_eq!(rt; judged, Ok(accepted));
    let judgement = Judgement::Part(accepted);
    assert_eq!(rt;
        judgement.to_string(rt.alloc())?.as_str(),
        "accepted 1 of 3"
    );
    assert_eq!(rt; ending(&judgement), Ending::Done);
    let refused = PartVerdict::Refused(Refusal {
        paper: Paper::Report,
        line: 2,
        why: Why::OtherQuery,
    });
    let asked = "top 2 highest TMAX";
    let judged = judge_part(rt.alloc(), STATIONS, &[part], asked, report, certificate);
    assert_eq!(rt; judged, Ok(refused));
    assert_eq!(rt; ending(&Judgement::Part(refused)), Ending::Refused);
    Ok(())
}
