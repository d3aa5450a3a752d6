//! The line that a verdict prints: `accepted`, `refused report line L WHY` or `refused certificate
//! line L WHY`.

use crate::{Refusal, Verdict, Why};
use std::fmt;

impl fmt::Display for Why {
    ghost use Rattle.std.specs.Prelude.{Some};
    ghost use Rattle.rank_check.specs.Texts.{why_text};

    ghost output = { λ why. Some (why_text why) };

    fn fmt<W: fmt::Write>(&self, f: &mut fmt::Formatter<W>) -> fmt::Result {
        f.write_str(match self {
            Why::Form => "Form",
            Why::OtherQuery => "OtherQuery",
            Why::NotACandidate => "NotACandidate",
            Why::OutOfOrder => "OutOfOrder",
            Why::NotBest => "NotBest",
            Why::TooFew => "TooFew",
            Why::OtherSeries => "OtherSeries",
            Why::NoBound => "NoBound",
            Why::NotBelow => "NotBelow",
            Why::NotCounted => "NotCounted",
            Why::OtherFloor => "OtherFloor",
        })
    }
}

impl fmt::Display for Refusal {
    ghost use Rattle.std.specs.Prelude.{Some};
    ghost use Rattle.rank_check.specs.Texts.{refusal_text};

    ghost output = { λ refusal. Some (refusal_text refusal) };

    fn fmt<W: fmt::Write>(&self, f: &mut fmt::Formatter<W>) -> fmt::Result {
        let Refusal { paper, line, why } = self;
        write!(f, "refused {paper} line {line} {why}")
    }
}

impl fmt::Display for Verdict {
    ghost use Rattle.std.specs.Prelude.{Some};
    ghost use Rattle.rank_check.specs.Texts.{verdict_text};

    ghost output = { λ verdict. Some (verdict_text verdict) };

    fn fmt<W: fmt::Write>(&self, f: &mut fmt::Formatter<W>) -> fmt::Result {
        match self {
            Verdict::Accepted => f.write_str("accepted"),
            Verdict::Refused { paper, line, why } => {
                write!(f, "{}", Refusal::new(*paper, *line, *why))
            }
        }
    }
}
