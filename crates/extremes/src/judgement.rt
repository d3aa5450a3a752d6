//! What a check says of a report and a certificate: by the files that they cover, or by a part of
//! these.

ghost use Rattle.std.specs.Prelude.{◌≡◌};
ghost use Rattle.extremes.specs.Ending.{ending_of};

use crate::ending::Ending;
use rank_check::Verdict;
use rank_parts::PartVerdict;
use std::fmt;

/// What is said of a report and a certificate.
#[derive(Clone, Copy, Debug, PartialEq, Eq)]
pub enum Judgement {
    /// By the files that both cover.
    Whole(Verdict),
    /// By some of them.
    Part(PartVerdict),
}

impl fmt::Display for Judgement {
    ghost use Rattle.std.specs.Prelude.{Some};
    ghost use Rattle.extremes.specs.Printed.{text_of};

    ghost output = { λ judgement. Some (text_of judgement) };

    fn fmt<W: fmt::Write>(&self, f: &mut fmt::Formatter<W>) -> fmt::Result {
        match self {
            Judgement::Whole(verdict) => write!(f, "{verdict}"),
            Judgement::Part(verdict) => write!(f, "{verdict}"),
        }
    }
}

/// How a run ends that returns this judgement.
pub fn ending(judgement: &Judgement) -> Ending
    ensures { result ≡ ending_of judgement.now }
{
    match judgement {
        Judgement::Whole(Verdict::Accepted) => Ending::Done,
        Judgement::Whole(Verdict::Refused { .. }) => Ending::Refused,
        Judgement::Part(PartVerdict::Accepted { .. }) => Ending::Done,
        Judgement::Part(PartVerdict::Refused(_)) => Ending::Refused,
    }
}
