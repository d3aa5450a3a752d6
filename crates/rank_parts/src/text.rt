//! The line that a part prints: `accepted N of M`, `refused report line L WHY` or `refused
//! certificate line L WHY`.

use crate::PartVerdict;
use std::fmt;

impl fmt::Display for PartVerdict {
    ghost use Rattle.std.specs.Prelude.{Some};
    ghost use Rattle.rank_parts.specs.Texts.{verdict_text};

    ghost output = { λ verdict. Some (verdict_text verdict) };

    fn fmt<W: fmt::Write>(&self, f: &mut fmt::Formatter<W>) -> fmt::Result {
        match self {
            PartVerdict::Accepted { series, lines } => write!(f, "accepted {series} of {lines}"),
            PartVerdict::Refused(refusal) => write!(f, "{refusal}"),
        }
    }
}
