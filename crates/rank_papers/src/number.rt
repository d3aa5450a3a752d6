//! Numbers that are added to the end of a report or a certificate.

ghost use Rattle.std.specs.Prelude.{◌≡◌, ◌++◌, OnOk, decimal, int_lt, pos};
ghost use Rattle.std.specs.Fmt.{signed_decimal};
ghost use Rattle.ghcn_fields.specs.Meaning.NumberTexts.{tenths_of};
ghost use Rattle.rank_papers.specs.Meaning.Values as values;

use crate::measure::{Measure, measure_of};
use ghcn_fields::Memory;
use itoa::Buffer;
use rank_query::Score;

/// Adds the value of a score as it is printed, without its unit.
#[tactic(auto, using(crate::proofs::ValueTexts::value_signed))]
pub fn push_value(paper: &mut Vec<u8>, score: Score, number: i64) -> Result<(), Memory>
    ensures { OnOk result (paper.new.items ≡ paper.old.items
        ++ values.value_text (values.measure_of_score score) (values.value_of score number)) }
{
    if is_negative(score, number) {
        paper.push(b'-')?;
    }
    push_magnitude(paper, measure_of(score), number.unsigned_abs())
}

/// Whether the value of a score is below zero. A score of the lowest is the negated value.
fn is_negative(score: Score, number: i64) -> bool
    ensures { result ≡ int_lt (values.value_of score number) (pos 0) }
{
    match score {
        Score::Lowest(_) => number > 0,
        _ => number < 0,
    }
}

fn push_magnitude(paper: &mut Vec<u8>, measure: Measure, magnitude: u64) -> Result<(), Memory>
    ensures { OnOk result (paper.new.items ≡ paper.old.items ++ values.value_text measure (pos magnitude)) }
{
    match measure {
        Measure::Degrees => push_tenths(paper, magnitude),
        Measure::Millimetres => push_tenths(paper, magnitude),
        Measure::WholeMillimetres => push_number(paper, magnitude),
        Measure::Days => push_number(paper, magnitude),
    }
}

/// Adds that many tenths with one decimal.
pub fn push_tenths(paper: &mut Vec<u8>, tenths: u64) -> Result<(), Memory>
    ensures { OnOk result (paper.new.items ≡ paper.old.items ++ tenths_of tenths) }
{
    push_number(paper, tenths / 10)?;
    paper.push(b'.')?;
    push_number(paper, tenths % 10)
}

/// Adds a whole number, with a minus below zero.
pub(crate) fn push_whole(paper: &mut Vec<u8>, number: i64) -> Result<(), Memory>
    ensures { OnOk result (paper.new.items ≡ paper.old.items ++ signed_decimal number) }
{
    if number < 0 {
        paper.push(b'-')?;
    }
    push_number(paper, number.unsigned_abs())
}

/// Adds a number in decimal digits.
pub fn push_number(paper: &mut Vec<u8>, number: u64) -> Result<(), Memory>
    ensures { OnOk result (paper.new.items ≡ paper.old.items ++ decimal number) }
{
    let mut buffer = Buffer::new();
    paper.extend_from_slice(buffer.format(number).as_bytes())?;
    Ok(())
}
