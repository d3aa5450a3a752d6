//! Numbers as the fields of a record have them.

ghost use Rattle.std.specs.Prelude.{◌≡◌, ◌+◌, ◌%◌, ◌++◌, IfOk, OnOk};
ghost use Rattle.ghcn_fields.specs.Meaning.NumberTexts.{four_places, four_places_of, tenths};
ghost use Rattle.rank_papers.specs.Meaning.Values as values;
ghost use Rattle.rank_table.specs.Tables as tables;

use ghcn_fields::Memory;
use rank_papers::{push_number, push_tenths, push_value};
use rank_query::Score;
use std::alloc::Global;

/// The value of a score as reports print it, without its unit.
pub(crate) fn value_text(alloc: Global, score: Score, number: i64) -> Result<Vec<u8>, Memory>
    ensures { IfOk result (λ text. text.items
        ≡ values.value_text (values.measure_of_score score) (values.value_of score number)) }
{
    let mut text = Vec::new(alloc);
    push_value(&mut text, score, number)?;
    Ok(text)
}

/// Degrees with four decimals, from ten-thousandths.
pub(crate) fn degrees_text(alloc: Global, number: i32) -> Result<Vec<u8>, Memory>
    ensures { IfOk result (λ text. text.items ≡ four_places number) }
{
    let mut text = Vec::new(alloc);
    if number < 0 {
        text.push(b'-')?;
    }
    push_four_places(&mut text, number.unsigned_abs())?;
    Ok(text)
}

/// Metres with one decimal, from tenths; an empty text if the elevation is missing.
pub(crate) fn elevation_text(alloc: Global, elevation: Option<i32>) -> Result<Vec<u8>, Memory>
    ensures { IfOk result (λ text. text.items ≡ tables.elevation_text elevation) }
{
    match elevation {
        None => Ok(Vec::new(alloc)),
        Some(number) => metres_text(alloc, number),
    }
}

fn metres_text(alloc: Global, number: i32) -> Result<Vec<u8>, Memory>
    ensures { IfOk result (λ text. text.items ≡ tenths number) }
{
    let mut text = Vec::new(alloc);
    if number < 0 {
        text.push(b'-')?;
    }
    push_tenths(&mut text, u64::from(number.unsigned_abs()))?;
    Ok(text)
}

/// Adds that many ten-thousandths with four decimals.
fn push_four_places(text: &mut Vec<u8>, number: u32) -> Result<(), Memory>
    ensures { OnOk result (text.new.items ≡ text.old.items ++ four_places_of number) }
{
    push_number(text, u64::from(number / 10_000))?;
    let (first, second) = (digit(number / 1_000), digit(number / 100));
    let (third, fourth) = (digit(number / 10), digit(number));
    text.extend_from_slice(&[b'.', first, second, third, fourth])?;
    Ok(())
}

/// The last decimal digit of a number, as it is written.
fn digit(number: u32) -> u8
    ensures { result ≡ 48 + number % 10 }
{
    b'0' + (number % 10) as u8
}
