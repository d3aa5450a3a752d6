//! The text of a description. Each of its lines ends by a line feed:
//!
//! ```text
//! extremes description 1
//! stations N
//! files N
//! lines N
//! element CODE lines N series N days N flagged N from DAY to DAY   for each of the five elements
//! other CODE lines N                                               for each other code
//! others lines N                                                   if there are more codes
//! odd lines N
//! unlisted lines N
//! blank lines N
//! end
//! ```
//!
//! An element without a usable day has no `from` and no `to`.

ghost use Rattle.std.specs.Prelude.{◌≡◌, ◌++◌, ◌∷◌, [], IfOk, OnOk};
ghost use Rattle.std.specs.List.{flat_map};
ghost use Rattle.ghcn_description.specs.Texts as texts;

use crate::{CodeCount, Description, ElementCounts, Span};
use ghcn_fields::{Day, Memory, write_date};
use itoa::Buffer;
use std::alloc::Global;

impl Description {
    /// The text of the description.
    pub fn text(&self, alloc: Global) -> Result<Vec<u8>, Memory>
        ensures { IfOk result (λ text. text.items ≡ texts.description_text self.now) }
    {
        let mut text = Vec::from_slice(alloc, b"extremes description 1")?;
        push_count(&mut text, b"\nstations ", self.stations)?;
        push_count(&mut text, b"\nfiles ", self.files)?;
        push_count(&mut text, b"\nlines ", self.lines)?;
        push_elements(&mut text, &self.elements)?;
        push_others(&mut text, &self.others)?;
        push_further(&mut text, self.further)?;
        push_count(&mut text, b"\nodd lines ", self.warnings.odd.count)?;
        push_count(&mut text, b"\nunlisted lines ", self.unlisted)?;
        push_count(&mut text, b"\nblank lines ", self.blank)?;
        text.extend_from_slice(b"\nend\n")?;
        Ok(text)
    }
}

/// Adds a line for each element.
fn push_elements(text: &mut Vec<u8>, elements: &[ElementCounts]) -> Result<(), Memory>
    ensures { OnOk result (text.new.items ≡ text.old.items ++ flat_map texts.element_line elements.now) }
{
    for counts in elements {
        push_element(text, counts)?;
    }
    Ok(())
}

fn push_element(text: &mut Vec<u8>, counts: &ElementCounts) -> Result<(), Memory>
    ensures { OnOk result (text.new.items ≡ text.old.items ++ texts.element_line counts.now) }
{
    text.extend_from_slice(b"\nelement ")?;
    text.extend_from_slice(counts.element.code().as_bytes())?;
    push_count(text, b" lines ", counts.lines)?;
    push_count(text, b" series ", counts.series)?;
    push_count(text, b" days ", counts.days)?;
    push_count(text, b" flagged ", counts.flagged)?;
    push_span(text, counts.span)
}

fn push_span(text: &mut Vec<u8>, span: Option<Span>) -> Result<(), Memory>
    ensures { OnOk result (text.new.items ≡ text.old.items ++ texts.span_text span) }
{
    match span {
        Some(span) => push_days(text, &span),
        None => Ok(()),
    }
}

fn push_days(text: &mut Vec<u8>, span: &Span) -> Result<(), Memory>
    ensures { OnOk result (text.new.items ≡ text.old.items ++ texts.days_text span.now) }
{
    push_day(text, b" from ", span.first)?;
    push_day(text, b" to ", span.last)
}

/// Adds a word and a day after it.
fn push_day(text: &mut Vec<u8>, word: &[u8], day: Day) -> Result<(), Memory>
    ensures { OnOk result (text.new.items ≡ text.old.items ++ texts.dated word.now day) }
{
    text.extend_from_slice(word)?;
    text.extend_from_slice(&write_date(day))?;
    Ok(())
}

/// Adds a line for each code.
fn push_others(text: &mut Vec<u8>, others: &[CodeCount]) -> Result<(), Memory>
    ensures { OnOk result (text.new.items ≡ text.old.items ++ flat_map texts.code_line others.now) }
{
    for count in others {
        push_code(text, count)?;
    }
    Ok(())
}

fn push_code(text: &mut Vec<u8>, count: &CodeCount) -> Result<(), Memory>
    ensures { OnOk result (text.new.items ≡ text.old.items ++ texts.code_line count.now) }
{
    text.extend_from_slice(b"\nother ")?;
    text.extend_from_slice(&count.code)?;
    push_count(text, b" lines ", count.lines)
}

/// Adds how many lines have further codes, if there are any.
fn push_further(text: &mut Vec<u8>, lines: u64) -> Result<(), Memory>
    ensures { OnOk result (text.new.items ≡ text.old.items ++ texts.further_line lines) }
{
    if lines == 0 {
        return Ok(());
    }
    push_count(text, b"\nothers lines ", lines)
}

/// Adds a word and a number after it.
fn push_count(text: &mut Vec<u8>, word: &[u8], number: u64) -> Result<(), Memory>
    ensures { OnOk result (text.new.items ≡ text.old.items ++ texts.counted_text word.now number) }
{
    let mut buffer = Buffer::new();
    text.extend_from_slice(word)?;
    text.extend_from_slice(buffer.format(number).as_bytes())?;
    Ok(())
}
