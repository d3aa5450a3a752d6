//! What is counted in daily files.

ghost use Rattle.std.specs.Prelude.{◌≡◌, ◌+◌, IfOk};

use ghcn_fields::{Day, Memory};
use ghcn_files::Element;
use ghcn_series::Warnings;

/// What daily files hold. The lines of the elements, of other codes, of unlisted stations and of
/// blanks are all lines.
#[derive(Debug, Drop)]
pub struct Description {
    /// How many stations are listed.
    pub stations: u64,
    /// How many files there are, at most 2^20.
    pub files: u64,
    /// How many lines these have, blank ones too.
    pub lines: u64,
    /// Of the five elements, in their order.
    pub elements: [ElementCounts; 5],
    /// The smallest codes that aren't those of the five elements, by increasing bytes.
    pub others: Vec<CodeCount>,
    /// How many lines have a code after those.
    pub further: u64,
    /// How many lines of the five elements belong to stations that aren't listed.
    pub unlisted: u64,
    /// How many lines have only blanks, or no byte.
    pub blank: u64,
    /// The foreign files, which the text doesn't name, and the odd lines, which it counts.
    pub warnings: Warnings,
}

/// What listed stations have of an element.
#[derive(Clone, Copy, Debug)]
pub struct ElementCounts {
    pub element: Element,
    /// How many lines of listed stations have it.
    pub lines: u64,
    /// How many stations have a usable day of it.
    pub series: u64,
    /// How many usable days these have.
    pub days: u64,
    /// How many values a quality check flagged, on days that their months have.
    pub flagged: u64,
    /// The first and the last usable day, if there is one.
    pub span: Option<Span>,
}

/// The first and the last of some days.
#[derive(Clone, Copy, Debug)]
pub struct Span {
    pub first: Day,
    pub last: Day,
}

/// A code of columns 18 to 21 that isn't one of the five elements', and how many lines have it.
#[derive(Clone, Copy, Debug)]
pub struct CodeCount {
    /// The code, with `?` for each byte that can't be seen.
    pub code: [u8; 4],
    pub lines: u64,
}

/// A number and that many more. A count that 64 bits can't hold is reported as out of memory.
pub(crate) fn sum(number: u64, more: u64) -> Result<u64, Memory>
    ensures { IfOk result (λ all. all ≡ number + more) }
{
    number.checked_add(more).ok_or(Memory)
}
