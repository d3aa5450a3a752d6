//! What is counted on the lines of daily files.

ghost use Rattle.std.specs.Prelude.{◌≡◌, ℕ, ◌≤◌, ◌^◌, ◌&&◌, ◌||◌, if◌then◌else◌, not};
ghost use Rattle.std.specs.Prelude.{List, [], ◌∷◌, ◌++◌, length, IfSome};
ghost use Rattle.ghcn_fields.specs.Meaning.Lines as text;
ghost use Rattle.ghcn_series.specs.LineKinds.{line_kind, foreign_of, odd_among, warnings_of};
ghost use Rattle.ghcn_series.specs.Counted.{HaveCounted, CountsLine, AddsForeign, with_odd};
ghost use Rattle.ghcn_series.specs.Counted.{JoinsForeign, JoinsOdd, JoinsCounts, CutsForeign};

/// What is on a line of daily files.
#[derive(Clone, Copy, Debug, PartialEq, Eq)]
pub enum LineKind {
    /// Blanks, or nothing.
    Blank,
    /// The code of one of the five elements.
    OfElement,
    /// Any other code, on a line of the form that all lines of daily files have.
    Other,
    /// None of the five, on a line that hasn't that form.
    Odd,
}

/// The files that have a line that isn't blank, and none of the five elements. Most of them aren't daily files.
#[derive(Clone, Copy, Debug, PartialEq, Eq)]
pub struct Foreign {
    /// How many there are, or 2^64 - 1 if there are more.
    pub count: u64,
    /// The place of the first of them among all files, from 0.
    pub first: Option<u64>,
}

impl Foreign {
    /// No file.
    pub fn none() -> Self
        ensures { result ≡ foreign_of [] }
    {
        Foreign {
            count: 0,
            first: None,
        }
    }

    /// One file more, at a place after the others.
    fn add(&mut self, place: u64)
        ensures { AddsForeign self.old self.new place }
    {
        self.count = self.count.saturating_add(1);
        self.first = self.first.or(Some(place));
    }

    /// These, and those of other files that come after that many files, unless a number gets too great.
    fn join(self, next: Self, place: u64) -> Option<Self>
        ensures { IfSome result (JoinsForeign self next place) }
    {
        let count = self.count.checked_add(next.count)?;
        let first = match (self.first, next.first) {
            (None, Some(first)) => Some(first.checked_add(place)?),
            (first, _) => first,
        };
        Some(Foreign { count, first })
    }
}

/// The place of a line of daily files.
#[derive(Clone, Copy, Debug, PartialEq, Eq)]
pub struct LinePlace {
    /// The place of its file among all files, from 0.
    pub file: u64,
    /// Its number in the file, from 1.
    pub line: u64,
}

/// The lines that aren't blank, have none of the five elements, and haven't the form that all lines of daily files
/// have. In most cases lines of daily files were lost with them.
#[derive(Clone, Copy, Debug, PartialEq, Eq)]
pub struct OddLines {
    /// How many there are.
    pub count: u64,
    /// The place of the first of them.
    pub first: Option<LinePlace>,
}

impl OddLines {
    /// No line.
    pub fn none() -> Self
        ensures { result ≡ odd_among [] }
    {
        OddLines {
            count: 0,
            first: None,
        }
    }

    /// One line more, at a place after the others, unless the number gets too great. It isn't built into the loop
    /// over lines, which makes no place for the other lines.
    #[inline(never)]
    fn add(&mut self, file: u64, line: u64) -> Option<()>
        ensures { IfSome result (λ _. self.new ≡ with_odd self.old (record { file = file; line = line })) }
    {
        self.count = self.count.checked_add(1)?;
        self.first = self.first.or(Some(LinePlace { file, line }));
        Some(())
    }

    /// These, and those of other files that come after that many files, the first of them after that many lines of the
    /// same file, unless a number gets too great.
    fn join(self, next: Self, files: u64, lines: u64) -> Option<Self>
        ensures { IfSome result (JoinsOdd self next files lines) }
    {
        let count = self.count.checked_add(next.count)?;
        let first = match (self.first, next.first) {
            (None, Some(LinePlace { file, line })) => Some(LinePlace {
                file: file.checked_add(files)?,
                line: line.checked_add(if file == 0 { lines } else { 0 })?,
            }),
            (first, _) => first,
        };
        Some(OddLines { count, first })
    }
}

/// What a run warns of, since it may not be what was meant.
#[derive(Clone, Copy, Debug, PartialEq, Eq)]
pub struct Warnings {
    pub foreign: Foreign,
    pub odd: OddLines,
}

impl Warnings {
    /// Nothing.
    pub fn none() -> Self
        ensures { result ≡ warnings_of [] }
    {
        Warnings {
            foreign: Foreign::none(),
            odd: OddLines::none(),
        }
    }
}

/// What was counted on the lines of files that are read one after another.
#[derive(Clone, Copy, Debug)]
pub struct LineCounts {
    /// How many lines the files have that were ended, blank ones too.
    pub lines: u64,
    /// How many lines are blank, those of the current file too.
    pub blank: u64,
    /// The foreign files among those that were ended, and the odd lines.
    pub warnings: Warnings,
    /// Whether the current file has a line that isn't blank.
    has_line: bool,
    /// Whether it has a line of the five elements.
    has_element: bool,
}

impl LineCounts {
    /// Of no file.
    pub(crate) fn new() -> Self
        ensures { HaveCounted result [] [] }
    {
        LineCounts {
            lines: 0,
            blank: 0,
            warnings: Warnings::none(),
            has_line: false,
            has_element: false,
        }
    }

    /// Counts a line of the current file by its kind, unless a number gets too great. The file has a place among all
    /// files, and the line a number in it. It is built into the loop over lines, in which each kind is known
    /// already.
    #[inline(always)]
    pub(crate) fn add(&mut self, kind: LineKind, file: u64, line: u64) -> Option<()>
        ensures { IfSome result (λ _. (bytes : List ℕ) → kind ≡ line_kind bytes
            → CountsLine self.old self.new (record { file = file; line = line }) bytes) }
    {
        match kind {
            LineKind::Blank => self.blank = self.blank.checked_add(1)?,
            LineKind::OfElement => {
                self.has_line = true;
                self.has_element = true;
            }
            LineKind::Other => self.has_line = true,
            LineKind::Odd => {
                self.has_line = true;
                self.warnings.odd.add(file, line)?;
            }
        }
        Some(())
    }

    /// Ends the current file, which has a place among all files and that many lines, unless a number gets too great.
    pub(crate) fn end_file(&mut self, place: u64, count: u64) -> Option<()>
        requires few { place ≤ 2 ^ 20 }
        ensures { IfSome result (λ _. (ended : List (List ℕ)) (whole : List ℕ) → place ≡ length ended
            → count ≡ length (text.lines whole) → HaveCounted self.old ended whole
            → HaveCounted self.new (ended ++ whole ∷ []) []) }
    {
        self.lines = self.lines.checked_add(count)?;
        if self.is_foreign() {
            self.warnings.foreign.add(place);
        }
        self.has_line = false;
        self.has_element = false;
        Some(())
    }

    /// These counts, and those of other files that come after that many ended files, the first of them after that many
    /// lines of the current file, which may end among the others. None if a number gets too great.
    pub(crate) fn join(self, next: Self, place: u64, line: u64, ends: bool) -> Option<Self>
        ensures { IfSome result (λ both. JoinsCounts self next both place line ends) }
    {
        let (foreign, odd) = (self.warnings.foreign, self.warnings.odd);
        let ended = self.lines.checked_add(lines_if(ends, line))?;
        Some(LineCounts {
            lines: ended.checked_add(next.lines)?,
            blank: self.blank.checked_add(next.blank)?,
            warnings: Warnings {
                foreign: foreign.join(next.warnings.foreign, place)?,
                odd: odd.join(next.warnings.odd, place, line)?,
            },
            has_line: goes_on(self.has_line, next.has_line, ends),
            has_element: goes_on(self.has_element, next.has_element, ends),
        })
    }

    /// Whether the lines of the current file so far are foreign by themselves, or aren't all blank and the part that
    /// ends it is foreign by itself. Then it may be unknown whether the file is foreign.
    pub(crate) fn cuts_foreign(&self, next: &Self) -> bool
        ensures { CutsForeign self.now next.now result }
    {
        let goes_on_foreign = matches!(next.warnings.foreign.first, Some(0));
        self.has_line && (!self.has_element || goes_on_foreign)
    }

    /// Whether the current file is foreign, as far as its lines have come.
    fn is_foreign(&self) -> bool
        ensures { result ≡ (self.now.has_line && not self.now.has_element) }
    {
        self.has_line && !self.has_element
    }
}

/// This many lines if a test passes, and otherwise none.
pub(crate) fn lines_if(passes: bool, lines: u64) -> u64
    ensures { result ≡ (if passes then lines else 0) }
{
    if passes { lines } else { 0 }
}

/// Whether the current file passes a test: its last part does, or what came before, if the file goes on.
pub(crate) fn goes_on(before: bool, last: bool, ended: bool) -> bool
    ensures { result ≡ (last || (before && not ended)) }
{
    last || before && !ended
}
