//! The rows and the lines of all parts, one part after the other.

ghost use Rattle.std.specs.Prelude.{◌≡◌, ◌≤◌, ◌++◌, map, OnOk, IfOk, IfErr};
ghost use Rattle.ghcn_fields.specs.Refusals.{IsRefusal};
ghost use Rattle.rank_papers.specs.ReportLines.{named_in};
ghost use Rattle.rank_merge.specs.Found as found;
ghost use Rattle.rank_merge.specs.Merged as merged;
ghost use Rattle.rank_merge.specs.Merging as merging;

use crate::MergeFault;
use crate::part::{Papers, read_part};
use crate::rows::{drop_behind, keep_first, last_of};
use ghcn_fields::Memory;
use rank_papers::{Line, Row};
use rank_query::Query;
use rank_scores::Candidate;
use std::alloc::Global;

/// The lines of some parts, and all rows of these parts that can be among the first k.
#[derive(Drop)]
pub(crate) struct Gathered {
    pub(crate) rows: Vec<Row>,
    pub(crate) lines: Vec<Line>,
    /// A candidate that k of the rows come before or tie with. A row that comes after it isn't taken.
    pub(crate) floor: Option<Candidate>,
}

/// Reads and tests the report and the certificate of each part, in the order of the parts.
pub(crate) fn read_parts(
    alloc: Global,
    query: &Query,
    parts: &[(&[u8], &[u8])],
) -> Result<Gathered, MergeFault>
    ensures ok { IfOk result (found.AreOfParts query.now (found.texts_in parts.now)) }
    ensures err { IfErr result (λ why.
        IsRefusal merging.is_memory why (merging.parts_from query.now 1 (found.texts_in parts.now))) }
{
    let mut all = Gathered {
        rows: Vec::new(alloc),
        lines: Vec::new(alloc),
        floor: None,
    };
    for (place, (report, certificate)) in parts.iter().enumerate() {
        let papers = read_part(alloc, query, place as u64 + 1, report, certificate)?;
        all.add(query.k(), papers)?;
    }
    Ok(all)
}

impl Gathered {
    /// Takes the lines of one more part, and its rows that can be among the first k.
    fn add(&mut self, k: u64, mut papers: Papers) -> Result<(), Memory>
        requires few { k ≤ 1000 }
        requires floor { found.IsFloor k (map named_in self.old.rows.items) self.old.floor }
        ensures rows { OnOk result (merged.first_rows k (map named_in self.new.rows.items)
            ≡ merged.first_rows k (map named_in self.old.rows.items ++ map named_in papers.report.rows.items)) }
        ensures floor { OnOk result (found.IsFloor k (map named_in self.new.rows.items) self.new.floor) }
        ensures lines { OnOk result
            (self.new.lines.items ≡ self.old.lines.items ++ papers.certificate.lines.items) }
    {
        drop_behind(&self.floor, &mut papers.report.rows);
        self.rows.append(&mut papers.report.rows)?;
        self.lines.append(&mut papers.certificate.lines)?;
        self.settle(k)
    }

    /// Keeps only the first k rows if there are 2k or more, so that a sort has fewer than 3k rows and removes
    /// at least k. The last row that is kept is the floor.
    fn settle(&mut self, k: u64) -> Result<(), Memory>
        requires few { k ≤ 1000 }
        requires floor { found.IsFloor k (map named_in self.old.rows.items) self.old.floor }
        ensures rows { OnOk result (merged.first_rows k (map named_in self.new.rows.items)
            ≡ merged.first_rows k (map named_in self.old.rows.items)) }
        ensures floor { OnOk result (found.IsFloor k (map named_in self.new.rows.items) self.new.floor) }
        ensures lines { OnOk result (self.new.lines.items ≡ self.old.lines.items) }
    {
        if (self.rows.len() as u64) < 2 * k {
            return Ok(());
        }
        keep_first(k, &mut self.rows)?;
        self.floor = last_of(self.rows.as_slice());
        Ok(())
    }
}
