//! Merging the reports and certificates of parts, from their texts to those of all files.

ghost use Rattle.std.specs.Prelude.{◌≡◌, IfOk, IfErr};
ghost use Rattle.ghcn_fields.specs.Refusals.{IsRefusal};
ghost use Rattle.extremes.specs.Merges.{AreMerged, IsRefusedWhereRight, texts_of, merged_of, is_memory};
ghost use Rattle.rank_merge.specs.Found.{texts_in};

use crate::papers::Papers;
use ghcn_fields::Memory;
use rank_merge::{MergeFault, merge};
use rank_query::{Query, QueryFault};
use std::alloc::{AllocError, Global};
use std::fmt;
use thiserror::Error;

/// Why nothing is merged: the query's error, or the first error of the parts.
#[derive(Clone, Copy, Debug, PartialEq, Eq, Error)]
pub enum MergingFault {
    Query(QueryFault),
    Parts(MergeFault),
}

impl fmt::Display for MergingFault {
    ghost use Rattle.std.specs.Prelude.{Some};
    ghost use Rattle.extremes.specs.FaultTexts.{merging_fault_text};

    ghost output = { λ fault. Some (merging_fault_text fault) };

    fn fmt<W: fmt::Write>(&self, f: &mut fmt::Formatter<W>) -> fmt::Result {
        match self {
            MergingFault::Query(cause) => write!(f, "{cause}"),
            MergingFault::Parts(why) => write!(f, "{why}"),
        }
    }
}

impl From<QueryFault> for MergingFault {
    ghost use Rattle.std.specs.Prelude.{◌≡◌};
    ghost use Rattle.extremes.specs.declared.merge.MergingFault.TheVariants as faults;

    ghost from_gives = { λ cause fault. fault ≡ faults.Query cause };

    fn from(cause: QueryFault) -> Self {
        MergingFault::Query(cause)
    }
}

impl From<MergeFault> for MergingFault {
    ghost use Rattle.std.specs.Prelude.{◌≡◌};
    ghost use Rattle.extremes.specs.declared.merge.MergingFault.TheVariants as faults;

    ghost from_gives = { λ why fault. fault ≡ faults.Parts why };

    fn from(why: MergeFault) -> Self {
        MergingFault::Parts(why)
    }
}

impl From<AllocError> for MergingFault {
    ghost use Rattle.std.specs.Prelude.{◌≡◌};
    ghost use Rattle.extremes.specs.declared.merge.MergingFault.TheVariants as faults;
    ghost use Rattle.rank_merge.specs.declared.fault.MergeFault.TheVariants as parts;

    ghost from_gives = { λ _ fault. fault ≡ faults.Parts (parts.Memory (record {})) };

    fn from(_refused: AllocError) -> Self {
        MergingFault::Parts(MergeFault::Memory(Memory))
    }
}

/// The report and the certificate of a part, as the bytes of their files.
#[derive(Drop)]
pub struct PartTexts {
    pub report: Vec<u8>,
    pub certificate: Vec<u8>,
}

/// Merges the reports and certificates of parts for a query, whatever program ranked them.
///
/// What is merged is right for all files if what each part has is right for its files, with one
/// station list, and the files together have no error. An error is the first in the order: query,
/// parts in order, IDs on two lines.
pub fn merge_texts(alloc: Global, query: &str, parts: &[PartTexts]) -> Result<Papers, MergingFault>
    ensures ok { IfOk result (AreMerged query.now (texts_of parts.now)) }
    ensures err { IfErr result (λ fault.
        IsRefusal is_memory fault (merged_of query.now (texts_of parts.now))) }
    ensures twice { IfErr result (IsRefusedWhereRight query.now (texts_of parts.now)) }
{
    let query = Query::parse(query)?;
    let texts = slices(alloc, parts)?;
    let merged = merge(alloc, &query, texts.as_slice())?;
    Ok(Papers {
        report: merged.report,
        certificate: merged.certificate,
        unlisted: 0,
    })
}

/// The texts of parts, lent.
fn slices(alloc: Global, parts: &[PartTexts]) -> Result<Vec<(&[u8], &[u8])>, AllocError>
    ensures { IfOk result (λ texts. texts_in texts.items ≡ texts_of parts.now) }
{
    let mut texts = Vec::new(alloc);
    for part in parts {
        texts.push((part.report.as_slice(), part.certificate.as_slice()))?;
    }
    Ok(texts)
}
