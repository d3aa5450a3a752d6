//! The description of files, as a text.

ghost use Rattle.std.specs.Prelude.{IfOk, IfErr};
ghost use Rattle.ghcn_description.specs.Describing.{HasDescribedByRows};
ghost use Rattle.rank_input.specs.Takes.{HasTakenSome, RefusesTaken};
ghost use Rattle.extremes.specs.Describes.{DescribesIntake};

use ghcn_description::RowDescriber;
use ghcn_series::Warnings;
use rank_input::{Fault, Intake};
use std::alloc::Global;

/// A description of files as it is printed.
#[derive(Debug, Drop)]
pub struct DescriptionText {
    /// The text.
    pub bytes: Vec<u8>,
    /// The foreign files and the odd lines.
    pub warnings: Warnings,
}

/// The text of what the given files hold, or the first error in the order: stations, number
/// of files, files and lines in order.
pub(crate) fn describe_intake(
    alloc: Global,
    intake: Intake<RowDescriber>,
) -> Result<DescriptionText, Fault>
    requires { HasTakenSome HasDescribedByRows intake }
    ensures ok { IfOk result (DescribesIntake intake) }
    ensures err { IfErr result (RefusesTaken HasDescribedByRows intake) }
{
    let description = intake.finish()?;
    Ok(DescriptionText {
        bytes: description.text(alloc)?,
        warnings: description.warnings,
    })
}
