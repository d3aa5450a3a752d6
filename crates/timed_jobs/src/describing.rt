//! Descriptions of whole archives.

use crate::archive::give_archive;
use crate::digest::Digest;
use crate::places::{Order, station_list};
use crate::random::Random;
use crate::weather::Weather;
use ghcn_description::RowDescriber;
use ghcn_files::Keep;
use rank_input::{Fault, Intake};
use std::alloc::Global;

/// Describes that many archives of that many stations.
pub(crate) fn describe_archives(
    alloc: Global,
    random: &mut Random,
    rounds: u32,
    stations: u32,
    digest: &mut Digest,
) -> Result<(), Fault> {
    let mut weather = Weather::new(alloc, random)?;
    for _ in 0..rounds {
        let list = station_list(alloc, random, Order::Rising, stations)?;
        let mut intake = Intake::<RowDescriber>::new(alloc, &list, Keep::nothing());
        give_archive(alloc, &mut intake, &mut weather, random, stations)?;
        let description = intake.finish()?;
        digest.add(&description.text(alloc)?);
    }
    Ok(())
}
