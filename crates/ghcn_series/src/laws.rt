//! What is true of all that files without an error hold, as laws over the definitions.

ghost use Rattle.ghcn_series.specs.Laws as laws;

/// If a station list has no error, its stations are right: no ID is listed twice, there are at most
/// 2^20, and each has its fields in their ranges. If the daily files have no error either, what they
/// hold of these stations is right: no two series have the same station and element, and each series
/// belongs to a listed station and has a day; its days rise, and its values are in the range of its
/// element.
pub fn data_are_right()
    ensures listed { laws.ListsAreRight }
    ensures held { laws.DataAreRight }
{}

/// If a station list has no error, its lines say the stations that are read of it, and no others. If
/// the daily files have none either, the series of these stations are made of the facts that the lines
/// of the files say, and that many of these belong to other stations.
pub fn data_are_said()
    ensures stations { laws.StationsAreSaid }
    ensures series { laws.SeriesAreSaid }
    ensures unlisted { laws.UnlistedAreSaid }
{}

/// The number of lines of unlisted stations in files is the sum over the parts that the files are
/// cut into.
pub fn unlisted_add_up()
    ensures { laws.UnlistedAddUp }
{}
