//! What is true of the candidates of every series and query, as laws over the definitions.

ghost use Rattle.ghcn_series.specs.JoinedFiles as joined;
ghost use Rattle.rank_scores.specs.Cut as cut;
ghost use Rattle.rank_scores.specs.OneElement as one_element;
ghost use Rattle.rank_scores.specs.QueryCandidates as query;
ghost use Rattle.rank_scores.specs.SeriesCandidates as series;

/// The list of a series' candidates has exactly its candidates, by increasing first day, and no two
/// that begin on one day. What no listed candidate is above, none of the series is above.
///
/// If the query doesn't ask for the best of groups, each contender is a candidate. Of each group at most one is, and each
/// other contender comes after one of its group.
pub fn candidates_of_series()
    ensures contenders { series.ListsTheContenders }
    ensures exactly { series.ListsTheCandidates }
    ensures rise { series.ListsByFirstDay }
    ensures apart { series.ListsNoneTwice }
    ensures bounds { series.BoundsEachCandidate }
    ensures each { series.EachStays }
    ensures rivals { series.NoneAreRivals }
    ensures led { series.EachIsLed }
{}

/// All candidates of a query belong to listed stations, as do the best of them, and no two belong
/// to one station and begin on one day.
pub fn candidates_of_queries()
    ensures apart { query.CandidatesAreApart }
    ensures listed { query.CandidatesAreOfListed }
    ensures best { query.BestAreOfListed }
{}

/// A query needs the series of its element alone. Without the others it is about the same series,
/// and has the same candidates, morsels, best candidates and k-th score.
pub fn one_element_is_enough()
    ensures series { one_element.SeriesStay }
    ensures candidates { one_element.CandidatesStay }
    ensures morsels { one_element.MorselsStay }
    ensures best { one_element.BestStay }
    ensures kth { one_element.KthStays }
{}

/// What a query needs of all series, it needs of those of any set of elements that has its own.
pub fn own_element_among_others()
    ensures { one_element.KeptAreEnough }
{}

/// Files that are cut into parts are cut as a query sees them, if no station has morsels in two
/// parts: the candidates of all files are those of the parts, and the morsels can take the place of
/// those of the parts. If no station has a series of the query's element in two parts, they are the
/// same series. What all files say is what the parts say, and if no station and element has a series
/// in two parts, all series are those of the parts.
pub fn files_in_parts()
    ensures cut { cut.CutByFiles }
    ensures morsels { cut.MorselsOfParts }
    ensures facts { joined.FactsOfParts }
    ensures series { joined.SeriesOfParts }
{}
