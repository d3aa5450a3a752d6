//! How the values of an element or a score are printed.

ghost use Rattle.std.specs.Prelude.{◌≡◌};
ghost use Rattle.rank_papers.specs.Meaning.Values as values;

use ghcn_files::Element;
use rank_query::Score;

/// The unit in which values are printed, and how many decimals they have.
#[derive(Clone, Copy, Debug, PartialEq, Eq)]
pub(crate) enum Measure {
    /// Degrees Celsius with one decimal, from tenths.
    Degrees,
    /// Millimetres with one decimal, from tenths.
    Millimetres,
    /// Whole millimetres, as the data have them.
    WholeMillimetres,
    /// Days, as a whole number.
    Days,
}

/// The unit in which the values of a score are printed.
pub fn unit_of(score: Score) -> &'static [u8]
    ensures { result.now ≡ values.unit_text (values.measure_of_score score) }
{
    measure_of(score).unit()
}

/// How what is ranked is printed.
pub(crate) fn measure_of(score: Score) -> Measure
    ensures { result ≡ values.measure_of_score score }
{
    match score {
        Score::Highest(element) | Score::Lowest(element) | Score::Sum(_, element) =>
            element_measure(element),
        Score::Dry | Score::Wet | Score::Hot(_) | Score::Cold(_) => Measure::Days,
    }
}

fn element_measure(element: Element) -> Measure
    ensures { result ≡ values.element_measure element }
{
    match element {
        Element::Prcp => Measure::Millimetres,
        Element::Snow => Measure::WholeMillimetres,
        Element::Snwd => Measure::WholeMillimetres,
        Element::Tmax => Measure::Degrees,
        Element::Tmin => Measure::Degrees,
    }
}

impl Measure {
    /// The unit as it is printed.
    pub(crate) fn unit(self) -> &'static [u8]
        ensures { result.now ≡ values.unit_text self }
    {
        match self {
            Measure::Degrees => b"C",
            Measure::Millimetres => b"mm",
            Measure::WholeMillimetres => b"mm",
            Measure::Days => b"days",
        }
    }
}
