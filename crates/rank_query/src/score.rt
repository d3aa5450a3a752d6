//! What a query ranks.

use ghcn_files::Element;

/// What is ranked, and so what a candidate is.
#[derive(Clone, Copy, Debug, PartialEq, Eq)]
pub enum Score {
    /// Single days, by their value.
    Highest(Element),
    /// Single days, by their value negated; only of a temperature.
    Lowest(Element),
    /// Windows of this many consecutive days, 1 to 366, by the sum of their values; only of
    /// precipitation or snowfall.
    Sum(u16, Element),
    /// Spells of days with less than 1 mm of precipitation, by their length (ETCCDI).
    Dry,
    /// Spells of days with at least 1 mm of precipitation, by their length (ETCCDI).
    Wet,
    /// Spells of days with a maximum temperature of at least this many tenths of a degree Celsius,
    /// -1000 to 1000, by their length.
    Hot(i32),
    /// Spells of days with a minimum temperature of at most this many tenths of a degree Celsius,
    /// -1000 to 1000, by their length.
    Cold(i32),
}
