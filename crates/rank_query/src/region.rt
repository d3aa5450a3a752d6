//! Where a query looks.

ghost use Rattle.std.specs.Prelude.{◌≡◌};
ghost use Rattle.rank_query.specs.Meaning.Admits.{region_holds};

use ghcn_files::{Station, StationId};

/// The stations that a query admits.
#[derive(Clone, Copy, Debug, PartialEq, Eq)]
pub enum Region {
    /// All stations.
    Everywhere,
    /// A box of latitudes and longitudes, edges included, in ten-thousandths of a degree. If
    /// the west is greater than the east, it crosses the date line.
    Inside {
        south: i32,
        west: i32,
        north: i32,
        east: i32,
    },
    /// The stations of a country, by the first two bytes of their IDs.
    Country([u8; 2]),
    /// The stations of a state, by the two bytes of its code in the station list.
    State([u8; 2]),
    /// One station.
    Only(StationId),
}

impl Region {
    /// Whether the region holds the station.
    pub(crate) fn holds(&self, station: &Station) -> bool
        ensures { result ≡ region_holds self.now station.now }
    {
        match self {
            Region::Everywhere => true,
            Region::Inside {
                south,
                west,
                north,
                east,
            } => is_in_box(*south, *west, *north, *east, station),
            Region::Country(code) => station.id.0[..2] == code[..],
            Region::State(code) => station.state == *code,
            Region::Only(id) => station.id == *id,
        }
    }
}

/// Whether a station lies in a box, edges included, over the date line if the west is greater.
fn is_in_box(south: i32, west: i32, north: i32, east: i32, station: &Station) -> bool
    ensures { result ≡ region_holds (Region.Inside south west north east) station.now }
{
    if station.latitude < south || north < station.latitude {
        return false;
    }
    if west <= east {
        west <= station.longitude && station.longitude <= east
    } else {
        west <= station.longitude || station.longitude <= east
    }
}
