//! What a daily value measures.

ghost use Rattle.std.specs.Prelude.{◌≡◌};
ghost use Rattle.ghcn_files.specs.Meaning.Elements.{code_of};
ghost use Rattle.ghcn_files.specs.Elements.{element_of, everything, is_kept, nothing, with_one};

use std::fmt;

/// One of the five core elements of the GHCN-Daily readme.
#[derive(Clone, Copy, Debug, PartialEq, Eq, PartialOrd, Ord, Hash)]
pub enum Element {
    /// Precipitation, in tenths of a millimetre.
    Prcp,
    /// Snowfall, in millimetres.
    Snow,
    /// Snow depth, in millimetres.
    Snwd,
    /// Maximum temperature, in tenths of a degree Celsius.
    Tmax,
    /// Minimum temperature, in tenths of a degree Celsius.
    Tmin,
}

/// The set of the elements whose daily values are kept. The lines of all five are tested.
#[derive(Clone, Copy, Debug, PartialEq, Eq)]
pub struct Keep {
    pub prcp: bool,
    pub snow: bool,
    pub snwd: bool,
    pub tmax: bool,
    pub tmin: bool,
}

impl Keep {
    /// The set of no element.
    pub fn nothing() -> Self
        ensures { result ≡ nothing }
    {
        Keep {
            prcp: false,
            snow: false,
            snwd: false,
            tmax: false,
            tmin: false,
        }
    }

    /// The set of all five.
    pub fn everything() -> Self
        ensures { result ≡ everything }
    {
        Keep {
            prcp: true,
            snow: true,
            snwd: true,
            tmax: true,
            tmin: true,
        }
    }

    /// This set with one element more, unless it has that one.
    pub fn with(self, element: Element) -> Self
        ensures { result ≡ with_one self element }
    {
        match element {
            Element::Prcp => Keep { prcp: true, ..self },
            Element::Snow => Keep { snow: true, ..self },
            Element::Snwd => Keep { snwd: true, ..self },
            Element::Tmax => Keep { tmax: true, ..self },
            Element::Tmin => Keep { tmin: true, ..self },
        }
    }
}

impl Element {
    /// The element that a code of the readme names, byte for byte.
    pub fn of_code(code: &[u8]) -> Option<Self>
        ensures { result ≡ element_of code.now }
    {
        match code {
            b"PRCP" => Some(Element::Prcp),
            b"SNOW" => Some(Element::Snow),
            b"SNWD" => Some(Element::Snwd),
            b"TMAX" => Some(Element::Tmax),
            b"TMIN" => Some(Element::Tmin),
            _ => None,
        }
    }

    /// Whether its values are kept.
    pub fn is_kept(self, asked: Keep) -> bool
        ensures { result ≡ is_kept asked self }
    {
        match self {
            Element::Prcp => asked.prcp,
            Element::Snow => asked.snow,
            Element::Snwd => asked.snwd,
            Element::Tmax => asked.tmax,
            Element::Tmin => asked.tmin,
        }
    }

    /// The four letters that name the element.
    pub fn code(self) -> &'static str
        ensures { result.now ≡ code_of self }
    {
        match self {
            Element::Prcp => "PRCP",
            Element::Snow => "SNOW",
            Element::Snwd => "SNWD",
            Element::Tmax => "TMAX",
            Element::Tmin => "TMIN",
        }
    }
}

/// Writes the element's code.
impl fmt::Display for Element {
    ghost use Rattle.std.specs.Prelude.{Some};
    ghost use Rattle.ghcn_files.specs.Meaning.Elements.{code_of};

    ghost output = { λ e. Some (code_of e) };

    fn fmt<W: fmt::Write>(&self, f: &mut fmt::Formatter<W>) -> fmt::Result {
        f.write_str(self.code())
    }
}
