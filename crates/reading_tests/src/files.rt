//! Worked examples of station lists, months and elements.

mod joins;
mod lists;
mod months;

use crate::texts::is_printed;
use ghcn_fields::Memory;
use ghcn_files::{Element, LineWhy, StationWhy, StationsFault};

#[test]
fn elements_and_their_codes(rt: HostRuntime) {
    let cases = [
        (Element::Prcp, "PRCP"),
        (Element::Snow, "SNOW"),
        (Element::Snwd, "SNWD"),
        (Element::Tmax, "TMAX"),
        (Element::Tmin, "TMIN"),
    ];
    for (element, code) in cases {
        assert_eq!(rt;
            Element::of_code(code.as_bytes()),
            Some(element),
            "at {code}"
        );
        let is_code = is_printed(rt.alloc(), &element, code);
        assert_eq!(rt; is_code, Some(true), "{code}");
    }
    let others: [&[u8]; 5] = [b"", b"PRC", b"PRCPX", b"prcp", b"TAVG"];
    for code in others {
        assert_eq!(rt; Element::of_code(code), None, "at {code:?}");
    }
}

#[test]
fn texts_of_refused_lists(rt: HostRuntime) {
    let duplicate = StationsFault::StationLine {
        line: 2,
        why: StationWhy::Duplicate,
    };
    let cases = [
        (duplicate, "refused 1 StationLine line 2 Duplicate"),
        (StationsFault::TooManyStations, "refused 2 TooManyStations"),
        (StationsFault::Memory(Memory), "refused 3 Memory"),
    ];
    for (fault, text) in cases {
        assert_eq!(rt; is_printed(rt.alloc(), &fault, text), Some(true), "{text}");
    }
    let reasons = [
        (StationWhy::Short, "Short"),
        (StationWhy::BadId, "BadId"),
        (StationWhy::BadLatitude, "BadLatitude"),
        (StationWhy::BadLongitude, "BadLongitude"),
        (StationWhy::BadElevation, "BadElevation"),
    ];
    for (why, text) in reasons {
        assert_eq!(rt; is_printed(rt.alloc(), &why, text), Some(true), "{text}");
    }
}

#[test]
fn texts_of_refused_lines(rt: HostRuntime) {
    let reasons = [
        (LineWhy::Short, "Short"),
        (LineWhy::TooLong, "TooLong"),
        (LineWhy::BadId, "BadId"),
        (LineWhy::BadYear, "BadYear"),
        (LineWhy::BadMonth, "BadMonth"),
        (LineWhy::BadValue(3), "BadValue 3"),
    ];
    for (why, text) in reasons {
        assert_eq!(rt; is_printed(rt.alloc(), &why, text), Some(true), "{text}");
    }
}
