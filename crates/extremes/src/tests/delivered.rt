//! Reports and certificates that are written whole, and writers that fail.

use super::*;
use crate::delivery::{Delivery, deliver};
use crate::papers::Papers;
use std::alloc::Global;
use std::io;
use std::io::Write;
use std::test::Fail;

/// A writer that takes that many bytes at once, and in all. Then it fails once, or takes no byte, and
/// after that it takes that many more.
#[derive(Drop)]
struct Narrow {
    taken: Vec<u8>,
    at_once: usize,
    room: usize,
    more: usize,
    fails: bool,
    flushes: bool,
}

impl Write for Narrow {
    fn write(&mut self, buf: &[u8]) -> io::Result<usize> {
        let count = buf.len().min(self.at_once).min(self.room);
        if count == 0 {
            self.room = self.more;
            self.more = 0;
            if self.fails {
                return Err(io::Error::from(io::ErrorKind::StorageFull));
            }
            return Ok(0);
        }
        self.taken.extend_from_slice(&buf[..count])?;
        self.room -= count;
        Ok(count)
    }

    fn flush(&mut self) -> io::Result<()> {
        if self.flushes {
            Ok(())
        } else {
            Err(io::Error::from(io::ErrorKind::StorageFull))
        }
    }
}

/// A writer that fails after that many bytes.
fn failing_behind(alloc: Global, room: usize) -> Narrow {
    Narrow {
        taken: Vec::new(alloc),
        at_once: 99,
        room,
        more: 0,
        fails: true,
        flushes: true,
    }
}

/// A writer that takes no byte after that many.
fn full_behind(alloc: Global, room: usize) -> Narrow {
    Narrow {
        fails: false,
        ..failing_behind(alloc, room)
    }
}

/// A writer that fails once after that many bytes, and then takes bytes again.
fn failing_once_behind(alloc: Global, room: usize) -> Narrow {
    Narrow {
        more: 999,
        ..failing_behind(alloc, room)
    }
}

/// A writer that takes no byte once after that many, and then takes bytes again.
fn full_once_behind(alloc: Global, room: usize) -> Narrow {
    Narrow {
        fails: false,
        ..failing_once_behind(alloc, room)
    }
}

/// A writer that takes the report and the certificate.
fn wide(alloc: Global) -> Narrow {
    failing_behind(alloc, 999)
}

/// The same, a byte at once.
fn by_bytes(alloc: Global) -> Narrow {
    Narrow {
        at_once: 1,
        ..wide(alloc)
    }
}

/// A writer that takes the report and the certificate, and can't be flushed.
fn unflushed(alloc: Global) -> Narrow {
    Narrow {
        flushes: false,
        ..wide(alloc)
    }
}

/// The report and the certificate of the three greatest values.
fn papers_of_three(alloc: Global) -> Result<Papers, Fail> {
    match rank_serial(alloc, STATIONS, &[DAILY], "top 3 highest TMAX", None) {
        Ok(papers) => Ok(papers),
        Err(_) => Err(Fail::from("no papers")),
    }
}

#[test]
fn papers_are_delivered(rt: HostRuntime) -> Result<(), Fail> {
    let alloc = rt.alloc();
    let papers = papers_of_three(alloc)?;
    let cases: [(bool, Narrow, &[u8]); 2] = [
        (true, by_bytes(alloc), papers.certificate.as_slice()),
        (false, failing_behind(alloc, 0), b""),
    ];
    for (wanted, mut certificate, written) in cases {
        let mut report = by_bytes(alloc);
        let ended = deliver(&papers, wanted, &mut certificate, &mut report);
        assert_eq!(rt; ended, Delivery::Done);
        assert_eq!(rt; certificate.taken.as_slice(), written, "{wanted}");
        assert_eq!(rt; report.taken.as_slice(), REPORT, "{wanted}");
    }
    Ok(())
}

#[test]
fn no_report_behind_a_certificate_that_fails(rt: HostRuntime) -> Result<(), Fail> {
    let alloc = rt.alloc();
    let papers = papers_of_three(alloc)?;
    let cases: [(Narrow, &[u8]); 5] = [
        (failing_behind(alloc, 0), b""),
        (full_behind(alloc, 8), b"extremes"),
        (unflushed(alloc), papers.certificate.as_slice()),
        (failing_once_behind(alloc, 8), b"extremes"),
        (full_once_behind(alloc, 8), b"extremes"),
    ];
    for (mut certificate, written) in cases {
        let mut report = wide(alloc);
        let ended = deliver(&papers, true, &mut certificate, &mut report);
        assert_eq!(rt; ended, Delivery::CertificateFailed);
        assert_eq!(rt; certificate.taken.as_slice(), written);
        let none: &[u8] = b"";
        assert_eq!(rt; report.taken.as_slice(), none, "behind {written:?}");
    }
    Ok(())
}

#[test]
fn reports_that_fail(rt: HostRuntime) -> Result<(), Fail> {
    let alloc = rt.alloc();
    let papers = papers_of_three(alloc)?;
    let whole = papers.certificate.as_slice();
    let cases: [(bool, Narrow, &[u8], &[u8]); 4] = [
        (true, failing_behind(alloc, 10), whole, b"extremes r"),
        (true, unflushed(alloc), whole, REPORT),
        (true, failing_once_behind(alloc, 10), whole, b"extremes r"),
        (false, full_once_behind(alloc, 0), b"", b""),
    ];
    for (wanted, mut report, first, second) in cases {
        let mut certificate = wide(alloc);
        let ended = deliver(&papers, wanted, &mut certificate, &mut report);
        assert_eq!(rt; ended, Delivery::ReportFailed);
        assert_eq!(rt; certificate.taken.as_slice(), first);
        assert_eq!(rt; report.taken.as_slice(), second);
    }
    Ok(())
}
