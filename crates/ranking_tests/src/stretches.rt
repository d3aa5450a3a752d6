//! A large file that ends, while it is read in two parts, before the second one.

use crate::shares::{ALPHA_IN_JULY, held_in};
use rank_input::{Archive, Place};
use std::alloc::Global;
use std::fmt::Write;
use std::io;
use std::io::Read;
use std::sync::atomic::{AtomicU64, Ordering};
use std::test::Fail;

/// The end of a line, a line of a station that isn't listed, and one of BETA.
const REST: &[u8] = b"\n\
ZZA00000009202007TMAX  990   \
-9999   -9999   -9999   -9999   -9999   -9999   -9999   -9999   -9999   -9999   \
-9999   -9999   -9999   -9999   -9999   -9999   -9999   -9999   -9999   -9999   \
-9999   -9999   -9999   -9999   -9999   -9999   -9999   -9999   -9999   -9999   \n\
ZZA00000002202007TMAX  320   \
-9999   -9999   -9999   -9999   -9999   -9999   -9999   -9999   -9999   -9999   \
-9999   -9999   -9999   -9999   -9999   -9999   -9999   -9999   -9999   -9999   \
-9999   -9999   -9999   -9999   -9999   -9999   -9999   -9999   -9999   -9999   \n";

/// An open file. No contract says what it holds.
#[derive(Drop)]
struct Stretch(&'static [u8]);

impl Read for Stretch {
    fn read(&mut self, buf: &mut [u8]) -> io::Result<usize> {
        self.0.read(buf)
    }
}

/// An archive of a file of 64 MiB, of which the first bytes are gone but for a line of ALPHA.
#[derive(Drop)]
struct Ending {
    /// How many times it was opened.
    opened: AtomicU64,
}

impl Archive for Ending {
    ghost use Rattle.std.specs.Prelude.{None, ⊤};

    type File = Stretch;

    ghost bytes_of = { λ _ _. None };

    ghost opens = { λ _ _ _. ⊤ };

    ghost names_of = { λ _ _. None };

    fn open(&self, path: &str) -> io::Result<Stretch> {
        self.open_at(path, 0)
    }

    fn open_at(&self, _path: &str, byte: u64) -> io::Result<Stretch> {
        self.opened.fetch_add(1, Ordering::SeqCst);
        Ok(Stretch(if byte == 0 { ALPHA_IN_JULY } else { REST }))
    }

    fn look(&self, _path: &str) -> Place {
        Place::File(1 << 26)
    }

    fn names(&self, _alloc: Global, _folder: &str) -> io::Result<Vec<u8>> {
        Err(io::Error::from(io::ErrorKind::NotFound))
    }
}

/// A part that ends too early isn't joined: the file is opened once for the place of the cut, once for each part, and
/// once more to be read by one thread.
#[test]
fn large_file_that_ends_within_a_part(rt: HostRuntime) -> Result<(), Fail> {
    let archive = Ending {
        opened: AtomicU64::new(0),
    };
    let mut text = held_in(&rt, &archive, "top 1 highest TMAX", &["long"], 2)?;
    write!(text, ", {} opened", archive.opened.load(Ordering::SeqCst))?;
    assert_eq!(rt;
        text.as_str(),
        "310 - - - unlisted 0 foreign 0 None odd 0 None, 4 opened"
    );
    Ok(())
}
