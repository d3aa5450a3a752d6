//! Daily files that are read in shares, over an archive in memory whose files claim to be large.

use crate::days::{A, B};
use crate::names::{Texts, beside, bytes_from};
use ghcn_fields::Day;
use ghcn_files::{Element, StationId};
use ghcn_series::Data;
use rank_input::{Archive, Place, Question, StationList, piece_room, read_station_list};
use std::alloc::{AllocError, Global};
use std::fmt::Write;
use std::io;
use std::sync::atomic::{AtomicU64, Ordering};
use std::test::Fail;
use std::thread::Threads;

const STATIONS: &[u8] = b"\
ZZA00000001  10.0000   20.0000  100.0    ALPHA\n\
ZZA00000002  10.0000   21.0000  100.0    BETA\n";

pub(crate) const ALPHA_IN_JULY: &[u8] = b"\
ZZA00000001202007TMAX  310   \
-9999   -9999   -9999   -9999   -9999   -9999   -9999   -9999   -9999   -9999   \
-9999   -9999   -9999   -9999   -9999   -9999   -9999   -9999   -9999   -9999   \
-9999   -9999   -9999   -9999   -9999   -9999   -9999   -9999   -9999   -9999   \n";

const ALPHA_IN_AUGUST: &[u8] = b"\
ZZA00000001202008TMAX  200   \
-9999   -9999   -9999   -9999   -9999   -9999   -9999   -9999   -9999   -9999   \
-9999   -9999   -9999   -9999   -9999   -9999   -9999   -9999   -9999   -9999   \
-9999   -9999   -9999   -9999   -9999   -9999   -9999   -9999   -9999   -9999   \n";

const BETA_IN_JULY: &[u8] = b"\
ZZA00000002202007TMAX  320   \
-9999   -9999   -9999   -9999   -9999   -9999   -9999   -9999   -9999   -9999   \
-9999   -9999   -9999   -9999   -9999   -9999   -9999   -9999   -9999   -9999   \
-9999   -9999   -9999   -9999   -9999   -9999   -9999   -9999   -9999   -9999   \n";

const UNLISTED: &[u8] = b"\
ZZA00000009202007TMAX  990   \
-9999   -9999   -9999   -9999   -9999   -9999   -9999   -9999   -9999   -9999   \
-9999   -9999   -9999   -9999   -9999   -9999   -9999   -9999   -9999   -9999   \
-9999   -9999   -9999   -9999   -9999   -9999   -9999   -9999   -9999   -9999   \n";

const FILES: Texts = &[
    ("alpha", ALPHA_IN_JULY),
    ("alpha again", ALPHA_IN_AUGUST),
    ("beta", BETA_IN_JULY),
    ("unlisted", UNLISTED),
    ("unlisted too", UNLISTED),
    ("short", b"\nZZA\n"),
    ("short too", b"\nZZA\n"),
    ("odd", b"ZZA00000001202007TAVG\nZZA00000001202007----\n"),
    ("empty", b""),
    ("long", ALPHA_IN_JULY),
    ("growing", ALPHA_IN_JULY),
];

/// Files that claim to be large enough for a share each, and two for several, of which one grows.
#[derive(Drop)]
struct Large {
    files: Texts,
    /// How many files were opened, and after how many none can be.
    opened: AtomicU64,
    most: u64,
}

impl Archive for Large {
    ghost use Rattle.std.specs.Prelude.{None, ⊤};
    ghost use Rattle.ranking_tests.specs.InMemory.{beside};

    type File = &'static [u8];

    ghost bytes_of = { λ a path. beside a.files.now path };

    ghost opens = { λ _ _ _. ⊤ };

    ghost names_of = { λ _ _. None };

    fn open(&self, path: &str) -> io::Result<&'static [u8]> {
        let before = self.opened.fetch_add(1, Ordering::SeqCst);
        match beside(self.files, path) {
            Some(bytes) if before < self.most => Ok(bytes),
            _ => Err(io::Error::from(io::ErrorKind::NotFound)),
        }
    }

    fn open_at(&self, path: &str, byte: u64) -> io::Result<&'static [u8]> {
        Ok(bytes_from(self.open(path)?, byte))
    }

    fn look(&self, path: &str) -> Place {
        Place::File(match path {
            "long" => 1 << 26,
            "growing" => self.opened.load(Ordering::SeqCst).saturating_add(1 << 26),
            _ => 1 << 24,
        })
    }

    fn names(&self, _alloc: Global, _folder: &str) -> io::Result<Vec<u8>> {
        Err(io::Error::from(io::ErrorKind::NotFound))
    }
}

/// The highest temperatures of a station on the first days of July and August 2020.
fn push_values(text: &mut String, dataset: &Data, id: &StationId) -> Result<(), Fail> {
    for number in [18_444, 18_475] {
        let Some(day) = Day::with_number(number) else {
            return Ok(());
        };
        let value = dataset
            .series(id, Element::Tmax)
            .and_then(|series| series.value(day));
        match value {
            Some(value) => write!(text, "{value} ")?,
            None => text.push_str("- ")?,
        }
    }
    Ok(())
}

/// What files of an archive hold for a query, read by at most this many readers, or why they hold nothing.
pub(crate) fn held_in<R: Threads + AllocGlobal + Sync, A: Archive<File: Send> + Sync>(
    rt: &R,
    archive: &A,
    query: &str,
    names: &[&str],
    readers: u64,
) -> Result<String, Fail> {
    let mut text = Vec::new(rt.alloc());
    text.extend_from_slice(STATIONS)?;
    held_for(
        rt,
        archive,
        &StationList::of_text(text),
        query,
        names,
        readers,
    )
}

/// The same for the stations of a list.
fn held_for<R: Threads + AllocGlobal + Sync, A: Archive<File: Send> + Sync>(
    rt: &R,
    archive: &A,
    stations: &StationList,
    query: &str,
    names: &[&str],
    readers: u64,
) -> Result<String, Fail> {
    let alloc = rt.alloc();
    let mut paths = Vec::new(alloc);
    for name in names {
        paths.push(String::from_str(alloc, name)?)?;
    }
    let mut room = piece_room(alloc)?;
    let mut text = String::new(alloc);
    match Question::of_paths(rt, archive, query, stations, &paths, readers, &mut room) {
        Ok(question) => match question.finish() {
            Ok(taken) => {
                push_values(&mut text, &taken.dataset, &A)?;
                push_values(&mut text, &taken.dataset, &B)?;
                let (foreign, odd) = (taken.warnings.foreign, taken.warnings.odd);
                write!(text, "unlisted {}", taken.dataset.unlisted())?;
                write!(text, " foreign {} {:?}", foreign.count, foreign.first)?;
                write!(text, " odd {} {:?}", odd.count, odd.first)?;
            }
            Err(fault) => write!(text, "{fault}")?,
        },
        Err(path) => write!(text, "{path} can't be read")?,
    }
    Ok(text)
}

/// What files hold for a query, and how many were opened.
fn shown<R: Threads + AllocGlobal + Sync>(
    rt: &R,
    query: &str,
    names: &[&str],
    readers: u64,
    most: u64,
) -> Result<String, Fail> {
    let archive = Large {
        files: FILES,
        opened: AtomicU64::new(0),
        most,
    };
    let mut text = held_in(rt, &archive, query, names, readers)?;
    write!(text, ", {} opened", archive.opened.load(Ordering::SeqCst))?;
    Ok(text)
}

/// Both files of ALPHA, and others.
const MANY: &[&str] = &[
    "unlisted",
    "alpha",
    "alpha again",
    "empty",
    "beta",
    "odd",
    "unlisted too",
];

/// Both files of ALPHA, with another between them.
const APART: &[&str] = &["alpha", "beta", "alpha again"];

#[test]
fn shares_of_files(rt: HostRuntime) -> Result<(), Fail> {
    let plain = "unlisted 0 foreign 0 None odd 0 None";
    let warned = "unlisted 2 foreign 1 Some(5) odd 1 Some(LinePlace { file: 5, line: 2 })";
    // The names, how many readers there may be, what is shown, and how often a file is opened: once more for each side
    // of a cut, and once more if the shares can't be joined.
    let cases: [(&[&str], u64, &str, &str, u64); 18] = [
        (&[], 4, "- - - - ", plain, 0),
        (&["alpha", "beta"], 0, "310 - 320 - ", plain, 2),
        (&["alpha", "beta"], 1, "310 - 320 - ", plain, 2),
        (&["alpha", "beta"], 2, "310 - 320 - ", plain, 4),
        (&["beta", "alpha"], 64, "310 - 320 - ", plain, 4),
        (MANY, 1, "310 200 320 - ", warned, 7),
        (MANY, 2, "310 200 320 - ", warned, 9),
        (MANY, 3, "310 200 320 - ", warned, 11),
        // Both files of ALPHA are in shares of their own, and begin alike: the four files after them are read twice.
        (MANY, 64, "310 200 320 - ", warned, 21),
        (APART, 1, "310 200 320 - ", plain, 3),
        (APART, 3, "310 200 320 - ", plain, 10),
        // The last cut is between both files of ALPHA, so nothing is read twice.
        (
            &["beta", "alpha", "alpha again"],
            3,
            "310 200 320 - ",
            plain,
            5,
        ),
        // No place to cut is found in a file that ends before it.
        (&["long"], 4, "310 - - - ", plain, 2),
        // It is longer when it was read than before, so it is read again.
        (&["growing"], 4, "310 - - - ", plain, 3),
        (
            &["alpha", "short"],
            2,
            "refused 5 DailyLine file 2 line 2 ",
            "Short",
            6,
        ),
        (
            &["short", "beta", "short too"],
            3,
            "refused 5 DailyLine file 1 line 2 ",
            "Short",
            10,
        ),
        (
            &["alpha", "alpha"],
            2,
            "refused 5 DailyLine file 2 line 1 ",
            "DuplicateMonth",
            2,
        ),
        (
            &["alpha", "none", "beta", "nowhere"],
            4,
            "none ",
            "can't be read",
            12,
        ),
    ];
    for (names, readers, first, second, opened) in cases {
        let found = shown(&rt, "top 1 highest TMAX", names, readers, 99)?;
        let expected = format!(in rt.alloc(); "{first}{second}, {opened} opened")?;
        assert_eq!(rt; found.as_str(), expected.as_str(), "{names:?} by {readers}");
    }
    Ok(())
}

/// Twenty-six files, and three to put in the place of some of these.
const SMALL: Texts = &[
    ("a", ALPHA_IN_JULY),
    ("b", UNLISTED),
    ("c", b""),
    ("d", b""),
    ("e", b""),
    ("f", b""),
    ("g", b""),
    ("h", b""),
    ("i", b""),
    ("j", b""),
    ("k", b""),
    ("l", b""),
    ("m", BETA_IN_JULY),
    ("n", b""),
    ("o", b""),
    ("p", b""),
    ("q", b""),
    ("r", b""),
    ("s", b""),
    ("t", b""),
    ("u", b""),
    ("v", b""),
    ("w", b""),
    ("x", b"ZZA00000001202007TAVG\nZZA00000001202007----\n"),
    ("y", b""),
    ("z", UNLISTED),
    ("again", ALPHA_IN_AUGUST),
    ("short", b"\nZZA\n"),
    ("short too", b"\nZZA\n"),
];

/// Names to put at some places.
type Changes = &'static [(usize, &'static str)];

/// The names of the first twenty-six, with others at some places.
fn names_with(alloc: Global, others: Changes) -> Result<Vec<&'static str>, AllocError> {
    let mut names = Vec::new(alloc);
    for (at, (own, _)) in SMALL.iter().take(26).enumerate() {
        let mut name: &'static str = own;
        for (place, other) in others {
            if *place == at {
                name = other;
            }
        }
        names.push(name)?;
    }
    Ok(names)
}

/// If there are at least eight files for each reader, readers claim shares of whole files in turn.
#[test]
fn claimed_shares(rt: HostRuntime) -> Result<(), Fail> {
    let warned = "unlisted 2 foreign 1 Some(23) odd 1 Some(LinePlace { file: 23, line: 2 })";
    let less = "unlisted 1 foreign 1 Some(23) odd 1 Some(LinePlace { file: 23, line: 2 })";
    let short = "refused 5 DailyLine file 1 line 2 ";
    // How many readers there may be, what is put at which places, what is shown, and how often a file is opened at
    // least and at most: twice more for each cut, and once more if the shares can't be joined. Two readers cut the files
    // after the first 6, 11, 15, 18 and 20 and then after each, three after 4, 8, 11, 13, 15 and 17 and then after each.
    // After an error other readers may claim shares, or not.
    let cases: [(u64, Changes, &str, &str, (u64, u64)); 9] = [
        (1, &[], "310 - 320 - ", warned, (26, 26)),
        (2, &[], "310 - 320 - ", warned, (46, 46)),
        (3, &[], "310 - 320 - ", warned, (54, 54)),
        // The first and the last share have months of ALPHA.
        (2, &[(25, "again")], "310 200 320 - ", less, (72, 72)),
        // The files at the first cut are of ALPHA, or those at the fifth.
        (
            2,
            &[(0, "f"), (5, "a"), (6, "again")],
            "310 200 320 - ",
            warned,
            (28, 28),
        ),
        (
            2,
            &[(0, "t"), (19, "a"), (20, "again")],
            "310 200 320 - ",
            warned,
            (36, 36),
        ),
        (
            2,
            &[(0, "short"), (25, "short too")],
            short,
            "Short",
            (47, 72),
        ),
        (
            2,
            &[(9, "short too"), (2, "short")],
            "refused 5 DailyLine file 3 line 2 ",
            "Short",
            (49, 72),
        ),
        (3, &[(13, "none")], "none ", "can't be read", (56, 68)),
    ];
    for (readers, others, first, second, (least, most)) in cases {
        let names = names_with(rt.alloc(), others)?;
        let archive = Large {
            files: SMALL,
            opened: AtomicU64::new(0),
            most: 999,
        };
        let found = held_in(&rt, &archive, "top 1 highest TMAX", &names, readers)?;
        let expected = format!(in rt.alloc(); "{first}{second}")?;
        assert_eq!(rt;
            found.as_str(),
            expected.as_str(),
            "{others:?} by {readers}"
        );
        let opened = archive.opened.load(Ordering::SeqCst);
        assert!(rt;
            least <= opened && opened <= most,
            "{others:?} by {readers}: {opened} opened"
        );
    }
    Ok(())
}

/// A file that can be opened once only is reported if it has to be read again, and an error of the query comes after
/// files that can't be read.
#[test]
fn files_that_change(rt: HostRuntime) -> Result<(), Fail> {
    let hottest = "top 1 highest TMAX";
    let cases: [(&str, &[&str], u64, &str); 4] = [
        (hottest, APART, 8, "beta can't be read, 9 opened"),
        (hottest, APART, 7, "alpha can't be read, 8 opened"),
        (
            "top 1 highest TMX",
            APART,
            99,
            "refused 8 UnexpectedWord 4, 3 opened",
        ),
        (
            "top 1 highest TMX",
            &["alpha", "none"],
            99,
            "none can't be read, 2 opened",
        ),
    ];
    for (query, names, most, expected) in cases {
        let found = shown(&rt, query, names, 3, most)?;
        assert_eq!(rt; found.as_str(), expected, "{query} over {names:?}");
    }
    Ok(())
}

/// A station list of more than 2 MiB: some lines, those of 70,000 other stations, and further lines.
fn long_list(alloc: Global, first: &[u8], last: &[u8]) -> Result<Vec<u8>, AllocError> {
    let mut text = Vec::new(alloc);
    text.extend_from_slice(first)?;
    for number in 0..70_000u32 {
        let mut line = *b"ZZ000000000  10.0000   20.0000\n";
        let mut rest = number;
        for column in (2..11).rev() {
            line[column] = b'0' + (rest % 10) as u8;
            rest /= 10;
        }
        text.extend_from_slice(&line)?;
    }
    text.extend_from_slice(last)?;
    Ok(text)
}

/// A station list in memory, and how often it was opened. Each time it may get longer.
#[derive(Drop)]
struct Listed<'t> {
    text: &'t [u8],
    opened: AtomicU64,
    grows: bool,
}

impl<'t> Archive for Listed<'t> {
    ghost use Rattle.std.specs.Prelude.{None, Some, ⊤};

    type File = &'t [u8];

    ghost bytes_of = { λ a _. Some a.text.now };

    ghost opens = { λ _ _ _. ⊤ };

    ghost names_of = { λ _ _. None };

    fn open(&self, _path: &str) -> io::Result<&'t [u8]> {
        self.opened.fetch_add(1, Ordering::SeqCst);
        Ok(self.text)
    }

    fn open_at(&self, path: &str, byte: u64) -> io::Result<&'t [u8]> {
        Ok(bytes_from(self.open(path)?, byte))
    }

    fn look(&self, _path: &str) -> Place {
        let more = if self.grows {
            self.opened.load(Ordering::SeqCst)
        } else {
            0
        };
        Place::File((self.text.len() as u64).saturating_add(more))
    }

    fn names(&self, _alloc: Global, _folder: &str) -> io::Result<Vec<u8>> {
        Err(io::Error::from(io::ErrorKind::NotFound))
    }
}

/// What files hold for the stations of a list that is read for this many readers, and how often the list is opened.
fn held_by_list<R: Threads + AllocGlobal + Sync>(
    rt: &R,
    text: &[u8],
    grows: bool,
    readers: u64,
) -> Result<(String, u64), Fail> {
    let archive = Listed {
        text,
        opened: AtomicU64::new(0),
        grows,
    };
    let list = read_station_list(rt, rt.alloc(), &archive, "list", readers)?;
    let daily = Large {
        files: FILES,
        opened: AtomicU64::new(0),
        most: 99,
    };
    let names = &["alpha", "beta"];
    let held = held_for(rt, &daily, &list, "top 1 highest TMAX", names, 2)?;
    Ok((held, archive.opened.load(Ordering::SeqCst)))
}

/// A long list is read piece by piece, by one thread or two, and its first error is the same. If it has one it is opened
/// once more, and so is a list with a line that is longer than two pieces.
#[test]
fn long_station_lists(rt: HostRuntime) -> Result<(), Fail> {
    let held = "310 - 320 - unlisted 0 foreign 0 None odd 0 None";
    let unended = STATIONS.split_at(STATIONS.len() - 1).0;
    let cases: [(&[u8], &[u8], u64, &str, u64); 9] = [
        (b"", STATIONS, 2, held, 3),
        (b"", unended, 2, held, 3),
        (b"", unended, 1, held, 1),
        (STATIONS, b"\r\n \n", 1, held, 1),
        (STATIONS, &[b' '; 200_000], 1, held, 2),
        (b"", b"ZZ\n", 2, "refused 1 StationLine line 70001 Short", 4),
        (b"ZZ\n", b"ZZ\n", 1, "refused 1 StationLine line 1 Short", 2),
        (
            STATIONS,
            STATIONS,
            2,
            "refused 1 StationLine line 70003 Duplicate",
            4,
        ),
        (
            b"",
            b"ZZ000000001  10.0000   20.0000",
            1,
            "refused 1 StationLine line 70001 Duplicate",
            2,
        ),
    ];
    for (first, last, readers, expected, opened) in cases {
        let text = long_list(rt.alloc(), first, last)?;
        let found = held_by_list(&rt, &text, false, readers)?;
        assert_eq!(rt; found.0.as_str(), expected, "{readers} readers");
        assert_eq!(rt; found.1, opened, "{readers} readers");
    }
    Ok(())
}

/// Two threads read a long text of a list, and its first error is the same.
#[test]
fn long_texts_of_lists(rt: HostRuntime) -> Result<(), Fail> {
    let held = "310 - 320 - unlisted 0 foreign 0 None odd 0 None";
    let unended = STATIONS.split_at(STATIONS.len() - 1).0;
    let cases: [(&[u8], &[u8], &str); 7] = [
        (b"", STATIONS, held),
        (b"", unended, held),
        (STATIONS, b"\r\n \n", held),
        (b"", b"ZZ\n", "refused 1 StationLine line 70001 Short"),
        (b"ZZ\n", b"ZZ\n", "refused 1 StationLine line 1 Short"),
        (
            STATIONS,
            STATIONS,
            "refused 1 StationLine line 70003 Duplicate",
        ),
        (
            b"",
            b"ZZ000000001  10.0000   20.0000",
            "refused 1 StationLine line 70001 Duplicate",
        ),
    ];
    for (first, last, expected) in cases {
        let list = StationList::of_text(long_list(rt.alloc(), first, last)?);
        let archive = Large {
            files: FILES,
            opened: AtomicU64::new(0),
            most: 99,
        };
        let names = &["alpha", "beta"];
        let found = held_for(&rt, &archive, &list, "top 1 highest TMAX", names, 2)?;
        assert_eq!(rt; found.as_str(), expected);
    }
    Ok(())
}

/// A long list that got longer while two threads read it is read again.
#[test]
fn station_list_that_grows(rt: HostRuntime) -> Result<(), Fail> {
    let held = "310 - 320 - unlisted 0 foreign 0 None odd 0 None";
    let text = long_list(rt.alloc(), b"", STATIONS)?;
    let found = held_by_list(&rt, &text, true, 2)?;
    assert_eq!(rt; found.0.as_str(), held);
    assert_eq!(rt; found.1, 4);
    Ok(())
}

/// A short list is read as a text.
#[test]
fn short_station_lists(rt: HostRuntime) -> Result<(), Fail> {
    let held = "310 - 320 - unlisted 0 foreign 0 None odd 0 None";
    for readers in [1, 2] {
        let found = held_by_list(&rt, STATIONS, false, readers)?;
        assert_eq!(rt; found.0.as_str(), held);
        assert_eq!(rt; found.1, 1);
    }
    Ok(())
}
