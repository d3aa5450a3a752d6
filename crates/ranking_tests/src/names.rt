//! What names stand for, over an archive in memory.

ghost use Rattle.std.specs.Prelude.{◌≡◌, drop, option_map};
ghost use Rattle.ranking_tests.specs.InMemory.{beside};

use rank_input::{Archive, NotNamed, Place, name_files, read_whole};
use std::alloc::{AllocError, Global};
use std::io;
use std::test::Fail;

/// Paths, and a text for each.
pub(crate) type Texts = &'static [(&'static str, &'static [u8])];

/// Files with their bytes, and folders with the names in them, each ended by a NUL.
#[derive(Drop)]
struct InMemory {
    files: Texts,
    folders: Texts,
}

impl Archive for InMemory {
    ghost use Rattle.std.specs.Prelude.{◌≡◌, ◌⊎◌, Some};
    ghost use Rattle.std.specs.Option.{is_some};
    ghost use Rattle.ranking_tests.specs.InMemory.{beside};

    type File = &'static [u8];

    ghost bytes_of = { λ a path. beside a.files.now path };

    ghost opens = { λ a path opened.
        (opened ≡ is_some (beside a.files.now path)) ⊎ (opened ≡ is_some (beside a.folders.now path)) };

    ghost names_of = { λ a path. Some (beside a.folders.now path) };

    fn open(&self, path: &str) -> io::Result<&'static [u8]> {
        match beside(self.files, path) {
            Some(bytes) => Ok(bytes),
            None => Err(io::Error::from(io::ErrorKind::NotFound)),
        }
    }

    fn open_at(&self, path: &str, byte: u64) -> io::Result<&'static [u8]> {
        match beside(self.files, path) {
            Some(bytes) => Ok(bytes_from(bytes, byte)),
            None => Err(io::Error::from(io::ErrorKind::NotFound)),
        }
    }

    fn look(&self, path: &str) -> Place {
        if beside(self.folders, path).is_some() {
            return Place::Folder;
        }
        match beside(self.files, path) {
            Some(bytes) => Place::File(bytes.len() as u64),
            None => Place::Other,
        }
    }

    fn names(&self, alloc: Global, folder: &str) -> io::Result<Vec<u8>> {
        match beside(self.folders, folder) {
            Some(names) => {
                let mut copy = Vec::new(alloc);
                copy.extend_from_slice(names)?;
                Ok(copy)
            }
            None => Err(io::Error::from(io::ErrorKind::NotFound)),
        }
    }
}

/// The text of a path, if it has one.
pub(crate) fn beside(texts: Texts, path: &str) -> Option<&'static [u8]>
    ensures { option_map (λ t. t.now) result ≡ beside texts.now path.now }
{
    texts.iter().find(|text| text.0 == path).map(|text| text.1)
}

/// The bytes of a text from one on.
pub(crate) fn bytes_from(text: &[u8], byte: u64) -> &[u8]
    ensures { result.now ≡ drop byte text.now }
{
    if byte < text.len() as u64 {
        &text[byte as usize..]
    } else {
        b""
    }
}

/// Folders with daily files and others, a list of names, and a list with Windows line ends.
const ARCHIVE: InMemory = InMemory {
    files: &[
        ("one.dly", b"x"),
        ("all/2.dly", b"two"),
        ("lines", b"one.dly\nall\n\nmissing.dly"),
        ("windows", b"one.dly\r\n\r\nall/\r\n"),
        ("nuls", b"one.dly\0\0all\0a\nb.dly"),
        ("blank", b"\n\n\r\n"),
        ("bytes", b"one.dly\n\xff.dly\n"),
        ("empty", b""),
        ("odd last", b"others\n\xff.dly\n"),
        ("others in it", b"one.dly\nothers\nodd\n"),
        ("/dev/stdin", b"2.dly\none.dly\n"),
        ("-", b"a file"),
    ],
    folders: &[
        (
            "all",
            b"2.dly\x0010.dly\0.10.dly\0.dly\0notes.txt\0dly\0x.dly.gz\0.\0..\0B.dly\0b.dly\0",
        ),
        ("all/", b"2.dly\x0010.dly\0"),
        ("others", b"notes.txt\0.2.dly\0.\0..\0"),
        ("none", b""),
        ("odd", b"\xff.dly\x001.dly\0"),
        ("odder", b"\xff.txt\x001.dly\0"),
    ],
};

/// The paths that names stand for, each on a line, or why they don't.
fn shown(
    alloc: Global,
    words: &[&str],
    list: Option<&str>,
    null: bool,
) -> Result<String, NotNamed> {
    let mut named = Vec::new(alloc);
    for word in words {
        named
            .push(String::from_str(alloc, word)?)
            .map_err(AllocError::from)?;
    }
    let mut text = String::new(alloc);
    for path in name_files(alloc, &ARCHIVE, &named, list, null)? {
        text.push_str(&path)?;
        text.push('\n')?;
    }
    Ok(text)
}

/// The same, with the reason as a word and a path.
fn told(alloc: Global, words: &[&str], list: Option<&str>, null: bool) -> Result<String, Fail> {
    Ok(match shown(alloc, words, list, null) {
        Ok(text) => text,
        Err(NotNamed::Unreadable(path)) => format!(in alloc; "unreadable {path}")?,
        Err(NotNamed::Empty(path)) => format!(in alloc; "empty {path}")?,
        Err(NotNamed::NotText(path)) => format!(in alloc; "not text {path}")?,
        Err(NotNamed::Memory) => format!(in alloc; "memory")?,
    })
}

#[test]
fn what_names_stand_for(rt: HostRuntime) -> Result<(), Fail> {
    let daily = "all/10.dly\nall/2.dly\nall/B.dly\nall/b.dly\n";
    let cases: [(&[&str], Option<&str>, bool, &str); 21] = [
        (&[], None, false, ""),
        (
            &["one.dly", "missing.dly"],
            None,
            false,
            "one.dly\nmissing.dly\n",
        ),
        (&["all"], None, false, daily),
        (
            &["one.dly", "all/"],
            None,
            false,
            "one.dly\nall/10.dly\nall/2.dly\n",
        ),
        (&["odder"], None, false, "odder/1.dly\n"),
        (
            &["2.dly"],
            Some("lines"),
            false,
            "2.dly\none.dly\nall/10.dly\nall/2.dly\nall/B.dly\nall/b.dly\nmissing.dly\n",
        ),
        (
            &[],
            Some("windows"),
            false,
            "one.dly\nall/10.dly\nall/2.dly\n",
        ),
        (
            &[],
            Some("nuls"),
            true,
            "one.dly\nall/10.dly\nall/2.dly\nall/B.dly\nall/b.dly\na\nb.dly\n",
        ),
        (&[], Some("blank"), false, "empty blank"),
        (&[], Some("blank"), true, "\n\n\r\n\n"),
        (&[], Some("bytes"), false, "not text bytes"),
        (&["all"], Some("empty"), true, "empty empty"),
        (&["one.dly"], Some("missing"), false, "unreadable missing"),
        (&["one.dly", "others"], None, false, "empty others"),
        (&["none", "odd"], Some("missing"), false, "empty none"),
        (&["odd"], None, false, "not text odd"),
        (&["-"], Some("-"), false, "-\n2.dly\none.dly\n"),
        (&[], Some("odd last"), false, "not text odd last"),
        (&[], Some("others in it"), false, "empty others"),
        (&["others"], Some("bytes"), false, "empty others"),
        (&[], Some("all"), false, "unreadable all"),
    ];
    for (words, list, null, expected) in cases {
        let found = told(rt.alloc(), words, list, null)?;
        assert_eq!(rt; found.as_str(), expected, "{words:?} {list:?} {null}");
    }
    Ok(())
}

#[test]
fn whole_files(rt: HostRuntime) -> Result<(), Fail> {
    let two = read_whole(rt.alloc(), &ARCHIVE, "all/2.dly")?;
    assert_eq!(rt; two.as_slice(), b"two".as_slice());
    assert!(rt; read_whole(rt.alloc(), &ARCHIVE, "all").is_err());
    Ok(())
}
