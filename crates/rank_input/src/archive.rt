//! Where the files of a run are found and opened, and how all of their bytes are read.

ghost use Rattle.std.specs.Prelude.{◌≡◌, true, IfOk, IfErr, OnOk, map, string_bytes};
ghost use Rattle.rank_input.specs.Feeding.{AreAllOf, AreOpened, FeedsBytes, FeedsFile, FeedsFiles, IsTried, StopsAt};
ghost use Rattle.rank_input.specs.Takes.{HasTakenSome};

use crate::intake::Intake;
use crate::named::below;
use ghcn_series::LineReader;
use std::alloc::{AllocError, Global};
use std::fs::File;
use std::io::{Read, Seek, SeekFrom};
use std::rt::Files;
use std::{fs, io};

/// How many bytes of a file are read at once.
pub(crate) const PIECE: usize = 1 << 16;

/// What is at a path.
#[derive(Clone, Copy, Debug, PartialEq, Eq)]
pub enum Place {
    Folder,
    /// A file, and how many bytes it seems to have.
    File(u64),
    /// Anything else, such as a pipe or a device, or nothing that can be looked at.
    Other,
}

/// Where folders and files are found by their paths.
pub trait Archive {
    ghost use Rattle.std.specs.Prelude.{◌≡◌, ℕ, Bool, true, false, List, drop, Option, IfOk, OnOk, OnErr};
    ghost use Rattle.std.specs.Option.{option_map};
    ghost use Rattle.rank_input.specs.Feeding.{IsTried};
    ghost use Rattle.rank_input.specs.Named.{IsPlaceOf, AreNamesOf};

    /// An open file.
    type File: Read + Drop;

    /// The bytes of the file of a path, if they are known.
    ghost bytes_of: { Self → List ℕ → Option (List ℕ) };

    /// Whether the file or the folder of a path may be opened, and whether that may fail.
    ghost opens: { Self → List ℕ → Bool → Type 0 };

    /// What is known of the folder of a path: that there is none, or the names in it, each ended by a NUL.
    ghost names_of: { Self → List ℕ → Option (Option (List ℕ)) };

    /// Opens a file at its first byte, or returns why it can't be opened.
    fn open(&self, path: &str) -> io::Result<Self::File>
        ensures bytes { IfOk result (λ file. Self.File.remaining file ≡ bytes_of self.now path.now) }
        ensures opened { OnOk result (opens self.now path.now true) }
        ensures failed { OnErr result (opens self.now path.now false) };

    /// Opens a file at one of its bytes, or at its end if it has fewer, or returns why it can't be opened there.
    fn open_at(&self, path: &str, byte: u64) -> io::Result<Self::File>
        ensures bytes { IfOk result (λ file.
            Self.File.remaining file ≡ option_map (λ bytes. drop byte bytes) (bytes_of self.now path.now)) }
        ensures opened { OnOk result (opens self.now path.now true) };

    /// What is at a path.
    fn look(&self, path: &str) -> Place
        ensures { IsPlaceOf (names_of self.now path.now) result };

    /// The names in a folder, in no order, each ended by a NUL; or why they can't be read.
    fn names(&self, alloc: Global, folder: &str) -> io::Result<Vec<u8>>
        ensures names { IfOk result (λ names. AreNamesOf (names_of self.now folder.now) names.items) }
        ensures opened { OnOk result (opens self.now folder.now true) }
        ensures tried { IsTried (opens self.now) folder.now };
}

/// The files and folders of the system. Nothing is known of what they hold, and any may be opened or fail to.
#[derive(Drop)]
pub struct System<'r, R>(pub &'r R);

/// A file of the system.
#[derive(Drop)]
pub struct SystemFile<F>(F);

impl<'r, R: Files> Archive for System<'r, R> {
    ghost use Rattle.std.specs.Prelude.{None, ⊤};

    type File = SystemFile<R::File>;

    ghost bytes_of = { λ _ _. None };

    ghost opens = { λ _ _ _. ⊤ };

    ghost names_of = { λ _ _. None };

    fn open(&self, path: &str) -> io::Result<SystemFile<R::File>> {
        Ok(SystemFile(File::open(self.0, path)?))
    }

    fn open_at(&self, path: &str, byte: u64) -> io::Result<SystemFile<R::File>> {
        let mut file = File::open(self.0, path)?;
        file.seek(SeekFrom::Start(byte))?;
        Ok(SystemFile(file))
    }

    fn look(&self, path: &str) -> Place {
        match fs::metadata(self.0, path) {
            Ok(found) if found.is_dir() => Place::Folder,
            Ok(found) if found.is_file() => Place::File(found.len()),
            _ => Place::Other,
        }
    }

    fn names(&self, alloc: Global, folder: &str) -> io::Result<Vec<u8>> {
        // The slash makes the system follow a link to a folder.
        let mut folder = self.0.open_dir(below(alloc, folder, "")?.as_str())?;
        read_names(alloc, &mut folder)
    }
}

impl<F: Read> Read for SystemFile<F> {
    fn read(&mut self, buf: &mut [u8]) -> io::Result<usize> {
        self.0.read(buf)
    }
}

/// The whole of a file, in a buffer of its length, or why it can't be read.
pub fn read_whole<A: Archive>(alloc: Global, archive: &A, path: &str) -> io::Result<Vec<u8>>
    ensures whole { IfOk result (λ text. AreAllOf (A.bytes_of archive.now path.now) text.items) }
    ensures opened { OnOk result (A.opens archive.now path.now true) }
    ensures tried { IsTried (A.opens archive.now) path.now }
{
    let mut file = archive.open(path)?;
    let length = match archive.look(path) {
        Place::File(length) => length as usize,
        _ => 0,
    };
    // One byte more, so that the end is found without an allocation.
    let mut bytes = Vec::with_capacity(alloc, length.saturating_add(1))?;
    file.read_to_end(&mut bytes)?;
    Ok(bytes)
}

/// Feeds daily files in their order, each by pieces of the buffer's length, or returns the path of
/// the first that can't be read.
pub fn feed_files<'p, A: Archive, L: LineReader>(
    archive: &A,
    intake: &mut Intake<L>,
    paths: &'p [String],
    buffer: &mut [u8],
) -> Result<(), &'p str>
    requires { HasTakenSome L.has_read intake.old }
    ensures fed { OnOk result (FeedsFiles L.has_read intake.old intake.new
        (map (λ path. A.bytes_of archive.now (string_bytes path)) paths.now)) }
    ensures going { OnOk result (HasTakenSome L.has_read intake.new) }
    ensures opened { OnOk result (AreOpened (A.opens archive.now) (map string_bytes paths.now)) }
    ensures stopped { IfErr result (λ path. StopsAt (A.opens archive.now) (map string_bytes paths.now) path.now) }
{
    for path in paths {
        let Ok(mut file) = archive.open(path) else {
            return Err(path);
        };
        let Ok(()) = feed(intake, &mut file, buffer) else {
            return Err(path);
        };
    }
    Ok(())
}

/// Feeds all bytes that a source has left as one daily file, or returns why a read failed or that
/// the buffer is empty. A read that was interrupted is tried again.
pub fn feed<L: LineReader, S: Read>(
    intake: &mut Intake<L>,
    source: &mut S,
    buffer: &mut [u8],
) -> io::Result<()>
    requires { HasTakenSome L.has_read intake.old }
    ensures fed { OnOk result (FeedsFile L.has_read intake.old intake.new (S.remaining source.old)) }
    ensures going { OnOk result (HasTakenSome L.has_read intake.new) }
{
    feed_bytes(intake, source, buffer)?;
    intake.end_of_file();
    Ok(())
}

/// Feeds them as more bytes of the current daily file, and doesn't end it.
pub(crate) fn feed_bytes<L: LineReader, S: Read>(
    intake: &mut Intake<L>,
    source: &mut S,
    buffer: &mut [u8],
) -> io::Result<()>
    requires { HasTakenSome L.has_read intake.old }
    ensures fed { OnOk result (FeedsBytes L.has_read intake.old intake.new (S.remaining source.old)) }
    ensures going { OnOk result (HasTakenSome L.has_read intake.new) }
{
    if buffer.is_empty() {
        return Err(io::Error::from(io::ErrorKind::InvalidInput));
    }
    for _ in 0..u64::MAX {
        match source.read(buffer) {
            Ok(0) => return Ok(()),
            Ok(count) => intake.piece(&buffer[..count]),
            Err(error) => {
                if error.kind() != io::ErrorKind::Interrupted {
                    return Err(error);
                }
            }
        }
    }
    Err(io::Error::from(io::ErrorKind::FileTooLarge))
}

/// All that is left of an open folder. A read into little room may fail, so each one has room for a piece.
fn read_names<S: Read>(alloc: Global, folder: &mut S) -> io::Result<Vec<u8>> {
    let mut room = piece_room(alloc)?;
    let mut names = Vec::new(alloc);
    for _ in 0..u64::MAX {
        let count = folder.read(&mut room)?;
        if count == 0 {
            return Ok(names);
        }
        names.extend_from_slice(&room[..count])?;
    }
    Err(io::Error::from(io::ErrorKind::FileTooLarge))
}

/// Room for a piece of a file, 64 KiB.
pub fn piece_room(alloc: Global) -> Result<Vec<u8>, AllocError> {
    vec![in alloc; 0u8; PIECE]
}
