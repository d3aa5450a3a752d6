//! The files of reports and certificates in the system. A certificate that takes the place of an earlier
//! one is written into a new file beside it, which takes its place when the certificate is whole.

use crate::target::Target;
use std::fs::{File, OpenFile, Permissions};
use std::io::{ErrorKind, Read, Write};
use std::os::unix::fs::MetadataExt;
use std::rt::Files;
use std::{fs, io};

/// How a certificate begins, of whatever version.
const BEGINNING: [u8; 21] = *b"extremes certificate ";

/// The folder where the system shows the files that the process has open.
const OPEN_FILES: &str = "/dev/fd";

/// How many names are tried for a new file.
const NAMES: u32 = 10_000;

/// The file of a report or a certificate in the system. Of its files nothing is known.
#[derive(Drop)]
pub struct SystemTarget<'r, R: Files> {
    rt: &'r R,
    file: Option<R::File>,
    /// The new file, unless a file is written that was there.
    new: Option<NewFile>,
}

/// The path of a new file, and the path that it gets when it is whole, if that is another.
#[derive(Drop)]
struct NewFile {
    path: String,
    place: Option<String>,
}

/// A path that a new file can get, and the permissions that are kept.
#[derive(Drop)]
struct Place {
    path: String,
    permissions: Option<Permissions>,
}

impl<'r, R: Files + AllocGlobal> SystemTarget<'r, R> {
    /// No file is open.
    pub fn new(rt: &'r R) -> SystemTarget<'r, R> {
        SystemTarget {
            rt,
            file: None,
            new: None,
        }
    }

    /// Opens a new file beside the one of a path, with its permissions.
    fn open_beside(&mut self, place: Place) -> io::Result<()> {
        let (path, file) = create_beside(self.rt, &place.path)?;
        if let Some(permissions) = place.permissions {
            if let Err(error) = keep_permissions(&file, permissions) {
                let _ = fs::remove_file(self.rt, path);
                return Err(error);
            }
        }
        self.file = Some(file);
        self.new = Some(NewFile {
            path,
            place: Some(place.path),
        });
        Ok(())
    }
}

impl<'r, R: Files + AllocGlobal> Target for SystemTarget<'r, R> {
    ghost use Rattle.std.specs.Prelude.{⊤};

    ghost one_file = { λ _ _ _ _. ⊤ };

    ghost other_text = { λ _ _ _. ⊤ };

    ghost opens = { λ _ _ _ _. ⊤ };

    ghost exists = { λ _ _ _. ⊤ };

    ghost creates = { λ _ _ _ _. ⊤ };

    ghost abandons = { λ _ _. ⊤ };

    /// By what the system says of both, or by the paths as given if it says nothing. Devices and
    /// pipes keep nothing.
    fn is_one_file(&self, one: &str, other: &str) -> bool {
        match (fs::metadata(self.rt, one), fs::metadata(self.rt, other)) {
            (Ok(one), Ok(other)) => {
                one.is_file() && one.dev() == other.dev() && one.ino() == other.ino()
            }
            _ => one == other,
        }
    }

    /// A file that can't be read counts as something else.
    fn holds_other(&self, path: &str) -> bool {
        match fs::metadata(self.rt, path) {
            Ok(found) => found.is_file()
                && found.len() > 0
                && !begins_as_certificate(self.rt, path),
            Err(_) => false,
        }
    }

    /// If the folder takes no new file, the file of the path is written itself. So are devices and
    /// pipes.
    fn open(&mut self, path: &str) -> io::Result<()> {
        if let Some(place) = place_of(self.rt, path)? {
            match self.open_beside(place) {
                Ok(()) => return Ok(()),
                Err(error) if is_denied(&error) => {}
                Err(error) => return Err(error),
            }
        }
        self.file = Some(File::create(self.rt, path)?);
        Ok(())
    }

    /// A link that leads nowhere counts as a file. If the path can't be looked at, none is found.
    fn is_there(&self, path: &str) -> bool {
        fs::symlink_metadata(self.rt, path).is_ok()
    }

    /// The file has its own path from the first.
    fn create(&mut self, path: &str) -> io::Result<()> {
        let path = String::from_str(self.rt.alloc(), path)?;
        self.file = Some(File::create_new(self.rt, path.as_str())?);
        self.new = Some(NewFile { path, place: None });
        Ok(())
    }

    fn abandon(&mut self) {
        if let Some(new) = self.new.take() {
            let _ = fs::remove_file(self.rt, new.path);
        }
    }
}

impl<'r, R: Files> Write for SystemTarget<'r, R> {
    fn write(&mut self, bytes: &[u8]) -> io::Result<usize> {
        match &mut self.file {
            Some(file) => file.write(bytes),
            None => Err(io::Error::from(ErrorKind::NotConnected)),
        }
    }

    /// Puts the new file in its place, if it isn't there.
    fn flush(&mut self) -> io::Result<()> {
        if let Some(
            NewFile {
                path,
                place: Some(place),
            },
        ) = &self.new
        {
            fs::rename(self.rt, path.as_str(), place.as_str())?;
        }
        self.new = None;
        Ok(())
    }
}

/// Whether a file begins as a certificate does.
fn begins_as_certificate<R: Files>(rt: &R, path: &str) -> bool {
    let mut bytes = [0u8; BEGINNING.len()];
    match File::open(rt, path) {
        Ok(mut file) => file.read_exact(&mut bytes).is_ok() && bytes == BEGINNING,
        Err(_) => false,
    }
}

/// The place that a new file can get, so that a path then names it. There is none for a device, a pipe,
/// a link that leads nowhere, and the name of a file that the process has open. A file that is there
/// has to be one that may be written.
fn place_of<R: Files + AllocGlobal>(rt: &R, path: &str) -> io::Result<Option<Place>> {
    let found = match fs::metadata(rt, path) {
        Ok(found) => found,
        Err(error) if error.kind() == ErrorKind::NotFound => return free_place(rt, path),
        Err(error) => return Err(error),
    };
    if !found.is_file() || is_open_file(rt, path) {
        return Ok(None);
    }
    let _ = File::options().write(true).open(rt, path)?;
    match fs::canonicalize(rt, path) {
        Ok(path) => Ok(Some(Place {
            path: path.into_string(),
            permissions: Some(found.permissions()),
        })),
        Err(_) => Ok(None),
    }
}

/// The place of a path, unless a link has that path.
fn free_place<R: Files + AllocGlobal>(rt: &R, path: &str) -> io::Result<Option<Place>> {
    if fs::symlink_metadata(rt, path).is_ok() {
        return Ok(None);
    }
    Ok(Some(Place {
        path: String::from_str(rt.alloc(), path)?,
        permissions: None,
    }))
}

/// Whether a path is the system's name of a file that the process has open.
fn is_open_file<R: Files>(rt: &R, path: &str) -> bool {
    match (fs::symlink_metadata(rt, path), fs::metadata(rt, OPEN_FILES)) {
        (Ok(name), Ok(folder)) => name.dev() == folder.dev(),
        _ => false,
    }
}

/// Makes a file beside the one of a path, by the first name that no file has, and returns its path.
fn create_beside<R: Files + AllocGlobal>(rt: &R, place: &str) -> io::Result<(String, R::File)> {
    for number in 1..=NAMES {
        let path = format!(in rt.alloc(); "{place}.new{number}")?;
        match File::create_new(rt, path.as_str()) {
            Ok(file) => return Ok((path, file)),
            Err(error) if error.kind() == ErrorKind::AlreadyExists => {}
            Err(error) => return Err(error),
        }
    }
    Err(io::Error::from(ErrorKind::AlreadyExists))
}

/// Gives a file permissions, unless it has them.
fn keep_permissions<F: OpenFile>(file: &F, permissions: Permissions) -> io::Result<()> {
    if file.metadata()?.permissions() == permissions {
        return Ok(());
    }
    file.set_permissions(permissions)
}

/// Whether a folder takes no new file, or none of this name.
fn is_denied(error: &io::Error) -> bool {
    matches!(
        error.kind(),
        ErrorKind::PermissionDenied | ErrorKind::ReadOnlyFilesystem | ErrorKind::InvalidFilename
    )
}
