//! An archive whose files are watched as they are read.

use crate::watch::Watch;
use rank_input::{Archive, Place};
use std::alloc::Global;
use std::io;
use std::io::Read;
use std::time::Clock;

/// An archive whose files are watched as they are read.
#[derive(Drop)]
pub struct Watched<'w, 'r, A, R> {
    pub archive: &'w A,
    pub watch: &'w Watch<'r, R>,
}

/// A file that is watched.
#[derive(Drop)]
pub struct WatchedFile<'w, 'r, F, R> {
    file: F,
    watch: &'w Watch<'r, R>,
}

impl<'w, 'r, A: Archive, R: Clock + Eprint> Archive for Watched<'w, 'r, A, R> {
    type File = WatchedFile<'w, 'r, A::File, R>;

    ghost bytes_of = { λ w path. A.bytes_of w.archive.now path };

    ghost opens = { λ w path opened. A.opens w.archive.now path opened };

    ghost names_of = { λ w path. A.names_of w.archive.now path };

    fn open(&self, path: &str) -> io::Result<WatchedFile<'w, 'r, A::File, R>> {
        let file = self.archive.open(path)?;
        self.watch.open();
        Ok(WatchedFile {
            file,
            watch: self.watch,
        })
    }

    fn open_at(&self, path: &str, byte: u64) -> io::Result<WatchedFile<'w, 'r, A::File, R>> {
        let file = self.archive.open_at(path, byte)?;
        // A file that is opened at other bytes too counts once.
        if byte == 0 {
            self.watch.open();
        }
        Ok(WatchedFile {
            file,
            watch: self.watch,
        })
    }

    fn look(&self, path: &str) -> Place {
        self.archive.look(path)
    }

    fn names(&self, alloc: Global, folder: &str) -> io::Result<Vec<u8>> {
        self.archive.names(alloc, folder)
    }
}

impl<'w, 'r, F: Read, R: Clock + Eprint> Read for WatchedFile<'w, 'r, F, R> {
    ghost remaining = { λ w. F.remaining w.file };

    fn read(&mut self, buf: &mut [u8]) -> io::Result<usize> {
        let count = self.file.read(buf)?;
        self.watch.read(count);
        Ok(count)
    }
}
