//! How much of a run's files was read, counted by all of its readers.

use crate::reached::Reached;
use rank_input::{Archive, Place};
use std::sync::atomic::{AtomicBool, AtomicU64, Ordering};
use std::time::Clock;

/// How many milliseconds pass before the line is shown for the first time.
const FIRST: u64 = 1000;

/// How many milliseconds pass at least before it is shown again.
const AGAIN: u64 = 200;

/// How many bytes a megabyte has.
const MEGABYTE: u64 = 1_000_000;

/// What is known of a run as it reads its files: several readers may share it.
#[derive(Drop)]
pub struct Watch<'r, R> {
    rt: &'r R,
    /// How many files there are.
    files: u64,
    /// How many bytes they have; 0 if that isn't known.
    bytes: u64,
    opened: AtomicU64,
    read: AtomicU64,
    /// The millisecond from which on the line is shown again. The reader that moves it shows the
    /// line.
    due: AtomicU64,
    is_shown: AtomicBool,
}

impl<'r, R: Clock + Eprint> Watch<'r, R> {
    /// Watches what a run reads first, and then its daily files, all of these paths. If nothing is to be shown, they
    /// aren't looked at.
    pub fn new<A: Archive>(
        rt: &'r R,
        shows: bool,
        archive: &A,
        first: &[&str],
        files: &[String],
    ) -> Self {
        let due = if shows { due_after(rt, FIRST) } else { None };
        let bytes = if due.is_some() {
            bytes_of(archive, first, files)
        } else {
            None
        };
        Watch {
            rt,
            files: (first.len() as u64).saturating_add(files.len() as u64),
            bytes: bytes.unwrap_or(0),
            opened: AtomicU64::new(0),
            read: AtomicU64::new(0),
            due: AtomicU64::new(due.unwrap_or(u64::MAX)),
            is_shown: AtomicBool::new(false),
        }
    }

    /// A file was opened.
    pub(crate) fn open(&self) {
        self.opened.fetch_add(1, Ordering::SeqCst);
    }

    /// This many bytes more were read. If it is time, the line is shown.
    pub(crate) fn read(&self, count: usize) {
        self.read.fetch_add(count as u64, Ordering::SeqCst);
        let due = self.due.load(Ordering::SeqCst);
        if due < u64::MAX {
            self.show_if_due(due);
        }
    }

    /// Shows the line if it is due, unless another reader shows it.
    fn show_if_due(&self, due: u64) {
        let Some(now) = milliseconds(self.rt) else {
            return;
        };
        let next = now.saturating_add(AGAIN);
        if due <= now && self.moves_due(due, next) {
            self.is_shown.store(true, Ordering::SeqCst);
            let _ = self.rt.eprint(format_args!("\r{}\u{1b}[K", self.reached()));
        }
    }

    /// Whether this reader is the one that moves the time at which the line is due.
    fn moves_due(&self, due: u64, next: u64) -> bool {
        self.due
            .compare_exchange(due, next, Ordering::SeqCst, Ordering::SeqCst)
            .is_ok()
    }

    /// How far the run has come.
    fn reached(&self) -> Reached {
        Reached {
            read: self.read.load(Ordering::SeqCst) / MEGABYTE,
            total: self.bytes / MEGABYTE,
            file: self.opened.load(Ordering::SeqCst).min(self.files),
            files: self.files,
        }
    }

    /// Ends the reading: the line is erased, if it was shown, and isn't shown again.
    pub fn end(&self) {
        self.due.store(u64::MAX, Ordering::SeqCst);
        if self.is_shown.swap(false, Ordering::SeqCst) {
            let _ = self.rt.eprint("\r\u{1b}[K");
        }
    }
}

/// The millisecond that comes this many after now, if the clock can be read.
fn due_after<R: Clock>(rt: &R, later: u64) -> Option<u64> {
    Some(milliseconds(rt)?.saturating_add(later))
}

/// How many milliseconds the clock has counted, if it can be read.
fn milliseconds<R: Clock>(rt: &R) -> Option<u64> {
    let now = rt.monotonic().ok()?;
    let seconds = now.as_secs().saturating_mul(1000);
    Some(seconds.saturating_add(u64::from(now.subsec_millis())))
}

/// How many bytes the files of these paths have, if each has a length.
fn bytes_of<A: Archive>(archive: &A, first: &[&str], files: &[String]) -> Option<u64> {
    let mut bytes = 0u64;
    for path in first {
        bytes = bytes.saturating_add(length_of(archive, path)?);
    }
    for path in files {
        bytes = bytes.saturating_add(length_of(archive, path)?);
    }
    Some(bytes)
}

/// How many bytes the file of a path has, if it has a length.
fn length_of<A: Archive>(archive: &A, path: &str) -> Option<u64> {
    match archive.look(path) {
        Place::File(length) => Some(length),
        _ => None,
    }
}
