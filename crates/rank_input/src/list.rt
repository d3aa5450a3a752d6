//! The station list of a run.

ghost use Rattle.std.specs.Prelude.{◌≡◌, ◌++◌, true, ℕ, List, None, Some, Ok, IfOk, IfSome, OnOk};
ghost use denote.Param.Send.{IsSync};
ghost use Rattle.ghcn_fields.specs.Lines.{EndsLine};
ghost use Rattle.ghcn_files.specs.Listed.{listed};
ghost use Rattle.rank_input.specs.Feeding.{IsTried};
ghost use Rattle.rank_input.specs.Lists.{IsListIn, IsListText, IsSomeList, ListsStretch, TakesLines, TakesSource};

use crate::archive::{Archive, PIECE, Place, piece_room, read_whole};
use ghcn_fields::split_line;
use ghcn_files::{Stations, StationsReader};
use memchr::memrchr;
use std::alloc::Global;
use std::io;
use std::io::{BufRead, BufReader, Read};
use std::marker::Model;
use std::thread::{Threads, join};

/// How many bytes a list has at least if it is read piece by piece, and two threads read it. One thread reads that many
/// in some 3 ms, and to start another and to join both lists takes some 0.4 ms.
const WORTH_TWO: usize = 1 << 21;

/// How many bytes a line of the list has that ends in a line feed and has all columns.
const LINE: u64 = 86;

/// A station list that was read.
#[derive(Drop)]
pub struct StationList {
    pub(crate) form: ListForm,
}

/// What is kept of a station list.
#[derive(Drop)]
pub(crate) enum ListForm {
    /// Its stations, if it is long and was read piece by piece.
    Stations(Stations),
    /// Its text, if it is short, can't be read twice, or has an error.
    Text(Vec<u8>),
}

impl Model for StationList {
    ghost use Rattle.rank_input.specs.declared.list.ListForm.{ListForm};
    ghost use Rattle.rank_input.specs.Lists.{HasListText};

    ghost Value = { ListForm };

    ghost view = { λ l. l.form };

    ghost invariant = { λ l. HasListText l.form };
}

impl StationList {
    /// The list of a text. It is read where its stations are needed.
    pub fn of_text(text: Vec<u8>) -> Self
        ensures { IsListText result text.items }
    {
        StationList {
            form: ListForm::Text(text),
        }
    }

    /// About how many bytes it has.
    pub(crate) fn size(&self) -> u64 {
        match &self.form {
            ListForm::Stations(stations) => stations.len().saturating_mul(LINE),
            ListForm::Text(text) => text.len() as u64,
        }
    }

    /// Its stations, which a long text gives by two threads. Nothing if it has an error or memory runs out.
    pub(crate) fn stations<R: Threads>(&self, rt: &R, alloc: Global) -> Option<Stations>
        ensures stations { (text : List ℕ) → IsListText self.now text
            → IfSome result (λ stations. listed text ≡ Ok stations) }
        ensures some { IfSome result IsSomeList }
    {
        match &self.form {
            ListForm::Stations(stations) => stations.share().ok(),
            ListForm::Text(text) => read_text(rt, alloc, text),
        }
    }
}

/// Reads the station list of a path, or returns why it can't be read. A long list is read piece by piece, so that its
/// text needs no memory; if there may be several readers, two threads do so. It may then be opened several times.
pub fn read_station_list<R: Threads, A: Archive<File: Send> + Sync>(
    rt: &R,
    alloc: Global,
    archive: &A,
    path: &str,
    readers: u64,
) -> io::Result<StationList>
    ensures list { IfOk result (IsListIn (A.bytes_of archive.now path.now)) }
    ensures opened { OnOk result (A.opens archive.now path.now true) }
    ensures tried { IsTried (A.opens archive.now) path.now }
{
    match read_long(rt, alloc, archive, path, readers) {
        Some(stations) => Ok(StationList {
            form: ListForm::Stations(stations),
        }),
        None => Ok(StationList::of_text(read_whole(alloc, archive, path)?)),
    }
}

/// Reads a long list piece by piece. Nothing if it is short, isn't a regular file, can't be read, changes its length,
/// has an error or a very long line, or memory runs out.
fn read_long<R: Threads, A: Archive<File: Send> + Sync>(
    rt: &R,
    alloc: Global,
    archive: &A,
    path: &str,
    readers: u64,
) -> Option<Stations>
    ensures { IfSome result
        (ListsStretch (A.bytes_of archive.now path.now) (A.opens archive.now path.now true) 0 None) }
{
    let Place::File(length) = archive.look(path) else {
        return None;
    };
    if length < WORTH_TWO as u64 {
        return None;
    }
    if readers < 2 {
        return read_stretch(alloc, archive, path, 0, None);
    }
    let cut = start_of_next_line(alloc, archive, path, length / 2)?;
    let stations = read_stretches(rt, alloc, archive, path, cut)?;
    // If its length has changed since, its parts may be of different files.
    match archive.look(path) {
        Place::File(now) if now == length => Some(stations),
        _ => None,
    }
}

/// Reads a list in two parts: what comes before a byte in the caller's thread, and the rest in one of its own.
fn read_stretches<R: Threads, A: Archive<File: Send> + Sync>(
    rt: &R,
    alloc: Global,
    archive: &A,
    path: &str,
    cut: u64,
) -> Option<Stations>
    ensures { IfSome result
        (ListsStretch (A.bytes_of archive.now path.now) (A.opens archive.now path.now true) 0 None) }
{
    let (rest, begun) = join(
        rt,
        move ||
            requires { IsSync A.row }
            ensures { IfSome result (ListsStretch (A.bytes_of archive.entry.now path.entry.now)
                (A.opens archive.entry.now path.entry.now true) cut None) }
        { read_stretch(alloc, archive, path, cut, None) },
        move ||
            requires { IsSync A.row }
            ensures { IfSome result (ListsStretch (A.bytes_of archive.entry.now path.entry.now)
                (A.opens archive.entry.now path.entry.now true) 0 (Some cut)) }
        { read_stretch(alloc, archive, path, 0, Some(cut)) },
    );
    let begun = begun?;
    let rest = rest?;
    let Ok(stations) = begun.join(alloc, rest) else {
        return None;
    };
    stations
}

/// The first byte of a line that begins after a byte, if one can be found.
fn start_of_next_line<A: Archive>(
    alloc: Global,
    archive: &A,
    path: &str,
    from: u64,
) -> Option<u64> {
    let file = archive.open_at(path, from).ok()?;
    let mut lines = BufReader::new(alloc, file.take(PIECE as u64)).ok()?;
    from.checked_add(lines.skip_until(b'\n').ok()? as u64)
}

/// Reads the list that the bytes of a file make from one on, this many or up to its end. If they don't go to its end, the
/// last of them has to end a line.
fn read_stretch<A: Archive>(
    alloc: Global,
    archive: &A,
    path: &str,
    from: u64,
    count: Option<u64>,
) -> Option<Stations>
    ensures { IfSome result (ListsStretch (A.bytes_of archive.now path.now)
        (A.opens archive.now path.now true) from count) }
{
    let Ok(mut room) = piece_room(alloc) else {
        return None;
    };
    let Ok(mut file) = archive.open_at(path, from) else {
        return None;
    };
    let Some(count) = count else {
        let (reader, _) = take_lines(alloc, &mut file, &mut room)?;
        let Ok(stations) = reader.finish(alloc) else {
            return None;
        };
        return stations;
    };
    let mut stretch = file.take(count);
    let (reader, is_whole) = take_lines(alloc, &mut stretch, &mut room)?;
    if stretch.limit() > 0 || !is_whole {
        return None;
    }
    let Ok(stations) = reader.finish(alloc) else {
        return None;
    };
    stations
}

/// Takes the lines of all bytes that a source has left, by pieces of the buffer's length, and returns whether the last of
/// these ends a line. Nothing if a line has an error or is very long, the source can't be read, the buffer is empty, or
/// memory runs out.
fn take_lines<S: Read>(
    alloc: Global,
    source: &mut S,
    buffer: &mut [u8],
) -> Option<(StationsReader, bool)>
    ensures { IfSome result (λ taken. TakesSource (S.remaining source.old) taken.0 taken.1) }
{
    if buffer.is_empty() {
        return None;
    }
    // What was read after the last line that was taken.
    let Ok(mut text) = Vec::with_capacity(alloc, 2 * PIECE) else {
        return None;
    };
    let mut reader = StationsReader::new(alloc);
    for _ in 0..u64::MAX {
        match source.read(buffer) {
            Ok(0) => {
                let is_whole = text.is_empty();
                let Ok(Some(reader)) = reader.with_lines(&text) else {
                    return None;
                };
                return Some((reader, is_whole));
            }
            Ok(count) => {
                let Ok(()) = text.extend_from_slice(&buffer[..count]) else {
                    return None;
                };
                reader = take_whole_lines(reader, &mut text)?;
                if text.len() > PIECE {
                    return None;
                }
            }
            Err(error) => {
                if error.kind() != io::ErrorKind::Interrupted {
                    return None;
                }
            }
        }
    }
    None
}

/// Takes the lines of a text that end in a line feed, which it then begins after. Nothing if one has an error or memory
/// runs out.
fn take_whole_lines(reader: StationsReader, text: &mut Vec<u8>) -> Option<StationsReader>
    ensures { IfSome result (TakesLines reader text.old.items text.new.items) }
{
    let Some(last) = memrchr(b'\n', text) else {
        return Some(reader);
    };
    let Ok(rest) = text.split_off(last + 1) else {
        return None;
    };
    let Ok(Some(reader)) = reader.with_lines(text) else {
        return None;
    };
    text.clear();
    let Ok(()) = text.extend_from_slice(&rest) else {
        return None;
    };
    Some(reader)
}

/// Reads the text of a list, a long one by two threads. Nothing if it has an error or memory runs out.
fn read_text<R: Threads>(rt: &R, alloc: Global, text: &[u8]) -> Option<Stations>
    ensures { IfSome result (λ stations. listed text.now ≡ Ok stations) }
{
    match halves(text) {
        Some((front, back)) if text.len() >= WORTH_TWO => read_halves(rt, alloc, front, back),
        _ => Stations::read(alloc, text).ok(),
    }
}

/// Reads a list in two parts: the first in the caller's thread, and the other in one of its own.
fn read_halves<R: Threads>(rt: &R, alloc: Global, front: &[u8], back: &[u8]) -> Option<Stations>
    requires { EndsLine front.now }
    ensures { IfSome result (λ stations. listed (front.now ++ back.now) ≡ Ok stations) }
{
    let (next, first) = join(
        rt,
        move ||
            ensures { IfOk result (λ stations. listed back.entry.now ≡ Ok stations) }
        { Stations::read(alloc, back) },
        move ||
            ensures { IfOk result (λ stations. listed front.entry.now ≡ Ok stations) }
        { Stations::read(alloc, front) },
    );
    let first = first.ok()?;
    let next = next.ok()?;
    first.join(alloc, next).ok()?
}

/// A text in two parts, cut after the first line that ends in its second half.
fn halves(text: &[u8]) -> Option<(&[u8], &[u8])>
    ensures parts { IfSome result (λ parts. text.now ≡ parts.0.now ++ parts.1.now) }
    ensures ends { IfSome result (λ parts. EndsLine parts.0.now) }
{
    let Some((_, back)) = split_line(&text[text.len() / 2..]) else {
        return None;
    };
    Some(text.split_at(text.len() - back.len()))
}
