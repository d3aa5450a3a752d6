//! Stretches of one large daily file that are read side by side.

ghost use Rattle.std.specs.Prelude.{◌≡◌, ◌<◌, ℕ, List, [], None, Some, Ok, IfOk, IfSome};
ghost use denote.Param.Send.{IsSync};
ghost use Rattle.ghcn_files.specs.declared.element.Keep.{Keep};
ghost use Rattle.ghcn_files.specs.Listed.{listed};
ghost use Rattle.rank_input.specs.Lists.{IsSomeList};
ghost use Rattle.rank_input.specs.Shares.{RestsFrom, TakesStretch};
ghost use Rattle.rank_input.specs.Takes.{file_input, HasTaken, HasTakenSome};

use crate::archive::{Archive, Place, feed, feed_bytes, piece_room};
use crate::intake::Intake;
use ghcn_files::{Keep, Stations, are_visible};
use ghcn_series::{JoinLines, LineReader};
use std::alloc::Global;
use std::io;
use std::io::{BufRead, BufReader, Read};
use std::thread::{Threads, join};

/// How many bytes a file has at least if it is read in several shares.
pub(crate) const WORTH_A_CUT: u64 = 1 << 26;

/// In how many bytes of such a file a line of another station is looked for. Thirty elements in each month of 150 years
/// take 14,580,000 bytes.
const MOST_LOOKED: u64 = 1 << 24;

/// Takes one file, which seems to have that many bytes: in at most this many shares if it is large, and otherwise in
/// one. Nothing if its length has changed since: its shares may be of different files then.
pub(crate) fn take_one<
    R: Threads + Sync,
    A: Archive<File: Send> + Sync,
    L: JoinLines<Done: Send> + Send,
>(
    rt: &R,
    alloc: Global,
    archive: &A,
    list: &Stations,
    keep: Keep,
    path: &str,
    size: u64,
    shares: u64,
) -> Option<Intake<L>>
    requires list { IsSomeList list.now }
    ensures { (text : List ℕ) → listed text ≡ Ok list.now
        → IfSome result (TakesStretch L.has_read (A.bytes_of archive.now) (A.opens archive.now)
        keep text path.now 0 None) }
{
    if size < WORTH_A_CUT {
        return take_stretch(alloc, archive, list, keep, path, 0, None);
    }
    let intake = take_stretches(rt, alloc, archive, list, keep, path, None, size, shares)?;
    match archive.look(path) {
        Place::File(length) if length == size => Some(intake),
        _ => None,
    }
}

/// Takes a file up to the byte `until`, or to its end, which is about `size` bytes, in at most this many shares. The
/// last share has a thread of its own; the caller takes the others in the same way. If no place to cut is found, all
/// are one share.
fn take_stretches<
    R: Threads + Sync,
    A: Archive<File: Send> + Sync,
    L: JoinLines<Done: Send> + Send,
>(
    rt: &R,
    alloc: Global,
    archive: &A,
    list: &Stations,
    keep: Keep,
    path: &str,
    until: Option<u64>,
    size: u64,
    shares: u64,
) -> Option<Intake<L>>
    requires list { IsSomeList list.now }
    ensures { (text : List ℕ) → listed text ≡ Ok list.now
        → IfSome result (TakesStretch L.has_read (A.bytes_of archive.now) (A.opens archive.now)
        keep text path.now 0 until) }
{
    let Some((cut, count)) = cut_within(alloc, archive, path, until, size, shares) else {
        return take_stretch(alloc, archive, list, keep, path, 0, until);
    };
    let before = shares - 1;
    let (rest, begun) = join(
        rt,
        move ||
            requires { IsSync A.row × IsSomeList list.now }
            ensures { (text : List ℕ) → listed text ≡ Ok list.entry.now
                → IfSome result (TakesStretch L.has_read (A.bytes_of archive.entry.now) (A.opens archive.entry.now)
                keep text path.entry.now cut count) }
        { take_stretch(alloc, archive, list, keep, path, cut, count) },
        move ||
            requires { IsSync R.row × IsSync A.row × IsSomeList list.now }
            ensures { (text : List ℕ) → listed text ≡ Ok list.entry.now
                → IfSome result (TakesStretch L.has_read (A.bytes_of archive.entry.now) (A.opens archive.entry.now)
                keep text path.entry.now 0 (Some cut)) }
        { take_stretches(rt, alloc, archive, list, keep, path, Some(cut), cut, before) },
    );
    begun?.join(rest?)
}

/// Takes the bytes of a file from one on, this many or up to its end, for the stations of the list.
fn take_stretch<A: Archive, L: LineReader>(
    alloc: Global,
    archive: &A,
    list: &Stations,
    keep: Keep,
    path: &str,
    from: u64,
    count: Option<u64>,
) -> Option<Intake<L>>
    requires list { IsSomeList list.now }
    ensures { (text : List ℕ) → listed text ≡ Ok list.now
        → IfSome result (TakesStretch L.has_read (A.bytes_of archive.now) (A.opens archive.now)
        keep text path.now from count) }
{
    let mut room = piece_room(alloc).ok()?;
    let Ok(stations) = list.share() else {
        return None;
    };
    let intake = Intake::over(alloc, stations, keep);
    fill_stretch(archive, intake, path, from, count, &mut room).ok()
}

/// Feeds them to an intake that was given the station list, or returns why a read failed. It is an error if the file
/// ends before this many bytes.
fn fill_stretch<A: Archive, L: LineReader>(
    archive: &A,
    mut intake: Intake<L>,
    path: &str,
    from: u64,
    count: Option<u64>,
    buffer: &mut [u8],
) -> io::Result<Intake<L>>
    requires { HasTakenSome L.has_read intake }
    ensures { (keep : Keep) (text : List ℕ) → HasTaken L.has_read intake (file_input keep text [])
        → IfOk result (TakesStretch L.has_read (A.bytes_of archive.now) (A.opens archive.now)
        keep text path.now from count) }
{
    let mut file = archive.open_at(path, from)?;
    match count {
        None => {
            feed(&mut intake, &mut file, buffer)?;
            Ok(intake)
        }
        Some(count) => {
            let mut stretch = file.take(count);
            feed_bytes(&mut intake, &mut stretch, buffer)?;
            if stretch.limit() > 0 {
                return Err(io::Error::from(io::ErrorKind::UnexpectedEof));
            }
            Ok(intake)
        }
    }
}

/// Where the last of several shares begins of a file up to the byte `until`, or to its end, and how many bytes it has;
/// no number if it goes to the end. All shares together have about `size` bytes.
fn cut_within<A: Archive>(
    alloc: Global,
    archive: &A,
    path: &str,
    until: Option<u64>,
    size: u64,
    shares: u64,
) -> Option<(u64, Option<u64>)>
    ensures rest { IfSome result (λ found. RestsFrom until found.0 found.1) }
    ensures several { IfSome result (λ _. 1 < shares) }
{
    if shares < 2 {
        return None;
    }
    let from = size.saturating_sub(size / shares);
    let cut = start_of_next_station(alloc, archive, path, from)?;
    let count = match until {
        Some(until) => Some(until.checked_sub(cut)?),
        None => None,
    };
    Some((cut, count))
}

/// The first byte of a line whose ID isn't that of the last line with an ID before it, among the lines that begin after
/// this byte. Nothing if none comes within `MOST_LOOKED` bytes.
fn start_of_next_station<A: Archive>(
    alloc: Global,
    archive: &A,
    path: &str,
    from: u64,
) -> Option<u64> {
    let file = archive.open_at(path, from).ok()?;
    let mut lines = BufReader::new(alloc, file.take(MOST_LOOKED)).ok()?;
    // The line of that byte may have begun before it.
    let mut at = from.checked_add(lines.skip_until(b'\n').ok()? as u64)?;
    let mut line = Vec::new(alloc);
    let mut before: Option<[u8; 11]> = None;
    for _ in 0..MOST_LOOKED {
        line.clear();
        let count = lines.read_until(b'\n', &mut line).ok()?;
        if count == 0 {
            return None;
        }
        if let Some(id) = id_on(&line) {
            if before.is_some_and(|before| before != id) {
                return Some(at);
            }
            before = Some(id);
        }
        at = at.checked_add(count as u64)?;
    }
    None
}

/// The first eleven bytes of a line, if they may be an ID.
pub(crate) fn id_on(line: &[u8]) -> Option<[u8; 11]> {
    let id = *line.first_chunk()?;
    if are_visible(&id) { Some(id) } else { None }
}
