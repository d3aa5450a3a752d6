//! Daily files that are read in shares, side by side.

ghost use Rattle.std.specs.Prelude.{◌≡◌, ◌≤◌, ℕ, List, [], length, Ok, IfOk, IfErr, IfSome, map, string_bytes};
ghost use denote.Param.Send.{IsSync};
ghost use Rattle.ghcn_files.specs.declared.element.Keep.{Keep};
ghost use Rattle.ghcn_files.specs.Listed.{listed};
ghost use Rattle.rank_input.specs.Feeding.{StopsAt};
ghost use Rattle.rank_input.specs.Lists.{IsListText, IsSomeList};
ghost use Rattle.rank_input.specs.Shares.{TakesWhole};
ghost use Rattle.rank_input.specs.Takes.{file_input, HasTaken, HasTakenSome};

use crate::archive::{Archive, Place, feed_files, piece_room};
use crate::claimed::take_claimed;
use crate::intake::Intake;
use crate::list::StationList;
use crate::stretches::{WORTH_A_CUT, id_on, take_one};
use ghcn_files::{Keep, Stations};
use ghcn_series::{JoinLines, LineReader};
use std::alloc::Global;
use std::io::Read;
use std::thread::{Threads, join};

/// How many bytes of daily files are worth a thread that reads them, if the station list has no more: each share
/// has room for what it reads of each station.
const WORTH_A_SHARE: u64 = 1 << 23;

/// The most shares.
const MOST_SHARES: u64 = 64;

/// How many files a reader has at least if it claims shares.
const SMALL_FILES: u64 = 8;

/// How many paths are worth a thread that looks at them.
const WORTH_A_LOOK: usize = 1 << 10;

/// Daily files, named by their paths, and what they are read for.
#[derive(Clone, Copy)]
pub struct Daily<'s, 'p> {
    /// The station list.
    pub stations: &'s StationList,
    /// The elements whose values are kept.
    pub keep: Keep,
    /// Their paths, in the order in which they are read.
    pub paths: &'p [String],
}

/// Takes the station list and all daily files in their order, or returns the path of the first that can't be read.
///
/// If it is worth it, at most that many readers read a share of the files each, all at once: one in the caller's
/// thread and each other one in a thread of its own. A file may then be opened several times.
pub fn take_files<
    's,
    'p,
    R: Threads + Sync,
    A: Archive<File: Send> + Sync,
    L: JoinLines<Done: Send> + Send,
>(
    rt: &R,
    alloc: Global,
    archive: &A,
    daily: Daily<'s, 'p>,
    readers: u64,
    buffer: &mut [u8],
) -> Result<Intake<L>, &'p str>
    ensures taken { (text : List ℕ) → IsListText daily.entry.stations.now text
        → IfOk result (TakesWhole L.has_read (A.bytes_of archive.now) (A.opens archive.now)
        daily.entry.keep text daily.entry.paths.now) }
    ensures going { IfOk result (HasTakenSome L.has_read) }
    ensures stopped { IfErr result (λ path.
        StopsAt (A.opens archive.now) (map string_bytes daily.entry.paths.now) path.now) }
{
    match take_shares(rt, alloc, archive, daily, readers) {
        Some(intake) => Ok(intake),
        None => take_in_order(alloc, archive, daily, buffer),
    }
}

/// Takes them one after the other.
fn take_in_order<'s, 'p, A: Archive, L: LineReader>(
    alloc: Global,
    archive: &A,
    daily: Daily<'s, 'p>,
    buffer: &mut [u8],
) -> Result<Intake<L>, &'p str>
    ensures taken { (text : List ℕ) → IsListText daily.entry.stations.now text
        → IfOk result (TakesWhole L.has_read (A.bytes_of archive.now) (A.opens archive.now)
        daily.entry.keep text daily.entry.paths.now) }
    ensures going { IfOk result (HasTakenSome L.has_read) }
    ensures stopped { IfErr result (λ path.
        StopsAt (A.opens archive.now) (map string_bytes daily.entry.paths.now) path.now) }
{
    let intake = Intake::of_list(alloc, daily.stations, daily.keep);
    fill(archive, intake, daily.paths, buffer)
}

/// Feeds the daily files of some paths one after the other to an intake that was given the station list.
fn fill<'p, A: Archive, L: LineReader>(
    archive: &A,
    mut intake: Intake<L>,
    paths: &'p [String],
    buffer: &mut [u8],
) -> Result<Intake<L>, &'p str>
    requires { HasTakenSome L.has_read intake }
    ensures taken { (keep : Keep) (text : List ℕ) → HasTaken L.has_read intake (file_input keep text [])
        → IfOk result (TakesWhole L.has_read (A.bytes_of archive.now) (A.opens archive.now) keep text paths.now) }
    ensures going { IfOk result (HasTakenSome L.has_read) }
    ensures stopped { IfErr result (λ path. StopsAt (A.opens archive.now) (map string_bytes paths.now) path.now) }
{
    feed_files(archive, &mut intake, paths, buffer)?;
    Ok(intake)
}

/// Takes them in shares. Nothing if one share is as good, and if the files have to be taken one after the other: the
/// station list has an error, a file isn't a regular file, is named twice, can't be read, changes its length or has an
/// error, there are too many files, two shares have months of one station, a part of a file is foreign by itself, or
/// memory runs out.
fn take_shares<R: Threads + Sync, A: Archive<File: Send> + Sync, L: JoinLines<Done: Send> + Send>(
    rt: &R,
    alloc: Global,
    archive: &A,
    daily: Daily<'_, '_>,
    readers: u64,
) -> Option<Intake<L>>
    ensures taken { (text : List ℕ) → IsListText daily.entry.stations.now text
        → IfSome result (TakesWhole L.has_read (A.bytes_of archive.now) (A.opens archive.now)
        daily.entry.keep text daily.entry.paths.now) }
    ensures going { IfSome result (HasTakenSome L.has_read) }
{
    if readers < 2 {
        return None;
    }
    let sizes = sizes_by(rt, alloc, archive, daily.paths, readers)?;
    let size = sum_of(&sizes);
    let worth = WORTH_A_SHARE.max(daily.stations.size());
    // If all files have less, none is cut, so there are at most as many shares as files.
    let most = if size < WORTH_A_CUT {
        daily.paths.len() as u64
    } else {
        MOST_SHARES
    };
    let shares = readers.min(most).min(size / worth);
    if shares < 2 || has_one_twice(alloc, daily.paths)? {
        return None;
    }
    let list = daily.stations.stations(rt, alloc)?;
    let small = size / shares / SMALL_FILES;
    if sizes.iter().all(|size| *size <= small) {
        // There may be more shares than readers, and what was taken of all is held until they are joined.
        return take_claimed(
            rt,
            alloc,
            archive,
            &list,
            daily.keep,
            daily.paths,
            &sizes,
            size,
            worth.saturating_add(worth / 2).min(size / shares),
            shares,
        );
    }
    take_parts(
        rt,
        alloc,
        archive,
        &list,
        daily.keep,
        daily.paths,
        &sizes,
        size,
        shares,
    )
}

/// How many bytes the files of some paths seem to have, if all are regular files. If there are many, at most this many
/// threads look at them.
fn sizes_by<R: Threads + Sync, A: Archive<File: Send> + Sync>(
    rt: &R,
    alloc: Global,
    archive: &A,
    paths: &[String],
    threads: u64,
) -> Option<Vec<u64>>
    ensures { IfSome result (λ sizes. length sizes.items ≡ length paths.now) }
{
    if threads < 2 || paths.len() < WORTH_A_LOOK {
        return sizes_of(alloc, archive, paths);
    }
    let (front, back) = paths.split_at(paths.len() / 2);
    let after = threads / 2;
    let before = threads - after;
    let (last, first) = join(
        rt,
        move ||
            requires { IsSync R.row × IsSync A.row }
            ensures { IfSome result (λ sizes. length sizes.items ≡ length back.entry.now) }
        { sizes_by(rt, alloc, archive, back, after) },
        move ||
            requires { IsSync R.row × IsSync A.row }
            ensures { IfSome result (λ sizes. length sizes.items ≡ length front.entry.now) }
        { sizes_by(rt, alloc, archive, front, before) },
    );
    let mut sizes = first?;
    sizes.append(&mut last?).ok()?;
    Some(sizes)
}

/// How many bytes the files of some paths seem to have, if all are regular files.
fn sizes_of<A: Archive>(alloc: Global, archive: &A, paths: &[String]) -> Option<Vec<u64>>
    ensures { IfSome result (λ sizes. length sizes.items ≡ length paths.now) }
{
    let mut sizes = Vec::with_capacity(alloc, paths.len()).ok()?;
    for path in paths {
        match archive.look(path) {
            Place::File(size) => sizes.push(size).ok()?,
            _ => return None,
        }
    }
    Some(sizes)
}

/// Whether two of some paths are the same.
fn has_one_twice(alloc: Global, paths: &[String]) -> Option<bool> {
    let mut sorted = Vec::with_capacity(alloc, paths.len()).ok()?;
    for path in paths {
        sorted.push(path.as_str()).ok()?;
    }
    sorted.sort_unstable();
    Some(
        sorted
            .windows(2)
            .any(|pair| matches!(pair, [one, other] if one == other)),
    )
}

/// The sum of some sizes, or 2^64 - 1 if it is more.
fn sum_of(sizes: &[u64]) -> u64 {
    let mut sum: u64 = 0;
    for size in sizes {
        sum = sum.saturating_add(*size);
    }
    sum
}

/// Takes the files in at most this many shares, for the stations of the list, which is read once. The last files have a
/// thread of their own, and as many of the shares as they have of the bytes; the caller takes the others in the same
/// way, and the first itself. If a thread can't be started, the caller takes its share. A large file may have several
/// shares.
fn take_parts<R: Threads + Sync, A: Archive<File: Send> + Sync, L: JoinLines<Done: Send> + Send>(
    rt: &R,
    alloc: Global,
    archive: &A,
    list: &Stations,
    keep: Keep,
    paths: &[String],
    sizes: &[u64],
    size: u64,
    shares: u64,
) -> Option<Intake<L>>
    requires sizes { length sizes.now ≡ length paths.now }
    requires list { IsSomeList list.now }
    ensures { (text : List ℕ) → listed text ≡ Ok list.now
        → IfSome result (TakesWhole L.has_read (A.bytes_of archive.now) (A.opens archive.now) keep text paths.now) }
{
    if shares < 2 {
        return take_part(alloc, archive, list, keep, paths);
    }
    if let [path] = paths {
        return take_one(rt, alloc, archive, list, keep, path, size, shares);
    }
    let (from, share) = cut_back(sizes, size / shares);
    let after = (share / (size / shares).max(1)).clamp(1, shares - 1);
    let before = shares - after;
    let (front, own) = paths.split_at(from);
    if begin_alike(archive, front, own) {
        return None;
    }
    let (front_sizes, own_sizes) = sizes.split_at(from);
    let rest = size.saturating_sub(share);
    let (last, first) = join(
        rt,
        move ||
            requires { IsSync R.row × IsSync A.row × (length own_sizes.now ≡ length own.now) × IsSomeList list.now }
            ensures { (text : List ℕ) → listed text ≡ Ok list.entry.now
                → IfSome result (TakesWhole L.has_read (A.bytes_of archive.entry.now) (A.opens archive.entry.now)
                keep text own.entry.now) }
        { take_parts(rt, alloc, archive, list, keep, own, own_sizes, share, after) },
        move ||
            requires { IsSync R.row × IsSync A.row × (length front_sizes.now ≡ length front.now) × IsSomeList list.now }
            ensures { (text : List ℕ) → listed text ≡ Ok list.entry.now
                → IfSome result (TakesWhole L.has_read (A.bytes_of archive.entry.now) (A.opens archive.entry.now)
                keep text front.entry.now) }
        {
            take_parts(
                rt,
                alloc,
                archive,
                list,
                keep,
                front,
                front_sizes,
                rest,
                before,
            )
        },
    );
    first?.join(last?)
}

/// Takes the files of a share one after the other, for the stations of the list.
pub(crate) fn take_part<A: Archive, L: LineReader>(
    alloc: Global,
    archive: &A,
    list: &Stations,
    keep: Keep,
    paths: &[String],
) -> Option<Intake<L>>
    requires list { IsSomeList list.now }
    ensures { (text : List ℕ) → listed text ≡ Ok list.now
        → IfSome result (TakesWhole L.has_read (A.bytes_of archive.now) (A.opens archive.now) keep text paths.now) }
{
    let mut room = piece_room(alloc).ok()?;
    let Ok(stations) = list.share() else {
        return None;
    };
    let intake = Intake::over(alloc, stations, keep);
    fill(archive, intake, paths, &mut room).ok()
}

/// Whether the last of some files and the first of those after them begin with one station, as files by year do. Then
/// two shares would have months of it.
pub(crate) fn begin_alike<A: Archive>(archive: &A, before: &[String], after: &[String]) -> bool {
    let (Some(last), Some(first)) = (before.last(), after.first()) else {
        return false;
    };
    match (first_id(archive, last), first_id(archive, first)) {
        (Some(one), Some(other)) => one == other,
        _ => false,
    }
}

/// The first eleven bytes of a file, if they can be read at once and may be an ID.
fn first_id<A: Archive>(archive: &A, path: &str) -> Option<[u8; 11]> {
    let mut file = archive.open(path).ok()?;
    let mut id = [0; 11];
    let read = file.read(&mut id).ok()?;
    id_on(id.get(..read)?)
}

/// Where the last of some files begin that have a share of the bytes, as nearly as whole files allow, and how many
/// bytes these have. They are at least one file.
fn cut_back(sizes: &[u64], share: u64) -> (usize, u64)
    ensures { result.0 ≤ length sizes.now }
{
    let mut cut: u64 = 0;
    for at in (0..sizes.len()).rev() {
        let more = sizes[at];
        if at + 1 < sizes.len() && cut.saturating_add(more / 2) >= share {
            return (at + 1, cut);
        }
        cut = cut.saturating_add(more);
    }
    (0, cut)
}
