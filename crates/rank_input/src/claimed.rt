//! Many small daily files that are read in shares, which readers claim in turn.

ghost use Rattle.std.specs.Prelude.{◌≡◌, ◌<◌, ◌≤◌, ℕ, List, Ok, IfSome, length};
ghost use Rattle.std.specs.List.{AllByRecursion};
ghost use denote.Param.Send.{IsSync};
ghost use Rattle.ghcn_files.specs.declared.element.Keep.{Keep};
ghost use Rattle.ghcn_files.specs.Listed.{listed};
ghost use Rattle.rank_input.specs.Lists.{IsSomeList};
ghost use Rattle.rank_input.specs.Shares.{paths_of, TakesShare, TakesWhole};

use crate::archive::Archive;
use crate::intake::Intake;
use crate::shares::{begin_alike, take_part};
use ghcn_files::{Keep, Stations};
use ghcn_series::JoinLines;
use std::alloc::Global;
use std::sync::atomic::{AtomicUsize, Ordering};
use std::thread::{Threads, join};

/// What was taken of a share, and the share's place among all shares.
#[derive(Drop)]
pub(crate) struct Taken<L> {
    place: usize,
    intake: Intake<L>,
}

/// Takes the files by at most this many readers, for the stations of the list, which is read once. The files are cut
/// into shares, and a reader that has read one claims the next, so all end at about the same time, even if some
/// processors are slower than others. Each reader but the last has a thread of its own. If a thread can't be started,
/// the caller reads in its place. No share but the last has fewer bytes than `least`, as nearly as whole files allow.
pub(crate) fn take_claimed<
    R: Threads + Sync,
    A: Archive<File: Send> + Sync,
    L: JoinLines<Done: Send> + Send,
>(
    rt: &R,
    alloc: Global,
    archive: &A,
    list: &Stations,
    keep: Keep,
    paths: &[String],
    sizes: &[u64],
    size: u64,
    least: u64,
    readers: u64,
) -> Option<Intake<L>>
    requires sizes { length sizes.now ≡ length paths.now }
    requires list { IsSomeList list.now }
    requires readers { 0 < readers }
    ensures { (text : List ℕ) → listed text ≡ Ok list.now
        → IfSome result (TakesWhole L.has_read (A.bytes_of archive.now) (A.opens archive.now) keep text paths.now) }
{
    let shares = shares_of(alloc, archive, paths, sizes, size, least, readers)?;
    let claims = AtomicUsize::new(0);
    let mut taken = take_by(rt, alloc, archive, list, keep, &shares, &claims, readers)?;
    // The first share comes last, and is popped first.
    taken.sort_unstable_by(|one, other| other.place.cmp(&one.place));
    let mut all: Option<Intake<L>> = None;
    for place in 0..shares.len() {
        let next = taken.pop()?;
        if next.place != place {
            return None;
        }
        all = Some(match all {
            Some(before) => before.join(next.intake)?,
            None => next.intake,
        });
    }
    all
}

/// Cuts files into shares. Each one has as many bytes as each reader would have of half of those that are left, but at
/// least this many, as nearly as whole files allow: large shares cost less, and small ones at the end let the readers
/// end together. Nothing if a share and the next one begin with one station.
fn shares_of<'p, A: Archive>(
    alloc: Global,
    archive: &A,
    paths: &'p [String],
    sizes: &[u64],
    size: u64,
    least: u64,
    readers: u64,
) -> Option<Vec<&'p [String]>>
    requires sizes { length sizes.now ≡ length paths.now }
    requires readers { 0 < readers }
    ensures { IfSome result (λ shares. paths_of shares.items ≡ paths.now) }
{
    let mut shares = Vec::new(alloc);
    let mut rest = paths;
    let mut rest_sizes = sizes;
    let mut left = size;
    while !rest.is_empty() {
        let (count, bytes) = cut_front(rest_sizes, least.max(left / readers / 2));
        let (share, others) = rest.split_at(count);
        let (_, other_sizes) = rest_sizes.split_at(count);
        if begin_alike(archive, share, others) {
            return None;
        }
        shares.push(share).ok()?;
        rest = others;
        rest_sizes = other_sizes;
        left = left.saturating_sub(bytes);
    }
    Some(shares)
}

/// Takes all shares that aren't claimed yet by at most this many readers.
fn take_by<R: Threads + Sync, A: Archive<File: Send> + Sync, L: JoinLines<Done: Send> + Send>(
    rt: &R,
    alloc: Global,
    archive: &A,
    list: &Stations,
    keep: Keep,
    shares: &[&[String]],
    claims: &AtomicUsize,
    readers: u64,
) -> Option<Vec<Taken<L>>>
    requires list { IsSomeList list.now }
    ensures { (text : List ℕ) → listed text ≡ Ok list.now → IfSome result (λ taken. AllByRecursion
        (TakesShare L.has_read (A.bytes_of archive.now) (A.opens archive.now) keep text shares.now) taken.items) }
{
    if readers < 2 {
        return take_claims(alloc, archive, list, keep, shares, claims);
    }
    let others = readers - 1;
    let (own, rest) = join(
        rt,
        move ||
            requires { IsSync A.row × IsSomeList list.now }
            ensures { (text : List ℕ) → listed text ≡ Ok list.entry.now → IfSome result (λ taken. AllByRecursion
                (TakesShare L.has_read (A.bytes_of archive.entry.now) (A.opens archive.entry.now)
                keep text shares.entry.now) taken.items) }
        { take_claims(alloc, archive, list, keep, shares, claims) },
        move ||
            requires { IsSync R.row × IsSync A.row × IsSomeList list.now }
            ensures { (text : List ℕ) → listed text ≡ Ok list.entry.now → IfSome result (λ taken. AllByRecursion
                (TakesShare L.has_read (A.bytes_of archive.entry.now) (A.opens archive.entry.now)
                keep text shares.entry.now) taken.items) }
        { take_by(rt, alloc, archive, list, keep, shares, claims, others) },
    );
    let mut taken = own?;
    taken.append(&mut rest?).ok()?;
    Some(taken)
}

/// Takes shares one after the other, as long as some aren't claimed. If one can't be taken, no reader claims another.
fn take_claims<A: Archive, L: JoinLines>(
    alloc: Global,
    archive: &A,
    list: &Stations,
    keep: Keep,
    shares: &[&[String]],
    claims: &AtomicUsize,
) -> Option<Vec<Taken<L>>>
    requires list { IsSomeList list.now }
    ensures { (text : List ℕ) → listed text ≡ Ok list.now → IfSome result (λ taken. AllByRecursion
        (TakesShare L.has_read (A.bytes_of archive.now) (A.opens archive.now) keep text shares.now) taken.items) }
{
    let mut taken = Vec::new(alloc);
    for _ in 0..shares.len() {
        let place = claims.fetch_add(1, Ordering::Relaxed);
        let Some(share) = shares.get(place) else {
            break;
        };
        let Some(intake) = take_part(alloc, archive, list, keep, share) else {
            claims.store(shares.len(), Ordering::Relaxed);
            return None;
        };
        taken.push(Taken { place, intake }).ok()?;
    }
    Some(taken)
}

/// How many of the first of some files have a share of the bytes, as nearly as whole files allow, and how many bytes
/// these have. They are at least one file, if there is one.
fn cut_front(sizes: &[u64], share: u64) -> (usize, u64)
    ensures within { result.0 ≤ length sizes.now }
    ensures some { 0 < length sizes.now → 0 < result.0 }
{
    let mut cut: u64 = 0;
    for at in 0..sizes.len() {
        let more = sizes[at];
        if at > 0 && cut.saturating_add(more / 2) >= share {
            return (at, cut);
        }
        cut = cut.saturating_add(more);
    }
    (sizes.len(), cut)
}
