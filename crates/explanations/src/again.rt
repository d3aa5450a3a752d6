//! The line of an error, read again.

ghost use Rattle.std.specs.Prelude.{◌≡◌, [], ◌∷◌, IfSome, nat_eq};
ghost use Rattle.std.specs.List.{starts_with};
ghost use Rattle.rank_input.specs.Feeding.{AreAllOf};
ghost use Rattle.explanations.specs.Again.{IsLineAt, IsLineOf};

use crate::{daily, station};
use ghcn_fields::lines;
use rank_input::{Archive, Fault, Place, read_whole};
use std::alloc::Global;

/// How many bytes a file may have that is read again; no file of NOAA's has that many.
const LONGEST: u64 = 1 << 26;

/// The bytes that files of gzip begin with.
const GZIP: [u8; 2] = [0x1f, 0x8b];

/// The bytes of a file, read again. Nothing of what isn't a file, such as a pipe, of one of more than 64 MiB, or of one
/// that can't be read.
pub fn read_again<A: Archive>(alloc: Global, archive: &A, path: &str) -> Option<Vec<u8>>
    ensures { IfSome result (λ text. AreAllOf (A.bytes_of archive.now path.now) text.items) }
{
    match archive.look(path) {
        Place::File(length) if length <= LONGEST => read_whole(alloc, archive, path).ok(),
        _ => None,
    }
}

/// Whether a file begins as those of gzip do.
pub fn looks_compressed(text: &[u8]) -> bool
    ensures { result ≡ starts_with nat_eq text.now (31 ∷ 139 ∷ []) }
{
    text.starts_with(&GZIP)
}

/// The line of a text that an error is about, if it still has that error.
pub fn line_with_error(alloc: Global, fault: Fault, text: &[u8]) -> Option<&[u8]>
    ensures { IfSome result (λ line. IsLineOf fault text.now line.now) }
{
    match fault {
        Fault::StationLine { line: number, why } => {
            let line = line_at(text, number)?;
            if station::has_error(alloc, line, why) {
                Some(line)
            } else {
                None
            }
        }
        Fault::DailyLine {
            line: number,
            why,
            ..
        } => {
            let line = line_at(text, number)?;
            if daily::has_error(line, why) {
                Some(line)
            } else {
                None
            }
        }
        _ => None,
    }
}

/// The line of this number, from 1.
fn line_at(text: &[u8], number: u64) -> Option<&[u8]>
    ensures { IfSome result (λ line. IsLineAt text.now number line.now) }
{
    for (count, line) in lines(text) {
        if count == number {
            return Some(line);
        }
    }
    None
}
