//! What is kept of a line that isn't ended.

ghost use Rattle.std.specs.Prelude.{◌≡◌, ◌≤◌, ◌<◌, ◌==◌, ◌++◌, length, OnOk, IfErr};
ghost use Rattle.ghcn_series.specs.Alike.{BeginAlike};
ghost use Rattle.ghcn_series.specs.Fed.{IsOfMemory};

use crate::fault::DataFault;
use ghcn_fields::{Memory, is_blank};

/// The columns of a whole line.
const COLUMNS: usize = 269;

/// The most bytes that are kept: the columns, one byte in place of those that follow, and the last byte, which may be a
/// carriage return.
const MOST: usize = COLUMNS + 2;

/// Adds bytes to what is kept of a line, so that a file without a line feed takes little memory, however long it is.
pub(crate) fn keep(rest: &mut Vec<u8>, bytes: &[u8]) -> Result<(), DataFault>
    ensures kept { OnOk result (BeginAlike (rest.old.items ++ bytes.now) rest.new.items) }
    ensures few { OnOk result (length rest.old.items ≤ 271 → length rest.new.items ≤ 271) }
    ensures fault { IfErr result IsOfMemory }
{
    let room = MOST.saturating_sub(rest.len());
    if bytes.len() <= room {
        return append(rest, bytes);
    }
    append(rest, &bytes[..room])?;
    shorten(rest, &bytes[room..]);
    Ok(())
}

/// Adds all bytes.
fn append(rest: &mut Vec<u8>, bytes: &[u8]) -> Result<(), DataFault>
    ensures kept { OnOk result (rest.new.items ≡ rest.old.items ++ bytes.now) }
    ensures fault { IfErr result IsOfMemory }
{
    match rest.extend_from_slice(bytes) {
        Ok(()) => Ok(()),
        Err(_) => Err(DataFault::Memory(Memory)),
    }
}

/// Adds bytes to a line of which the most is kept: the byte after its columns stays a blank only if blanks alone follow
/// them, and the last byte is the last of these.
fn shorten(rest: &mut Vec<u8>, bytes: &[u8])
    requires long { 271 ≤ length rest.old.items }
    requires some { 0 < length bytes.now }
    ensures kept { BeginAlike (rest.old.items ++ bytes.now) rest.new.items }
    ensures few { length rest.new.items ≡ 271 }
{
    let before = bytes.len() - 1;
    let only_blanks = is_blank(&rest[COLUMNS..]) && is_blank(&bytes[..before]);
    rest[COLUMNS] = byte_for(only_blanks);
    rest[COLUMNS + 1] = bytes[before];
    rest.truncate(MOST);
}

/// A byte in place of blanks, or of bytes that aren't all blanks.
fn byte_for(only_blanks: bool) -> u8
    ensures { (result == 32) ≡ only_blanks }
{
    if only_blanks { b' ' } else { b'?' }
}
