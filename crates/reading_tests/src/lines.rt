//! Lines of daily files.

use ghcn_fields::Memory;
use std::alloc::Global;

/// A line of 269 columns whose days are missing, except for the groups that are given.
pub(crate) fn line_of(head: &[u8; 21], groups: &[(usize, &[u8; 8])]) -> [u8; 269] {
    let mut line = [b' '; 269];
    line[..21].copy_from_slice(head);
    for day in 0..31 {
        line[21 + 8 * day..26 + 8 * day].copy_from_slice(b"-9999");
    }
    for (day, group) in groups {
        if 1 <= *day && *day <= 31 {
            line[13 + 8 * *day..21 + 8 * *day].copy_from_slice(*group);
        }
    }
    line
}

/// The lines one below the other, each with this end.
pub(crate) fn text_of(alloc: Global, lines: &[&[u8]], end: &[u8]) -> Result<Vec<u8>, Memory> {
    let mut text = Vec::new(alloc);
    for line in lines {
        text.extend_from_slice(line)?;
        text.extend_from_slice(end)?;
    }
    Ok(text)
}
