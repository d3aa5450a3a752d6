//! Columns of a fixed-width line, counted from 1 as the readme counts them.

ghost use Rattle.std.specs.Prelude.{◌≡◌, ◌≤◌, ◌+◌, ◌-◌, IfSome};
ghost use Rattle.ghcn_fields.specs.Meaning.Lines as lines;

/// That many columns of a line from one on; a column that a short line lacks is a blank.
pub(crate) fn columns<const N: usize>(line: &[u8], from: usize) -> [u8; N]
    requires { 1 ≤ from }
    ensures { result ≡ lines.columns from (from + N - 1) line.now }
{
    match columns_in(line, from) {
        // A copy of that many bytes needs no call.
        Some(found) => *found,
        None => columns_filled(line, from),
    }
}

/// The same columns, lent from the line, if it has all of them.
pub(crate) fn columns_in<const N: usize>(line: &[u8], from: usize) -> Option<&[u8; N]>
    requires { 1 ≤ from }
    ensures { IfSome result (λ found. found.now ≡ lines.columns from (from + N - 1) line.now) }
{
    line[(from - 1).min(line.len())..].first_chunk()
}

/// The same of a line that may lack some of them.
#[inline(never)]
pub(crate) fn columns_filled<const N: usize>(line: &[u8], from: usize) -> [u8; N]
    requires { 1 ≤ from }
    ensures { result ≡ lines.columns from (from + N - 1) line.now }
{
    let mut found = [b' '; N];
    let rest = &line[(from - 1).min(line.len())..];
    let count = N.min(rest.len());
    found[..count].copy_from_slice(&rest[..count]);
    found
}
