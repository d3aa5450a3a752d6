//! The form that all lines of daily files have.

ghost use Rattle.std.specs.Prelude.{◌≡◌, ◌<◌, length, drop};
ghost use Rattle.std.specs.Char.{is_ascii_uppercase};
ghost use Rattle.ghcn_fields.specs.Meaning.Bytes as bytes;
ghost use Rattle.ghcn_series.specs.LineKinds as kinds;

use ghcn_fields::is_blank;

/// The place, from 0, where the code of an element begins.
const CODE: usize = 17;

/// The columns up to the code's last.
const UP_TO_CODE: usize = 21;

/// The columns of a whole line.
const COLUMNS: usize = 269;

/// Whether a line has a code in columns 18 to 21, and blanks alone follow its last column. It is built into the loop
/// over lines.
#[inline(always)]
pub(crate) fn has_form(line: &[u8]) -> bool
    ensures { result ≡ kinds.has_form line.now }
{
    has_code(line) && (line.len() <= COLUMNS || only_blanks_follow(line))
}

/// Whether only blanks follow the last column of a line, which few lines are longer than.
#[inline(never)]
fn only_blanks_follow(line: &[u8]) -> bool
    requires { 269 < length line.now }
    ensures { result ≡ bytes.is_blank (drop 269 line.now) }
{
    is_blank(&line[COLUMNS..])
}

/// Whether columns 18 to 21 of a line are a code.
#[inline(always)]
fn has_code(line: &[u8]) -> bool
    ensures { result ≡ kinds.has_code line.now }
{
    if line.len() < UP_TO_CODE {
        return false;
    }
    match line[CODE..].first_chunk() {
        Some(code) => is_code(code),
        None => unreachable!(),
    }
}

/// Whether four bytes are a capital letter and three capitals or digits. They are looked up, with one branch for all
/// four.
#[inline(always)]
fn is_code(code: &[u8; 4]) -> bool
    ensures { result ≡ kinds.is_code code.now }
{
    let [first, second, third, fourth] = *code;
    is_capital(first) & may_follow(second) & may_follow(third) & may_follow(fourth)
}

fn is_capital(byte: u8) -> bool
    ensures { result ≡ is_ascii_uppercase byte }
{
    BYTES[0][byte as usize]
}

/// Whether a code may have a byte after its first.
fn may_follow(byte: u8) -> bool
    ensures { result ≡ kinds.may_follow byte }
{
    BYTES[1][byte as usize]
}

const N: bool = false;

const Y: bool = true;

/// Whether each byte is a capital letter, and whether it may follow one in a code. One table, since a loop then needs
/// one address alone.
#[rattlefmt::skip]
static BYTES: [[bool; 256]; 2] = [
    [
        N, N, N, N, N, N, N, N, N, N, N, N, N, N, N, N, N, N, N, N, N, N, N, N, N, N, N, N, N, N, N, N,
        N, N, N, N, N, N, N, N, N, N, N, N, N, N, N, N, N, N, N, N, N, N, N, N, N, N, N, N, N, N, N, N,
        N, Y, Y, Y, Y, Y, Y, Y, Y, Y, Y, Y, Y, Y, Y, Y, Y, Y, Y, Y, Y, Y, Y, Y, Y, Y, Y, N, N, N, N, N,
        N, N, N, N, N, N, N, N, N, N, N, N, N, N, N, N, N, N, N, N, N, N, N, N, N, N, N, N, N, N, N, N,
        N, N, N, N, N, N, N, N, N, N, N, N, N, N, N, N, N, N, N, N, N, N, N, N, N, N, N, N, N, N, N, N,
        N, N, N, N, N, N, N, N, N, N, N, N, N, N, N, N, N, N, N, N, N, N, N, N, N, N, N, N, N, N, N, N,
        N, N, N, N, N, N, N, N, N, N, N, N, N, N, N, N, N, N, N, N, N, N, N, N, N, N, N, N, N, N, N, N,
        N, N, N, N, N, N, N, N, N, N, N, N, N, N, N, N, N, N, N, N, N, N, N, N, N, N, N, N, N, N, N, N,
    ],
    [
        N, N, N, N, N, N, N, N, N, N, N, N, N, N, N, N, N, N, N, N, N, N, N, N, N, N, N, N, N, N, N, N,
        N, N, N, N, N, N, N, N, N, N, N, N, N, N, N, N, Y, Y, Y, Y, Y, Y, Y, Y, Y, Y, N, N, N, N, N, N,
        N, Y, Y, Y, Y, Y, Y, Y, Y, Y, Y, Y, Y, Y, Y, Y, Y, Y, Y, Y, Y, Y, Y, Y, Y, Y, Y, N, N, N, N, N,
        N, N, N, N, N, N, N, N, N, N, N, N, N, N, N, N, N, N, N, N, N, N, N, N, N, N, N, N, N, N, N, N,
        N, N, N, N, N, N, N, N, N, N, N, N, N, N, N, N, N, N, N, N, N, N, N, N, N, N, N, N, N, N, N, N,
        N, N, N, N, N, N, N, N, N, N, N, N, N, N, N, N, N, N, N, N, N, N, N, N, N, N, N, N, N, N, N, N,
        N, N, N, N, N, N, N, N, N, N, N, N, N, N, N, N, N, N, N, N, N, N, N, N, N, N, N, N, N, N, N, N,
        N, N, N, N, N, N, N, N, N, N, N, N, N, N, N, N, N, N, N, N, N, N, N, N, N, N, N, N, N, N, N, N,
    ],
];
