//! Bytes and texts as a terminal can show them.

ghost use Rattle.std.specs.Prelude.{◌≡◌};
ghost use Rattle.std.specs.List.{list_any};
ghost use Rattle.std.specs.Char.{is_control};
ghost use Rattle.std.specs.Str.{chars};
ghost use Rattle.explanations.specs.Shown as showing;

use std::fmt;

/// Bytes of a file. A byte that doesn't show in print is a question mark, so that none can command a terminal.
#[derive(Clone, Copy)]
pub(crate) struct Shown<'a>(pub(crate) &'a [u8]);

impl<'a> fmt::Display for Shown<'a> {
    ghost use Rattle.std.specs.Prelude.{Some};
    ghost use Rattle.explanations.specs.Shown.{shown};

    ghost output = { λ s. Some (shown s.0.now) };

    fn fmt<W: fmt::Write>(&self, f: &mut fmt::Formatter<W>) -> fmt::Result {
        for byte in self.0 {
            f.write_char(shown_char(*byte))?;
        }
        Ok(())
    }
}

/// The character of a byte that shows in print, and a question mark for any other.
fn shown_char(byte: u8) -> char
    ensures { result ≡ showing.shown_byte byte }
{
    if b' ' <= byte && byte <= b'~' {
        char::from(byte)
    } else {
        '?'
    }
}

/// A path or a query. If a control character is in it, its bytes are shown as those of a file.
#[derive(Clone, Copy)]
pub struct ShownText<'a>(pub &'a str);

impl<'a> fmt::Display for ShownText<'a> {
    ghost use Rattle.std.specs.Prelude.{Some};
    ghost use Rattle.explanations.specs.Shown.{shown_text};

    ghost output = { λ s. Some (shown_text s.0.now) };

    fn fmt<W: fmt::Write>(&self, f: &mut fmt::Formatter<W>) -> fmt::Result {
        if has_control(self.0) {
            write!(f, "{}", Shown(self.0.as_bytes()))
        } else {
            f.write_str(self.0)
        }
    }
}

/// Whether a text has a control character.
fn has_control(text: &str) -> bool
    ensures { result ≡ list_any is_control (chars text.now) }
{
    text.chars().any(|c| c.is_control())
}
