//! A text, cut into lines.

ghost use Rattle.std.specs.Prelude.{◌≡◌};
ghost use Rattle.ghcn_fields.specs.Lines.{numbered_lines};

use crate::line::Lines;

/// The lines of a text with their numbers, from 1: what its line feeds end, and what follows the
/// last of them if it isn't empty. One carriage return at the end of a line is taken off.
pub fn lines(text: &[u8]) -> Lines<'_>
    ensures { result ≡ numbered_lines text.now }
{
    Lines::of(text)
}
