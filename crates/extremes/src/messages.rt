//! Where a run prints its messages, a line each.

use std::fmt::Display;

/// What prints messages, as standard error does.
pub trait Messages {
    ghost use Rattle.std.specs.Prelude.{ℕ, List, Option};

    /// How printing a line may change what prints it, by the text of the line, if that is known.
    ghost prints: { Self → Option (List ℕ) → Self → Type 0 };

    /// Prints a text as a line.
    fn print<D: Display + Drop>(&mut self, text: D)
        ensures { prints self.old (D.output text) self.new };
}

/// Standard error. Nothing is known of what it prints.
#[derive(Drop)]
pub struct SystemMessages<'r, R>(pub &'r R);

impl<'r, R: Eprint> Messages for SystemMessages<'r, R> {
    ghost use Rattle.std.specs.Prelude.{⊤};

    ghost prints = { λ _ _ _. ⊤ };

    /// A line that standard error doesn't take is left out.
    fn print<D: Display + Drop>(&mut self, text: D) {
        let _ = self.0.eprintln(text);
    }
}
