//! How a run of the program ends.

ghost use Rattle.std.specs.Prelude.{◌≡◌};
ghost use Rattle.extremes.specs.Ending.{status_of};

/// The end of a run.
#[derive(Clone, Copy, Debug, PartialEq, Eq)]
pub enum Ending {
    /// The report or the version was written, or a report and a certificate were accepted.
    Done,
    /// The input was refused, or a report and a certificate were.
    Refused,
    /// The arguments weren't valid, or asked for help.
    Words,
    /// A file couldn't be read or written.
    File,
}

impl Ending {
    /// The exit status: 0 done, 1 refused, 2 arguments, 3 file.
    pub fn status(&self) -> u8
        ensures { result ≡ status_of self.now }
    {
        match self {
            Ending::Done => 0,
            Ending::Refused => 1,
            Ending::Words => 2,
            Ending::File => 3,
        }
    }
}
