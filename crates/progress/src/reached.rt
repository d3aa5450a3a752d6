//! How far a run has come, in words.

ghost use Rattle.std.specs.Prelude.{◌≡◌};
ghost use Rattle.progress.specs.Reached.{percent};

use std::fmt;

/// How far a run has come.
#[derive(Clone, Copy, Debug, PartialEq, Eq)]
pub struct Reached {
    /// How much was read, in whole megabytes.
    pub read: u64,
    /// How much there is to read, in whole megabytes; 0 if that isn't known.
    pub total: u64,
    /// The number of the file that is read, from 1.
    pub file: u64,
    /// How many files there are.
    pub files: u64,
}

/// A line such as `41 % of 30.1 GB, file 53121 of 129004`, without its line feed.
impl fmt::Display for Reached {
    ghost use Rattle.std.specs.Prelude.{Some};
    ghost use Rattle.progress.specs.Reached.{reached_text};

    ghost output = { λ reached. Some (reached_text reached) };

    fn fmt<W: fmt::Write>(&self, f: &mut fmt::Formatter<W>) -> fmt::Result {
        write!(
            f,
            "{}, file {} of {}",
            Share {
                read: self.read,
                total: self.total,
            },
            self.file,
            self.files
        )
    }
}

/// How much was read of all, in megabytes.
#[derive(Clone, Copy)]
struct Share {
    read: u64,
    total: u64,
}

impl fmt::Display for Share {
    ghost use Rattle.std.specs.Prelude.{Some};
    ghost use Rattle.progress.specs.Reached.{share_text};

    ghost output = { λ share. Some (share_text share.read share.total) };

    fn fmt<W: fmt::Write>(&self, f: &mut fmt::Formatter<W>) -> fmt::Result {
        if self.total == 0 {
            return write!(f, "{}", Gigabytes(self.read));
        }
        let percent = percent(self.read, self.total);
        write!(f, "{percent} % of {}", Gigabytes(self.total))
    }
}

/// How many megabytes.
#[derive(Clone, Copy)]
struct Gigabytes(u64);

impl fmt::Display for Gigabytes {
    ghost use Rattle.std.specs.Prelude.{Some};
    ghost use Rattle.progress.specs.Reached.{gigabytes};

    ghost output = { λ all. Some (gigabytes all.0) };

    fn fmt<W: fmt::Write>(&self, f: &mut fmt::Formatter<W>) -> fmt::Result {
        let (whole, tenth) = (self.0 / 1000, self.0 % 1000 / 100);
        write!(f, "{whole}.{tenth} GB")
    }
}

/// How many of a hundred parts were read.
fn percent(read: u64, total: u64) -> u64
    ensures { result ≡ percent read total }
{
    if total <= read {
        return 100;
    }
    (u128::from(read) * 100 / u128::from(total)) as u64
}
