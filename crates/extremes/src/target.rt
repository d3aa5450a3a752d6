//! Where reports and certificates go that aren't printed: the certificate to a file that the run
//! neither reads nor prints to, and that holds at most an earlier certificate; those of a list of
//! queries to new files.

ghost use Rattle.std.specs.Prelude.{option_map};
ghost use Rattle.extremes.specs.Targets.{IsInUse, IsList, IsPaper, IsPaperOrOutput, IsTaken};

use command_line::Part;
use rank_input::list_path;
use std::io;
use std::io::Write;

/// Where the system shows the file of standard output.
const STANDARD_OUTPUT: &str = "/dev/stdout";

/// Where the system shows the file of standard error.
const STANDARD_ERROR: &str = "/dev/stderr";

/// The file that a report or a certificate is written to. It has what was written once that is
/// flushed.
pub trait Target: Write {
    ghost use Rattle.std.specs.Prelude.{◌≡◌, ℕ, Bool, true, false, List, OnOk, OnErr};
    ghost use Rattle.extremes.specs.Targets.{IsBlank};

    /// Whether two paths may be found to name one file, and whether they may be found to name two.
    ghost one_file: { Self → List ℕ → List ℕ → Bool → Type 0 };

    /// Whether the file of a path may be found to hold anything that isn't a certificate, and whether
    /// it may be found to hold nothing else.
    ghost other_text: { Self → List ℕ → Bool → Type 0 };

    /// How opening the file of a path may change the target, if the file is opened and if it isn't.
    ghost opens: { Self → List ℕ → Bool → Self → Type 0 };

    /// How giving up what wasn't written whole may change the target.
    ghost abandons: { Self → Self → Type 0 };

    /// Whether a file may be found by a path, and whether none may be found.
    ghost exists: { Self → List ℕ → Bool → Type 0 };

    /// How making the file of a path may change the target, if the file is made and if it isn't.
    ghost creates: { Self → List ℕ → Bool → Self → Type 0 };

    /// Whether two paths name one file that writing would change.
    fn is_one_file(&self, one: &str, other: &str) -> bool
        ensures { one_file self.now one.now other.now result };

    /// Whether the file of a path holds anything that isn't a certificate.
    fn holds_other(&self, path: &str) -> bool
        ensures { other_text self.now path.now result };

    /// Opens the file of a path, to be written from its first byte, or returns why it can't be
    /// opened.
    fn open(&mut self, path: &str) -> io::Result<()>
        ensures opened { OnOk result (opens self.old path.now true self.new) }
        ensures blank { OnOk result (IsBlank (Self.contents self.new)) }
        ensures failed { OnErr result (opens self.old path.now false self.new) }
        ensures kept { OnErr result (Self.contents self.new ≡ Self.contents self.old) };

    /// Whether there is a file by a path, of whatever kind.
    fn is_there(&self, path: &str) -> bool
        ensures { exists self.now path.now result };

    /// Makes the file of a path, to be written from its first byte, or returns why it can't be made. A
    /// file that is there is left as it is.
    fn create(&mut self, path: &str) -> io::Result<()>
        ensures made { OnOk result (creates self.old path.now true self.new) }
        ensures blank { OnOk result (IsBlank (Self.contents self.new)) }
        ensures failed { OnErr result (creates self.old path.now false self.new) }
        ensures kept { OnErr result (Self.contents self.new ≡ Self.contents self.old) };

    /// Gives up what wasn't written whole.
    fn abandon(&mut self)
        ensures { abandons self.old self.new };
}

/// Whether a certificate's file holds anything else, or is the station list, the list of the daily
/// files, a daily file or the file of standard output or standard error.
pub(crate) fn is_in_use<T: Target>(
    target: &T,
    out: &str,
    stations: &str,
    list: Option<&str>,
    files: &[String],
) -> bool
    ensures { IsInUse (T.one_file target.now out.now) (T.other_text target.now out.now)
        stations.now (option_map (λ l. l.now) list.entry) files.now result }
{
    if is_taken(target, out) || target.is_one_file(out, stations) || is_list(target, out, list) {
        return true;
    }
    for file in files {
        if target.is_one_file(out, file) {
            return true;
        }
    }
    false
}

/// Whether a certificate's file holds anything else, or is a report or a certificate of a part, or
/// the file of standard output or standard error.
pub(crate) fn is_paper_or_output<T: Target>(target: &T, out: &str, parts: &[Part]) -> bool
    ensures { IsPaperOrOutput (T.one_file target.now out.now) (T.other_text target.now out.now) parts.now result }
{
    if is_taken(target, out) {
        return true;
    }
    for part in parts {
        if is_paper(target, out, part) {
            return true;
        }
    }
    false
}

/// Whether a certificate's file is a report or a certificate of a part.
fn is_paper<T: Target>(target: &T, out: &str, part: &Part) -> bool
    ensures { IsPaper (T.one_file target.now out.now) part.now result }
{
    target.is_one_file(out, &part.report) || target.is_one_file(out, &part.certificate)
}

/// Whether a certificate's file holds anything else, or is the file of standard output or standard
/// error.
fn is_taken<T: Target>(target: &T, out: &str) -> bool
    ensures { IsTaken (T.one_file target.now out.now) (T.other_text target.now out.now) result }
{
    target.is_one_file(out, STANDARD_OUTPUT)
        || target.is_one_file(out, STANDARD_ERROR)
        || target.holds_other(out)
}

/// Whether a certificate's file is the list of the daily files, if there is one.
fn is_list<T: Target>(target: &T, out: &str, list: Option<&str>) -> bool
    ensures { IsList (T.one_file target.now out.now) (option_map (λ l. l.now) list.entry) result }
{
    match list {
        Some(list) => target.is_one_file(out, list_path(list)),
        None => false,
    }
}
