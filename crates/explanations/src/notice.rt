//! What warnings mean, and what else is said in the same words each time.

/// What `unlisted` means.
pub const UNLISTED: &str =
    "unlisted: lines of stations that aren't in the station list; they were left out";

/// What `foreign` means.
pub const FOREIGN: &str = "foreign: files that have lines, but none of PRCP SNOW SNWD TMAX TMIN";

/// What `odd` means.
pub const ODD: &str =
    "odd: lines that aren't laid out as daily lines are; daily lines may be lost with them";

/// What is wrong with a file that begins as those of gzip do.
pub const COMPRESSED: &str = "it looks compressed, by gzip; unpack it first";

/// What is wrong with a folder or a list of daily files that is empty.
pub const NO_NAMES: &str = "a folder without .dly files, or a list without names";

/// What is wrong with a folder or a list of daily files that has a name which isn't UTF-8.
pub const NOT_TEXT: &str = "a name in it isn't UTF-8 text";

/// What is wrong with a list of queries that has a line which isn't UTF-8.
pub const LINE_NOT_TEXT: &str = "a line in it isn't UTF-8 text";

/// What is wrong with a file that a certificate can't be written to.
pub const IN_USE: &str =
    "this run reads it or prints to it, or it holds something other than a certificate";

/// What is wrong with a file that a run was to make.
pub const THERE: &str = "it is there already, and nothing is written over it";

/// What it means that a file isn't written.
pub const UNWRITTEN: &str =
    "file not written: the system took only a part or nothing; is there room, and may you write there?";

/// What out of memory means.
pub const NO_MEMORY: &str = "out of memory: the system gave no more";
