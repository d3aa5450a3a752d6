//! What a command line asks for.

use std::alloc::AllocError;

/// A command of the program.
#[derive(Debug, Drop)]
pub enum Command {
    /// Without arguments: the ranking of the texts that are built in.
    Sample,
    Rank(RankArguments),
    RankEach(RankEachArguments),
    Merge(MergeArguments),
    Check(CheckArguments),
    CheckEach(CheckEachArguments),
    Describe(DescribeArguments),
    Table(TableArguments),
}

/// What is ranked: the candidates of a query over files.
#[derive(Debug, Drop)]
pub struct RankArguments {
    /// The path of the station list.
    pub stations: String,
    /// The text of the query.
    pub query: String,
    /// How many threads may read the files, and then look for records; 1 to 64 may run.
    pub workers: u64,
    /// A score, in the raw unit of the data, that the k-th best record should reach; from -2^31 to
    /// 2^31 may be guessed.
    pub guess: Option<i64>,
    /// The path of the certificate's file, if a certificate is wanted.
    pub certificate: Option<String>,
    pub files: NamedFiles,
}

/// What is ranked at one reading of files: the candidates of each query of a list.
#[derive(Debug, Drop)]
pub struct RankEachArguments {
    /// The path of the station list.
    pub stations: String,
    /// The path of the list of queries, one a line. `-` is standard input.
    pub queries: String,
    /// The folder for the report and the certificate of each query, if they are wanted.
    pub papers: Option<String>,
    /// How many threads may read the files, and then look for records; 1 to 64 may run.
    pub workers: u64,
    pub files: NamedFiles,
}

/// What is merged: the reports and the certificates of parts into those of all files. No data is
/// read.
#[derive(Debug, Drop)]
pub struct MergeArguments {
    /// The text of the query.
    pub query: String,
    /// The path of the certificate's file, if a certificate is wanted.
    pub certificate: Option<String>,
    /// The parts, in the order in which they are named.
    pub parts: Vec<Part>,
}

/// What is checked: a report and a certificate against files.
#[derive(Debug, Drop)]
pub struct CheckArguments {
    /// The path of the station list.
    pub stations: String,
    /// The text of the query.
    pub query: String,
    /// The path of the report.
    pub report: String,
    /// The path of the certificate.
    pub certificate: String,
    /// Whether the files are a part of those that the report and the certificate cover.
    pub part: bool,
    /// How many threads may read the files, 1 to 64.
    pub workers: u64,
    pub files: NamedFiles,
}

/// What is checked at one reading of files: the report and the certificate of each query of a list.
#[derive(Debug, Drop)]
pub struct CheckEachArguments {
    /// The path of the station list.
    pub stations: String,
    /// The path of the list of queries, one a line. `-` is standard input.
    pub queries: String,
    /// The folder with the report and the certificate of each query.
    pub papers: String,
    /// Whether the files are a part of those that the reports and the certificates cover.
    pub part: bool,
    /// How many threads may read the files, 1 to 64.
    pub workers: u64,
    pub files: NamedFiles,
}

/// What is described: what files hold.
#[derive(Debug, Drop)]
pub struct DescribeArguments {
    /// The path of the station list.
    pub stations: String,
    /// How many threads may read the files, 1 to 64.
    pub workers: u64,
    pub files: NamedFiles,
}

/// What is made a table: the rows of reports.
#[derive(Debug, Drop)]
pub struct TableArguments {
    /// A station list, if the table has a place for each row.
    pub stations: Option<String>,
    /// Files of reports, at least one. `-` is standard input.
    pub reports: Vec<String>,
}

/// The daily files that a command names.
#[derive(Debug, Drop)]
pub struct NamedFiles {
    /// Paths of files and of folders.
    pub paths: Vec<String>,
    /// A list of more, which come after these. `-` is standard input.
    pub list: Option<String>,
    /// Whether the names of the list end by NUL, and not by the end of a line.
    pub null: bool,
    /// Whether a terminal shows how much of these files was read.
    pub progress: bool,
}

/// The report and the certificate of a part, named by their paths.
#[derive(Debug, Drop)]
pub struct Part {
    pub report: String,
    pub certificate: String,
}

/// Why a command line isn't a command.
#[derive(Debug, Drop)]
pub enum CommandFault {
    /// The arguments aren't valid, or ask for help: the text to show.
    Words(String),
    /// The arguments ask for the version: the text to show.
    Version(String),
    /// Out of memory.
    Memory,
}

impl From<AllocError> for CommandFault {
    ghost use Rattle.std.specs.Prelude.{◌≡◌};
    ghost use Rattle.command_line.specs.declared.asked.CommandFault.TheVariants.{Memory};

    ghost from_gives = { λ _ fault. fault ≡ Memory };

    fn from(_refused: AllocError) -> Self {
        CommandFault::Memory
    }
}
