//! The words for people that a run gathers, to be printed after its lines.

ghost use Rattle.std.specs.Prelude.{◌≡◌, ◌++◌, [], codes, IfOk, IfSome, Some, option_map, string_bytes};
ghost use Rattle.explanations.specs.People.{Adds, AddsInput, AddsNaming, AddsOne, AddsIfAny, AddsMeanings, AddsReason};
ghost use Rattle.explanations.specs.People.{are_read, file_text, joined, lines_of, path_read};
ghost use Rattle.explanations.specs.Inputs.{IsOfQuery};
ghost use Rattle.explanations.specs.Merges.{merge_text};
ghost use Rattle.explanations.specs.Tables.{table_text};
ghost use Rattle.explanations.specs.Texts.{explanation_text};

use crate::again::{line_with_error, looks_compressed, read_again};
use crate::explanation::Explanation;
use crate::input::{Given, of_input, of_query};
use crate::merge::of_merge;
use crate::notice::{
    COMPRESSED, FOREIGN, IN_USE, LINE_NOT_TEXT, NO_MEMORY, NO_NAMES, NOT_TEXT, ODD, THERE,
    UNLISTED, UNWRITTEN,
};
use crate::table::of_table;
use command_line::Part;
use ghcn_series::Warnings;
use rank_input::{Archive, Fault, NotNamed, list_path};
use rank_merge::MergeFault;
use rank_query::QueryFault;
use rank_table::TableFault;
use std::alloc::{AllocError, Global};
use std::io::Read;

/// Words for people: lines, each but the last with a line feed. There are none if nobody reads them.
#[derive(Drop)]
pub struct ForPeople {
    is_read: bool,
    lines: String,
}

impl ForPeople {
    /// No words yet. People read them, as on a terminal, or they don't.
    pub fn new(alloc: Global, is_read: bool) -> Self
        ensures read { are_read result ≡ is_read }
        ensures none { lines_of result ≡ [] }
    {
        ForPeople {
            is_read,
            lines: String::new(alloc),
        }
    }

    /// Whether people read them.
    pub fn are_read(&self) -> bool
        ensures { result ≡ are_read self.now }
    {
        self.is_read
    }

    /// The lines, each but the last with a line feed.
    pub fn lines(&self) -> &str
        ensures { result.now ≡ lines_of self.now }
    {
        self.lines.as_str()
    }

    /// Adds a line, if people read it. If there is no memory for it, it is left out.
    fn add(&mut self, alloc: Global, said: Explanation)
        ensures { Adds self.old self.new (explanation_text said.entry) }
    {
        if !self.is_read {
            return;
        }
        if let Ok(line) = self.next_line(alloc, said) {
            let _ = self.lines.push_str(line.as_str());
        }
    }

    /// What a line adds to the others: a line feed comes first if there are any.
    fn next_line(&self, alloc: Global, said: Explanation) -> Result<String, AllocError>
        ensures { IfOk result (λ line. IfSome (explanation_text said.entry) (λ text.
            lines_of self.now ++ string_bytes line ≡ joined (lines_of self.now) text)) }
    {
        if self.lines.is_empty() {
            format!(in alloc; "{said}")
        } else {
            format!(in alloc; "\n{said}")
        }
    }

    /// Explains an error of an input. If it is one of a line, the file is read again.
    pub fn explain_input<A: Archive>(
        &mut self,
        alloc: Global,
        archive: &A,
        fault: Fault,
        given: Given,
    )
        ensures { AddsInput fault given.entry self.old self.new }
    {
        if !self.is_read {
            return;
        }
        let path = given.path(fault);
        let again = read_again(alloc, archive, path);
        let text = match &again {
            Some(text) => text.as_slice(),
            None => &[],
        };
        if looks_compressed(text) {
            let says = COMPRESSED;
            self.add(alloc, Explanation::Of { name: path, says });
        } else {
            let line = line_with_error(alloc, fault, text);
            self.add(alloc, of_input(fault, given, line));
        }
    }

    /// Explains an error of a query.
    pub fn explain_query(&mut self, alloc: Global, fault: QueryFault, query: &str)
        ensures { AddsOne (IsOfQuery fault query.now) self.old self.new }
    {
        self.add(alloc, of_query(fault, query));
    }

    /// Explains an error of parts.
    pub fn explain_parts(&mut self, alloc: Global, fault: MergeFault, parts: &[Part])
        ensures { Adds self.old self.new (Some (merge_text fault parts.now)) }
    {
        self.add(alloc, of_merge(fault, parts));
    }

    /// Explains an error of reports that become a table.
    pub fn explain_table(&mut self, alloc: Global, fault: TableFault, reports: &[String])
        ensures { Adds self.old self.new (Some (table_text fault reports.now)) }
    {
        self.add(alloc, of_table(fault, reports));
    }

    /// Explains that a file can't be read, by the system's reason if it can't be read again.
    pub fn explain_unread<A: Archive>(&mut self, alloc: Global, archive: &A, path: &str)
        ensures { AddsReason path.now self.old self.new }
    {
        if !self.is_read {
            return;
        }
        if let Some(reason) = reason_of(alloc, archive, path) {
            let reason = reason.as_str();
            self.add(alloc, Explanation::NoAccess { path, reason });
        }
    }

    /// Explains why the daily files can't be named. The list is named as the arguments name it, if there is one.
    pub fn explain_names<A: Archive>(
        &mut self,
        alloc: Global,
        archive: &A,
        why: &NotNamed,
        list: Option<&str>,
    )
        ensures { AddsNaming why.now (option_map (λ l. l.now) list.entry) self.old self.new }
    {
        match why {
            NotNamed::Unreadable(path) => {
                self.explain_unread(alloc, archive, path_read(path.as_str(), list));
            }
            NotNamed::Empty(path) => self.explain_file(alloc, path.as_str(), NO_NAMES),
            NotNamed::NotText(path) => self.explain_file(alloc, path.as_str(), NOT_TEXT),
            NotNamed::Memory => self.add(alloc, Explanation::Plain(NO_MEMORY)),
        }
    }

    /// Explains that a list of queries isn't text.
    pub fn explain_not_text(&mut self, alloc: Global, path: &str)
        ensures { Adds self.old self.new (Some (file_text path.now
            (codes "a line in it isn't UTF-8 text"))) }
    {
        self.explain_file(alloc, path, LINE_NOT_TEXT);
    }

    /// Explains that a certificate's file is in use.
    pub fn explain_use(&mut self, alloc: Global, path: &str)
        ensures { Adds self.old self.new (Some (file_text path.now
            (codes "this run reads it or prints to it, or it holds something other than a certificate"))) }
    {
        self.explain_file(alloc, path, IN_USE);
    }

    /// Explains that a file is there which a run was to make.
    pub fn explain_there(&mut self, alloc: Global, path: &str)
        ensures { Adds self.old self.new (Some (file_text path.now
            (codes "it is there already, and nothing is written over it"))) }
    {
        self.explain_file(alloc, path, THERE);
    }

    /// Explains that a file wasn't written whole.
    pub fn explain_unwritten(&mut self, alloc: Global)
        ensures { Adds self.old self.new (Some (codes
            "file not written: the system took only a part or nothing; is there room, and may you write there?")) }
    {
        self.add(alloc, Explanation::Plain(UNWRITTEN));
    }

    /// Explains what is wrong with a file.
    fn explain_file(&mut self, alloc: Global, path: &str, says: &'static str)
        ensures { Adds self.old self.new (Some (file_text path.now says.now)) }
    {
        self.add(alloc, Explanation::Of { name: path, says });
    }

    /// Explains what a run warns of: foreign files, odd lines, and that many lines of unlisted stations.
    pub fn explain_warnings(&mut self, alloc: Global, warnings: Warnings, unlisted: u64)
        ensures { AddsMeanings warnings unlisted self.old self.new }
    {
        self.explain_any(alloc, warnings.foreign.count, FOREIGN);
        self.explain_any(alloc, warnings.odd.count, ODD);
        self.explain_any(alloc, unlisted, UNLISTED);
    }

    /// Adds what a warning means, if there is something that it warns of.
    fn explain_any(&mut self, alloc: Global, count: u64, says: &'static str)
        ensures { AddsIfAny count says.now self.old self.new }
    {
        if count > 0 {
            self.add(alloc, Explanation::Plain(says));
        }
    }
}

/// The path that is read for a name: a list `-` is standard input.
fn path_read<'a>(name: &'a str, list: Option<&str>) -> &'a str
    ensures { result.now ≡ path_read name.now (option_map (λ l. l.now) list.entry) }
{
    match list {
        Some(list) if list == name => list_path(name),
        _ => name,
    }
}

/// The system's reason why a file can't be read, if it can't be read again.
fn reason_of<A: Archive>(alloc: Global, archive: &A, path: &str) -> Option<String> {
    let mut byte = [0u8];
    let read = match archive.open(path) {
        Ok(mut file) => file.read(&mut byte),
        Err(reason) => Err(reason),
    };
    match read {
        Ok(_) => None,
        Err(reason) => format!(in alloc; "{reason}").ok(),
    }
}
