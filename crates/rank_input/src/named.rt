//! What the names that a run is given stand for: a folder stands for its daily files, a list for its names, and any
//! other path for itself.

ghost use Rattle.std.specs.Prelude.{◌≡◌, ◌∷◌, [], IfOk, IfErr, OnOk, map, option_map, string_bytes};
ghost use Rattle.std.specs.Str.Lines.{strip_carriage_return};
ghost use Rattle.rank_input.specs.Named as named;
ghost use Rattle.rank_input.specs.NamingStops as stops;

use crate::archive::{Archive, Place, read_whole};
use std::alloc::{AllocError, AllocFailed, Global};
use std::str;

/// Why names stand for nothing. The text is the path of a folder, or a list as it was named.
#[derive(Debug, Drop)]
pub enum NotNamed {
    /// It can't be read.
    Unreadable(String),
    /// The folder has no daily file, or the list has no name.
    Empty(String),
    /// The name of a daily file of the folder isn't UTF-8, or the list isn't.
    NotText(String),
    /// Out of memory.
    Memory,
}

impl From<AllocError> for NotNamed {
    ghost use Rattle.std.specs.Prelude.{◌≡◌};
    ghost use Rattle.rank_input.specs.declared.named.NotNamed.TheVariants.{Memory};

    ghost from_gives = { λ _ why. why ≡ Memory };

    fn from(_refused: AllocError) -> Self {
        NotNamed::Memory
    }
}

impl<T: Drop> From<AllocFailed<T>> for NotNamed {
    ghost use Rattle.std.specs.Prelude.{◌≡◌};
    ghost use Rattle.rank_input.specs.declared.named.NotNamed.TheVariants.{Memory};

    ghost from_gives = { λ _ why. why ≡ Memory };

    fn from(_refused: AllocFailed<T>) -> Self {
        NotNamed::Memory
    }
}

/// The paths of the files that words stand for, and then the names of a list, if there is one; or why the first of
/// these that stands for nothing does so. The names of a list are lines, or ended by NULs. If there is neither a
/// folder nor a list, the paths are the words.
pub fn name_files<A: Archive>(
    alloc: Global,
    archive: &A,
    words: &[String],
    list: Option<&str>,
    null: bool,
) -> Result<Vec<String>, NotNamed>
    ensures stand { IfOk result (λ paths.
        named.StandFor (A.bytes_of archive.now) (A.opens archive.now) (A.names_of archive.now) null
        (option_map (λ l. l.now) list.entry) (map string_bytes words.now) (map string_bytes paths.items)) }
    ensures stopped { IfErr result
        (stops.StopsNaming (A.bytes_of archive.now) (A.opens archive.now) (A.names_of archive.now) null
        (option_map (λ l. l.now) list.entry) (map string_bytes words.now)) }
{
    let mut paths = Vec::with_capacity(alloc, words.len())?;
    for word in words {
        add_named(alloc, archive, word, &mut paths)?;
    }
    if let Some(list) = list {
        add_listed(alloc, archive, list, null, &mut paths)?;
    }
    Ok(paths)
}

/// The path of a list, or of a file of reports. `-` is standard input.
pub fn list_path(list: &str) -> &str
    ensures { result.now ≡ named.list_path list.now }
{
    if list == "-" { "/dev/stdin" } else { list }
}

/// Adds the paths of the files that the names of a list stand for.
fn add_listed<A: Archive>(
    alloc: Global,
    archive: &A,
    list: &str,
    null: bool,
    paths: &mut Vec<String>,
) -> Result<(), NotNamed>
    ensures added { OnOk result
        (named.AddsListed (A.bytes_of archive.now) (A.opens archive.now) (A.names_of archive.now) null list.now
        (map string_bytes paths.old.items) (map string_bytes paths.new.items)) }
    ensures stopped { IfErr result
        (stops.StopsInList (A.bytes_of archive.now) (A.opens archive.now) (A.names_of archive.now) null list.now) }
{
    let Ok(text) = read_whole(alloc, archive, list_path(list)) else {
        return Err(NotNamed::Unreadable(String::from_str(alloc, list)?));
    };
    let Ok(text) = str::from_utf8(&text) else {
        return Err(NotNamed::NotText(String::from_str(alloc, list)?));
    };
    let end = if null { '\0' } else { '\n' };
    let mut is_empty = true;
    for part in text.split(end) {
        let name = if null { part } else { without_return(part) };
        if !name.is_empty() {
            add_named(alloc, archive, name, paths)?;
            is_empty = false;
        }
    }
    if is_empty {
        return Err(NotNamed::Empty(String::from_str(alloc, list)?));
    }
    Ok(())
}

/// A name without one carriage return at its end.
fn without_return(name: &str) -> &str
    ensures { result.now ≡ strip_carriage_return name.now }
{
    name.strip_suffix('\r').unwrap_or(name)
}

/// Adds the paths of the files that a path stands for: those of a folder's daily files, or itself.
fn add_named<A: Archive>(
    alloc: Global,
    archive: &A,
    path: &str,
    paths: &mut Vec<String>,
) -> Result<(), NotNamed>
    ensures added { OnOk result (named.AddsNamed (A.names_of archive.now) (path.now ∷ [])
        (map string_bytes paths.old.items) (map string_bytes paths.new.items)) }
    ensures stopped { IfErr result (stops.IsNothing (A.opens archive.now) (A.names_of archive.now) path.now) }
{
    match archive.look(path) {
        Place::Folder => {
            let mut daily = daily_files(alloc, archive, path)?;
            paths.append(&mut daily)?;
        }
        _ => paths.push(String::from_str(alloc, path)?)?,
    }
    Ok(())
}

/// The paths of the daily files in a folder, in the order of their bytes.
fn daily_files<A: Archive>(
    alloc: Global,
    archive: &A,
    folder: &str,
) -> Result<Vec<String>, NotNamed>
    ensures files { IfOk result (λ paths.
        named.IsFolderOf (A.names_of archive.now folder.now) folder.now (map string_bytes paths.items)) }
    ensures stopped { IfErr result
        (stops.IsNoFolder (A.opens archive.now) (A.names_of archive.now folder.now) folder.now) }
{
    match archive.names(alloc, folder) {
        Ok(names) => daily_paths(alloc, folder, &names),
        Err(_) => Err(NotNamed::Unreadable(String::from_str(alloc, folder)?)),
    }
}

/// The paths of the daily files among the names in a folder, each ended by a NUL, in the order of their bytes.
fn daily_paths(alloc: Global, folder: &str, names: &[u8]) -> Result<Vec<String>, NotNamed>
    ensures files { IfOk result (λ paths.
        named.AreDailyIn folder.now names.now (map string_bytes paths.items)) }
    ensures stopped { IfErr result (stops.AreNotDaily folder.now names.now) }
{
    let mut paths = Vec::new(alloc);
    for name in names.split(|byte| *byte == 0) {
        if is_daily(name) {
            match str::from_utf8(name) {
                Ok(name) => paths.push(below(alloc, folder, name)?)?,
                Err(_) => return Err(NotNamed::NotText(String::from_str(alloc, folder)?)),
            }
        }
    }
    if paths.is_empty() {
        return Err(NotNamed::Empty(String::from_str(alloc, folder)?));
    }
    paths.sort_unstable();
    Ok(paths)
}

/// Whether a name is that of a daily file, and isn't hidden.
fn is_daily(name: &[u8]) -> bool
    ensures { result ≡ named.is_daily name.now }
{
    !name.starts_with(b".") && name.ends_with(b".dly")
}

/// The path of a name in a folder, with one slash between them.
pub fn below(alloc: Global, folder: &str, name: &str) -> Result<String, AllocError>
    ensures { IfOk result (λ path. string_bytes path ≡ named.below folder.now name.now) }
{
    let mut path = String::with_capacity(alloc, folder.len() + 1 + name.len())?;
    path.push_str(folder)?;
    if !folder.as_bytes().ends_with(b"/") {
        path.push('/')?;
    }
    path.push_str(name)?;
    Ok(path)
}
