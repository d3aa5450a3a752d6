//! What a run over a list of queries prints, and how it ends then.

ghost use Rattle.std.specs.Prelude.{◌≡◌, ◌∷◌, [], Some, map, string_bytes};
ghost use Rattle.extremes.specs.EachPrinted.{AreReportsPrinted, list_ending, list_lines};
ghost use Rattle.extremes.specs.FaultTexts.{fault_line};
ghost use Rattle.extremes.specs.Messages.{ArePrintedLines, input_lines, place_text, streams, warning_lines};

use crate::each::RankedEach;
use crate::ending::Ending;
use crate::messages::Messages;
use crate::papers_folder::Stop;
use crate::print::{
    DailyPaths, not_read, not_written, print_text, print_unlisted, print_warnings, refused,
    refused_input,
};
use explanations::ShownText;
use rank_input::{Fault, QueriesFault};
use std::io::Write;
use std::mem::forget;

/// Prints the reports of a list of queries, one after another, after the lines on what was skipped,
/// or prints the error. The data aren't freed, since the run ends then.
pub(crate) fn print_each<M: Messages, W: Write>(
    messages: &mut M,
    ranked: RankedEach,
    files: DailyPaths,
    out: &mut W,
) -> Ending
    ensures { AreReportsPrinted (input_lines fault_line (map string_bytes files.entry.arguments.now)
        (map string_bytes files.entry.paths.now))
        (streams (ArePrintedLines M.prints messages.old messages.new) (W.contents out.old) (W.contents out.new))
        ranked.reports (warning_lines (map string_bytes files.entry.paths.now) ranked.warnings) ranked.unlisted
        result }
{
    let RankedEach {
        reports,
        warnings,
        unlisted,
        dataset,
    } = ranked;
    let reports = match reports {
        Ok(reports) => reports,
        Err(Stop::Input(fault)) => return refused_input(messages, fault, files),
        Err(Stop::NotWritten(path)) => return not_written(messages, &path),
    };
    print_warnings(messages, warnings, files.paths);
    print_unlisted(messages, unlisted);
    let ending = print_text(messages, &reports, out);
    forget(dataset);
    ending
}

/// Prints why a list of queries is refused, and where its first bad line is. The list isn't read if
/// that line isn't text.
pub(crate) fn refused_list<M: Messages>(messages: &mut M, fault: QueriesFault, list: &str) -> Ending
    ensures ending { result ≡ list_ending fault }
    ensures lines { ArePrintedLines M.prints messages.old messages.new (list_lines fault_line list.now fault) }
{
    match fault {
        QueriesFault::Line { line, fault } => {
            let ending = refused(messages, Fault::from(fault));
            print_place_in(messages, list, line);
            ending
        }
        QueriesFault::NotText(line) => {
            let ending = not_read(messages, list);
            print_place_in(messages, list, line);
            ending
        }
        QueriesFault::Memory(memory) => refused(messages, Fault::Memory(memory)),
    }
}

/// Prints the path of a file and the number of a line of it. Lines count from 1.
fn print_place_in<M: Messages>(messages: &mut M, path: &str, line: u64)
    ensures { ArePrintedLines M.prints messages.old messages.new (Some (place_text line path.now) ∷ []) }
{
    messages.print(format_args!("at {}:{line}", ShownText(path)));
}
