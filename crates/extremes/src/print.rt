//! What a run prints, and how it ends then.

ghost use Rattle.std.specs.Prelude.{◌≡◌, [], ◌∷◌, IfSome, bytes_eq, map, option_map, string_bytes};
ghost use Rattle.std.specs.Cmp.Lexicographic.{pointwise};
ghost use Rattle.extremes.specs.declared.ending.Ending.TheVariants as endings;
ghost use Rattle.extremes.specs.Printed.{ArePrinted, IsLineTold, IsPrinted, IsReported, IsShown};
ghost use Rattle.extremes.specs.Printed.{IsTableShown, IsTextShown, IsTold, judgement_line};
ghost use Rattle.extremes.specs.FaultTexts.{fault_line, tabling_line};
ghost use Rattle.extremes.specs.NamedRuns.{naming_ending};
ghost use Rattle.extremes.specs.Targets.{IsPut};
ghost use Rattle.extremes.specs.Messages.{ArePrintedLines, after_lines, foreign_warning, input_lines, line_naming};
ghost use Rattle.extremes.specs.Messages.{naming_line, not_read_line, not_written_line, numbered_path, odd_warning};
ghost use Rattle.extremes.specs.Messages.{only_line, place_text, streams, unlisted_warning, unnumbered_place};
ghost use Rattle.extremes.specs.Messages.{warning_lines};

use crate::delivery::{Delivery, deliver, write_to_end, write_whole};
use crate::describe::DescriptionText;
use crate::ending::Ending;
use crate::judgement::{Judgement, ending};
use crate::messages::Messages;
use crate::papers::Papers;
use crate::rank::Ranked;
use crate::table::{TableText, TablingFault};
use crate::target::Target;
use arrayvec::ArrayVec;
use explanations::ShownText;
use ghcn_fields::Memory;
use ghcn_series::{Foreign, LinePlace, OddLines, Warnings};
use rank_input::{Fault, NotNamed};
use std::fmt::Display;
use std::io::Write;
use std::mem::forget;

/// More bytes than any line of a judgement has: two numbers of 20 digits, and words of 40 bytes.
const LONGEST_LINE: usize = 128;

/// The paths of the daily files, in order, as they are printed.
#[derive(Clone, Copy)]
pub(crate) struct DailyPaths<'p> {
    pub(crate) paths: &'p [String],
    /// The arguments that name files or folders. If they are the paths, an argument is found by the
    /// number of its file.
    pub(crate) arguments: &'p [String],
}

/// Prints what a ranking of files returns. Its data aren't freed, since the run ends then, and to free
/// many series takes a while.
pub(crate) fn print_ranked<M: Messages, T: Target, W: Write>(
    messages: &mut M,
    ranked: Ranked,
    files: DailyPaths,
    certificate: Option<&str>,
    target: &mut T,
    out: &mut W,
) -> Ending
    ensures { IsPrinted (input_lines fault_line (map string_bytes files.entry.arguments.now)
        (map string_bytes files.entry.paths.now))
        (streams (ArePrintedLines M.prints messages.old messages.new) (W.contents out.old) (W.contents out.new))
        ranked.answer (warning_lines (map string_bytes files.entry.paths.now) ranked.warnings)
        (option_map (λ path. path.now) certificate.entry)
        (IsPut T.opens T.abandons T.contents target.old target.new) result }
{
    let Ranked {
        answer,
        warnings,
        dataset,
    } = ranked;
    let papers = match answer {
        Ok(papers) => papers,
        Err(fault) => return refused_input(messages, fault, files),
    };
    print_warnings(messages, warnings, files.paths);
    let ending = print_papers(messages, &papers, certificate, target, out);
    forget(dataset);
    ending
}

/// Prints that a file can't be read.
pub(crate) fn not_read<M: Messages>(messages: &mut M, path: &str) -> Ending
    ensures ending { result ≡ endings.File }
    ensures line { ArePrintedLines M.prints messages.old messages.new (not_read_line path.now ∷ []) }
{
    messages.print(format_args!("file not read {}", ShownText(path)));
    Ending::File
}

/// Prints why the daily files can't be named.
pub(crate) fn not_named<M: Messages>(messages: &mut M, why: &NotNamed) -> Ending
    ensures ending { result ≡ naming_ending why.now }
    ensures line { ArePrintedLines M.prints messages.old messages.new
        (naming_line fault_line why.now ∷ []) }
{
    match why {
        NotNamed::Unreadable(path) | NotNamed::Empty(path) | NotNamed::NotText(path) => {
            not_read(messages, path)
        }
        NotNamed::Memory => refused(messages, Fault::Memory(Memory)),
    }
}

/// Prints an error.
pub(crate) fn refused<M: Messages, F: Display + Drop>(messages: &mut M, fault: F) -> Ending
    ensures ending { result ≡ endings.Refused }
    ensures line { ArePrintedLines M.prints messages.old messages.new (F.output fault ∷ []) }
{
    messages.print(fault);
    Ending::Refused
}

/// Prints an error of the input. If the arguments aren't the paths of the files, a second line says
/// where a bad daily line is.
pub(crate) fn refused_input<M: Messages>(
    messages: &mut M,
    fault: Fault,
    files: DailyPaths,
) -> Ending
    ensures ending { result ≡ endings.Refused }
    ensures lines { ArePrintedLines M.prints messages.old messages.new
        (input_lines fault_line (map string_bytes files.entry.arguments.now)
        (map string_bytes files.entry.paths.now) fault) }
{
    let ending = refused(messages, fault);
    print_place(messages, fault, files);
    ending
}

/// Prints where the bad daily line is that an error names, if it names one and the arguments aren't
/// the paths of the files.
fn print_place<M: Messages>(messages: &mut M, fault: Fault, files: DailyPaths)
    ensures { ArePrintedLines M.prints messages.old messages.new
        (unnumbered_place (map string_bytes files.entry.arguments.now)
        (map string_bytes files.entry.paths.now) fault) }
{
    if are_arguments(files) {
        return;
    }
    if let Fault::DailyLine { file, line, .. } = fault {
        print_line_of(messages, file, line, files.paths);
    }
}

/// Whether the arguments are the paths of the files.
fn are_arguments(files: DailyPaths) -> bool
    ensures { result ≡ pointwise bytes_eq (map string_bytes files.entry.paths.now)
        (map string_bytes files.entry.arguments.now) }
{
    files.paths == files.arguments
}

/// Prints the path of a file and the number of a line of it. Files and lines count from 1.
fn print_line_of<M: Messages>(messages: &mut M, file: u64, line: u64, paths: &[String])
    ensures { ArePrintedLines M.prints messages.old messages.new
        (line_naming (place_text line) (numbered_path (map string_bytes paths.now) file)) }
{
    let Some(place) = file.checked_sub(1) else {
        return;
    };
    if let Some(path) = paths.get(place as usize) {
        messages.print(format_args!("at {}:{line}", ShownText(path.as_str())));
    }
}

/// Prints that a file can't be written.
pub(crate) fn not_written<M: Messages>(messages: &mut M, path: &str) -> Ending
    ensures ending { result ≡ endings.File }
    ensures line { ArePrintedLines M.prints messages.old messages.new (not_written_line path.now ∷ []) }
{
    messages.print(format_args!("file not written {}", ShownText(path)));
    Ending::File
}

/// Prints a text that was asked for.
pub(crate) fn print_text<M: Messages, W: Write>(
    messages: &mut M,
    text: &[u8],
    out: &mut W,
) -> Ending
    ensures { IsShown
        (streams (ArePrintedLines M.prints messages.old messages.new) (W.contents out.old) (W.contents out.new))
        text.now result }
{
    if write_whole(text, out) {
        Ending::Done
    } else {
        not_written(messages, "-")
    }
}

/// Prints how many of the files are foreign and how many lines are odd, if there are any.
pub(crate) fn print_warnings<M: Messages>(messages: &mut M, warnings: Warnings, files: &[String])
    ensures { ArePrintedLines M.prints messages.old messages.new
        (warning_lines (map string_bytes files.now) warnings) }
{
    print_foreign(messages, warnings.foreign, files);
    print_odd(messages, warnings.odd, files);
}

/// Prints how many of the files are foreign, and the path of the first of them, if there is one.
fn print_foreign<M: Messages>(messages: &mut M, foreign: Foreign, files: &[String])
    ensures { ArePrintedLines M.prints messages.old messages.new
        (foreign_warning (map string_bytes files.now) foreign) }
{
    let Foreign { count, first } = foreign;
    if let Some(place) = first {
        if let Some(path) = files.get(place as usize) {
            messages.print(format_args!("foreign {count} {}", ShownText(path.as_str())));
        }
    }
}

/// Prints how many lines are odd, and of the first of them the path of its file and its number there,
/// if there is one.
fn print_odd<M: Messages>(messages: &mut M, odd: OddLines, files: &[String])
    ensures { ArePrintedLines M.prints messages.old messages.new
        (odd_warning (map string_bytes files.now) odd) }
{
    let OddLines { count, first } = odd;
    if let Some(LinePlace { file, line }) = first {
        if let Some(path) = files.get(file as usize) {
            messages.print(format_args!("odd {count} {}:{line}", ShownText(path.as_str())));
        }
    }
}

/// Prints how many lines of unlisted stations were skipped, if there are any.
pub(crate) fn print_unlisted<M: Messages>(messages: &mut M, unlisted: u64)
    ensures { ArePrintedLines M.prints messages.old messages.new (unlisted_warning unlisted) }
{
    if unlisted > 0 {
        messages.print(format_args!("unlisted {unlisted}"));
    }
}

/// Prints the report after a line on what was skipped, or prints the error. The certificate
/// goes to the file of a path, if one is named, and the report after it.
pub fn print_answer<M: Messages, T: Target, W: Write, F: Display + Drop>(
    messages: &mut M,
    answer: Result<Papers, F>,
    certificate: Option<&str>,
    target: &mut T,
    out: &mut W,
) -> Ending
    ensures { IsPrinted (only_line F.output)
        (streams (ArePrintedLines M.prints messages.old messages.new) (W.contents out.old) (W.contents out.new))
        answer [] (option_map (λ path. path.now) certificate.entry)
        (IsPut T.opens T.abandons T.contents target.old target.new) result }
{
    match answer {
        Ok(papers) => print_papers(messages, &papers, certificate, target, out),
        Err(fault) => refused(messages, fault),
    }
}

/// Prints a report after a line on what was skipped. The certificate goes to the file of a path, if
/// one is named, and the report after it.
fn print_papers<M: Messages, T: Target, W: Write>(
    messages: &mut M,
    papers: &Papers,
    certificate: Option<&str>,
    target: &mut T,
    out: &mut W,
) -> Ending
    ensures { ArePrinted (after_lines (unlisted_warning papers.now.unlisted)
        (streams (ArePrintedLines M.prints messages.old messages.new) (W.contents out.old) (W.contents out.new)))
        papers.now (option_map (λ path. path.now) certificate.entry)
        (IsPut T.opens T.abandons T.contents target.old target.new) result }
{
    print_unlisted(messages, papers.unlisted);
    match write_papers(papers, certificate, target, out) {
        Delivery::Done => Ending::Done,
        Delivery::CertificateFailed => not_written(messages, certificate.unwrap_or("-")),
        Delivery::ReportFailed => not_written(messages, "-"),
    }
}

/// Writes the certificate into the file of a path, if one is named, and then the report.
fn write_papers<T: Target, W: Write>(
    papers: &Papers,
    certificate: Option<&str>,
    target: &mut T,
    out: &mut W,
) -> Delivery
    ensures { IsReported papers.now (option_map (λ path. path.now) certificate.entry)
        (IsPut T.opens T.abandons T.contents target.old target.new)
        (W.contents out.old) (W.contents out.new) result }
{
    let Some(path) = certificate else {
        return deliver(papers, false, target, out);
    };
    if target.open(path).is_err() {
        return Delivery::CertificateFailed;
    }
    let delivery = deliver(papers, true, target, out);
    if delivery == Delivery::CertificateFailed {
        target.abandon();
    }
    delivery
}

/// Prints the text of a description of files, or prints the error.
pub(crate) fn print_description<M: Messages, W: Write>(
    messages: &mut M,
    described: Result<DescriptionText, Fault>,
    files: DailyPaths,
    out: &mut W,
) -> Ending
    ensures { IsTextShown fault_line
        (streams (ArePrintedLines M.prints messages.old messages.new) (W.contents out.old) (W.contents out.new))
        described (map string_bytes files.entry.arguments.now) (map string_bytes files.entry.paths.now) result }
{
    match described {
        Ok(text) => {
            print_warnings(messages, text.warnings, files.paths);
            print_text(messages, &text.bytes, out)
        }
        Err(fault) => refused_input(messages, fault, files),
    }
}

/// Prints a table of reports, or prints the error.
pub(crate) fn print_table<M: Messages, W: Write>(
    messages: &mut M,
    tabled: Result<TableText, TablingFault>,
    out: &mut W,
) -> Ending
    ensures { IsTableShown tabling_line
        (streams (ArePrintedLines M.prints messages.old messages.new) (W.contents out.old) (W.contents out.new))
        tabled result }
{
    match tabled {
        Ok(table) => print_text(messages, &table.bytes, out),
        Err(fault) => refused(messages, fault),
    }
}

/// Prints what is said of a report and a certificate, or prints the error.
pub(crate) fn print_judgement<M: Messages, W: Write>(
    messages: &mut M,
    judged: Result<(Judgement, Warnings), Fault>,
    files: DailyPaths,
    out: &mut W,
) -> Ending
    ensures { IsTold fault_line
        (streams (ArePrintedLines M.prints messages.old messages.new) (W.contents out.old) (W.contents out.new))
        judged (map string_bytes files.entry.arguments.now) (map string_bytes files.entry.paths.now) result }
{
    match judged {
        Ok((judgement, warnings)) => {
            print_warnings(messages, warnings, files.paths);
            print_line(messages, &judgement, out)
        }
        Err(fault) => refused_input(messages, fault, files),
    }
}

/// Prints what is said of a report and a certificate as a line.
fn print_line<M: Messages, W: Write>(messages: &mut M, judgement: &Judgement, out: &mut W) -> Ending
    ensures { IsLineTold
        (streams (ArePrintedLines M.prints messages.old messages.new) (W.contents out.old) (W.contents out.new))
        judgement.now result }
{
    let Some(line) = line_of(judgement) else {
        return not_written(messages, "-");
    };
    if write_to_end(line.as_slice(), out) {
        ending(judgement)
    } else {
        not_written(messages, "-")
    }
}

/// The line of a judgement. It always fits.
fn line_of(judgement: &Judgement) -> Option<ArrayVec<u8, LONGEST_LINE>>
    ensures { IfSome result (λ line. line.items ≡ judgement_line judgement.now) }
{
    let mut line = ArrayVec::new();
    writeln!(line, "{judgement}").ok()?;
    Some(line)
}
