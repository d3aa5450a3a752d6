//! What a check of a list of queries prints, and how it ends then.

ghost use Rattle.std.specs.Prelude.{◌≡◌, ◌∷◌, [], map, string_bytes};
ghost use Rattle.extremes.specs.FaultTexts.{fault_line};
ghost use Rattle.extremes.specs.JudgeEachRuns.{AreLinesTold, AreVerdictsTold, stop_ending, stop_line};
ghost use Rattle.extremes.specs.Messages.{ArePrintedLines, input_lines, streams};

use crate::checked_papers::JudgingStop;
use crate::delivery::write_to_end;
use crate::ending::Ending;
use crate::judge_each::Verdicts;
use crate::messages::Messages;
use crate::print::{DailyPaths, not_read, not_written, print_warnings, refused, refused_input};
use ghcn_series::Warnings;
use std::io::Write;

/// Prints the verdicts on the reports and the certificates of a list of queries, after the lines on
/// what was skipped, or prints the error.
pub(crate) fn print_verdicts<M: Messages, W: Write>(
    messages: &mut M,
    judged: Result<(Verdicts, Warnings), JudgingStop>,
    files: DailyPaths,
    out: &mut W,
) -> Ending
    ensures { AreVerdictsTold (input_lines fault_line (map string_bytes files.entry.arguments.now)
        (map string_bytes files.entry.paths.now))
        (streams (ArePrintedLines M.prints messages.old messages.new) (W.contents out.old) (W.contents out.new))
        judged (map string_bytes files.entry.paths.now) result }
{
    match judged {
        Ok((verdicts, warnings)) => {
            print_warnings(messages, warnings, files.paths);
            print_lines(messages, &verdicts, out)
        }
        Err(JudgingStop::Input(fault)) => refused_input(messages, fault, files),
        Err(JudgingStop::NotRead(path)) => not_read(messages, &path),
    }
}

/// Prints why the reports and the certificates of a list of queries aren't all opened: one of them
/// can't be, or memory ran out.
pub(crate) fn print_stop<M: Messages>(messages: &mut M, stop: JudgingStop) -> Ending
    ensures ending { result ≡ stop_ending stop }
    ensures line { ArePrintedLines M.prints messages.old messages.new (stop_line fault_line stop ∷ []) }
{
    match stop {
        JudgingStop::Input(fault) => refused(messages, fault),
        JudgingStop::NotRead(path) => not_read(messages, &path),
    }
}

/// Prints the lines of verdicts.
fn print_lines<M: Messages, W: Write>(messages: &mut M, verdicts: &Verdicts, out: &mut W) -> Ending
    ensures { AreLinesTold
        (streams (ArePrintedLines M.prints messages.old messages.new) (W.contents out.old) (W.contents out.new))
        verdicts.now result }
{
    if write_to_end(&verdicts.lines, out) {
        verdicts.ending
    } else {
        not_written(messages, "-")
    }
}
