//! The k best records of GHCN-Daily files: a program over a library of its own.
#![tactic(auto)]

mod checked_papers;
mod commands;
mod delivery;
mod describe;
mod each;
mod each_files;
mod ending;
mod explained;
mod explained_each;
mod explained_judged_each;
mod files;
mod judge;
mod judge_each;
mod judge_each_files;
mod judgement;
mod laws;
mod merge;
mod messages;
mod paper_paths;
mod papers;
mod papers_folder;
mod print;
mod print_each;
mod print_judged_each;
mod rank;
mod run;
mod run_each;
mod run_judge_each;
mod sample;
mod system_target;
mod table;
mod target;
#[cfg(test)]
mod tests;
mod watching;

use std::io::IsTerminal;
use std::process::ExitCode;

fn main(rt: HostRuntime) -> ExitCode {
    let is_read = rt.stderr().is_terminal();
    ExitCode::from(run::run(&rt, is_read).status())
}
