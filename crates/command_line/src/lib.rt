//! What the arguments of a command line ask for.
//!
//! `clap` reads the arguments, and has their help and errors. The crate makes a command of them.
#![tactic(auto)]

mod asked;
mod given;
mod help;
mod words;

pub use asked::{
    CheckArguments, CheckEachArguments, Command, CommandFault, DescribeArguments, MergeArguments,
    NamedFiles, Part, RankArguments, RankEachArguments, TableArguments,
};
pub use words::command;
