//! What the arguments of a command line ask for, and the statuses.

use super::*;
use command_line::{
    CheckArguments, CheckEachArguments, Command, CommandFault, DescribeArguments, MergeArguments,
    NamedFiles, RankArguments, RankEachArguments, command,
};
use std::alloc::{AllocError, Global};
use std::test::Fail;

fn words_of(alloc: Global, words: &[&str]) -> Result<Vec<String>, AllocError> {
    words
        .iter()
        .map(|word| String::from_str(alloc, word))
        .try_collect(alloc)
}

/// Whether these are the arguments.
fn are_words(found: &[String], words: &[&str]) -> bool {
    for (found, word) in found.iter().zip(words) {
        if found.as_str() != *word {
            return false;
        }
    }
    found.len() == words.len()
}

#[test]
fn commands_of_words(rt: HostRuntime) -> Result<(), Fail> {
    let none = command(rt.alloc(), words_of(rt.alloc(), &[])?);
    assert!(rt; matches!(none, Ok(Command::Sample)));
    let rank = words_of(
        rt.alloc(),
        &[
            "rank",
            "--stations",
            "s",
            "--query",
            "q",
            "--guess=-3",
            "--workers",
            "64",
            "--certificate=c",
            "a",
            "b",
        ],
    )?;
    let Ok(Command::Rank(asked)) = command(rt.alloc(), rank) else {
        return Err(Fail::from("no command to rank"));
    };
    let RankArguments {
        stations,
        query,
        workers,
        guess,
        certificate,
        files,
    } = asked;
    assert_eq!(rt; stations.as_str(), "s");
    assert_eq!(rt; query.as_str(), "q");
    assert_eq!(rt; workers, 64);
    assert_eq!(rt; guess, Some(-3));
    assert_eq!(rt; certificate.as_ref().map(|path| path.as_str()), Some("c"));
    assert!(rt; are_words(files.paths.as_slice(), &["a", "b"]));
    Ok(())
}

#[test]
fn commands_to_rank_each(rt: HostRuntime) -> Result<(), Fail> {
    let each = [
        "rank",
        "--stations=s",
        "--queries=l",
        "--papers",
        "p",
        "--workers=64",
        "a",
        "b",
    ];
    let Ok(Command::RankEach(asked)) = command(rt.alloc(), words_of(rt.alloc(), &each)?) else {
        return Err(Fail::from("no command to rank each query"));
    };
    let RankEachArguments {
        stations,
        queries,
        papers,
        workers,
        files,
    } = asked;
    assert_eq!(rt; stations.as_str(), "s");
    assert_eq!(rt; queries.as_str(), "l");
    assert_eq!(rt; papers.as_deref(), Some("p"));
    assert_eq!(rt; workers, 64);
    assert!(rt; are_words(files.paths.as_slice(), &["a", "b"]));
    let alone = words_of(rt.alloc(), &["rank", "--queries", "-", "--stations=s"])?;
    let Ok(Command::RankEach(asked)) = command(rt.alloc(), alone) else {
        return Err(Fail::from("no command to rank each query of standard input"));
    };
    assert_eq!(rt; asked.queries.as_str(), "-");
    assert!(rt; asked.papers.is_none());
    assert_eq!(rt; asked.workers, 4);
    Ok(())
}

#[test]
fn commands_to_merge(rt: HostRuntime) -> Result<(), Fail> {
    let merge = [
        "merge",
        "r",
        "c",
        "--query=q",
        "--certificate",
        "o",
        "s",
        "d",
    ];
    let Ok(Command::Merge(asked)) = command(rt.alloc(), words_of(rt.alloc(), &merge)?) else {
        return Err(Fail::from("no command to merge"));
    };
    let MergeArguments {
        query,
        certificate,
        parts,
    } = asked;
    assert_eq!(rt; query.as_str(), "q");
    assert_eq!(rt; certificate.as_ref().map(|path| path.as_str()), Some("o"));
    assert_eq!(rt; parts.len(), 2);
    for (part, (report, certificate)) in parts.iter().zip([("r", "c"), ("s", "d")]) {
        assert_eq!(rt; part.report.as_str(), report);
        assert_eq!(rt; part.certificate.as_str(), certificate);
    }
    let none = words_of(rt.alloc(), &["merge", "--query=q"])?;
    let Ok(Command::Merge(asked)) = command(rt.alloc(), none) else {
        return Err(Fail::from("no command to merge nothing"));
    };
    assert!(rt; asked.certificate.is_none());
    Ok(())
}

#[test]
fn commands_to_check(rt: HostRuntime) -> Result<(), Fail> {
    let check = [
        "check",
        "--stations=s",
        "--query=q",
        "--report=r",
        "--certificate=c",
        "a",
        "b",
    ];
    let Ok(Command::Check(asked)) = command(rt.alloc(), words_of(rt.alloc(), &check)?) else {
        return Err(Fail::from("no command to check"));
    };
    let CheckArguments {
        stations,
        query,
        report,
        certificate,
        part,
        workers,
        files,
    } = asked;
    let texts = [&stations, &query, &report, &certificate];
    for (text, expected) in texts.iter().zip(["s", "q", "r", "c"]) {
        assert_eq!(rt; text.as_str(), expected);
    }
    assert!(rt; are_words(files.paths.as_slice(), &["a", "b"]));
    assert!(rt; !part);
    assert_eq!(rt; workers, 4);
    Ok(())
}

#[test]
fn commands_to_check_a_part(rt: HostRuntime) -> Result<(), Fail> {
    let of_part = [
        "check",
        "--part",
        "--stations=s",
        "--query=q",
        "--report=r",
        "--certificate=c",
        "--workers=64",
    ];
    let Ok(Command::Check(asked)) = command(rt.alloc(), words_of(rt.alloc(), &of_part)?) else {
        return Err(Fail::from("no command to check a part"));
    };
    assert!(rt; asked.part);
    assert_eq!(rt; asked.workers, 64);
    Ok(())
}

#[test]
fn commands_to_check_each(rt: HostRuntime) -> Result<(), Fail> {
    let each = [
        "check",
        "--stations=s",
        "--queries=l",
        "--papers",
        "p",
        "--part",
        "--workers=64",
        "a",
        "b",
    ];
    let Ok(Command::CheckEach(asked)) = command(rt.alloc(), words_of(rt.alloc(), &each)?) else {
        return Err(Fail::from("no command to check each query"));
    };
    let CheckEachArguments {
        stations,
        queries,
        papers,
        part,
        workers,
        files,
    } = asked;
    let texts = [&stations, &queries, &papers];
    for (text, expected) in texts.iter().zip(["s", "l", "p"]) {
        assert_eq!(rt; text.as_str(), expected);
    }
    assert!(rt; part);
    assert_eq!(rt; workers, 64);
    assert!(rt; are_words(files.paths.as_slice(), &["a", "b"]));
    Ok(())
}

#[test]
fn commands_to_describe(rt: HostRuntime) -> Result<(), Fail> {
    let describe = words_of(rt.alloc(), &["describe", "a", "--stations=s", "b"])?;
    let Ok(Command::Describe(asked)) = command(rt.alloc(), describe) else {
        return Err(Fail::from("no command to describe"));
    };
    let DescribeArguments {
        stations,
        workers,
        files,
    } = asked;
    assert_eq!(rt; stations.as_str(), "s");
    assert_eq!(rt; workers, 4);
    assert!(rt; are_words(files.paths.as_slice(), &["a", "b"]));
    Ok(())
}

#[test]
fn commands_to_describe_by_some(rt: HostRuntime) -> Result<(), Fail> {
    let describe = words_of(rt.alloc(), &["describe", "--workers=64", "--stations=s"])?;
    let Ok(Command::Describe(asked)) = command(rt.alloc(), describe) else {
        return Err(Fail::from("no command to describe"));
    };
    assert_eq!(rt; asked.workers, 64);
    Ok(())
}

#[test]
fn commands_to_make_tables(rt: HostRuntime) -> Result<(), Fail> {
    let cases: [(&[&str], Option<&str>, &[&str]); 3] = [
        (&["table"], None, &["-"]),
        (&["table", "a", "--stations=s", "-"], Some("s"), &["a", "-"]),
        (&["table", "--", "--stations"], None, &["--stations"]),
    ];
    for (words, list, paths) in cases {
        let given = words_of(rt.alloc(), words)?;
        let Ok(Command::Table(asked)) = command(rt.alloc(), given) else {
            return Err(Fail::from("no command to make a table"));
        };
        assert_eq!(rt; asked.stations.as_deref(), list, "at {words:?}");
        assert!(rt; are_words(asked.reports.as_slice(), paths), "at {words:?}");
    }
    Ok(())
}

/// The daily files that a command names.
fn files_of(command: Command) -> Option<NamedFiles> {
    match command {
        Command::Rank(asked) => Some(asked.files),
        Command::RankEach(asked) => Some(asked.files),
        Command::Check(asked) => Some(asked.files),
        Command::CheckEach(asked) => Some(asked.files),
        Command::Describe(asked) => Some(asked.files),
        Command::Sample => None,
        Command::Merge(_) => None,
        Command::Table(_) => None,
    }
}

/// The arguments that begin each command that is given daily files.
const FRONTS: [&[&str]; 5] = [
    &["rank", "--stations=s", "--query=q"],
    &["rank", "--stations=s", "--queries=l"],
    &[
        "check",
        "--part",
        "--stations=s",
        "--query=q",
        "--report=r",
        "--certificate=c",
    ],
    &["check", "--stations=s", "--queries=l", "--papers=p"],
    &["describe", "--stations=s"],
];

/// Arguments that follow these, and the paths, the list and the flag that they name.
const LISTS: [(&[&str], &[&str], Option<&str>, bool); 6] = [
    (&[], &[], None, false),
    (&["a"], &["a"], None, false),
    (&["--files-from", "l"], &[], Some("l"), false),
    (&["--files-from=-", "a"], &["a"], Some("-"), false),
    (
        &["a", "-0", "--files-from", "l", "b"],
        &["a", "b"],
        Some("l"),
        true,
    ),
    (
        &["--null", "--files-from=./-", "--", "-"],
        &["-"],
        Some("./-"),
        true,
    ),
];

#[test]
fn commands_with_a_list(rt: HostRuntime) -> Result<(), Fail> {
    let alloc = rt.alloc();
    for front in FRONTS {
        for (more, paths, list, null) in LISTS {
            let mut words = words_of(alloc, front)?;
            words.append(&mut words_of(alloc, more)?)?;
            let Ok(asked) = command(alloc, words) else {
                return Err(Fail::from("no command"));
            };
            let Some(files) = files_of(asked) else {
                return Err(Fail::from("no files"));
            };
            assert!(rt; are_words(files.paths.as_slice(), paths), "at {more:?}");
            assert_eq!(rt; files.list.as_deref(), list, "at {more:?}");
            assert_eq!(rt; files.null, null, "at {more:?}");
        }
    }
    Ok(())
}

#[test]
fn commands_that_lack_an_option(rt: HostRuntime) -> Result<(), Fail> {
    let cases: [&[&str]; 3] = [
        &["rank", "--query", "q"],
        &["describe", "a"],
        &["check", "--stations=s", "--query=q", "--report=r"],
    ];
    for words in cases {
        let without = words_of(rt.alloc(), words)?;
        assert!(rt; matches!(command(rt.alloc(), without), Err(CommandFault::Words(_))));
    }
    Ok(())
}

/// The text that arguments which ask for no run show.
fn shown(alloc: Global, words: &[&str]) -> Result<String, Fail> {
    let Err(CommandFault::Words(text)) = command(alloc, words_of(alloc, words)?) else {
        return Err(Fail::from("no text to show"));
    };
    Ok(text)
}

#[test]
fn texts_of_words(rt: HostRuntime) -> Result<(), Fail> {
    let odd = "error: each report is followed by its certificate, and the last one has none\n";
    let null = "error: --null says how the names of a list end, and --files-from names no list\n";
    let cases: [(&[&str], &str); 16] = [
        (&["rank", "--stations=s", "--query=q", "--null", "a"], null),
        (&["rank", "--stations=s", "--queries=l", "-0", "a"], null),
        (
            &[
                "check",
                "--stations=s",
                "--query=q",
                "--report=r",
                "--certificate=c",
                "-0",
            ],
            null,
        ),
        (&["describe", "--stations=s", "-0"], null),
        (
            &[
                "check",
                "--stations=s",
                "--query=q",
                "--report=r",
                "--certificate=c",
                "--workers=65",
            ],
            "65 is not in 1..=64",
        ),
        (
            &["describe", "--stations=s", "--workers=0"],
            "0 is not in 1..=64",
        ),
        (&["merge", "--query=q", "--files-from=l"], "'--files-from'"),
        (&["merge", "--query=q", "-0"], "'-0'"),
        (&["table", "--query=q"], "'--query'"),
        (&["merge", "--query=q", "r"], odd),
        (&["merge", "r", "c", "s", "--query=q"], odd),
        (
            &["merge"],
            "merge --query <QUERY> [--certificate <OUT>] [REPORT CERTIFICATE]...\n",
        ),
        (
            &["check"],
            "check [OPTIONS] --stations <FILE> --query <QUERY> --report <FILE>",
        ),
        (&["--help"], "'extremes rank --help' describes queries"),
        (&["--query", "top 1 dry"], "\n       extremes rank --help\n"),
        (&["top"], "\n       extremes rank --help\n"),
    ];
    for (words, part) in cases {
        let text = shown(rt.alloc(), words)?;
        assert!(rt; text.as_str().contains(part), "at {part:?}: {text}");
    }
    Ok(())
}

#[test]
fn texts_of_queries_and_a_query(rt: HostRuntime) -> Result<(), Fail> {
    let neither = "error: rank needs --query <QUERY>, or --queries <FILE>\n\nUsage: extremes rank ";
    let both = "error: --queries cannot be used with --query, --guess or --certificate\n\nUsage: ";
    let folder =
        "error: --papers names a folder for the reports and certificates of --queries, and --queries";
    let inputs = "error: --queries and --files-from cannot both be standard input\n";
    let cases: [(&[&str], &str); 6] = [
        (&["a"], neither),
        (&["--query=q", "--queries=l"], both),
        (&["--queries=l", "--guess=3"], both),
        (&["--queries=l", "--certificate=c", "--papers=p"], both),
        (&["--query=q", "--papers=p"], folder),
        (&["--queries=-", "--files-from=-"], inputs),
    ];
    for (more, part) in cases {
        let mut words = words_of(rt.alloc(), &["rank", "--stations=s"])?;
        words.append(&mut words_of(rt.alloc(), more)?)?;
        let Err(CommandFault::Words(text)) = command(rt.alloc(), words) else {
            return Err(Fail::from("no text to show"));
        };
        assert!(rt; text.as_str().contains(part), "at {part:?}: {text}");
    }
    Ok(())
}

#[test]
fn texts_of_queries_and_papers(rt: HostRuntime) -> Result<(), Fail> {
    let missing =
        "error: check needs --query, --report and --certificate, or --queries and --papers\n";
    let both = "error: --queries cannot be used with --query, --report or --certificate\n\nUsage: ";
    let folder =
        "error: --papers names a folder for the reports and certificates of --queries, and --queries";
    let inputs = "error: --queries and --files-from cannot both be standard input\n";
    let cases: [(&[&str], &str); 9] = [
        (&["a"], missing),
        (&["--report=r", "--certificate=c"], missing),
        (&["--query=q", "--certificate=c"], missing),
        (
            &["--query=q", "--report=r", "--certificate=c", "--papers=p"],
            folder,
        ),
        (&["--queries=l", "--papers=p", "--query=q"], both),
        (&["--queries=l", "--papers=p", "--report=r"], both),
        (&["--queries=l", "--papers=p", "--certificate=c"], both),
        (
            &["--queries=l"],
            "error: --queries needs --papers <FOLDER>\n",
        ),
        (&["--queries=-", "--papers=p", "--files-from=-"], inputs),
    ];
    for (more, part) in cases {
        let mut words = words_of(rt.alloc(), &["check", "--stations=s"])?;
        words.append(&mut words_of(rt.alloc(), more)?)?;
        let Err(CommandFault::Words(text)) = command(rt.alloc(), words) else {
            return Err(Fail::from("no text to show"));
        };
        assert!(rt; text.as_str().contains(part), "at {part:?}: {text}");
    }
    Ok(())
}

#[test]
fn helps_of_commands(rt: HostRuntime) -> Result<(), Fail> {
    let cases = [
        (
            "merge",
            "\n  refused twice ID                                  the station has lines",
        ),
        (
            "check",
            "\n  NotBest          fewer or more candidates precede it",
        ),
        (
            "describe",
            "\n  others lines N           lines with further codes",
        ),
        (
            "rank",
            "\n  top K SCORE [REGION] [SEASON] [PERIOD] [GROUP]    K is from 1 to 1000\n",
        ),
        ("rank", "\n           sum N FALL "),
        ("rank", "--query 'top 5 sum 3 PRCP country GM' GM*.dly\n"),
        (
            "rank",
            "ghcnd-stations.txt \\\n      --query 'top 3 dry box",
        ),
        ("rank", "\n  SNWD     snow depth, whole millimetres\n"),
        ("rank", "--files-from <LIST>"),
        (
            "rank",
            "\nLists of queries:\n  Line N of the list of --queries is query N.",
        ),
        ("check", "-0, --null"),
        (
            "check",
            "\nLists of queries:\n  Line N of the list of --queries is query N.",
        ),
        ("describe", "A folder stands for its .dly files"),
        (
            "table",
            "\n  refused file F line L NotListed   the station of the row",
        ),
    ];
    for (command, part) in cases {
        let text = shown(rt.alloc(), &[command, "--help"])?;
        assert!(rt; text.as_str().contains(part), "at {part:?}: {text}");
    }
    Ok(())
}

/// Each word of a query and each refusal has a line.
#[test]
fn help_of_rank(rt: HostRuntime) -> Result<(), Fail> {
    let parts = [
        "highest ELEM            greatest values of PRCP, SNOW, SNWD, TMAX or TMIN",
        "lowest TEMP             lowest values of TMAX or TMIN",
        "sum N FALL              greatest sums of N days in a row, 1 to 366, of PRCP or SNOW",
        "dry, wet                longest spells of days below 1 mm, or of at least 1 mm",
        "hot T                   longest spells of days whose TMAX is at least T,",
        "cold T                  longest spells of days whose TMIN is at most T",
        "box S W N E ",
        "country CC ",
        "state SS ",
        "station ID\n",
        "months A..B ",
        "from YYYY-MM-DD to YYYY-MM-DD",
        "refused 1 StationLine line L WHY ",
        "refused 2 TooManyStations ",
        "refused 3 Memory ",
        "refused 5 DailyLine file F line L WHY ",
        "refused 6 TooManyFiles ",
        "refused 7 QueryTooLong ",
        "refused 8 UnexpectedWord A ",
        "refused 9 QueryEnds ",
        "refused 10 OutOfLimits A ",
        "refused 11 BadDate A ",
        "refused 12 BadBox A ",
        "refused 13 EmptyPeriod ",
        "refused 18 BadWorkers ",
        "refused 19 BadGuess ",
        "Short, BadId, BadLatitude,",
        "BadLongitude, BadElevation, Duplicate.",
        "Short, TooLong, BadId, BadYear, BadMonth,",
        "BadValue DAY, DuplicateMonth.",
    ];
    let text = shown(rt.alloc(), &["rank", "--help"])?;
    for part in parts {
        assert!(rt; text.as_str().contains(part), "at {part:?}: {text}");
    }
    Ok(())
}

#[test]
fn statuses(rt: HostRuntime) {
    let cases = [
        (Ending::Done, 0),
        (Ending::Refused, 1),
        (Ending::Words, 2),
        (Ending::File, 3),
    ];
    for (ending, status) in cases {
        assert_eq!(rt; ending.status(), status, "at {ending:?}");
    }
}
