//! The texts that the program prints if it is asked for help.

/// The version and its date, which follow the program's name.
pub const VERSION: &str = "1.0 (2026-11-28)";

/// The help of `--stations`.
pub const STATIONS_HELP: &str = "The station list, ghcnd-stations.txt";

/// The help of `--query`.
pub const QUERY_HELP: &str = "What to rank, in quotes: 'top 10 highest TMAX'";

/// The help of `--queries` of `rank`.
pub const QUERIES_HELP: &str =
    "A list of queries, one on each line, in place of --query. The daily files are read once for all
          of them, and the reports are printed in the order of the lines. - is standard input";

/// The help of `--papers` of `rank`.
pub const FOLDER_HELP: &str =
    "A folder for the report and the certificate of each query of --queries. Those of line N are
          the files N.report and N.certificate; no file that is there is overwritten";

/// The help of `--guess`.
pub const GUESS_HELP: &str =
    "A score that the k-th best record should reach, in tenths of a degree or of a
          millimetre, whole millimetres of snow, or days; a negative one is written --guess=-3";

/// The help of `--workers` of `rank`.
pub const WORKERS_HELP: &str =
    "How many threads read the files, and then look for records, 1 to 64; without this option
          there are 4. Fewer read, and one looks for records, if the files are small";

/// The help of `--workers` of `check`.
pub const CHECKERS_HELP: &str =
    "How many threads read the files, and then scan them for records, 1 to 64; without this
          option there are 4. Fewer read, and one scans, if the files are small";

/// The help of `--workers` of `describe`.
pub const READERS_HELP: &str =
    "How many threads read the files, 1 to 64; without this option there are 4. Fewer read if
          the files are small";

/// The help of `--certificate` of `rank`.
pub const CERTIFICATE_HELP: &str =
    "A file to write the certificate to: new, empty or an earlier certificate, and not one that
          the run reads. It has a line for each station series of the query, with a bound on the
          series' records";

/// The help of `--query` of `check`.
pub const CHECKED_QUERY_HELP: &str = "What was ranked, in quotes: 'top 10 highest TMAX'";

/// The help of `--queries` of `check`.
pub const CHECKED_QUERIES_HELP: &str =
    "A list of queries, one on each line, in place of --query. The daily files are read once for all
          of them, and the verdicts are printed in the order of the lines. - is standard input";

/// The help of `--papers` of `check`.
pub const FOLDER_TO_CHECK_HELP: &str =
    "The folder with the report and the certificate of each query of --queries. Those of line N
          are the files N.report and N.certificate";

/// The help of `--certificate` of `merge`.
pub const MERGED_CERTIFICATE_HELP: &str =
    "A file to write the merged certificate to: new, empty or an earlier certificate, and not
          one that the run reads";

/// The help of `--part`.
pub const PART_HELP: &str =
    "The files are those of some stations; the report and the certificate are those of a whole archive";

/// The help of `--files-from`.
pub const LIST_HELP: &str =
    "A list of more daily files and folders, one on each line. - is standard input";

/// The help of `--null`.
pub const NULL_HELP: &str =
    "Each name of LIST ends with a NUL instead of a line end, as find -print0 prints them";

/// The help of `--progress`.
pub const PROGRESS_HELP: &str = "Shows how much was read, if standard error is a terminal";

/// The help of the daily files.
pub const FILES_HELP: &str =
    "Daily files, .dly, uncompressed, or folders. A folder stands for its .dly files, but not for
          those in folders in it";

/// The help of the reports and certificates to merge.
pub const PAPERS_HELP: &str = "The report and the certificate of a part, then those of the next";

/// The help of `--stations` of `table`.
pub const PLACES_HELP: &str =
    "The station list, ghcnd-stations.txt; with it each record has the latitude, the longitude
          and the elevation of its row's station";

/// The help of the reports that become a table.
pub const REPORTS_HELP: &str =
    "Files of reports, each with one report or several. - is standard input, which is also read if
          no file is named";

/// The forms of a command line.
pub const USAGE: &str = "extremes rank --stations <FILE> --query <QUERY> [FILE]...
       extremes rank --stations <FILE> --queries <FILE> [--papers <FOLDER>] [FILE]...
       extremes merge --query <QUERY> [--certificate <OUT>] [REPORT CERTIFICATE]...
       extremes check [--part] --stations <FILE> --query <QUERY> --report <FILE> --certificate <FILE> [FILE]...
       extremes check [--part] --stations <FILE> --queries <FILE> --papers <FOLDER> [FILE]...
       extremes describe --stations <FILE> [FILE]...
       extremes table [--stations <FILE>] [REPORT]...
       extremes --version
       extremes rank --help
       extremes merge --help
       extremes check --help
       extremes describe --help
       extremes table --help";

/// The forms of a command line of `rank`.
pub const RANK_USAGE: &str = "extremes rank [OPTIONS] --stations <FILE> --query <QUERY> [FILE]...
       extremes rank [OPTIONS] --stations <FILE> --queries <FILE> [--papers <FOLDER>] [FILE]...";

/// The forms of a command line of `check`.
pub const CHECK_USAGE: &str =
    "extremes check [OPTIONS] --stations <FILE> --query <QUERY> --report <FILE> --certificate <FILE> [FILE]...
       extremes check [OPTIONS] --stations <FILE> --queries <FILE> --papers <FOLDER> [FILE]...";

/// The form of a command line of `merge`.
pub const MERGE_USAGE: &str =
    "extremes merge --query <QUERY> [--certificate <OUT>] [REPORT CERTIFICATE]...";

/// The text for an odd number of reports and certificates to merge, in the format of the parser's texts.
pub const ODD_PAPERS: &str =
    "error: each report is followed by its certificate, and the last one has none

Usage: extremes merge --query <QUERY> [--certificate <OUT>] [REPORT CERTIFICATE]...

For more information, try '--help'.
";

/// The text for `--null` without a list, in the format of the parser's texts.
pub const NULL_WITHOUT_LIST: &str =
    "error: --null says how the names of a list end, and --files-from names no list

For more information, try '--help'.
";

/// What is wrong if `rank` has neither a query nor a list of queries.
pub const NO_QUERY: &str = "rank needs --query <QUERY>, or --queries <FILE>";

/// What is wrong if there is a folder for reports and certificates, but no list of queries.
pub const FOLDER_WITHOUT_QUERIES: &str =
    "--papers names a folder for the reports and certificates of --queries, and --queries names no list";

/// What is wrong if `rank` has a list of queries and an option of the ranking of one query.
pub const QUERIES_AND_A_QUERY: &str =
    "--queries cannot be used with --query, --guess or --certificate";

/// What is wrong if `check` has neither all of the check of one query nor a list of queries.
pub const NO_PAPERS_TO_CHECK: &str =
    "check needs --query, --report and --certificate, or --queries and --papers";

/// What is wrong if `check` has a list of queries and no folder with reports and certificates.
pub const NO_FOLDER_TO_CHECK: &str = "--queries needs --papers <FOLDER>";

/// What is wrong if `check` has a list of queries and an option of the check of one query.
pub const QUERIES_AND_PAPERS: &str =
    "--queries cannot be used with --query, --report or --certificate";

/// What is wrong if two lists are standard input.
pub const TWO_INPUTS: &str = "--queries and --files-from cannot both be standard input";

/// The help after the subcommands.
pub const HELP: &str = "Without arguments, extremes prints the report of a built-in sample.

'extremes rank --help' describes queries, elements, units and exit statuses, and lists
what each refusal means; 'extremes merge --help' describes how to rank an archive in parts;
'extremes check --help' lists the verdicts; 'extremes describe --help' lists what is counted
in daily files; 'extremes table --help' lists the fields of a table of records.";

/// The help after the options of `rank`: queries, units, statuses and refusals.
pub const RANK_HELP: &str = "Queries:
  top K SCORE [REGION] [SEASON] [PERIOD] [GROUP]    K is from 1 to 1000

  SCORE    highest ELEM            greatest values of PRCP, SNOW, SNWD, TMAX or TMIN
           lowest TEMP             lowest values of TMAX or TMIN
           sum N FALL              greatest sums of N days in a row, 1 to 366, of PRCP or SNOW
           dry, wet                longest spells of days below 1 mm, or of at least 1 mm
           hot T                   longest spells of days whose TMAX is at least T, -100 to 100 degrees
           cold T                  longest spells of days whose TMIN is at most T
  REGION   box S W N E             degrees; over the date line if W is greater than E
           country CC              NOAA's code, the first two letters of the ID: GM is Germany
           state SS                the state's letters in the station list
           station ID
  SEASON   months A..B             only days of these months; 12..2 is December to February
           days MM-DD..MM-DD       only these days of each year; 12-15..01-15 goes over New Year
  PERIOD   from YYYY-MM-DD to YYYY-MM-DD, both days included
  GROUP    per station             the best row of each station alone
           per year                the best row of each year of each station, by the row's first day

Elements:
  TMAX     highest temperature of a day, degrees Celsius with one decimal
  TMIN     lowest temperature of a day, degrees Celsius with one decimal
  PRCP     precipitation, millimetres with one decimal
  SNOW     snowfall, whole millimetres
  SNWD     snow depth, whole millimetres

Examples:
  extremes rank --stations ghcnd-stations.txt --query 'top 10 highest TMAX' ghcnd_all
  extremes rank --stations ghcnd-stations.txt --query 'top 5 sum 3 PRCP country GM' GM*.dly
  extremes rank --stations ghcnd-stations.txt \\
      --query 'top 3 dry box 36 -115 42 -109 from 1991-01-01 to 2020-12-31' US*.dly
  extremes rank --stations ghcnd-stations.txt --queries queries.txt --papers records ghcnd_all

Lists of queries:
  Line N of the list of --queries is query N. All queries are read before the station list and the daily
  files, and an error of query N is followed by 'at FILE:N' on a line of its own. The daily files are
  read once. The reports are printed in the order of the lines, each as --query prints it. With --papers
  the report and the certificate of query N are the files N.report and N.certificate in FOLDER, which
  has to be there. If one of these files is there already, it isn't overwritten, and the run ends before
  the daily files are read. --guess and --certificate are for --query alone.

Exit statuses:
  0        done: the report, or that of each query, is on standard output
  1        refused: standard error says why
  2        the command line isn't valid, or asks for help
  3        a file, a folder or a list can't be read, a folder has no daily files, a list has no names,
           or a report or a certificate can't be written

All files are read to the end before an error is reported; an unreadable one is reported first. OUT
is a file, even if its name is -. 'file not written -' means that standard output can't be written.

Lines on standard error that end no run, in this order:
  foreign N PATH        N daily files have lines, but none of the five elements; PATH is the first
  odd N PATH:LINE       N lines aren't laid out as daily lines, and daily lines may be lost with them;
                        PATH:LINE is the first
  unlisted N            N lines of stations that aren't in the station list were left out

Refusals (A is the number of a word of the query, F that of a daily file, L that of a line, all from 1):
  refused 1 StationLine line L WHY        line L of the station list fails the test WHY
  refused 2 TooManyStations               the station list has more than 1048576 stations
  refused 3 Memory                        out of memory: the system gave no more
  refused 5 DailyLine file F line L WHY   line L of daily file F fails the test WHY. If a folder or a
                                          list is passed, 'at PATH:L' follows on a line of its own
  refused 6 TooManyFiles                  there are more than 1048576 daily files
  refused 7 QueryTooLong                  the query has more than 256 bytes
  refused 8 UnexpectedWord A              no query has this word at that place
  refused 9 QueryEnds                     the query ends where a word is needed
  refused 10 OutOfLimits A                K isn't from 1 to 1000, N not from 1 to 366, T not from -100
                                          to 100, or a month not from 1 to 12
  refused 11 BadDate A                    the word isn't a date, or isn't MM-DD..MM-DD
  refused 12 BadBox A                     an edge isn't a number of degrees, or N is less than S
  refused 13 EmptyPeriod                  the second date is before the first
  refused 18 BadWorkers                   the number of workers isn't from 1 to 64
  refused 19 BadGuess                     the guess isn't from -2147483648 to 2147483648
WHY is the first test that the line fails. In the station list: Short, BadId, BadLatitude,
BadLongitude, BadElevation, Duplicate. In a daily file: Short, TooLong, BadId, BadYear, BadMonth,
BadValue DAY, DuplicateMonth.";

/// The help after the options of `merge`: what it is for, refusals and statuses.
pub const MERGE_HELP: &str =
    "Merges the reports and certificates of parts into those of the whole, and reads no data. An archive is
cut into parts by stations: no station may be in two parts. Each part is ranked by a run of its own,
with a certificate. All parts need the same station list and the same query. The merged report is the
one of a single run over all files, byte for byte, and the merged certificate is right for all files,
if the report and the certificate of each part are right for its files and all files together have no
error. If no parts are named, the result is that of no data.

A report and a certificate don't have the number that 'rank' prints as 'unlisted'. The numbers of all
parts add up to that of the whole. 'merge' can't see whether the report and the certificate of a part
are right for its files: 'extremes check' over all files checks the merged ones. These can be merged
again.

Example:
  extremes rank --stations ghcnd-stations.txt --query 'top 10 highest TMAX' \\
      --certificate 1.certificate GM*.dly > 1.report
  extremes rank --stations ghcnd-stations.txt --query 'top 10 highest TMAX' \\
      --certificate 2.certificate US*.dly > 2.report
  extremes merge --query 'top 10 highest TMAX' --certificate all.certificate \\
      1.report 1.certificate 2.report 2.certificate > all.report

Refusals, of which the first is reported (P is the number of a part, L that of a line of a report or a
certificate, all from 1):
  refused part P report line L BadReport            the line doesn't match the format there
  refused part P certificate line L BadCertificate  the line doesn't match the format there
  refused part P OtherQuery                         the part's report or certificate has another query
  refused part P report line L OutOfOrder           the row before it doesn't precede it
  refused part P OtherFloor                         the k-th score isn't that of the report's rows
  refused part P certificate line L NotRising       the ID isn't above that of the line before
  refused part P report line L NotScanned           no series of the row's station was scanned
  refused part P certificate line L NotCounted      the number after the bound isn't that of the
                                                    report's rows of the station
  refused twice ID                                  the station has lines in two certificates
  refused 3 Memory                                  out of memory: the system gave no more

An error of the query is reported before any of these, as by 'rank'.

Exit statuses:
  0        done: the report is on standard output
  1        refused: one line on standard error says why
  2        the command line isn't valid, asks for help, or has a report without its certificate
  3        a report or a certificate can't be read, or can't be written";

/// The help after the options of `check`: verdicts and statuses.
pub const CHECK_HELP: &str =
    "Checks a report and a certificate, whatever program made them, against the files alone. The verdict
is one line on standard output:

  accepted                            the report is the right one, and the certificate a right one
  refused report line L WHY           line L of the report is the first that fails a test
  refused certificate line L WHY      line L of the certificate is the first that fails a test

WHY, in the order of the tests:
  Form             the line doesn't match the format there
  OtherQuery       it has another query than the one that you pass
  NotACandidate    no candidate has this station, these days, this value and this name
  OutOfOrder       the row before it doesn't precede it
  NotBest          fewer or more candidates precede it than its rank says
  TooFew           there are more candidates than rows, and fewer rows than were asked for
  OtherFloor       it isn't the score of the k-th best, or 'none' if there are fewer
  OtherSeries      another series comes at this place, or a series has no line
  NoBound          a candidate of the series has a score above the bound
  NotBelow         the series is skipped, and its bound isn't strictly below the k-th score
  NotCounted       the number after the bound isn't that of the report's rows of the station

With --part the report and the certificate are those of a whole archive, and the files those of some of
its stations. What can be seen without data is tested first, and then the lines of these files' series.
The verdict is

  accepted N of M                     no test fails: these files have N series of the query, and
                                      the certificate has M lines

or the refusal of the first line that fails a test. A series of these files without a line is
OtherSeries at the certificate's end line. The report and the certificate are right for the whole
archive if each of its parts accepts them, the N of all parts add up to M, no station is in two parts
and all files together have no error. All parts need the same station list, the same query, the same
report and the same certificate.

Examples:
  extremes check --stations ghcnd-stations.txt --query 'top 10 highest TMAX' \\
      --report report.txt --certificate certificate.txt ghcnd_all
  extremes check --part --stations ghcnd-stations.txt --query 'top 10 highest TMAX' \\
      --report report.txt --certificate certificate.txt GM*.dly
  extremes check --stations ghcnd-stations.txt --queries queries.txt --papers records ghcnd_all

Lists of queries:
  Line N of the list of --queries is query N. All queries are read before the station list and the daily
  files, and an error of query N is followed by 'at FILE:N' on a line of its own. Then each
  report and certificate is opened; if one can't be, the run ends before the daily files are read. The
  daily files are read once. Line N of standard output is the verdict on the report and the certificate
  of query N.

Exit statuses:
  0        accepted, each of them
  1        refused: a report or a certificate, by a line on standard output, or the input, by
           standard error
  2        the command line isn't valid, or asks for help
  3        a file, a folder or a list can't be read, a folder has no daily files, a list has no names,
           or the verdict can't be written

'extremes rank --help' describes queries, and lists what each refusal of the input means.";

/// The help after the options of `describe`: what is counted, and statuses.
pub const DESCRIBE_HELP: &str =
    "Counts what the lines of daily files hold, and prints the numbers on standard output:

  stations N               listed stations
  files N, lines N         the daily files that you name, and all their lines
  element CODE lines N series N days N flagged N from DAY to DAY
                           of each of the five elements, and of listed stations alone: the lines, the
                           stations that have a usable day, the usable days, the values that a quality
                           check flagged, and the first and last usable day if there is one
  other CODE lines N       lines with another code in columns 18 to 21; ? stands for a byte that can't
                           be seen. The first 200 codes by their bytes are named
  others lines N           lines with further codes, if there are any
  odd lines N              lines with another code that aren't laid out as lines of daily files: lines of
                           the five elements may be lost with them
  unlisted lines N         lines of the five elements whose station isn't listed
  blank lines N            lines that are empty or have only blanks

The lines of elements, of other codes, of unlisted stations and of blanks add up to all lines. A ranking
leaves out the lines with another code, whatever else they hold.

Example:
  extremes describe --stations ghcnd-stations.txt ghcnd_all

Exit statuses:
  0        done: the description is on standard output
  1        refused: standard error says why
  2        the command line isn't valid, or asks for help
  3        a file, a folder or a list can't be read, a folder has no daily files, a list has no names,
           or the description can't be written

'extremes rank --help' lists what each refusal means.";

/// The help after the options of `table`: fields, refusals and statuses.
pub const TABLE_HELP: &str =
    "Prints the rows of reports of 'rank' or 'merge' as comma-separated values, for a spreadsheet, pandas,
R, SQLite or a map. Reports may come one after the other in a file. All files are read before a byte is
printed. The first record has the names of the fields:

  query                    the query of the report
  rank,id,first,last       the row's rank, its station's ID, its first and its last day
  value,unit,name          the value, its unit, and the station's name, which may be empty
  latitude,longitude       with --stations: degrees north and east with four decimals
  elevation                with --stations: metres with one decimal; empty if it is missing

A field with a comma or a quote is in quotes, and a quote in it is doubled. Each record ends by a line
feed.

Examples:
  extremes rank --stations ghcnd-stations.txt --query 'top 10 highest TMAX' ghcnd_all |
      extremes table --stations ghcnd-stations.txt > records.csv
  extremes table *.report > records.csv

Refusals, of which the first is reported (F is the number of a file of reports, L that of a line of it,
both from 1):
  refused file F line L BadReport   the line doesn't match the format there, or the file ends before it.
                                    An empty file is refused at line 1
  refused file F line L NotListed   the station of the row on that line isn't in the station list
  refused 3 Memory                  out of memory: the system gave no more

An error of the station list is reported before any of these, as by 'rank'; the format of all files is
tested before any station.

Exit statuses:
  0        done: the table is on standard output
  1        refused: one line on standard error says why, and nothing was printed
  2        the command line isn't valid, or asks for help
  3        a file can't be read, or the table can't be written";
