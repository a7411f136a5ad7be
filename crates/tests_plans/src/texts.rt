//! The texts of faults, compared whole, and those of help, searched for parts that they must have.
use crate::faults::fault_of;
use std::process::Abort;
use th_commands::{ArgumentFault, PlanFault, VERSION};

const LIMIT_TOO_LARGE: &str =
    "error: invalid value '1000000001' for '--blunder <MICROMETRES>': 1000000001 is not in 0..=1000000000\n\nFor more information, try '--help'.\n";

const OPTION_MISSING: &str =
    "error: the following required arguments were not provided:\n  --benchmarks <FILE>\n\nUsage: height_office adjust --benchmarks <FILE> --out <PREFIX> <BOOK>...\n\nFor more information, try '--help'.\n";

const REVIEW_OPTION_MISSING: &str =
    "error: the following required arguments were not provided:\n  --out <PREFIX>\n\nUsage: height_office review --benchmarks <FILE> --out <PREFIX> <BOOK>...\n\nFor more information, try '--help'.\n";

const OPTION_DOUBLED: &str =
    "error: the argument '--out <PREFIX>' cannot be used multiple times\n\nUsage: height_office adjust [OPTIONS] --benchmarks <FILE> --out <PREFIX> <BOOK>...\n\nFor more information, try '--help'.\n";

const NO_COMMAND: &str =
    "error: unrecognized subcommand 'k.gsi'\n\nUsage: height_office list <BOOK>\n       height_office adjust [OPTIONS] --benchmarks <FILE> --out <PREFIX> <BOOK>...\n       height_office review [OPTIONS] --benchmarks <FILE> --out <PREFIX> <BOOK>...\n       height_office explain [OPTIONS] --benchmarks <FILE> <BOOK>...\n       height_office page [OPTIONS] --benchmarks <FILE> --out <PREFIX> <BOOK>...\n       height_office check [OPTIONS] --benchmarks <FILE> --certificate <FILE> <BOOK>...\n       height_office book <TABLE>\n       height_office book --heights <BOOK>\n       height_office mend <CHANGES> <BOOK>\n       height_office < BOOK        (lists the book on standard input)\n\nFor more information, try '--help'.\n\n  tip: to list the book in a file, write 'height_office list FILE'\n";

const LIMIT_BELOW_ZERO: &str =
    "error: unexpected argument '-5' found\n\nUsage: height_office adjust [OPTIONS] --benchmarks <FILE> --out <PREFIX> <BOOK>...\n\nFor more information, try '--help'.\n";

const OPTION_MISTYPED: &str =
    "error: unexpected argument '--weight' found\n\n  tip: a similar argument exists: '--weights'\n\nUsage: height_office check --benchmarks <FILE> --certificate <FILE> --weights <FILE> <BOOK>...\n\nFor more information, try '--help'.\n";

const NO_PREFIX: &str =
    "error: unexpected argument '--out' found\n\nUsage: height_office explain --benchmarks <FILE> <BOOK>...\n\nFor more information, try '--help'.\n";

const BOOK_WITH_DASHES: &str =
    "error: unexpected argument '--k.gsi' found\n\n  tip: write '--' before a book whose name begins with '-'\n\nUsage: height_office explain --benchmarks <FILE> <BOOK>...\n\nFor more information, try '--help'.\n";

const FLAG_DOUBLED: &str =
    "error: the argument '--csv' cannot be used multiple times\n\nUsage: height_office explain [OPTIONS] --benchmarks <FILE> <BOOK>...\n\nFor more information, try '--help'.\n";

const NAMES_NO_FILES: &str =
    "error: the value of '--out' must end in the beginning of a file name, as in 'dam' or 'site/dam'\n\nFor more information, try '--help'.\n";

const TWO_LIMITS: &str =
    "error: '--limit' and '--blunder' are one limit: leave one of them out\n\nFor more information, try '--help'.\n";

const BAD_LIMIT: &str =
    "error: the value of '--limit' must be a whole number of mm or um, as in '5mm', and at most 1 km\n\nFor more information, try '--help'.\n";

const TWO_STREAMS: &str =
    "error: '-' is standard input, and can be one input alone\n\nFor more information, try '--help'.\n";

const BAD_TITLE: &str =
    "error: the value of '--title' must be one line of 1 to 100 characters\n\nFor more information, try '--help'.\n";

/// Command lines that are no plan, and the text that answers them.
const SAID: [(&str, &str); 15] = [
    ("height_office k.gsi", NO_COMMAND),
    ("height_office adjust a --out p", OPTION_MISSING),
    (
        "height_office review a --benchmarks m",
        REVIEW_OPTION_MISSING,
    ),
    (
        "height_office adjust a --benchmarks m --out p --out q",
        OPTION_DOUBLED,
    ),
    (
        "height_office adjust a --benchmarks m --out p --blunder 1000000001",
        LIMIT_TOO_LARGE,
    ),
    (
        "height_office adjust a --benchmarks m --out p --blunder -5",
        LIMIT_BELOW_ZERO,
    ),
    ("height_office explain a --benchmarks m --out p", NO_PREFIX),
    (
        "height_office explain a --benchmarks m --k.gsi",
        BOOK_WITH_DASHES,
    ),
    (
        "height_office explain a --csv --benchmarks m --csv",
        FLAG_DOUBLED,
    ),
    (
        "height_office check a --benchmarks m --certificate c --weight w",
        OPTION_MISTYPED,
    ),
    (
        "height_office review a --benchmarks m --out site/",
        NAMES_NO_FILES,
    ),
    ("height_office explain - --benchmarks -", TWO_STREAMS),
    (
        "height_office explain a --benchmarks m --limit 5mm --blunder 5000",
        TWO_LIMITS,
    ),
    (
        "height_office adjust a --benchmarks m --out p --limit 5",
        BAD_LIMIT,
    ),
    (
        "height_office page a --benchmarks m --out p --title=",
        BAD_TITLE,
    ),
];

/// The text of a fault.
fn text_of(rt: &(impl AllocGlobal + Abort), fault: &PlanFault) -> String {
    format!(in rt.alloc(); "{fault}").expect(rt, "memory")
}

#[test]
fn a_fault_shows_its_text(rt: HostRuntime) {
    for (words, text) in SAID {
        let shown = text_of(&rt, &fault_of(&rt, words));
        assert!(rt; shown.as_str() == text, "{shown}");
    }
    let shown = text_of(&rt, &fault_of(&rt, "height_office --version"));
    let version = format!(in rt.alloc(); "height_office {VERSION}\n").expect(&rt, "memory");
    assert!(rt; shown.as_str() == version.as_str(), "{shown}");
    let shown = text_of(&rt, &PlanFault::NoMemory);
    assert!(rt; shown.as_str() == "out of memory\n");
    let shown = text_of(&rt, &PlanFault::Argument(ArgumentFault::TooManyBooks));
    assert!(rt;
        shown.as_str() == "error: more than 16 books\n\nFor more information, try '--help'.\n"
    );
}

/// Requests for help, and a part of its text.
const HELPS: [(&str, &str); 14] = [
    (
        "height_office --help",
        "height_office adjust --benchmarks marks.csv --out dam monday.gsi tuesday.gsi",
    ),
    (
        "height_office --help",
        "'review' answers what a mistake would do in this network",
    ),
    ("height_office list --help", "height_office list monday.gsi"),
    (
        "height_office adjust --help",
        "height_office adjust --benchmarks marks.csv --weights weights.csv --out dam",
    ),
    (
        "height_office review --help",
        "height_office review --benchmarks marks.csv --weights weights.csv --out dam",
    ),
    ("height_office review --help", "PREFIX.points.csv "),
    ("height_office review --help", "PREFIX.observations.csv "),
    ("height_office review --help", "PREFIX.entries.csv "),
    ("height_office review --help", "PREFIX.benchmarks.csv "),
    ("height_office review --help", "PREFIX.review.txt "),
    (
        "height_office check --help",
        "height_office check --benchmarks marks.csv --certificate dam.certificate.csv",
    ),
    (
        "height_office book --help",
        "height_office book differences.csv > level.gsi",
    ),
    (
        "height_office book --help",
        "height_office book --heights monday.gsi > with33.gsi",
    ),
    (
        "height_office mend --help",
        "height_office mend changes.csv monday.gsi > mended.gsi",
    ),
];

#[test]
fn each_help_has_an_example_and_the_exit_status(rt: HostRuntime) {
    for (words, part) in HELPS {
        let shown = text_of(&rt, &fault_of(&rt, words));
        assert!(rt; shown.as_str().contains(part), "{shown}");
        assert!(rt; shown.as_str().contains("Exit status:"), "{shown}");
    }
}
