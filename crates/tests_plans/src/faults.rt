//! Command lines that are no plan, against the faults and the kinds of error that answer them.
use crate::plans::words_of;
use clap::error::ErrorKind;
use std::process::Abort;
use th_commands::{ArgumentFault, PlanFault, plan};

/// The fault of words that are no plan.
pub fn fault_of(rt: &(impl AllocGlobal + Abort), words: &str) -> PlanFault {
    let split = words_of(rt, words);
    let answer = plan(rt.alloc(), split.as_slice());
    answer.err().expect(rt, "a fault")
}

/// Seventeen books.
const TOO_MANY_BOOKS: [&str; 3] = [
    "height_office adjust 1 2 3 4 5 6 7 8 9 10 11 12 13 14 15 16 17 --benchmarks m --out p",
    "height_office review 1 2 3 4 5 6 7 8 9 10 11 12 13 14 15 16 17 --benchmarks m --out p",
    "height_office check 1 2 3 4 5 6 7 8 9 10 11 12 13 14 15 16 17 --benchmarks m --certificate c",
];

#[test]
fn seventeen_books_are_too_many(rt: HostRuntime) {
    for words in TOO_MANY_BOOKS {
        is_faulty(&rt, words, ArgumentFault::TooManyBooks);
    }
}

/// An argument has this fault.
fn is_faulty(rt: &(impl AllocGlobal + Abort), words: &str, fault: ArgumentFault) {
    match fault_of(rt, words) {
        PlanFault::Argument(own) => assert!(rt; own == fault, "{words}"),
        _ => assert!(rt; false, "{words}"),
    }
}

/// Prefixes that name no files.
const NO_FILES: [&str; 10] = [
    "", "/", ".", "..", "a/", "a/.", "a/..", "./", "../..", "a//",
];

#[test]
fn a_prefix_must_name_files(rt: HostRuntime) {
    for prefix in NO_FILES {
        for command in ["adjust", "review"] {
            let apart = format!(in rt.alloc();
                "height_office {command} a --benchmarks m --out {prefix}"
            );
            let apart = apart.expect(&rt, "memory");
            is_faulty(&rt, apart.as_str(), ArgumentFault::NamesNoFiles);
            let joined = format!(in rt.alloc();
                "height_office {command} --out={prefix} --benchmarks m a"
            );
            let joined = joined.expect(&rt, "memory");
            is_faulty(&rt, joined.as_str(), ArgumentFault::NamesNoFiles);
        }
    }
}

/// Options with a wrong value, and their faults: of several the first one.
const WRONG_VALUES: [(&str, ArgumentFault); 32] = [
    (
        "adjust 1 2 3 4 5 6 7 8 9 10 11 12 13 14 15 16 17 --out=",
        ArgumentFault::TooManyBooks,
    ),
    ("adjust - b - --out=", ArgumentFault::TwoStreams),
    ("explain - --weights -", ArgumentFault::TwoStreams),
    (
        "check a --weights - --certificate -",
        ArgumentFault::TwoStreams,
    ),
    (
        "page a --out= --limit 5 --title=",
        ArgumentFault::NamesNoFiles,
    ),
    (
        "page a --out=p --limit 5 --blunder 5 --title=",
        ArgumentFault::TwoLimits,
    ),
    (
        "adjust a --out=p --limit 5mm --blunder 5000",
        ArgumentFault::TwoLimits,
    ),
    (
        "explain a --limit 5mm --blunder 0",
        ArgumentFault::TwoLimits,
    ),
    ("page a --out=p --limit 5 --title=", ArgumentFault::BadLimit),
    // Neither a whole number, nor a unit that is taken.
    ("adjust a --out=p --limit 5", ArgumentFault::BadLimit),
    ("adjust a --out=p --limit=", ArgumentFault::BadLimit),
    ("adjust a --out=p --limit mm", ArgumentFault::BadLimit),
    ("adjust a --out=p --limit um", ArgumentFault::BadLimit),
    ("adjust a --out=p --limit m", ArgumentFault::BadLimit),
    ("adjust a --out=p --limit 5m", ArgumentFault::BadLimit),
    ("adjust a --out=p --limit 5cm", ArgumentFault::BadLimit),
    ("adjust a --out=p --limit 5MM", ArgumentFault::BadLimit),
    ("adjust a --out=p --limit 5mmm", ArgumentFault::BadLimit),
    ("adjust a --out=p --limit 5umm", ArgumentFault::BadLimit),
    ("adjust a --out=p --limit 5mum", ArgumentFault::BadLimit),
    ("adjust a --out=p --limit mm5", ArgumentFault::BadLimit),
    ("adjust a --out=p --limit 0.5mm", ArgumentFault::BadLimit),
    ("adjust a --out=p --limit=-5mm", ArgumentFault::BadLimit),
    ("adjust a --out=p --limit ++5mm", ArgumentFault::BadLimit),
    ("adjust a --out=p --limit 5\u{b5}m", ArgumentFault::BadLimit),
    // Too large, also for the numbers that the program computes with.
    (
        "review a --out=p --limit 1000001mm",
        ArgumentFault::BadLimit,
    ),
    (
        "review a --out=p --limit 1000000001um",
        ArgumentFault::BadLimit,
    ),
    (
        "review a --out=p --limit 4294968mm",
        ArgumentFault::BadLimit,
    ),
    (
        "review a --out=p --limit 4294967296um",
        ArgumentFault::BadLimit,
    ),
    ("page a --out=p --title=", ArgumentFault::BadTitle),
    ("page a --out=p --title=a\nb", ArgumentFault::BadTitle),
    ("page a --out=p --title=a\u{7f}", ArgumentFault::BadTitle),
];

#[test]
fn the_first_wrong_value_is_reported(rt: HostRuntime) {
    for (words, fault) in WRONG_VALUES {
        let words = format!(in rt.alloc(); "height_office {words} --benchmarks m");
        is_faulty(&rt, words.expect(&rt, "memory").as_str(), fault);
    }
}

#[test]
fn a_table_and_its_book_are_not_both_standard_input(rt: HostRuntime) {
    is_faulty(&rt, "height_office mend - -", ArgumentFault::TwoStreams);
}

#[test]
fn a_title_has_at_most_a_hundred_characters(rt: HostRuntime) {
    let mut title = String::new(rt.alloc());
    for _ in 0..50_u8 {
        title.push_str("\u{fc}\u{1f3d4}").expect(&rt, "memory");
    }
    let words = format!(in rt.alloc();
        "height_office page a --benchmarks m --out p --title {title}"
    );
    let words = words.expect(&rt, "memory");
    let split = words_of(&rt, words.as_str());
    assert!(rt; plan(rt.alloc(), split.as_slice()).is_ok());
    let longer = format!(in rt.alloc(); "{words}a").expect(&rt, "memory");
    is_faulty(&rt, longer.as_str(), ArgumentFault::BadTitle);
}

/// Words that are no plan, and the kind of the error that `clap` answers.
const WRONG_WORDS: [(&str, ErrorKind); 80] = [
    ("height_office list", ErrorKind::MissingRequiredArgument),
    ("height_office list a b", ErrorKind::UnknownArgument),
    ("height_office lisst a", ErrorKind::InvalidSubcommand),
    ("height_office k.gsi", ErrorKind::InvalidSubcommand),
    ("height_office k.gsi --out p", ErrorKind::InvalidSubcommand),
    ("height_office --wide", ErrorKind::UnknownArgument),
    ("height_office --", ErrorKind::MissingSubcommand),
    ("height_office --help", ErrorKind::DisplayHelp),
    ("height_office help", ErrorKind::DisplayHelp),
    ("height_office help adjust", ErrorKind::DisplayHelp),
    ("height_office --version", ErrorKind::DisplayVersion),
    ("height_office list -h", ErrorKind::DisplayHelp),
    ("height_office adjust -h", ErrorKind::DisplayHelp),
    ("height_office review -h", ErrorKind::DisplayHelp),
    ("height_office help review", ErrorKind::DisplayHelp),
    ("height_office reviews a", ErrorKind::InvalidSubcommand),
    ("height_office check --help", ErrorKind::DisplayHelp),
    ("height_office list --out p a", ErrorKind::UnknownArgument),
    ("height_office book", ErrorKind::MissingRequiredArgument),
    ("height_office book a b", ErrorKind::UnknownArgument),
    ("height_office book --out p a", ErrorKind::UnknownArgument),
    ("height_office books a", ErrorKind::InvalidSubcommand),
    ("height_office book --help", ErrorKind::DisplayHelp),
    (
        "height_office book --heights",
        ErrorKind::MissingRequiredArgument,
    ),
    (
        "height_office book --heights a b",
        ErrorKind::UnknownArgument,
    ),
    ("height_office book --heights=a", ErrorKind::TooManyValues),
    (
        "height_office book --heights a --heights",
        ErrorKind::ArgumentConflict,
    ),
    ("height_office mend", ErrorKind::MissingRequiredArgument),
    ("height_office mend a", ErrorKind::MissingRequiredArgument),
    ("height_office mend a b c", ErrorKind::UnknownArgument),
    ("height_office mend --out p a b", ErrorKind::UnknownArgument),
    ("height_office mends a b", ErrorKind::InvalidSubcommand),
    ("height_office mend --help", ErrorKind::DisplayHelp),
    ("height_office help mend", ErrorKind::DisplayHelp),
    // Each that must be there is missing.
    (
        "height_office adjust --out p a",
        ErrorKind::MissingRequiredArgument,
    ),
    (
        "height_office adjust --benchmarks m a",
        ErrorKind::MissingRequiredArgument,
    ),
    (
        "height_office adjust --benchmarks m --out p",
        ErrorKind::MissingRequiredArgument,
    ),
    (
        "height_office review --out p a",
        ErrorKind::MissingRequiredArgument,
    ),
    (
        "height_office review --benchmarks m a",
        ErrorKind::MissingRequiredArgument,
    ),
    (
        "height_office review --benchmarks m --out p",
        ErrorKind::MissingRequiredArgument,
    ),
    (
        "height_office check --certificate c a",
        ErrorKind::MissingRequiredArgument,
    ),
    (
        "height_office check --benchmarks m a",
        ErrorKind::MissingRequiredArgument,
    ),
    (
        "height_office check --benchmarks m --certificate c",
        ErrorKind::MissingRequiredArgument,
    ),
    // A value is missing.
    (
        "height_office adjust a --benchmarks m --out",
        ErrorKind::InvalidValue,
    ),
    (
        "height_office adjust a --out p --benchmarks",
        ErrorKind::InvalidValue,
    ),
    (
        "height_office adjust a --benchmarks m --out p --weights",
        ErrorKind::InvalidValue,
    ),
    (
        "height_office adjust a --benchmarks m --out p --blunder",
        ErrorKind::InvalidValue,
    ),
    (
        "height_office review a --benchmarks m --out",
        ErrorKind::InvalidValue,
    ),
    (
        "height_office check a --benchmarks m --certificate",
        ErrorKind::InvalidValue,
    ),
    (
        "height_office check a --certificate c --benchmarks",
        ErrorKind::InvalidValue,
    ),
    (
        "height_office check a --benchmarks m --certificate c --weights",
        ErrorKind::InvalidValue,
    ),
    // Each is doubled.
    (
        "height_office adjust a --benchmarks m --out p --out q",
        ErrorKind::ArgumentConflict,
    ),
    (
        "height_office adjust a --benchmarks m --benchmarks m --out p",
        ErrorKind::ArgumentConflict,
    ),
    (
        "height_office adjust a --benchmarks m --out p --weights w --weights=w",
        ErrorKind::ArgumentConflict,
    ),
    (
        "height_office adjust a --benchmarks m --out p --blunder 1 --blunder 1",
        ErrorKind::ArgumentConflict,
    ),
    (
        "height_office review a --benchmarks m --out p --out q",
        ErrorKind::ArgumentConflict,
    ),
    (
        "height_office review a --benchmarks m --out p --blunder 1 --blunder 1",
        ErrorKind::ArgumentConflict,
    ),
    (
        "height_office check a --benchmarks m --certificate c --certificate c",
        ErrorKind::ArgumentConflict,
    ),
    (
        "height_office check a --benchmarks m --benchmarks m --certificate c",
        ErrorKind::ArgumentConflict,
    ),
    (
        "height_office check a --benchmarks m --weights w --weights w --certificate c",
        ErrorKind::ArgumentConflict,
    ),
    // An option of the other command.
    (
        "height_office check a --benchmarks m --certificate c --out p",
        ErrorKind::UnknownArgument,
    ),
    (
        "height_office check a --benchmarks m --certificate c --blunder 500",
        ErrorKind::UnknownArgument,
    ),
    (
        "height_office list a --benchmarks m",
        ErrorKind::UnknownArgument,
    ),
    (
        "height_office adjust a --benchmark m --out p",
        ErrorKind::UnknownArgument,
    ),
    (
        "height_office adjust a --benchmarks m --certificate c --out p",
        ErrorKind::UnknownArgument,
    ),
    (
        "height_office review a --benchmarks m --certificate c --out p",
        ErrorKind::UnknownArgument,
    ),
    // Not a limit.
    (
        "height_office review a --benchmarks m --out p --blunder 1000000001",
        ErrorKind::ValueValidation,
    ),
    (
        "height_office review a --benchmarks m --out p --blunder=-1",
        ErrorKind::ValueValidation,
    ),
    (
        "height_office adjust a --benchmarks m --out p --blunder 1000000001",
        ErrorKind::ValueValidation,
    ),
    (
        "height_office adjust a --benchmarks m --out p --blunder=-1",
        ErrorKind::ValueValidation,
    ),
    (
        "height_office adjust a --benchmarks m --out p --blunder -1",
        ErrorKind::UnknownArgument,
    ),
    (
        "height_office adjust a --benchmarks m --out p --blunder 1.5",
        ErrorKind::ValueValidation,
    ),
    (
        "height_office adjust a --benchmarks m --out p --blunder 20mm",
        ErrorKind::ValueValidation,
    ),
    (
        "height_office adjust a --benchmarks m --out p --blunder=",
        ErrorKind::ValueValidation,
    ),
    (
        "height_office adjust a --benchmarks m --out p --limit -5mm",
        ErrorKind::UnknownArgument,
    ),
    (
        "height_office adjust a --benchmarks m --out p --limit 5mm --limit 5mm",
        ErrorKind::ArgumentConflict,
    ),
    (
        "height_office adjust a --benchmarks m --out p --limit",
        ErrorKind::InvalidValue,
    ),
    (
        "height_office check a --benchmarks m --certificate c --limit 5mm",
        ErrorKind::UnknownArgument,
    ),
    // A title of something else than a page.
    (
        "height_office review a --benchmarks m --out p --title t",
        ErrorKind::UnknownArgument,
    ),
    (
        "height_office page a --benchmarks m --out p --title t --title t",
        ErrorKind::ArgumentConflict,
    ),
];

#[test]
fn wrong_words_are_a_fault(rt: HostRuntime) {
    for (words, kind) in WRONG_WORDS {
        match fault_of(&rt, words) {
            PlanFault::Line(error) => assert!(rt; error.kind() == kind, "{words}"),
            _ => assert!(rt; false, "{words}"),
        }
    }
}
