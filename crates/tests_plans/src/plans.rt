//! Command lines that are a plan, against that plan, with options in every order.
use std::process::Abort;
use std::test::Fail;
use th_commands::{Inputs, Limit, Plan, plan};

/// Command lines, and the plans that they name.
const PLANS: [(&str, &str); 62] = [
    ("height_office", "standard"),
    ("height_office list k.gsi", "list k.gsi"),
    ("height_office list -", "list -"),
    ("height_office list ", "list "),
    (
        "height_office explain --benchmarks m - a",
        "explain - a by m limit 2000000 as text",
    ),
    ("height_office mend c.csv -", "mend - by c.csv"),
    ("height_office mend -- - k", "mend k by -"),
    ("height_office list -- --out", "list --out"),
    (
        "height_office adjust --benchmarks m --weights w --blunder 500 --out p a b",
        "adjust a b by m w limit 50000 out p",
    ),
    (
        "height_office adjust a b --benchmarks m --weights w --blunder 500 --out p",
        "adjust a b by m w limit 50000 out p",
    ),
    (
        "height_office adjust --out p a --blunder 500 --weights w b --benchmarks m",
        "adjust a b by m w limit 50000 out p",
    ),
    (
        "height_office adjust a --weights w --benchmarks m b --out p --blunder 500",
        "adjust a b by m w limit 50000 out p",
    ),
    (
        "height_office adjust --blunder=500 --weights=w --out=p --benchmarks=m a b",
        "adjust a b by m w limit 50000 out p",
    ),
    (
        "height_office adjust --weights=w a --out p b --benchmarks=m --blunder 0500",
        "adjust a b by m w limit 50000 out p",
    ),
    (
        "height_office adjust --out p --benchmarks m --blunder +500 --weights w -- a b",
        "adjust a b by m w limit 50000 out p",
    ),
    // What is left out has its default.
    (
        "height_office adjust --benchmarks b --out p k",
        "adjust k by b limit 2000000 out p",
    ),
    (
        "height_office adjust k --out p --benchmarks m --blunder 0",
        "adjust k by m limit 0 out p",
    ),
    (
        "height_office adjust k --out p --benchmarks m --blunder=0000000000007",
        "adjust k by m limit 700 out p",
    ),
    (
        "height_office adjust k --out p --benchmarks m --blunder 1000000000",
        "adjust k by m limit 100000000000 out p",
    ),
    // `review` takes what `adjust` takes.
    (
        "height_office review --benchmarks m --weights w --blunder 500 --out p a b",
        "review a b by m w limit 50000 out p",
    ),
    (
        "height_office review --out=p a --weights=w --benchmarks=m --blunder=500 -- b",
        "review a b by m w limit 50000 out p",
    ),
    // A prefix names files: dots and slashes that its last part has beside other bytes are no harm.
    (
        "height_office adjust k --out ../.a --benchmarks m",
        "adjust k by m limit 2000000 out ../.a",
    ),
    (
        "height_office adjust k --out=... --benchmarks m",
        "adjust k by m limit 2000000 out ...",
    ),
    (
        "height_office review k --out /a/b. --benchmarks m",
        "review k by m limit 2000000 out /a/b.",
    ),
    (
        "height_office review k --out .//.a/..b --benchmarks m",
        "review k by m limit 2000000 out .//.a/..b",
    ),
    (
        "height_office review review --out adjust --benchmarks check --blunder 1000000000",
        "review review by check limit 100000000000 out adjust",
    ),
    // `explain` takes no prefix, and a flag.
    (
        "height_office explain --benchmarks m a",
        "explain a by m limit 2000000 as text",
    ),
    (
        "height_office explain --benchmarks m --weights w --blunder 500 --csv a b",
        "explain a b by m w limit 50000 as table",
    ),
    (
        "height_office explain --csv --benchmarks=m -- --csv a",
        "explain --csv a by m limit 2000000 as table",
    ),
    (
        "height_office explain 1 2 3 4 5 6 7 8 9 10 11 12 13 14 15 16 --benchmarks m",
        "explain 1 2 3 4 5 6 7 8 9 10 11 12 13 14 15 16 by m limit 2000000 as text",
    ),
    // `page` takes what `adjust` takes.
    (
        "height_office page --benchmarks m --weights w --blunder 500 --out p a b",
        "page a b by m w limit 50000 out p titled p",
    ),
    (
        "height_office page page --out=page --benchmarks page",
        "page page by page limit 2000000 out page titled page",
    ),
    (
        "height_office page 1 2 3 4 5 6 7 8 9 10 11 12 13 14 15 16 --benchmarks m --out p",
        "page 1 2 3 4 5 6 7 8 9 10 11 12 13 14 15 16 by m limit 2000000 out p titled p",
    ),
    // It has a title: without one, the last part of the prefix.
    (
        "height_office page k --benchmarks m --out site/dam",
        "page k by m limit 2000000 out site/dam titled dam",
    ),
    (
        "height_office page k --benchmarks m --out site/dam --title=site/<Dam>",
        "page k by m limit 2000000 out site/dam titled site/<Dam>",
    ),
    (
        "height_office page --title \u{dc}berlauf k --benchmarks m --out dam",
        "page k by m limit 2000000 out dam titled \u{dc}berlauf",
    ),
    // The limit has a unit, or is in micrometres.
    (
        "height_office adjust k --benchmarks m --out p --limit 5mm",
        "adjust k by m limit 500000 out p",
    ),
    (
        "height_office review k --benchmarks m --out p --limit=500um",
        "review k by m limit 50000 out p",
    ),
    (
        "height_office explain k --benchmarks m --limit 0mm",
        "explain k by m limit 0 as text",
    ),
    (
        "height_office page k --benchmarks m --out p --limit +0020mm",
        "page k by m limit 2000000 out p titled p",
    ),
    (
        "height_office adjust k --benchmarks m --out p --limit 1000000mm",
        "adjust k by m limit 100000000000 out p",
    ),
    (
        "height_office adjust k --benchmarks m --out p --limit 1000000000um",
        "adjust k by m limit 100000000000 out p",
    ),
    (
        "height_office check --benchmarks m --certificate c a b",
        "check a b by m certificate c",
    ),
    (
        "height_office check a b --certificate c --benchmarks m",
        "check a b by m certificate c",
    ),
    (
        "height_office check --certificate=c --weights=w a --benchmarks=m b",
        "check a b by m w certificate c",
    ),
    (
        "height_office check a --weights w --certificate c --benchmarks m -- -b",
        "check a -b by m w certificate c",
    ),
    (
        "height_office check --inputs --benchmarks m --certificate c a b",
        "check a b by m certificate c with inputs",
    ),
    (
        "height_office check a --certificate c b --benchmarks=m --inputs",
        "check a b by m certificate c with inputs",
    ),
    (
        "height_office adjust 1 2 3 4 5 6 7 8 9 10 11 12 13 14 15 16 --benchmarks m --out p",
        "adjust 1 2 3 4 5 6 7 8 9 10 11 12 13 14 15 16 by m limit 2000000 out p",
    ),
    (
        "height_office review 1 2 3 4 5 6 7 8 9 10 11 12 13 14 15 16 --benchmarks m --out p",
        "review 1 2 3 4 5 6 7 8 9 10 11 12 13 14 15 16 by m limit 2000000 out p",
    ),
    (
        "height_office check 1 2 3 4 5 6 7 8 9 10 11 12 13 14 15 16 --benchmarks m --certificate c",
        "check 1 2 3 4 5 6 7 8 9 10 11 12 13 14 15 16 by m certificate c",
    ),
    ("height_office book t.csv", "book t.csv"),
    ("height_office book book", "book book"),
    ("height_office book -- --out", "book --out"),
    (
        "height_office book --heights k.gsi",
        "book of heights k.gsi",
    ),
    (
        "height_office book k.gsi --heights",
        "book of heights k.gsi",
    ),
    (
        "height_office book --heights -- --heights",
        "book of heights --heights",
    ),
    ("height_office book -- --heights", "book --heights"),
    ("height_office mend c.csv k.gsi", "mend k.gsi by c.csv"),
    ("height_office mend k.gsi c.csv", "mend c.csv by k.gsi"),
    ("height_office mend mend book", "mend book by mend"),
    ("height_office mend c.csv -- --out", "mend --out by c.csv"),
];

#[test]
fn words_are_a_plan(rt: HostRuntime) {
    for (words, wanted) in PLANS {
        is_planned(&rt, words, wanted);
    }
}

fn is_planned(rt: &(impl AllocGlobal + Abort), words: &str, wanted: &str) {
    let split = words_of(rt, words);
    match &plan(rt.alloc(), split.as_slice()) {
        Ok(plan) => {
            let shown = text_of(rt, plan);
            assert!(rt; shown.as_str() == wanted, "{shown}");
        }
        Err(_) => assert!(rt; false, "{words}"),
    }
}

/// The arguments of `adjust`, `review` and `page`, those of `explain`, and those of `check`, in any order.
const ADJUSTED: [&str; 5] = [
    "--benchmarks m",
    "--weights w",
    "--blunder 500",
    "--out p",
    "a b",
];

const EXPLAINED: [&str; 5] = [
    "--benchmarks m",
    "--weights w",
    "--blunder 500",
    "--csv",
    "a b",
];

const CHECKED: [&str; 5] = [
    "--benchmarks m",
    "--weights w",
    "--certificate c",
    "--inputs",
    "a b",
];

#[test]
fn options_stand_in_every_order(rt: HostRuntime) {
    for order in 0..120_usize {
        let words = in_order(&rt, "height_office adjust", &ADJUSTED, order);
        is_planned(&rt, words.as_str(), "adjust a b by m w limit 50000 out p");
        let words = in_order(&rt, "height_office review", &ADJUSTED, order);
        is_planned(&rt, words.as_str(), "review a b by m w limit 50000 out p");
        let words = in_order(&rt, "height_office page", &ADJUSTED, order);
        is_planned(
            &rt,
            words.as_str(),
            "page a b by m w limit 50000 out p titled p",
        );
        let words = in_order(&rt, "height_office explain", &EXPLAINED, order);
        is_planned(
            &rt,
            words.as_str(),
            "explain a b by m w limit 50000 as table",
        );
        let words = in_order(&rt, "height_office check", &CHECKED, order);
        is_planned(
            &rt,
            words.as_str(),
            "check a b by m w certificate c with inputs",
        );
    }
}

/// A command with some parts behind it, in the order of this number.
fn in_order(
    rt: &(impl AllocGlobal + Abort),
    command: &str,
    parts: &[&str],
    order: usize,
) -> String {
    let mut text = String::new(rt.alloc());
    text.push_str(command).expect(rt, "memory");
    let mut left = Vec::from_slice(rt.alloc(), parts).expect(rt, "memory");
    let mut rest = order;
    for _ in 0..parts.len() {
        let count = left.len();
        assert!(rt; count > 0);
        text.push_str(" ").expect(rt, "memory");
        text.push_str(left.remove(rest % count))
            .expect(rt, "memory");
        rest /= count;
    }
    text
}

/// A plan as the table of plans has it.
fn text_of(rt: &(impl AllocGlobal + Abort), plan: &Plan<'_>) -> String {
    match plan {
        Plan::Standard => format!(in rt.alloc(); "standard").expect(rt, "memory"),
        Plan::List { book } => format!(in rt.alloc(); "list {book}").expect(rt, "memory"),
        Plan::Adjust {
            inputs,
            limit,
            prefix,
        } => options_text(rt, "adjust", inputs, *limit, *prefix),
        Plan::Review {
            inputs,
            limit,
            prefix,
        } => options_text(rt, "review", inputs, *limit, *prefix),
        Plan::Explain {
            inputs,
            limit,
            table,
        } => {
            let files = files_text(rt, inputs);
            let limit = limit.get();
            let form = if *table { "table" } else { "text" };
            format!(in rt.alloc(); "explain {files} limit {limit} as {form}").expect(rt, "memory")
        }
        Plan::Page {
            inputs,
            limit,
            prefix,
            title,
        } => {
            let options = options_text(rt, "page", inputs, *limit, *prefix);
            let title = String::from_utf8_lossy(rt.alloc(), *title).expect(rt, "memory");
            format!(in rt.alloc(); "{options} titled {title}").expect(rt, "memory")
        }
        Plan::Check {
            inputs,
            certificate,
            with_inputs,
        } => {
            let files = files_text(rt, inputs);
            let listed = if *with_inputs { " with inputs" } else { "" };
            format!(in rt.alloc(); "check {files} certificate {certificate}{listed}").expect(
                rt, "memory",
            )
        }
        Plan::Book { table } => format!(in rt.alloc(); "book {table}").expect(rt, "memory"),
        Plan::BookOfHeights { book } => {
            format!(in rt.alloc(); "book of heights {book}").expect(rt, "memory")
        }
        Plan::Mend { changes, book } => {
            format!(in rt.alloc(); "mend {book} by {changes}").expect(rt, "memory")
        }
    }
}

/// A command with its files, limit and prefix.
fn options_text(
    rt: &(impl AllocGlobal + Abort),
    command: &str,
    inputs: &Inputs<'_>,
    limit: Limit,
    prefix: &str,
) -> String {
    let files = files_text(rt, inputs);
    let limit = limit.get();
    format!(in rt.alloc(); "{command} {files} limit {limit} out {prefix}").expect(rt, "memory")
}

/// The books, then the tables.
fn files_text(rt: &(impl AllocGlobal + Abort), inputs: &Inputs<'_>) -> String {
    let mut text = String::new(rt.alloc());
    for name in inputs.books.names() {
        text.push_str(name).expect(rt, "memory");
        text.push_str(" ").expect(rt, "memory");
    }
    text.push_str("by ").expect(rt, "memory");
    text.push_str(inputs.benchmarks).expect(rt, "memory");
    if let Some(weights) = inputs.weights {
        text.push_str(" ").expect(rt, "memory");
        text.push_str(weights).expect(rt, "memory");
    }
    text
}

/// The words of a text, split at single spaces.
pub fn words_of<'a>(rt: &(impl AllocGlobal + Abort), text: &'a str) -> Vec<&'a str> {
    let mut words = Vec::new(rt.alloc());
    for word in text.split(' ') {
        words.push(word).expect(rt, "memory");
    }
    words
}

#[test]
fn a_long_name_is_a_plan(rt: HostRuntime) -> Result<(), Fail> {
    let mut listed = "list ".to_string(rt.alloc())?;
    for _ in 0..512_u16 {
        listed.push_str("01234567")?;
    }
    let words = format!(in rt.alloc(); "height_office {listed}")?;
    is_planned(&rt, words.as_str(), listed.as_str());
    Ok(())
}
