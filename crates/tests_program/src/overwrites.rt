//! Commands whose outputs would overwrite an input: they are refused, and nothing is read or written.
use crate::folders::{
    ADJUSTED, BOOK, PAGED, REVIEWED, ROOM, WIDE, file, project, put, reports, run, same,
};
use std::process::Abort;

/// The commands, each with the outputs that it writes.
const COMMANDS: [(&str, &[&str]); 3] = [
    ("adjust", &ADJUSTED),
    ("review", &REVIEWED),
    ("page", &PAGED),
];

/// The arguments behind a command and its prefix, up to an input and behind it, and how that input is
/// reported. Other inputs are missing, so they are not read.
const INPUTS: [(&str, &str, &str); 4] = [
    ("--benchmarks none", "none.gsi", "book 1"),
    ("--benchmarks none none.gsi", "", "book 2"),
    ("--benchmarks", "none.gsi", "benchmarks"),
    ("--benchmarks none --weights", "none.gsi", "weights"),
];

#[test]
fn no_input_is_overwritten(rt: HostRuntime) {
    for (command, outputs) in COMMANDS {
        for output in outputs {
            for input in INPUTS {
                is_refused(&rt, command, output, input);
            }
        }
    }
}

/// The command is refused, and the line names the output and the input.
fn is_refused(
    rt: &(impl AllocGlobal + Abort),
    command: &str,
    output: &str,
    input: (&str, &str, &str),
) {
    let mut folder = project(rt, ROOM);
    put(rt, &mut folder, output, BOOK);
    let (before, behind, input) = input;
    let words = format!(in rt.alloc(); "{command} --out out {before} {output} {behind}").expect(
        rt,
        "the words",
    );
    assert_eq!(rt; run(rt, &mut folder, words.as_str()), 3);
    let help = if input.starts_with("book") {
        "leave it out, or give another prefix"
    } else {
        "give another prefix"
    };
    let line = format!(in rt.alloc();
        "error: output {output} would overwrite {input} {output}\n  {help}\n"
    ).expect(rt, "the lines");
    assert!(rt;
        reports(&folder, line.as_bytes()) && same(file(&folder, output), BOOK),
        "{line}"
    );
}

#[test]
fn an_input_beside_the_outputs_is_read(rt: HostRuntime) {
    let mut folder = project(&rt, WIDE);
    put(&rt, &mut folder, "out.gsi", BOOK);
    for (command, outputs) in COMMANDS {
        let words = format!(in rt.alloc();
            "{command} --benchmarks heights --out out out.gsi"
        ).expect(&rt, "the words");
        assert_eq!(rt; run(&rt, &mut folder, words.as_str()), 0);
        assert!(rt;
            outputs.iter().all(|name| folder.file(name).is_some()),
            "{command}"
        );
    }
    assert!(rt; same(file(&folder, "out.gsi"), BOOK));
}

#[test]
fn an_output_of_the_other_command_is_read(rt: HostRuntime) {
    let mut folder = project(&rt, ROOM);
    put(&rt, &mut folder, "out.points.csv", BOOK);
    let words = "adjust --benchmarks heights --out out out.points.csv";
    assert_eq!(rt; run(&rt, &mut folder, words), 0);
    assert!(rt; same(file(&folder, "out.points.csv"), BOOK));
}
