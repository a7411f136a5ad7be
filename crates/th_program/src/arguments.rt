//! Doing what the arguments of a command line ask for.
ghost use Rattle.std.specs.Prelude.{◌≡◌, ◌≢◌, IfErr, IfOk, OnErr, false, map, string_bytes};
ghost use Rattle.std.specs.IoError.{error_kind};
ghost use Rattle.std.specs.declared.io.ErrorKind.TheVariants.{InvalidData};
ghost use Rattle.th_devices.specs.Spots.{errors, output};
ghost use Rattle.th_program.specs.Done.{AreDone, IsNoHelp};
ghost use Rattle.th_program.specs.Inside.Usage.{IsUsageUnlessFull};

use crate::plans::run_plan;
use std::alloc::{AllocError, Global};
use std::convert::AsStr;
use std::io;
use std::io::ErrorKind;
use th_commands::{PlanFault, plan};
use th_devices::{Folder, Target, write_all};
use th_inputs::shown_text;
use th_messages::{refuse_memory, report};
use th_runs::{NO_MEMORY, USAGE};

/// Runs the program with its arguments, if they were read, and returns its exit status. The first
/// of them is the program's name.
///
/// Reading them fails only if one is not UTF-8, or if memory runs out.
pub fn run_arguments<F: Folder>(alloc: Global, folder: &mut F, words: io::Result<Vec<String>>) -> u8
    ensures done { IfOk words (λ own. AreDone F.tells F.held F.has_failed F.failing
        folder.old folder.new (map string_bytes own.items) result) }
    ensures no_text { IfErr words (λ error. error_kind error ≡ InvalidData → result ≡ USAGE) }
    ensures no_memory { IfErr words (λ error. error_kind error ≢ InvalidData → result ≡ NO_MEMORY) }
    ensures others { IfErr words (λ _. (spot : _) → spot ≢ errors
        → F.held folder.new spot ≡ F.held folder.old spot) }
{
    match words {
        Ok(words) => run_words(alloc, folder, words.as_slice()),
        Err(error) if error.kind() == ErrorKind::InvalidData => {
            report(folder, "error: a word of the command line is no text\n");
            USAGE
        }
        Err(_) => refuse_memory(folder),
    }
}

/// Runs the program with these arguments, the program's name first, and returns its exit status.
pub fn run_words<F: Folder, S: AsStr>(alloc: Global, folder: &mut F, words: &[S]) -> u8
    ensures { AreDone F.tells F.held F.has_failed F.failing
        folder.old folder.new (map S.text words.now) result }
{
    match plan(alloc, words) {
        Ok(plan) => run_plan(alloc, folder, &plan),
        Err(fault) => usage(alloc, folder, words, &fault),
    }
}

/// Reports what is wrong with the words, or prints the help or version that they request, and answers
/// the status to end with. Where memory runs out before, it reports that.
fn usage<F: Folder, S: AsStr>(alloc: Global, folder: &mut F, words: &[S], fault: &PlanFault) -> u8
    ensures { IsUsageUnlessFull F.held folder.old folder.new fault.now result }
{
    if matches!(fault, PlanFault::NoMemory) {
        return refuse_memory(folder);
    }
    match answer(alloc, folder, words, fault) {
        Ok(()) => USAGE,
        Err(_) => refuse_memory(folder),
    }
}

/// Writes the text of a fault to standard error, or that of the help or version to standard output.
fn answer<F: Folder, S: AsStr>(
    alloc: Global,
    folder: &mut F,
    words: &[S],
    fault: &PlanFault,
) -> Result<(), AllocError>
    ensures unanswered { OnErr result (folder.new ≡ folder.old) }
    ensures fault { IsNoHelp fault.now → (spot : _) → spot ≢ errors
        → F.held folder.new spot ≡ F.held folder.old spot }
    ensures others { (spot : _) → spot ≢ errors → spot ≢ output
        → F.held folder.new spot ≡ F.held folder.old spot }
{
    let text = text_of(alloc, words, fault)?;
    if is_help(fault) {
        let mut out = folder.sink(alloc, Target::Output)?;
        let _ = write_all(&mut out, text.as_bytes());
        folder.close(out);
    } else {
        report(folder, text.as_str());
    }
    Ok(())
}

/// The text of a fault of these words, or of the help or version. It has the words as they are shown, so
/// that none of them seems to end a line.
fn text_of<S: AsStr>(alloc: Global, words: &[S], fault: &PlanFault) -> Result<String, AllocError> {
    let mut shown = Vec::new(alloc);
    for word in words {
        shown.push(shown_text(alloc, word.as_str())?)?;
    }
    match plan(alloc, shown.as_slice()) {
        Err(PlanFault::Line(error)) if !is_help(fault) => {
            format!(in alloc; "{}", PlanFault::Line(error))
        }
        _ => format!(in alloc; "{fault}"),
    }
}

/// Whether the words request help or the version.
fn is_help(fault: &PlanFault) -> bool
    ensures { IsNoHelp fault.now → result ≡ false }
{
    match fault {
        PlanFault::Line(error) => !error.use_stderr(),
        PlanFault::Argument(_) | PlanFault::NoMemory => false,
    }
}
