//! The sinks of the outputs of a run, as a folder gives them and takes them back.
ghost use Rattle.std.specs.Prelude.{◌≡◌, ◌≢◌, IfOk, OnOk, length, map, option_map, true};
ghost use Rattle.std.specs.List.{AllByRecursion};
ghost use Rattle.std.specs.Vec.Iter.{into_iter_items};
ghost use Rattle.th_devices.specs.Devices.{IsMade};
ghost use Rattle.th_devices.specs.Spots.{is_file};
ghost use Rattle.th_files.specs.Opened.{AreApart, AreGivenBack, AreMade, IsTaken, IsUntouched};
ghost use Rattle.th_files.specs.Outputs.{spot_at, spots_of};

use std::alloc::{AllocError, Global};
use std::vec::IntoIter;
use th_devices::{Folder, Target, place_all};
use th_run_parts::{Output, Refusal};

/// The sinks of these outputs, for a run with this prefix.
pub fn sinks_of<F: Folder>(
    alloc: Global,
    folder: &mut F,
    prefix: &str,
    outputs: &[Output],
) -> Result<Vec<F::Out>, AllocError>
    ensures same { folder.new ≡ folder.old }
    ensures made { IfOk result (λ sinks. AreMade F.Out.state F.tells
        (F.failing folder.old).writing (spots_of prefix.now outputs.now) sinks.items) }
{
    let mut sinks = Vec::new(alloc);
    for output in outputs {
        sinks.push(sink_of(alloc, folder, prefix, output.ending())?)?;
    }
    Ok(sinks)
}

/// The sink of the file whose name is the prefix and this ending, or of standard output.
fn sink_of<F: Folder>(
    alloc: Global,
    folder: &mut F,
    prefix: &str,
    ending: Option<&str>,
) -> Result<F::Out, AllocError>
    ensures same { folder.new ≡ folder.old }
    ensures made { IfOk result (λ sink.
        let spot = spot_at prefix.now (option_map (λ own. own.now) ending.entry) in
        IsMade F.tells ((F.failing folder.old).writing spot) spot (F.Out.state sink)) }
{
    let Some(ending) = ending else {
        return folder.sink(alloc, Target::Output);
    };
    let mut name = String::from_str(alloc, prefix)?;
    name.push_str(ending)?;
    folder.sink(alloc, Target::File(name.as_str()))
}

/// Gives the sinks of the files of a run back, which ended with this answer. If it ended well, their
/// bytes take their places in this order, and the first that cannot is refused. Else all files are as
/// they were.
pub fn place_sinks<F: Folder>(
    folder: &mut F,
    sinks: Vec<F::Out>,
    outputs: &[Output],
    prefix: &str,
    answer: Result<(), Refusal>,
) -> Result<(), Refusal>
    requires files { AllByRecursion (λ sink. is_file (F.Out.state sink).spot ≡ true) sinks.items }
    requires finished { OnOk answer
        (AllByRecursion (λ sink. (F.Out.state sink).is_finished ≡ true) sinks.items) }
    requires as_many { length sinks.items ≡ length outputs.now }
    ensures { AreGivenBack F.tells F.held F.has_failed F.failing
        (map F.Out.state sinks.items) outputs.now answer result folder.old folder.new }
{
    if let Err(refusal) = answer {
        close_files(folder, sinks.into_iter());
        return Err(refusal);
    }
    let placed = place_all(folder, sinks);
    folder.settle(prefix);
    match placed {
        Ok(()) => Ok(()),
        Err(number) => Err(Refusal::Write(outputs[number])),
    }
}

/// Gives the sinks of files back that are left. The files are as they were.
fn close_files<F: Folder>(folder: &mut F, mut rest: IntoIter<F::Out>)
    requires { AllByRecursion (λ sink. is_file (F.Out.state sink).spot ≡ true) (into_iter_items rest) }
    ensures { folder.new ≡ folder.old }
{
    if let Some(sink) = rest.next() {
        folder.close(sink);
        close_files(folder, rest);
    }
}

/// Gives the sinks of streams back. No two of them are for one spot.
pub fn close_sinks<F: Folder>(folder: &mut F, sinks: Vec<F::Out>)
    requires { AreApart (map (λ sink. (F.Out.state sink).spot) sinks.items) }
    ensures taken { AllByRecursion (λ sink. IsTaken (F.held folder.old) (F.held folder.new)
        (F.Out.state sink)) sinks.items }
    ensures untouched { AllByRecursion (λ sink. IsUntouched (F.Out.state sink)) sinks.items
        → folder.new ≡ folder.old }
    ensures others { (spot : _) → AllByRecursion (λ sink. spot ≢ (F.Out.state sink).spot) sinks.items
        → F.held folder.new spot ≡ F.held folder.old spot }
{
    close_rest(folder, sinks.into_iter());
}

/// Gives the sinks back that are left.
fn close_rest<F: Folder>(folder: &mut F, mut rest: IntoIter<F::Out>)
    requires { AreApart (map (λ sink. (F.Out.state sink).spot) (into_iter_items rest)) }
    ensures taken { AllByRecursion (λ sink. IsTaken (F.held folder.old) (F.held folder.new)
        (F.Out.state sink)) (into_iter_items rest) }
    ensures untouched { AllByRecursion (λ sink. IsUntouched (F.Out.state sink)) (into_iter_items rest)
        → folder.new ≡ folder.old }
    ensures others { (spot : _)
        → AllByRecursion (λ sink. spot ≢ (F.Out.state sink).spot) (into_iter_items rest)
        → F.held folder.new spot ≡ F.held folder.old spot }
{
    if let Some(sink) = rest.next() {
        folder.close(sink);
        close_rest(folder, rest);
    }
}
