//! Outputs that would overwrite an input. Nothing is read or written here.
ghost use Rattle.std.specs.Prelude.{◌≡◌, ◌≤◌, [], ◌∷◌, IfErr, IfOk, IfSome, None, length, map, option_map, true};
ghost use Rattle.th_files.specs.Outputs.{spot_at, spots_of};
ghost use Rattle.th_files.specs.Owed.{HasName, IsBook};
ghost use Rattle.th_files.specs.Stops.{AreKept, IsApart, IsNoBook, IsStop};
ghost use Rattle.th_commands.specs.PlanLimits.{max_books};
ghost use Rattle.th_commands.specs.Plans.{files};

use std::alloc::{AllocError, Global};
use th_commands::Inputs;
use th_devices::Folder;
use th_run_parts::{Input, Output};

/// An output that would overwrite an input.
#[derive(Drop)]
pub struct Overwrite<'a> {
    /// The name of the output's file.
    pub output: String,
    /// The input.
    pub input: Input,
    /// The name of the input's file, as it was given.
    pub name: &'a str,
}

/// Why a plan is not begun.
#[derive(Drop)]
pub enum Stop<'a> {
    /// It would overwrite an input.
    Overwrite(Overwrite<'a>),
    /// Memory ran out before this was known.
    NoMemory,
}

impl From<AllocError> for Stop<'_> {
    ghost use Rattle.std.specs.Prelude.{◌≡◌};
    ghost use Rattle.th_files.specs.declared.overwrites.Stop.TheVariants.{NoMemory};

    ghost from_gives = { λ _ stop. stop ≡ NoMemory };

    fn from(_error: AllocError) -> Self {
        Stop::NoMemory
    }
}

/// Answers that none of the files of these outputs is an input, or why this stops a plan.
///
/// The names of the files begin with the prefix. Two names of one file are found where the folder knows
/// them. Fails with the first output that would overwrite an input, or if memory runs out.
pub fn keep_all<'a, F: Folder>(
    alloc: Global,
    folder: &F,
    inputs: &Inputs<'a>,
    prefix: &str,
    outputs: &[Output],
) -> Result<(), Stop<'a>>
    ensures apart { IfOk result (λ _.
        AreKept F.tells (files inputs.now) (spots_of prefix.now outputs.now)) }
    ensures stopped { IfErr result
        (IsStop F.tells (files inputs.now) (spots_of prefix.now outputs.now)) }
{
    for output in outputs {
        keep(alloc, folder, inputs, prefix, output.ending())?;
    }
    Ok(())
}

/// Answers that the file whose name is the prefix and this ending is no input, or why this stops a plan.
/// Standard output is none.
fn keep<'a, F: Folder>(
    alloc: Global,
    folder: &F,
    inputs: &Inputs<'a>,
    prefix: &str,
    ending: Option<&str>,
) -> Result<(), Stop<'a>>
    ensures apart { IfOk result (λ _. AreKept F.tells (files inputs.now)
        (spot_at prefix.now (option_map (λ own. own.now) ending.entry) ∷ [])) }
    ensures stopped { IfErr result (IsStop F.tells (files inputs.now)
        (spot_at prefix.now (option_map (λ own. own.now) ending.entry) ∷ [])) }
{
    let Some(ending) = ending else {
        return Ok(());
    };
    let mut output = String::from_str(alloc, prefix)?;
    output.push_str(ending)?;
    match changed_by(alloc, folder, output.as_str(), inputs)? {
        Some((input, name)) => Err(Stop::Overwrite(Overwrite {
            output,
            input,
            name,
        })),
        None => Ok(()),
    }
}

/// The first input that writing the file of this name would change.
fn changed_by<'a, F: Folder>(
    alloc: Global,
    folder: &F,
    output: &str,
    inputs: &Inputs<'a>,
) -> Result<Option<(Input, &'a str)>, AllocError>
    ensures none { IfOk result (λ changed. changed ≡ None
        → IsApart F.tells (files inputs.now) output.now) }
    ensures some { IfOk result (λ changed. IfSome changed (λ own.
        HasName (files inputs.now) own.0 own.1.now × (F.tells ≡ true → output.now ≡ own.1.now))) }
{
    if let Some((number, name)) = changed_book(alloc, folder, output, inputs.books.names())? {
        return Ok(Some((Input::Book(number), name)));
    }
    if folder.would_change(alloc, output, inputs.benchmarks)? {
        return Ok(Some((Input::Benchmarks, inputs.benchmarks)));
    }
    if let Some(name) = inputs.weights {
        if folder.would_change(alloc, output, name)? {
            return Ok(Some((Input::Weights, name)));
        }
    }
    Ok(None)
}

/// The first of the books of these names, counted from 1, that writing the file of this name would
/// change.
fn changed_book<'a, F: Folder>(
    alloc: Global,
    folder: &F,
    output: &str,
    names: &[&'a str],
) -> Result<Option<(u32, &'a str)>, AllocError>
    requires { length names.now ≤ max_books }
    ensures none { IfOk result (λ changed. changed ≡ None
        → IsNoBook F.tells (map (λ name. name.now) names.now) output.now) }
    ensures some { IfOk result (λ changed. IfSome changed (λ own.
        IsBook (map (λ name. name.now) names.now) own.0 own.1.now
        × (F.tells ≡ true → output.now ≡ own.1.now))) }
{
    let mut number = 1;
    for name in names {
        if folder.would_change(alloc, output, *name)? {
            return Ok(Some((number, *name)));
        }
        number += 1;
    }
    Ok(None)
}
