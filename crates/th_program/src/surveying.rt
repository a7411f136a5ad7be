//! Commands over the survey of files of a folder: adjusting, reviewing, explaining, making a page.
ghost use Rattle.std.specs.Prelude.{◌≡◌, ◌≢◌, ◌≤◌, IfErr, IfOk, None, OnOk, length, true};
ghost use Rattle.std.specs.List.{AllByRecursion};
ghost use Rattle.th_commands.specs.PlanLimits.{max_books};
ghost use Rattle.th_commands.specs.Plans.{files};
ghost use Rattle.th_devices.specs.Spots.{is_file, output};
ghost use Rattle.th_files.specs.Opened.{AreApart};
ghost use Rattle.th_files.specs.Outputs.{spots_of};
ghost use Rattle.th_files.specs.Owed.{survey_owed, tolds_in};
ghost use Rattle.th_network.specs.Networks.{Survey};
ghost use Rattle.th_program.specs.Done.{IsAdjustOutput, IsAdjusted, IsCutExplanation, IsExplained, IsPageOutput, IsPagedFile, IsRefusedAdjust, IsRefusedExplain, IsRefusedPage, IsRefusedReview, IsReviewOutput, IsReviewed, IsWrite, form_of};
ghost use Rattle.th_program.specs.Inside.Ran.{HasRun, HasWrittenFiles};
ghost use Rattle.th_program.specs.Noted.{AreNotesOfFiles};
ghost use Rattle.th_run_parts.specs.Outcomes.{Accepted};
ghost use Rattle.th_run_parts.specs.Writes.{UnlessWrite};
ghost use Rattle.th_runs.specs.Noted.{AreNone};

use std::alloc::{AllocError, Global};
use th_commands::{Inputs, Limit};
use th_devices::Folder;
use th_files::{Sources, close_sinks, names_of, place_sinks, sinks_of, sources_of};
use th_progress::Progress;
use th_runs::{
    Adjust, Explain, Form, MakePage, Notes, Refusal, Review, ReviewReader, SurveyCommand,
    run_command,
};

/// Adjusts the network of the named files, writes the outputs of an adjustment to files whose names
/// begin with the prefix, and adds its notes. That they are none of the inputs, the caller has made
/// sure.
///
/// If a write fails, no file changes. If a file cannot take its name, those before it, in the order of
/// the outputs, are new. Its own and later ones are as they were. So it is of each command that writes
/// files.
pub(crate) fn adjust<F: Folder>(
    alloc: Global,
    folder: &mut F,
    inputs: &Inputs<'_>,
    limit: Limit,
    prefix: &str,
    notes: &mut Notes,
) -> Result<(), Refusal>
    requires none { AreNone notes.old }
    ensures noted { OnOk result
        (AreNotesOfFiles (F.held folder.old) (files inputs.now) limit notes.new) }
    ensures few { OnOk result (length notes.new.books.items ≤ max_books) }
    ensures adjusted { OnOk result (IsAdjusted F.tells (F.held folder.old) (F.held folder.new)
        (files inputs.now) limit prefix.now None) }
    ensures refused { IfErr result (IsRefusedAdjust F.tells (F.failing folder.old)
        (F.held folder.old) (F.held folder.new) (files inputs.now) limit prefix.now) }
    ensures untouched { IfErr result (λ own. UnlessWrite own (folder.new ≡ folder.old)) }
    ensures others { (spot : _) → (IsAdjustOutput prefix.now spot → ⊥)
        → F.held folder.new spot ≡ F.held folder.old spot }
{
    let command = Adjust { limit: limit.get() };
    write_files(alloc, folder, inputs, prefix, &command, notes, "adjust")
}

/// Reviews the network of the named files: what a mistake in them would do. Writes the outputs of a
/// review to files whose names begin with the prefix. That they are none of the inputs, the caller has
/// made sure.
pub(crate) fn review<F: Folder>(
    alloc: Global,
    folder: &mut F,
    inputs: &Inputs<'_>,
    limit: Limit,
    prefix: &str,
) -> Result<(), Refusal>
    ensures reviewed { OnOk result (IsReviewed F.tells (F.held folder.old) (F.held folder.new)
        (files inputs.now) limit prefix.now None) }
    ensures refused { IfErr result (IsRefusedReview F.tells (F.failing folder.old)
        (F.held folder.old) (F.held folder.new) (files inputs.now) limit prefix.now) }
    ensures untouched { IfErr result (λ own. UnlessWrite own (folder.new ≡ folder.old)) }
    ensures others { (spot : _) → (IsReviewOutput prefix.now spot → ⊥)
        → F.held folder.new spot ≡ F.held folder.old spot }
{
    let names = names_of(alloc, inputs)?;
    let command = Review {
        limit: limit.get(),
        names: names.as_slice(),
    };
    let mut reader = ReviewReader::new(alloc);
    write_files(
        alloc,
        folder,
        inputs,
        prefix,
        &command,
        &mut reader,
        "review",
    )
}

/// Writes the page of the network of the named files, with this title. The name of its file is the prefix
/// and `.html`. That it is none of the inputs, the caller has made sure.
pub(crate) fn page<F: Folder>(
    alloc: Global,
    folder: &mut F,
    inputs: &Inputs<'_>,
    limit: Limit,
    prefix: &str,
    title: &[u8],
) -> Result<(), Refusal>
    ensures paged { OnOk result (IsPagedFile F.tells (F.held folder.old) (F.held folder.new)
        (files inputs.now) limit prefix.now title.now None) }
    ensures refused { IfErr result (IsRefusedPage F.tells (F.failing folder.old)
        (F.held folder.old) (F.held folder.new) (files inputs.now) limit prefix.now title.now) }
    ensures untouched { IfErr result (λ own. UnlessWrite own (folder.new ≡ folder.old)) }
    ensures others { (spot : _) → (IsPageOutput prefix.now spot → ⊥)
        → F.held folder.new spot ≡ F.held folder.old spot }
{
    let names = names_of(alloc, inputs)?;
    let command = MakePage {
        limit: limit.get(),
        title,
        names: names.as_slice(),
    };
    let mut reader = ReviewReader::new(alloc);
    write_files(alloc, folder, inputs, prefix, &command, &mut reader, "page")
}

/// Prints on standard output which one number of the named files, if it were wrong, would explain what
/// does not fit.
pub(crate) fn explain<F: Folder>(
    alloc: Global,
    folder: &mut F,
    inputs: &Inputs<'_>,
    limit: Limit,
    form: Form,
) -> Result<(), Refusal>
    ensures explained { OnOk result (IsExplained F.tells (F.held folder.old) (F.held folder.new)
        (files inputs.now) limit form) }
    ensures refused { IfErr result (IsRefusedExplain (F.failing folder.old)
        (F.held folder.old) (files inputs.now)) }
    ensures left { IfErr result (λ own. IsWrite own → IsCutExplanation F.tells (F.held folder.old)
        (F.held folder.new) (files inputs.now) limit form own) }
    ensures untouched { IfErr result (λ own. UnlessWrite own (folder.new ≡ folder.old)) }
    ensures others { (spot : _) → spot ≢ output → F.held folder.new spot ≡ F.held folder.old spot }
{
    let command = Explain {
        limit: limit.get(),
        form,
    };
    let mut reader = ReviewReader::new(alloc);
    let ran = run_over(alloc, folder, inputs, "", &command, &mut reader, "explain")?;
    let Ran {
        sources: _sources,
        sinks,
        answer,
    } = ran;
    close_sinks(folder, sinks);
    answer
}

/// The form that a plan requests.
pub(crate) fn form_of(table: bool) -> Form
    ensures { result ≡ form_of table }
{
    if table { Form::Table } else { Form::Text }
}

/// Runs a command over the named files, and writes its outputs to files whose names begin with the prefix.
fn write_files<F: Folder, C: SurveyCommand>(
    alloc: Global,
    folder: &mut F,
    inputs: &Inputs<'_>,
    prefix: &str,
    command: &C,
    reader: &mut C::Reader,
    name: &'static str,
) -> Result<(), Refusal>
    requires new { C.is_new reader.old }
    requires files { AllByRecursion (λ spot. is_file spot ≡ true) (spots_of prefix.now C.run.outputs) }
    requires apart { AreApart (spots_of prefix.now C.run.outputs) }
    ensures written { HasWrittenFiles F.tells F.held F.failing folder.old folder.new (files inputs.now)
        prefix.now C.run (C.are_of command.now (tolds_in (F.held folder.old) (files inputs.now))) result }
    ensures noted { OnOk result ((survey : Survey)
        × Accepted (λ survey. survey) (survey_owed (F.held folder.old) None (files inputs.now)) survey
        × C.has_noted command.now (tolds_in (F.held folder.old) (files inputs.now)) survey reader.new) }
    ensures few { OnOk result (length (files inputs.now).books ≤ max_books) }
{
    let ran = run_over(alloc, folder, inputs, prefix, command, reader, name)?;
    let Ran {
        sources: _sources,
        sinks,
        answer,
    } = ran;
    place_sinks(folder, sinks, command.outputs(), prefix, answer)
}

/// What ran over the files of a folder: the sources, which are kept until the sinks are given back, and the
/// sinks.
#[derive(Drop)]
struct Ran<S, K> {
    sources: Sources<S>,
    sinks: Vec<K>,
    answer: Result<(), Refusal>,
}

/// Runs a command over the named files. Its sinks are still to be given back.
fn run_over<F: Folder, C: SurveyCommand>(
    alloc: Global,
    folder: &mut F,
    inputs: &Inputs<'_>,
    prefix: &str,
    command: &C,
    reader: &mut C::Reader,
    name: &'static str,
) -> Result<Ran<F::In, F::Out>, AllocError>
    requires { C.is_new reader.old }
    ensures same { folder.new ≡ folder.old }
    ensures ran { IfOk result (λ ran. HasRun F.Out.state F.tells (F.failing folder.old)
        (F.held folder.old) (files inputs.now) prefix.now C.run
        (C.are_of command.now (tolds_in (F.held folder.old) (files inputs.now)))
        ran.answer ran.sinks.items) }
    ensures noted { IfOk result (λ ran. OnOk ran.answer ((survey : Survey)
        × Accepted (λ survey. survey) (survey_owed (F.held folder.old) None (files inputs.now)) survey
        × C.has_noted command.now (tolds_in (F.held folder.old) (files inputs.now)) survey reader.new)) }
    ensures few { IfOk result (λ ran. length (files inputs.now).books ≤ max_books) }
{
    let mut sources = sources_of(alloc, folder, inputs)?;
    let mut sinks = sinks_of(alloc, folder, prefix, command.outputs())?;
    let mut progress = folder.progress(name);
    let answer = run_command(
        alloc,
        command,
        reader,
        sources.books.as_mut_slice(),
        &mut sources.benchmarks,
        &mut sources.weights,
        sinks.as_mut_slice(),
        &mut progress,
    );
    progress.clear();
    Ok(Ran {
        sources,
        sinks,
        answer,
    })
}
