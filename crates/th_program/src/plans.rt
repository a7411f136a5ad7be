//! Running a plan.
ghost use Rattle.std.specs.Prelude.{◌≡◌, ◌≤◌, IfErr, IfOk, OnOk, length};
ghost use Rattle.th_commands.specs.PlanLimits.{max_books};
ghost use Rattle.th_program.specs.Done.{IsCarriedOut, IsCut, IsDone, IsOutputOf, IsRefused, IsRun, IsWrite};
ghost use Rattle.th_program.specs.Noted.{AreNotesOf};
ghost use Rattle.th_runs.specs.Noted.{AreNone};
ghost use Rattle.th_run_parts.specs.Writes.{UnlessWrite};

use crate::booking::make_book;
use crate::checking::check;
use crate::listing::list;
use crate::mending::mend;
use crate::overwrites::keep_inputs;
use crate::refusals::refuse;
use crate::surveying::{adjust, explain, form_of, page, review};
use std::alloc::Global;
use th_commands::Plan;
use th_devices::{Folder, Origin};
use th_files::Stop;
use th_messages::{refuse_memory, refuse_overwrite, tell_notes};
use th_run_parts::Conversion;
use th_runs::{DONE, Notes, Refusal, status_of_verdict};

/// Runs a plan, and returns the exit status. A refusal has its lines on standard error. A plan whose
/// outputs would overwrite an input is refused before anything is read or written.
pub fn run_plan<F: Folder>(alloc: Global, folder: &mut F, plan: &Plan<'_>) -> u8
    ensures { IsRun F.tells F.held F.has_failed F.failing folder.old folder.new plan.now result }
{
    match keep_inputs(alloc, folder, plan) {
        Ok(()) => run_apart(alloc, folder, plan),
        Err(Stop::Overwrite(overwrite)) => refuse_overwrite(folder, &overwrite),
        Err(Stop::NoMemory) => refuse_memory(folder),
    }
}

/// Runs a plan that overwrites no input, and answers the status to end with.
fn run_apart<F: Folder>(alloc: Global, folder: &mut F, plan: &Plan<'_>) -> u8
    ensures { IsCarriedOut F.tells F.held F.has_failed F.failing
        folder.old folder.new plan.now result }
{
    let mut notes = Notes::new(alloc);
    match carry_out(alloc, folder, plan, &mut notes) {
        Ok(status) => {
            tell_notes(folder, &notes);
            status
        }
        Err(refusal) => refuse(folder, plan, &refusal),
    }
}

/// Runs a plan, and returns the exit status, or why it was refused. A list and an adjustment add their
/// notes.
fn carry_out<F: Folder>(
    alloc: Global,
    folder: &mut F,
    plan: &Plan<'_>,
    notes: &mut Notes,
) -> Result<u8, Refusal>
    requires none { AreNone notes.old }
    ensures noted { OnOk result (AreNotesOf (F.held folder.old) plan.now notes.new) }
    ensures few { OnOk result (length notes.new.books.items ≤ max_books) }
    ensures done { IfOk result (IsDone F.tells (F.held folder.old) (F.held folder.new) plan.now) }
    ensures refused { IfErr result (IsRefused F.tells (F.failing folder.old)
        (F.held folder.old) (F.held folder.new) plan.now) }
    ensures untouched { IfErr result (λ own. UnlessWrite own (folder.new ≡ folder.old)) }
    ensures left { IfErr result (λ own. IsWrite own → IsCut F.tells (F.held folder.old)
        (F.held folder.new) plan.now own) }
    ensures others { (spot : _) → (IsOutputOf plan.now spot → ⊥)
        → F.held folder.new spot ≡ F.held folder.old spot }
{
    match plan {
        Plan::Standard => list(alloc, folder, Origin::Input, notes)?,
        Plan::List { book } => list(alloc, folder, Origin::File(*book), notes)?,
        Plan::Adjust {
            inputs,
            limit,
            prefix,
        } => adjust(alloc, folder, inputs, *limit, *prefix, notes)?,
        Plan::Review {
            inputs,
            limit,
            prefix,
        } => review(alloc, folder, inputs, *limit, *prefix)?,
        Plan::Explain {
            inputs,
            limit,
            table,
        } => explain(alloc, folder, inputs, *limit, form_of(*table))?,
        Plan::Page {
            inputs,
            limit,
            prefix,
            title,
        } => page(alloc, folder, inputs, *limit, *prefix, *title)?,
        Plan::Check {
            inputs,
            certificate,
            with_inputs,
        } => {
            let verdict = check(alloc, folder, inputs, *certificate, *with_inputs)?;
            return Ok(status_of_verdict(&verdict));
        }
        Plan::Book { table } => make_book(alloc, folder, Conversion::Differences, *table)?,
        Plan::BookOfHeights { book } => make_book(alloc, folder, Conversion::Heights, *book)?,
        Plan::Mend { changes, book } => mend(alloc, folder, *changes, *book)?,
    }
    Ok(DONE)
}
