//! Plans whose outputs would overwrite one of their inputs. Nothing is read or written here.
ghost use Rattle.std.specs.Prelude.{◌≡◌, IfErr, IfOk, true};
ghost use Rattle.th_program.specs.Done.{KeepsInputs};
ghost use Rattle.th_program.specs.Inside.Stops.{IsStopOf};

use std::alloc::Global;
use th_commands::Plan;
use th_devices::Folder;
use th_files::{Stop, keep_all};
use th_runs::{ADJUSTED, PAGED, REVIEWED};

/// Answers that a plan writes no file that it reads, or why it is not begun.
pub(crate) fn keep_inputs<'a, F: Folder>(
    alloc: Global,
    folder: &F,
    plan: &Plan<'a>,
) -> Result<(), Stop<'a>>
    ensures apart { IfOk result (λ _. F.tells ≡ true → KeepsInputs plan.now) }
    ensures stopped { IfErr result (IsStopOf F.tells plan.now) }
{
    match plan {
        Plan::Adjust { inputs, prefix, .. } => {
            keep_all(alloc, folder, inputs, *prefix, &ADJUSTED)
        }
        Plan::Review { inputs, prefix, .. } => {
            keep_all(alloc, folder, inputs, *prefix, &REVIEWED)
        }
        Plan::Page { inputs, prefix, .. } => keep_all(alloc, folder, inputs, *prefix, &PAGED),
        Plan::Standard
        | Plan::List { .. }
        | Plan::Explain { .. }
        | Plan::Check { .. }
        | Plan::Book { .. }
        | Plan::BookOfHeights { .. }
        | Plan::Mend { .. } => Ok(()),
    }
}
