//! The refusal of a plan, reported on standard error.
ghost use Rattle.std.specs.Prelude.{◌≡◌, ◌≢◌, false, true};
ghost use Rattle.th_devices.specs.Spots.{errors, output};
ghost use Rattle.th_messages.specs.Said.{IsReported};
ghost use Rattle.th_program.specs.Done.{IsOutputOf};
ghost use Rattle.th_run_parts.specs.Refusals.{status_of};

use th_commands::Plan;
use th_devices::{Folder, Reason};
use th_messages::{begin_line, end_line, put_refusal};
use th_run_parts::{Refusal, status_of};

/// Reports the refusal of a plan in one line on standard error, or in two, and returns the exit status.
/// Where nobody reads standard output any more, the status alone reports it.
///
/// If standard error does not take the lines, the status still reports the refusal.
pub(crate) fn refuse<F: Folder>(folder: &mut F, plan: &Plan<'_>, refusal: &Refusal) -> u8
    ensures status { result ≡ status_of refusal.now }
    ensures reported { F.has_failed folder.new errors ≡ false
        → IsReported F.tells (F.held folder.new) plan.now refusal.now }
    ensures others { (spot : _) → spot ≢ errors → F.held folder.new spot ≡ F.held folder.old spot }
{
    let reason = folder.reason();
    if matches!(reason, Some(Reason::ClosedPipe)) && is_on_output(plan, refusal) {
        return status_of(refusal);
    }
    let mut line = begin_line(folder);
    let _ = put_refusal(&mut line, plan, refusal, reason);
    end_line(folder, line);
    status_of(refusal)
}

/// Whether this is the refusal of a write to standard output.
fn is_on_output(plan: &Plan<'_>, refusal: &Refusal) -> bool
    ensures { result ≡ true → (spot : _) → IsOutputOf plan.now spot → spot ≡ output }
{
    match (plan, refusal) {
        (Plan::Adjust { .. } | Plan::Review { .. } | Plan::Page { .. }, _) => false,
        (_, Refusal::Write(_)) => true,
        _ => false,
    }
}
