//! Checking a certificate of a folder.
ghost use Rattle.std.specs.Prelude.{◌≡◌, ◌≢◌, IfErr, IfOk};
ghost use Rattle.th_devices.specs.Spots.{output};
ghost use Rattle.th_commands.specs.Plans.{files};
ghost use Rattle.th_program.specs.Done.{IsCheckedAs, IsCutVerdict, IsRefusedCheck, IsWrite};
ghost use Rattle.th_run_parts.specs.Writes.{UnlessWrite};

use std::alloc::Global;
use th_checker::Verdict;
use th_commands::Inputs;
use th_devices::{Folder, Origin};
use th_files::{close_sinks, names_of_claim, sinks_of, sources_of};
use th_runs::{CHECKED, Refusal, run_check};

/// Checks the certificate in the named file against the other named files. If a list of them is wanted, a `yes`
/// has the line of each behind it.
pub fn check<F: Folder>(
    alloc: Global,
    folder: &mut F,
    inputs: &Inputs<'_>,
    certificate: &str,
    with_inputs: bool,
) -> Result<Verdict, Refusal>
    ensures checked { IfOk result (IsCheckedAs with_inputs F.tells (F.held folder.old)
        (F.held folder.new) (files inputs.now) certificate.now) }
    ensures refused { IfErr result (IsRefusedCheck (F.failing folder.old)
        (F.held folder.old) (files inputs.now) certificate.now) }
    ensures left { IfErr result (λ own. IsWrite own → IsCutVerdict with_inputs F.tells
        (F.held folder.old) (F.held folder.new) (files inputs.now) certificate.now own) }
    ensures untouched { IfErr result (λ own. UnlessWrite own (folder.new ≡ folder.old)) }
    ensures others { (spot : _) → spot ≢ output → F.held folder.new spot ≡ F.held folder.old spot }
{
    let names = names_of_claim(alloc, inputs, certificate)?;
    let names = with_inputs.then_some(names.as_slice());
    let mut sources = sources_of(alloc, folder, inputs)?;
    let mut certificate = folder.source(alloc, Origin::File(certificate))?;
    let mut outs = sinks_of(alloc, folder, "", &CHECKED)?;
    let answer = run_check(
        alloc,
        sources.books.as_mut_slice(),
        &mut sources.benchmarks,
        &mut sources.weights,
        &mut certificate,
        names,
        outs.as_mut_slice(),
    );
    close_sinks(folder, outs);
    answer
}
