//! One input: its source is read to the end, or to one byte more than it may have, and only then
//! are its faults reported.
ghost use Rattle.std.specs.Prelude.{◌≡◌, ◌≢◌, ◌⊎◌, ◌+◌, IfErr, IfOk, IfSome, OnOk, false, is_some, take, true};
ghost use Rattle.th_devices.specs.Devices.{IsReady};
ghost use Rattle.th_run_parts.specs.Inputs.{AnswersOwed, Failed, given, given_if_any, limit_of, owed_for_benchmarks, owed_for_weights, told_if_any};
ghost use Rattle.th_run_parts.specs.Reads.{IfPresent, IsFrom, IsOfInputs, IsReadFor, refused};
ghost use Rattle.th_run_parts.specs.Summed.{IsSummedIfAny, IsSummedNext};
ghost use Rattle.th_tables.specs.Rows.{AreBenchmarks, AreWeights};

use crate::refusals::Refusal;
use std::alloc::Global;
use th_book::MAX_BOOK;
use th_certificate::MAX_CERTIFICATE;
use th_conversions::MAX_DIFFERENCES;
use th_devices::{ReadFault, Source, read_all};
use th_inputs::{Input, Sum, add_sum};
use th_mend::MAX_CHANGES;
use th_tables::{Benchmarks, MAX_TABLE, TableKind, Weights, read_benchmarks, read_weights};

/// The most bytes that an input has.
pub(crate) fn limit_of(input: Input) -> u32
    ensures { result ≡ limit_of input }
{
    match input {
        Input::Book(_) => MAX_BOOK as u32,
        Input::Benchmarks | Input::Weights => MAX_TABLE as u32,
        Input::Certificate => MAX_CERTIFICATE as u32,
        Input::Differences => MAX_DIFFERENCES as u32,
        Input::Changes => MAX_CHANGES as u32,
    }
}

/// The text of an input, or its front up to one byte more than the input may have.
pub fn read_text<S: Source>(alloc: Global, which: Input, source: &mut S) -> Result<Vec<u8>, Refusal>
    requires { IsReady (S.state source.old).counts }
    ensures front { IfOk result (λ bytes. IfSome (S.state source.old).left (λ text.
        bytes.items ≡ take (limit_of which + 1) text)) }
    ensures refused { IfErr result (λ own. own ≢ Refusal.NoMemory → (own ≡ Refusal.Read which)
        × (given S.state source.old source.new ≡ Failed)) }
    ensures named { IfErr result (λ own. (own ≡ Refusal.NoMemory) ⊎ (own ≡ Refusal.Read which)) }
    ensures source { IsReadFor S.state which (refused result) source.old source.new }
{
    match read_all(alloc, source, limit_of(which)) {
        Ok(bytes) => Ok(bytes),
        Err(ReadFault::Failed) => Err(Refusal::Read(which)),
        Err(ReadFault::NoMemory) => Err(Refusal::NoMemory),
    }
}

/// The benchmarks that a source says. Their sum is put behind others.
pub(crate) fn benchmarks_from<S: Source>(
    alloc: Global,
    source: &mut S,
    sums: &mut Vec<Sum>,
) -> Result<Benchmarks, Refusal>
    requires { IsReady (S.state source.old).counts }
    ensures answer { AnswersOwed (owed_for_benchmarks (given S.state source.old source.new)) result }
    ensures rows { IfOk result AreBenchmarks }
    ensures summed { OnOk result (IsSummedNext Input.Benchmarks (S.state source.old).left
        sums.old.items sums.new.items) }
    ensures named { IfErr result (IsOfInputs 0 false) }
    ensures source { IsReadFor S.state Input.Benchmarks (refused result) source.old source.new }
{
    let text = read_text(alloc, Input::Benchmarks, source)?;
    add_sum(sums, Input::Benchmarks, text.as_slice())?;
    match read_benchmarks(alloc, text.as_slice()) {
        Ok(benchmarks) => Ok(benchmarks),
        Err(fault) => match fault.kind {
            TableKind::NoMemory => Err(Refusal::NoMemory),
            _ => Err(Refusal::Benchmarks(fault)),
        },
    }
}

/// The weights that a source says, none where there is no source. Their sum is put behind others.
pub(crate) fn weights_from<S: Source>(
    alloc: Global,
    source: &mut Option<S>,
    sums: &mut Vec<Sum>,
) -> Result<Weights, Refusal>
    requires { IfSome source.old (λ own. IsReady (S.state own).counts) }
    ensures answer { AnswersOwed
        (owed_for_weights (given_if_any S.state source.old source.new)) result }
    ensures rows { IfOk result AreWeights }
    ensures summed { OnOk result (IsSummedIfAny Input.Weights (told_if_any S.state source.old)
        sums.old.items sums.new.items) }
    ensures at { IfErr result (IsFrom Input.Weights) }
    ensures named { IfErr result (IsOfInputs 0 (is_some source.old)) }
    ensures source { IfPresent (IsReadFor S.state Input.Weights (refused result))
        source.old source.new }
{
    match source {
        Some(own) => weights_in(alloc, own, sums),
        None => Ok(Weights::empty(alloc)),
    }
}

/// The weights that a source says.
fn weights_in<S: Source>(
    alloc: Global,
    source: &mut S,
    sums: &mut Vec<Sum>,
) -> Result<Weights, Refusal>
    requires { IsReady (S.state source.old).counts }
    ensures answer { AnswersOwed
        (owed_for_weights (Some (given S.state source.old source.new))) result }
    ensures rows { IfOk result AreWeights }
    ensures summed { OnOk result (IsSummedNext Input.Weights (S.state source.old).left
        sums.old.items sums.new.items) }
    ensures at { IfErr result (IsFrom Input.Weights) }
    ensures named { IfErr result (IsOfInputs 0 true) }
    ensures source { IsReadFor S.state Input.Weights (refused result) source.old source.new }
{
    let text = read_text(alloc, Input::Weights, source)?;
    add_sum(sums, Input::Weights, text.as_slice())?;
    match read_weights(alloc, text.as_slice()) {
        Ok(weights) => Ok(weights),
        Err(fault) => match fault.kind {
            TableKind::NoMemory => Err(Refusal::NoMemory),
            _ => Err(Refusal::Weights(fault)),
        },
    }
}
