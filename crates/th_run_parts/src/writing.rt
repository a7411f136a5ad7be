//! How a run writes: a text for each of its outputs, one after the other.
ghost use Rattle.std.specs.Prelude.{◌≡◌, IfErr, map};
ghost use Rattle.th_devices.specs.Devices.{IsReady};
ghost use Rattle.th_run_parts.specs.Refused.{stage_of};
ghost use Rattle.th_run_parts.specs.Reads.{refused};
ghost use Rattle.th_run_parts.specs.Writes.{AreWritable, AreWritten, IsAt, IsFailedWrite};

use crate::outputs::Output;
use crate::refusals::Refusal;
use std::marker::Model;
use th_devices::{Sink, write_all};

/// An output of a run, and its text.
#[derive(Drop)]
pub struct OutputText {
    output: Output,
    bytes: Vec<u8>,
}

impl Model for OutputText {
    ghost use Rattle.std.specs.Prelude.{ℕ, List};
    ghost use Rattle.th_run_parts.specs.declared.outputs.Output.{Output};

    ghost Value = { Output × List ℕ };

    ghost view = { λ text. (text.output, text.bytes.items) };
}

impl OutputText {
    /// The text of this output.
    pub fn new(output: Output, bytes: Vec<u8>) -> OutputText
        ensures { result ≡ (output, bytes.items) }
    {
        OutputText { output, bytes }
    }
}

/// Writes the outputs of a run one after the other, up to the first that fails.
pub fn write_outs<K: Sink>(outs: &mut [K], texts: &[OutputText]) -> Result<(), Refusal>
    requires { AreWritable K.state (map (λ text. text.0) texts.now) outs.old }
    ensures named { IfErr result (IsFailedWrite (map (λ text. text.0) texts.now)) }
    ensures written { AreWritten K.state (refused result) texts.now outs.old outs.new }
{
    let Some((out, later)) = outs.split_first_mut() else {
        return Ok(());
    };
    let Some((text, rest)) = texts.split_first() else {
        return Ok(());
    };
    write_out(out, text)?;
    write_outs(later, rest)
}

/// Writes an output whole.
fn write_out<K: Sink>(out: &mut K, text: &OutputText) -> Result<(), Refusal>
    requires { IsReady (K.state out.old).counts }
    ensures written { IsAt K.state (stage_of result) text.now.1 out.old out.new }
    ensures refused { IfErr result (λ own. own ≡ Refusal.Write text.now.0) }
{
    write_all(out, text.bytes.as_slice()).map_err(|_| Refusal::Write(text.output))
}
