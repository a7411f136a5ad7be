//! The second line of a refusal: it names the file as it was given, and what helps.
ghost use Rattle.std.specs.Prelude.{◌≡◌, option_map};
ghost use Rattle.th_messages.specs.Helps.{read_reason, whole_name, write_reason};
ghost use Rattle.th_messages.specs.Lines.{HasRoom, IsPut};
ghost use Rattle.th_commands.specs.Plans.{files};
ghost use Rattle.th_messages.specs.Helped.{name_in, name_of_input, name_of_output, network_line, second_line};

use crate::books::{book_help, fault_help, heights_help};
use crate::certificates::certificate_help;
use crate::changes::{changes_help, unfit_help};
use crate::differences::differences_help;
use crate::helps::{FileName, put_help_line, put_reason_line, read_reason, write_reason};
use crate::lines::Line;
use crate::networks::network_help;
use crate::tables::{benchmarks_help, weights_help};
use th_commands::{Inputs, Plan};
use th_devices::{Failed, Reason, Sink};
use th_network::NetFault;
use th_run_parts::{Input, Output, Refusal};

/// Puts the second line of a refusal, where the system told this reason or none.
pub(crate) fn put_second_line<K: Sink>(
    line: &mut Line<K>,
    plan: &Plan<'_>,
    refusal: &Refusal,
    reason: Option<Reason>,
) -> Result<(), Failed>
    requires { HasRoom 8 line.old }
    ensures { IsPut 8 (second_line plan.now refusal.now reason) line.old line.new result }
{
    match refusal {
        Refusal::Book(number, fault) => {
            let name = name_of_input(plan, Input::Book(*number));
            put_help_line(line, name, fault_help(fault))
        }
        Refusal::Benchmarks(fault) => {
            let name = name_of_input(plan, Input::Benchmarks);
            put_help_line(line, name, benchmarks_help(fault.kind))
        }
        Refusal::Weights(fault) => {
            let name = name_of_input(plan, Input::Weights);
            put_help_line(line, name, weights_help(fault.kind))
        }
        Refusal::Certificate(fault) => {
            let name = name_of_input(plan, Input::Certificate);
            put_help_line(line, name, certificate_help(fault.kind))
        }
        Refusal::Differences(fault) => {
            let name = name_of_input(plan, Input::Differences);
            put_help_line(line, name, differences_help(fault.kind))
        }
        Refusal::Heights(fault) => {
            let name = name_of_input(plan, Input::Book(1));
            put_help_line(line, name, heights_help(fault.kind))
        }
        Refusal::Changes(fault) => {
            let name = name_of_input(plan, Input::Changes);
            put_help_line(line, name, changes_help(fault.kind))
        }
        Refusal::Unfit(fault) => {
            let name = name_of_input(plan, Input::Changes);
            put_help_line(line, name, unfit_help(fault.kind))
        }
        Refusal::Mended(fault) => {
            let name = name_of_input(plan, Input::Book(1));
            put_help_line(line, name, book_help(fault.kind))
        }
        Refusal::Network(fault) => put_network_line(line, plan, *fault),
        Refusal::Read(input) => {
            put_reason_line(line, name_of_input(plan, *input), why_unread(reason))
        }
        Refusal::Write(output) => {
            put_reason_line(line, name_of_output(plan, *output), why_unwritten(reason))
        }
        Refusal::NoMemory => Ok(()),
    }
}

/// Puts the second line for a fault of the network.
fn put_network_line<K: Sink>(
    line: &mut Line<K>,
    plan: &Plan<'_>,
    fault: NetFault,
) -> Result<(), Failed>
    requires { HasRoom 8 line.old }
    ensures { IsPut 8 (network_line plan.now fault) line.old line.new result }
{
    let name = match fault {
        NetFault::NoBenchmark(_) => name_of_input(plan, Input::Benchmarks),
        NetFault::TooManyObservations | NetFault::TooManyPoints | NetFault::NoMemory => None,
    };
    put_help_line(line, name, network_help(fault))
}

/// Why an input was not read, in words, if the system told that.
fn why_unread(reason: Option<Reason>) -> Option<&'static str>
    ensures { option_map (λ own. own.now) result ≡ option_map read_reason reason }
{
    Some(read_reason(reason?))
}

/// Why an output was not written, in words, if the system told that.
fn why_unwritten(reason: Option<Reason>) -> Option<&'static str>
    ensures { option_map (λ own. own.now) result ≡ option_map write_reason reason }
{
    Some(write_reason(reason?))
}

/// The name of an input of a plan. Standard input has none.
fn name_of_input<'a>(plan: &Plan<'a>, input: Input) -> Option<FileName<'a>>
    ensures { option_map whole_name result ≡ name_of_input plan.entry.now input }
{
    match plan {
        Plan::Standard => None,
        Plan::List { book } => Some(given(*book)),
        Plan::Book { table } => Some(given(*table)),
        Plan::BookOfHeights { book } => Some(given(*book)),
        Plan::Mend { changes, book } => match input {
            Input::Changes => Some(given(*changes)),
            _ => Some(given(*book)),
        },
        Plan::Adjust { inputs, .. }
        | Plan::Review { inputs, .. }
        | Plan::Explain { inputs, .. }
        | Plan::Page { inputs, .. } => name_in(inputs, input),
        Plan::Check {
            inputs,
            certificate,
            ..
        } => match input {
            Input::Certificate => Some(given(*certificate)),
            other => name_in(inputs, other),
        },
    }
}

/// The name of an input among these files.
fn name_in<'a>(inputs: &Inputs<'a>, input: Input) -> Option<FileName<'a>>
    ensures { option_map whole_name result ≡ name_in (files inputs.entry.now) input }
{
    let name = match input {
        Input::Book(number) => {
            let names = inputs.books.names();
            *names.get((number as usize).saturating_sub(1))?
        }
        Input::Benchmarks => inputs.benchmarks,
        Input::Weights => inputs.weights?,
        Input::Certificate | Input::Differences | Input::Changes => return None,
    };
    Some(given(name))
}

/// The name of an output of a plan. Standard output has none.
fn name_of_output<'a>(plan: &Plan<'a>, output: Output) -> Option<FileName<'a>>
    ensures { option_map whole_name result ≡ name_of_output plan.entry.now output }
{
    match plan {
        Plan::Adjust { prefix, .. } | Plan::Review { prefix, .. } | Plan::Page { prefix, .. } =>
            Some(FileName {
                begin: *prefix,
                end: output.ending()?,
            }),
        Plan::Standard
        | Plan::List { .. }
        | Plan::Explain { .. }
        | Plan::Check { .. }
        | Plan::Book { .. }
        | Plan::BookOfHeights { .. }
        | Plan::Mend { .. } => None,
    }
}

/// A name as it was given.
fn given(name: &str) -> FileName<'_>
    ensures { whole_name result ≡ name.entry.now }
{
    FileName {
        begin: name,
        end: "",
    }
}
