//! What is reported on standard error. Nothing here allocates, so that each refusal has its own line,
//! also where memory ran out.
ghost use Rattle.std.specs.Prelude.{◌≡◌, ◌≢◌, ◌++◌, ◌∷◌, [], codes, decimal, false, string_bytes};
ghost use Rattle.th_devices.specs.Spots.{errors};
ghost use Rattle.th_messages.specs.Lines.{HasRoom, IsPut};
ghost use Rattle.th_inputs.specs.Shown.{shown};
ghost use Rattle.th_messages.specs.Helped.{refused_lines};
ghost use Rattle.th_messages.specs.Said.{IsSaid, overwrite_help, overwrite_lines, overwrite_text};
ghost use Rattle.th_tables.specs.Texts.{fault_text};
ghost use Rattle.th_inputs.specs.Inputs.{input_text};
ghost use Rattle.th_run_parts.specs.Refusals.{refusal_text};

use crate::errors::{begin_line, end_line};
use crate::faults::{
    put_book_fault, put_certificate_fault, put_change_fault, put_difference_fault,
    put_height_fault, put_network_fault, put_row_fault, put_table_fault,
};
use crate::helping::put_second_line;
use crate::lines::Line;
use th_book::BookFault;
use th_certificate::CertFault;
use th_commands::Plan;
use th_conversions::{DifferenceFault, HeightFault};
use th_devices::{Failed, Folder, Reason, Sink};
use th_files::Overwrite;
use th_mend::{ChangeFault, RowFault};
use th_network::NetFault;
use th_run_parts::{Input, NO_MEMORY, Output, Refusal, USAGE};
use th_tables::TableFault;

/// Reports on standard error that memory ran out, and returns the exit status.
pub fn refuse_memory<F: Folder>(folder: &mut F) -> u8
    ensures status { result ≡ 4 }
    ensures reported { F.has_failed folder.new errors ≡ false
        → IsSaid F.tells (F.held folder.new) (codes "out of memory") }
    ensures others { (spot : _) → spot ≢ errors → F.held folder.new spot ≡ F.held folder.old spot }
{
    let mut line = begin_line(folder);
    let _ = line.put("out of memory\n");
    end_line(folder, line);
    NO_MEMORY
}

/// Reports on standard error that an output would overwrite an input, and what helps, and answers the
/// status to end with.
pub fn refuse_overwrite<F: Folder>(folder: &mut F, overwrite: &Overwrite<'_>) -> u8
    ensures status { result ≡ 3 }
    ensures reported { F.has_failed folder.new errors ≡ false → IsSaid F.tells (F.held folder.new)
        (overwrite_lines (string_bytes overwrite.now.output) overwrite.now.input
        overwrite.now.name.now) }
    ensures others { (spot : _) → spot ≢ errors → F.held folder.new spot ≡ F.held folder.old spot }
{
    let mut line = begin_line(folder);
    let _ = put_overwrite(&mut line, overwrite);
    end_line(folder, line);
    USAGE
}

/// Writes a text of several lines to standard error, as its bytes are shown.
pub fn report<F: Folder>(folder: &mut F, text: &str)
    ensures { (spot : _) → spot ≢ errors → F.held folder.new spot ≡ F.held folder.old spot }
{
    let mut line = begin_line(folder);
    let _ = line.put_shown_lines(text);
    end_line(folder, line);
}

/// Puts the lines of a refusal: its own, and the second, which names the file and what helps.
///
/// The reason is what the system told of a failed device.
pub fn put_refusal<K: Sink>(
    line: &mut Line<K>,
    plan: &Plan<'_>,
    refusal: &Refusal,
    reason: Option<Reason>,
) -> Result<(), Failed>
    requires { HasRoom 24 line.old }
    ensures { IsPut 24 (refused_lines plan.now refusal.now reason) line.old line.new result }
{
    put_first_line(line, refusal)?;
    put_second_line(line, plan, refusal, reason)
}

/// Puts the first line of a refusal.
#[tactic(auto, using(crate::proofs::LineLemmas::appended))]
fn put_first_line<K: Sink>(line: &mut Line<K>, refusal: &Refusal) -> Result<(), Failed>
    requires { HasRoom 16 line.old }
    ensures { IsPut 16 (refusal_text refusal.now ++ 10 ∷ []) line.old line.new result }
{
    put_refusal_text(line, refusal)?;
    line.put("\n")
}

/// Puts the text of a refusal.
fn put_refusal_text<K: Sink>(line: &mut Line<K>, refusal: &Refusal) -> Result<(), Failed>
    requires { HasRoom 12 line.old }
    ensures { IsPut 12 (refusal_text refusal.now) line.old line.new result }
{
    match refusal {
        Refusal::Book(number, fault) => put_book(line, *number, fault),
        Refusal::Benchmarks(fault) => put_table(line, "benchmarks ", fault),
        Refusal::Weights(fault) => put_table(line, "weights ", fault),
        Refusal::Certificate(fault) => put_certificate(line, fault),
        Refusal::Differences(fault) => put_differences(line, fault),
        Refusal::Heights(fault) => put_heights(line, fault),
        Refusal::Changes(fault) => put_changes(line, fault),
        Refusal::Unfit(fault) => put_unfit(line, fault),
        Refusal::Mended(fault) => put_mended(line, fault),
        Refusal::Network(fault) => put_network(line, fault),
        Refusal::Read(input) => put_failed_read(line, *input),
        Refusal::Write(output) => put_failed_write(line, *output),
        Refusal::NoMemory => line.put("out of memory"),
    }
}

/// Puts the text of a refused book.
#[tactic(auto, using(crate::proofs::LineLemmas::appended))]
fn put_book<K: Sink>(line: &mut Line<K>, number: u32, fault: &BookFault) -> Result<(), Failed>
    requires { HasRoom 12 line.old }
    ensures { IsPut 12 (refusal_text (Refusal.Book number fault.now)) line.old line.new result }
{
    put_number_of_book(line, number)?;
    line.put(" ")?;
    put_book_fault(line, fault)
}

/// Puts the text of a refused table behind its name.
#[tactic(auto, using(crate::proofs::LineLemmas::appended))]
fn put_table<K: Sink>(line: &mut Line<K>, name: &str, fault: &TableFault) -> Result<(), Failed>
    requires { HasRoom 12 line.old }
    ensures { IsPut 12 (name.now ++ fault_text fault.now) line.old line.new result }
{
    line.put(name)?;
    put_table_fault(line, fault)
}

/// Puts the text of a refused certificate.
#[tactic(auto, using(crate::proofs::LineLemmas::appended))]
fn put_certificate<K: Sink>(line: &mut Line<K>, fault: &CertFault) -> Result<(), Failed>
    requires { HasRoom 12 line.old }
    ensures { IsPut 12 (refusal_text (Refusal.Certificate fault.now)) line.old line.new result }
{
    line.put("certificate ")?;
    put_certificate_fault(line, fault)
}

/// Puts the text of a refused table of differences.
#[tactic(auto, using(crate::proofs::LineLemmas::appended))]
fn put_differences<K: Sink>(line: &mut Line<K>, fault: &DifferenceFault) -> Result<(), Failed>
    requires { HasRoom 12 line.old }
    ensures { IsPut 12 (refusal_text (Refusal.Differences fault.now)) line.old line.new result }
{
    line.put("differences ")?;
    put_difference_fault(line, fault)
}

/// Puts the text of a refused book with heights.
fn put_heights<K: Sink>(line: &mut Line<K>, fault: &HeightFault) -> Result<(), Failed>
    requires { HasRoom 12 line.old }
    ensures { IsPut 12 (refusal_text (Refusal.Heights fault.now)) line.old line.new result }
{
    line.put("book 1 ")?;
    put_height_fault(line, fault)
}

/// Puts the text of a refused table of changes.
fn put_changes<K: Sink>(line: &mut Line<K>, fault: &ChangeFault) -> Result<(), Failed>
    requires { HasRoom 12 line.old }
    ensures { IsPut 12 (refusal_text (Refusal.Changes fault.now)) line.old line.new result }
{
    line.put("changes ")?;
    put_change_fault(line, fault)
}

/// Puts the text of a change that has no place in the book.
fn put_unfit<K: Sink>(line: &mut Line<K>, fault: &RowFault) -> Result<(), Failed>
    requires { HasRoom 12 line.old }
    ensures { IsPut 12 (refusal_text (Refusal.Unfit fault.now)) line.old line.new result }
{
    line.put("changes ")?;
    put_row_fault(line, fault)
}

/// Puts the text of a refused mended book.
fn put_mended<K: Sink>(line: &mut Line<K>, fault: &BookFault) -> Result<(), Failed>
    requires { HasRoom 12 line.old }
    ensures { IsPut 12 (refusal_text (Refusal.Mended fault.now)) line.old line.new result }
{
    line.put("mended ")?;
    put_book_fault(line, fault)
}

/// Puts the text of a refused network.
#[tactic(auto, using(crate::proofs::LineLemmas::appended))]
fn put_network<K: Sink>(line: &mut Line<K>, fault: &NetFault) -> Result<(), Failed>
    requires { HasRoom 12 line.old }
    ensures { IsPut 12 (refusal_text (Refusal.Network fault.now)) line.old line.new result }
{
    line.put("network: ")?;
    put_network_fault(line, fault)
}

/// Puts the text of a failed read.
#[tactic(auto, using(crate::proofs::LineLemmas::appended))]
fn put_failed_read<K: Sink>(line: &mut Line<K>, input: Input) -> Result<(), Failed>
    requires { HasRoom 12 line.old }
    ensures { IsPut 12 (refusal_text (Refusal.Read input)) line.old line.new result }
{
    line.put("read failed: ")?;
    put_input(line, input)
}

/// Puts the text of a failed write.
#[tactic(auto, using(crate::proofs::LineLemmas::appended))]
fn put_failed_write<K: Sink>(line: &mut Line<K>, output: Output) -> Result<(), Failed>
    requires { HasRoom 12 line.old }
    ensures { IsPut 12 (refusal_text (Refusal.Write output)) line.old line.new result }
{
    line.put("write failed: ")?;
    line.put(output.name())
}

/// Puts the lines that an output would overwrite an input.
#[tactic(auto, using(crate::proofs::LineLemmas::appended))]
fn put_overwrite<K: Sink>(line: &mut Line<K>, overwrite: &Overwrite<'_>) -> Result<(), Failed>
    requires { HasRoom 16 line.old }
    ensures { IsPut 16 (overwrite_lines (string_bytes overwrite.now.output) overwrite.now.input
        overwrite.now.name.now ++ 10 ∷ []) line.old line.new result }
{
    put_overwrite_lines(line, overwrite)?;
    line.put("\n")
}

/// Puts the texts of these lines.
#[tactic(auto, using(crate::proofs::LineLemmas::appended))]
fn put_overwrite_lines<K: Sink>(line: &mut Line<K>, overwrite: &Overwrite<'_>) -> Result<(), Failed>
    requires { HasRoom 14 line.old }
    ensures { IsPut 14 (overwrite_lines (string_bytes overwrite.now.output) overwrite.now.input
        overwrite.now.name.now) line.old line.new result }
{
    put_overwrite_text(line, overwrite)?;
    line.put("\n  ")?;
    line.put(overwrite_help(overwrite.input))
}

/// What helps where an output would overwrite an input.
fn overwrite_help(input: Input) -> &'static str
    ensures { result.now ≡ overwrite_help input }
{
    match input {
        Input::Book(_) => "leave it out, or give another prefix",
        _ => "give another prefix",
    }
}

/// Puts the text that an output would overwrite an input.
#[tactic(auto, using(crate::proofs::LineLemmas::appended))]
fn put_overwrite_text<K: Sink>(line: &mut Line<K>, overwrite: &Overwrite<'_>) -> Result<(), Failed>
    requires { HasRoom 12 line.old }
    ensures { IsPut 12 (overwrite_text (string_bytes overwrite.now.output) overwrite.now.input
        overwrite.now.name.now) line.old line.new result }
{
    put_overwriting(line, overwrite.output.as_str())?;
    put_input(line, overwrite.input)?;
    line.put(" ")?;
    line.put_shown(overwrite.name)
}

/// Puts how that text begins.
#[tactic(auto, using(crate::proofs::LineLemmas::appended))]
fn put_overwriting<K: Sink>(line: &mut Line<K>, output: &str) -> Result<(), Failed>
    requires { HasRoom 4 line.old }
    ensures { IsPut 4 (codes "error: output " ++ shown output.now ++ codes " would overwrite ")
        line.old line.new result }
{
    line.put("error: output ")?;
    line.put_shown(output)?;
    line.put(" would overwrite ")
}

/// Puts the text that names an input.
fn put_input<K: Sink>(line: &mut Line<K>, input: Input) -> Result<(), Failed>
    requires { HasRoom 2 line.old }
    ensures { IsPut 2 (input_text input) line.old line.new result }
{
    match input {
        Input::Book(number) => put_number_of_book(line, number),
        Input::Benchmarks => line.put("benchmarks"),
        Input::Weights => line.put("weights"),
        Input::Certificate => line.put("certificate"),
        Input::Differences => line.put("differences"),
        Input::Changes => line.put("changes"),
    }
}

/// Puts the text that names a book.
#[tactic(auto, using(crate::proofs::LineLemmas::appended))]
fn put_number_of_book<K: Sink>(line: &mut Line<K>, number: u32) -> Result<(), Failed>
    requires { HasRoom 2 line.old }
    ensures { IsPut 2 (codes "book " ++ decimal number) line.old line.new result }
{
    line.put("book ")?;
    line.put_number(number)
}
