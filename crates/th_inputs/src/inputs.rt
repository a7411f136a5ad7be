//! The inputs of a run, as texts name them.
ghost use Rattle.std.specs.Prelude.{◌≡◌, ◌++◌, OnOk, map, zip};
ghost use Rattle.std.specs.List.{flat_map};
ghost use Rattle.th_inputs.specs.Inputs.{input_line, input_lines, inputs_of};
ghost use Rattle.th_inputs.specs.Shown.{shown};

use crate::shown::shown_byte;
use crate::sums::Sum;
use std::alloc::{AllocError, Global};
use std::fmt;
use th_columns::{Page, last_part};

/// What a run reads.
#[derive(Clone, Copy, Debug, PartialEq, Eq)]
pub enum Input {
    /// The book with this number, from 1.
    Book(u32),
    /// The table of the benchmarks.
    Benchmarks,
    /// The table of the weights.
    Weights,
    /// The certificate that is checked.
    Certificate,
    /// The table of differences that becomes a book. It is read alone.
    Differences,
    /// The table of the changes of a book. It is read before the book.
    Changes,
}

impl fmt::Display for Input {
    ghost use Rattle.std.specs.Prelude.{Some};
    ghost use Rattle.th_inputs.specs.Inputs.{input_text};

    ghost output = { λ input. Some (input_text input) };

    fn fmt<W: fmt::Write>(&self, f: &mut fmt::Formatter<W>) -> fmt::Result {
        match self {
            Input::Book(number) => write!(f, "book {number}"),
            Input::Benchmarks => f.write_str("benchmarks"),
            Input::Weights => f.write_str("weights"),
            Input::Certificate => f.write_str("certificate"),
            Input::Differences => f.write_str("differences"),
            Input::Changes => f.write_str("changes"),
        }
    }
}

/// The inputs that a run read, in their order.
#[derive(Clone, Copy)]
pub struct NamedInputs<'a> {
    /// Their names, as they were given.
    pub names: &'a [&'a str],
    /// Their sums.
    pub sums: &'a [Sum],
}

/// Writes the line of each input.
pub fn write_inputs(
    alloc: Global,
    page: &mut Page,
    inputs: NamedInputs<'_>,
) -> Result<(), AllocError>
    ensures { OnOk result (page.new ≡ page.old ++ input_lines (inputs_of inputs.entry)) }
{
    write_each(alloc, page, inputs.names, inputs.sums)
}

/// Writes the line of each input that has a name and a sum.
fn write_each(
    alloc: Global,
    page: &mut Page,
    names: &[&str],
    sums: &[Sum],
) -> Result<(), AllocError>
    ensures { OnOk result (page.new
        ≡ page.old ++ input_lines (zip (map (λ name. name.now) names.now) sums.now)) }
{
    let (Some((name, names)), Some((sum, sums))) = (names.split_first(), sums.split_first()) else {
        return Ok(());
    };
    write_input(alloc, page, name, sum)?;
    write_each(alloc, page, names, sums)
}

/// Writes the line of an input with this name.
#[tactic(auto, unfolding(crate::specs::Inputs::input_line))]
fn write_input(alloc: Global, page: &mut Page, name: &str, sum: &Sum) -> Result<(), AllocError>
    ensures { OnOk result (page.new ≡ page.old ++ input_line (name.now, sum.now)) }
{
    let label = sum.label(alloc)?;
    let digest = sum.digest_text(alloc)?;
    page.left(10, label.as_bytes())?;
    page.right_number(10, sum.length)?;
    page.gap()?;
    page.add(digest.as_bytes())?;
    page.gap()?;
    write_shown(page, last_part(name.as_bytes()))?;
    page.end_line()
}

/// Writes bytes as they are shown.
fn write_shown(page: &mut Page, bytes: &[u8]) -> Result<(), AllocError>
    ensures { OnOk result (page.new ≡ page.old ++ shown bytes.now) }
{
    for byte in bytes {
        page.add(shown_byte(*byte).as_bytes())?;
    }
    Ok(())
}
