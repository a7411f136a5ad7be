//! Lines of a label and its value.
ghost use Rattle.std.specs.Prelude.{◌≡◌, ◌++◌, OnOk, decimal};
ghost use Rattle.th_columns.specs.Labels.{label_line, limit_line};

use crate::columns::Page;
use itoa::Buffer;
use std::alloc::AllocError;
use th_units::metre_text;

/// Writes the limit above which a residual is a blunder. It is given in units of 10 nm and written in
/// metres.
pub fn write_limit(page: &mut Page, limit: i64) -> Result<(), AllocError>
    ensures { OnOk result (page.new ≡ page.old ++ limit_line limit) }
{
    let text = metre_text(limit);
    write_label(page, b"blunder limit", text.as_bytes())
}

/// Writes a label and a count.
pub fn write_count(page: &mut Page, label: &[u8], count: usize) -> Result<(), AllocError>
    ensures { OnOk result (page.new ≡ page.old ++ label_line label.now (decimal count)) }
{
    let mut digits = Buffer::new();
    write_label(page, label, digits.format(count).as_bytes())
}

/// Writes a label and the value that it stands for.
#[tactic(auto, unfolding(crate::specs::Labels::label_line))]
pub fn write_label(page: &mut Page, label: &[u8], value: &[u8]) -> Result<(), AllocError>
    ensures { OnOk result (page.new ≡ page.old ++ label_line label.now value.now) }
{
    page.left(14, label)?;
    page.right(26, value)?;
    page.end_line()
}
