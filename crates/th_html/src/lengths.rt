//! Lengths in metres with four digits behind the dot, and small ones in millimetres.
ghost use Rattle.std.specs.Prelude.{◌≡◌, ◌<◌, ◌++◌, ◌^◌, OnOk, codes, unsigned_abs};
ghost use Rattle.th_html.specs.Lengths.{height_text, look_alike, metres_text, millimetres_text, same_side, sign_text, signed_text, size_text, sized_text, span_text, tenths, tenths_text, up_to};

use itoa::Buffer;
use std::alloc::AllocError;
use th_columns::{Page, last_digits};

/// Writes a length, which is in units of 10 nm.
pub fn write_height(page: &mut Page, length: i64) -> Result<(), AllocError>
    ensures { OnOk result (page.new ≡ page.old ++ height_text length) }
{
    write_sized(page, length < 0, u128::from(length.unsigned_abs()))
}

/// Writes a length, with a sign also where it is above zero.
#[tactic(auto, unfolding(crate::specs::Lengths::signed_text))]
pub fn write_signed(page: &mut Page, length: i64) -> Result<(), AllocError>
    ensures { OnOk result (page.new ≡ page.old ++ signed_text length) }
{
    let count = tenths(u128::from(length.unsigned_abs()));
    page.add(sign_text(length > 0, b"+", count))?;
    write_height(page, length)
}

/// Writes a length below zero, or another one, of a size in units of 10 nm.
#[tactic(auto, unfolding(crate::specs::Lengths::sized_text))]
pub fn write_sized(page: &mut Page, negative: bool, size: u128) -> Result<(), AllocError>
    ensures { OnOk result (page.new ≡ page.old ++ sized_text negative size) }
{
    let count = tenths(size);
    page.add(sign_text(negative, b"-", count))?;
    write_tenths(page, count)
}

/// A size in tenths of a millimetre, rounded.
fn tenths(size: u128) -> u128
    ensures { result ≡ tenths size }
{
    (size / 5_000 + 1) / 2
}

/// The sign of a length, unless it is rounded to zero.
fn sign_text<'a>(has: bool, sign: &'a [u8], count: u128) -> &'a [u8]
    ensures { result.now ≡ sign_text has sign.now count }
{
    if has && count > 0 { sign } else { b"" }
}

/// Writes tenths of a millimetre in metres.
#[tactic(auto, unfolding(crate::specs::Lengths::tenths_text))]
fn write_tenths(page: &mut Page, count: u128) -> Result<(), AllocError>
    ensures { OnOk result (page.new ≡ page.old ++ tenths_text count) }
{
    let mut whole = Buffer::new();
    let decimals: [u8; 4] = last_digits((count % 10_000) as u64);
    page.add(whole.format(count / 10_000).as_bytes())?;
    page.add(b".")?;
    page.add(&decimals)
}

/// Writes the lengths from one to another, which is left out if it looks like the first.
#[tactic(auto, unfolding(crate::specs::Lengths::span_text))]
pub(crate) fn write_span(page: &mut Page, low: i64, high: i64) -> Result<(), AllocError>
    ensures { OnOk result (page.new ≡ page.old ++ span_text low high) }
{
    write_height(page, low)?;
    write_up_to(page, low, high)
}

/// Writes up to which length it goes, unless it looks like the first one.
fn write_up_to(page: &mut Page, low: i64, high: i64) -> Result<(), AllocError>
    ensures { OnOk result (page.new ≡ page.old ++ up_to low high) }
{
    if look_alike(low, high) {
        Ok(())
    } else {
        page.add(b" to ")?;
        write_height(page, high)
    }
}

/// Whether two lengths are rounded to the same size, and both or neither are below zero.
fn look_alike(low: i64, high: i64) -> bool
    ensures { result ≡ look_alike low high }
{
    tenths(u128::from(low.unsigned_abs())) == tenths(u128::from(high.unsigned_abs()))
        && same_side(low, high)
}

/// Whether both or neither of two lengths are below zero.
fn same_side(low: i64, high: i64) -> bool
    ensures { result ≡ same_side low high }
{
    if low < 0 { high < 0 } else { high >= 0 }
}

/// Writes a size in units of 10 nm, in millimetres if it is below a metre.
pub fn write_size(page: &mut Page, size: u64) -> Result<(), AllocError>
    ensures { OnOk result (page.new ≡ page.old ++ size_text size) }
{
    let count = tenths(u128::from(size));
    if count < 10_000 {
        write_millimetres(page, count)
    } else {
        write_metres(page, size)
    }
}

/// Writes tenths of a millimetre in millimetres.
#[tactic(auto, unfolding(crate::specs::Lengths::millimetres_text))]
fn write_millimetres(page: &mut Page, count: u128) -> Result<(), AllocError>
    ensures { OnOk result (page.new ≡ page.old ++ millimetres_text count) }
{
    let mut whole = Buffer::new();
    let mut rest = Buffer::new();
    page.add(whole.format(count / 10).as_bytes())?;
    page.add(b".")?;
    page.add(rest.format(count % 10).as_bytes())?;
    page.add(b" mm")
}

/// Writes a size in metres, with the unit.
#[tactic(auto, unfolding(crate::specs::Lengths::metres_text))]
fn write_metres(page: &mut Page, size: u64) -> Result<(), AllocError>
    ensures { OnOk result (page.new ≡ page.old ++ metres_text size) }
{
    write_sized(page, false, u128::from(size))?;
    page.add(b" m")
}
