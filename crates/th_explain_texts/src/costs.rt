//! Costs as texts.
ghost use Rattle.std.specs.Prelude.{◌≡◌, ◌++◌, IfOk, decimal, drop, pos};
ghost use Rattle.th_explain_texts.specs.Costs.{cost_metres};
ghost use Rattle.th_units.specs.Metres.{metres};

use itoa::Buffer;
use std::alloc::{AllocError, Global};
use th_units::metre_text;

/// A metre times weight, in units of cost.
const METRE: u128 = 100_000_000;

/// A cost, which is in units of 10 nm times weight, in metres times weight with eight decimals.
pub(crate) fn cost_text(alloc: Global, cost: u128) -> Result<Vec<u8>, AllocError>
    ensures { IfOk result (λ text. text.items ≡ cost_metres cost) }
{
    joined(alloc, cost / METRE, (cost % METRE) as u32)
}

/// Whole metres, and what follows the dot of a length below a metre.
fn joined(alloc: Global, whole: u128, rest: u32) -> Result<Vec<u8>, AllocError>
    ensures { IfOk result (λ text. text.items ≡ decimal whole ++ drop 1 (metres (pos rest))) }
{
    let mut digits = Buffer::new();
    let rest = metre_text(i64::from(rest));
    let mut text = Vec::from_slice(alloc, digits.format(whole).as_bytes())?;
    text.extend_from_slice(decimals_of(rest.as_bytes()))?;
    Ok(text)
}

/// What follows the first digit.
fn decimals_of(text: &[u8]) -> &[u8]
    ensures { result.now ≡ drop 1 text.now }
{
    match text.split_first() {
        Some((_, decimals)) => decimals,
        None => text,
    }
}
