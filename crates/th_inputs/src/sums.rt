//! The length and the digest of an input.
ghost use Rattle.std.specs.Prelude.{◌≡◌, ◌<◌, ◌∷◌, ◌++◌, ◌^◌, ℕ, List, IfOk, OnOk, [], length, string_bytes};
ghost use Rattle.th_inputs.specs.Inputs.{digest_text, input_text};
ghost use Rattle.th_inputs.specs.Sums.{HasTaken, sum_of};

use crate::inputs::Input;
use sha2::{Digest, Sha256};
use std::alloc::{AllocError, Global};

/// What tells an input from others: how many bytes it has, and their SHA-256.
#[derive(Clone, Copy, Debug, PartialEq, Eq)]
pub struct Sum {
    pub which: Input,
    pub length: u64,
    pub digest: [u8; 32],
}

impl Sum {
    /// Which input it is, as a text.
    pub fn label(&self, alloc: Global) -> Result<String, AllocError>
        ensures { IfOk result (λ label. string_bytes label ≡ input_text self.now.which) }
    {
        let which = self.which;
        format!(in alloc; "{which}")
    }

    /// The digest in base 16, as `sha256sum` prints it.
    pub fn digest_text(&self, alloc: Global) -> Result<String, AllocError>
        ensures { IfOk result (λ text. string_bytes text ≡ digest_text self.now) }
    {
        hex::encode(alloc, self.digest)
    }

    /// The sum of an input with this text.
    pub fn of(which: Input, text: &[u8]) -> Sum
        ensures { result ≡ sum_of which text.now }
    {
        Sum {
            which,
            length: text.len() as u64,
            digest: Sha256::digest(text),
        }
    }
}

/// Puts the sum of an input with this text behind others.
pub fn add_sum(sums: &mut Vec<Sum>, which: Input, text: &[u8]) -> Result<(), AllocError>
    ensures { OnOk result (sums.new.items ≡ sums.old.items ++ sum_of which text.now ∷ []) }
{
    sums.push(Sum::of(which, text))?;
    Ok(())
}

/// The sum of an input that comes in pieces.
#[derive(Drop)]
pub struct Summing {
    length: u64,
    hasher: Sha256,
}

impl Summing {
    /// No piece was taken.
    pub fn new() -> Summing
        ensures { HasTaken result [] }
    {
        Summing {
            length: 0,
            hasher: Sha256::new(),
        }
    }

    /// Takes the next piece.
    pub fn take(&mut self, piece: &[u8])
        ensures { (bytes : List ℕ) → HasTaken self.old bytes → HasTaken self.new (bytes ++ piece.now) }
    {
        self.length = self.length.saturating_add(piece.len() as u64);
        self.hasher.update(piece);
    }

    /// The sum of an input that consists of the pieces. It has fewer than 2^64 bytes.
    pub fn finish(self, which: Input) -> Sum
        ensures { (bytes : List ℕ) → HasTaken self bytes → length bytes < 2 ^ 64
            → result ≡ sum_of which bytes }
    {
        Sum {
            which,
            length: self.length,
            digest: self.hasher.finalize(),
        }
    }
}
