//! Names of points in reduced form: how data give one, and how they are compared, hashed and shown.
ghost use Rattle.std.specs.Prelude.{◌≡◌, ◌≤◌, ◌∷◌, [], length, nat_eq, refl, true, Some};
ghost use Rattle.std.specs.List.{list_all};
ghost use Rattle.std.specs.Cmp.{partial_equiv_from_equiv};
ghost use Rattle.std.specs.Cmp.Lexicographic.{pointwise, bytes_decides, slice_cmp, nat_list_eq_equiv, nat_list_cmp_total, texts_ties, texts_po};
ghost use Rattle.std.specs.Hash as fed;
ghost use Rattle.std.specs.Ordering.{nat_cmp};
ghost use Rattle.gsi_word.specs.Bytes.{is_data, is_padding};
ghost use Rattle.gsi_word.specs.Names.{name_of, without_leading, without_trailing};

use crate::bytes::are_data;
use crate::limits::MAX_NAME;
use std::cmp::Ordering;
use std::hash::{Hash, Hasher};
use std::marker::Model;
use std::{fmt, str};

/// A point's name in reduced form: 1 to `MAX_NAME` printable bytes, compared as bytes and hashed as
/// one write.
#[derive(Clone, Copy)]
pub struct Name {
    bytes: [u8; MAX_NAME],
    len: u8,
}

impl Model for Name {
    ghost use Rattle.std.specs.Prelude.{◌≡◌, List, ℕ, length, take};
    ghost use Rattle.gsi_word.specs.Inside.PaddedNames.{padded, IsPaddedName};

    ghost Value = { List ℕ };

    ghost view = { λ name. take name.len name.bytes };

    ghost invariant = { λ name. IsPaddedName name.bytes name.len };

    ghost inverse = { λ bytes. record { bytes = padded bytes; len = length bytes } };
}

impl Name {
    // Not inlined: a caller would copy the name right after its parts were written, and a processor waits
    // for those.
    /// The name that has these bytes, which are in reduced form.
    #[inline(never)]
    fn of(name: &[u8]) -> Name
        requires { name_of name.now ≡ Some name.now }
        ensures { result ≡ name.now }
    {
        let mut bytes = [0; MAX_NAME];
        bytes[..name.len()].copy_from_slice(name);
        Name {
            bytes,
            len: name.len() as u8,
        }
    }

    /// The bytes of the name. Reduced again, they stay the same.
    pub fn as_bytes(&self) -> &[u8]
        ensures bytes { result.now ≡ self.now }
        ensures reduced { name_of self.now ≡ Some self.now }
    {
        &self.bytes[..usize::from(self.len)]
    }

    /// The name as text: printable ASCII is text, so that the other arm is never taken.
    fn text(&self) -> &str
        ensures { result.now ≡ self.now }
    {
        match str::from_utf8(self.as_bytes()) {
            Ok(text) => text,
            Err(_) => "",
        }
    }
}

impl PartialEq for Name {
    ghost eq = { pointwise nat_eq };

    ghost laws = { partial_equiv_from_equiv nat_list_eq_equiv };

    fn eq(&self, other: &Name) -> bool {
        self.as_bytes() == other.as_bytes()
    }
}

impl Eq for Name {
    ghost laws = { nat_list_eq_equiv };
}

impl PartialOrd for Name {
    ghost partial_cmp = { λ x y. Some (slice_cmp nat_cmp x y) };

    ghost laws = { texts_po };

    fn partial_cmp(&self, other: &Name) -> Option<Ordering> {
        Some(self.cmp(other))
    }
}

impl Ord for Name {
    ghost cmp = { slice_cmp nat_cmp };

    ghost total = { nat_list_cmp_total };

    ghost matches_partial_cmp = { λ x y. refl };

    ghost matches_eq = { texts_ties };

    fn cmp(&self, other: &Name) -> Ordering {
        self.as_bytes().cmp(other.as_bytes())
    }
}

impl Hash for Name {
    ghost hash_input = { λ name. name ∷ [] };

    ghost respects_eq = { (fed.same_Alike (λ name. name ∷ []) bytes_decides).fed };

    fn hash<H: Hasher>(&self, state: &mut H) {
        state.write(self.as_bytes());
    }
}

/// A name is shown as it is.
impl fmt::Display for Name {
    ghost use Rattle.std.specs.Prelude.{Some};

    ghost output = { λ name. Some name };

    fn fmt<W: fmt::Write>(&self, f: &mut fmt::Formatter<W>) -> fmt::Result {
        f.write_str(self.text())
    }
}

/// A name is shown in quotation marks, as text is.
impl fmt::Debug for Name {
    ghost use Rattle.std.specs.Fmt.{debug_str};

    ghost debug_output = { debug_str };

    fn fmt<W: fmt::Write>(&self, f: &mut fmt::Formatter<W>) -> fmt::Result {
        fmt::Debug::fmt(self.text(), f)
    }
}

/// The name that data give: the data without leading zeros and spaces and without trailing spaces,
/// or `0` if nothing is left and the data hold a zero.
///
/// `None` if the data are empty or only spaces, hold a byte that is not printable ASCII, or leave
/// more than `MAX_NAME` bytes.
pub fn name_of(bytes: &[u8]) -> Option<Name>
    ensures { result ≡ name_of bytes.now }
{
    if !are_data(bytes) {
        return None;
    }
    name_of_data(bytes)
}

/// The name that data give, as of `name_of`, where each byte is known to be printable.
pub(crate) fn name_of_data(bytes: &[u8]) -> Option<Name>
    requires { list_all is_data bytes.now ≡ true }
    ensures { result ≡ name_of bytes.now }
{
    let name = without_trailing(without_leading(bytes));
    if name.is_empty() {
        if bytes.contains(&b'0') {
            return Some(Name::of(b"0"));
        }
        return None;
    }
    if name.len() > MAX_NAME {
        return None;
    }
    Some(Name::of(name))
}

/// The bytes without their leading run of zeros and spaces.
fn without_leading(bytes: &[u8]) -> &[u8]
    ensures { result.now ≡ without_leading bytes.now }
{
    let mut left = bytes;
    while let [first, rest @ ..] = left {
        if !is_padding(*first) {
            return left;
        }
        left = rest;
    }
    left
}

/// Whether a byte is one that a name does not begin with.
fn is_padding(byte: u8) -> bool
    ensures { result ≡ is_padding byte }
{
    byte == b'0' || byte == b' '
}

/// The bytes without their trailing spaces.
fn without_trailing(bytes: &[u8]) -> &[u8]
    ensures { result.now ≡ without_trailing bytes.now }
{
    let mut left = bytes;
    while let [rest @ .., b' '] = left {
        left = rest;
    }
    left
}
