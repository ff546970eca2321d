//! Names.

use crate::format::Format;
use std::cmp::Ordering;
use std::marker::Model;

/// A name of 1 to 63 bytes, seen as the list of them.
#[derive(Clone, Copy)]
pub struct Name {
    /// Its bytes, and zeros behind them.
    bytes: [u8; 63],
    len: u8,
}

impl Model for Name {
    ghost use Rattle.std.specs.Prelude.{ℕ, List, take};
    ghost use Rattle.graph_terms.specs.NameLaws.{IsName, fields_of, fields_of-take};

    ghost Value = { List ℕ };

    ghost view = { λ a. take a.len a.bytes };

    ghost invariant = { IsName };

    ghost inverse = { fields_of };

    ghost inverse_ok = { fields_of-take };
}

ghost use Rattle.std.specs.Prelude.{◌≡◌, ◌+◌, ◌*◌, ◌<◌, ◌≤◌, ◌++◌, drop, length, true, false, IsTrue, MatchOption};
ghost use Rattle.std.specs.List.{list_all};
ghost use Rattle.std.specs.Str.{bytes_eq};
ghost use Rattle.std.proofs.Common.{rules};
ghost use Rattle.std.specs.Cmp.{partial_order_from_own_ties};
ghost use Rattle.std.specs.Cmp.Lexicographic.{slice_cmp};
ghost use Rattle.std.specs.Cmp.Rules.{comparing};
ghost use Rattle.std.specs.Ordering.{nat_cmp, as_partial_cmp};
ghost use Rattle.graph_terms.specs.declared.format.Format.TheVariants.{Three};
ghost use Rattle.graph_terms.specs.Name.{is_name, is_name_in};
ghost use Rattle.graph_terms.specs.NameLaws.{front_number};
ghost use Rattle.graph_terms.specs.NameParts.{is_first_in, is_later_in, greatest_class, most_bytes, begins_name};

impl Name {
    /// The name of formats 1 and 2 of these bytes: a small letter, and up to 30 small letters, digits
    /// and `_`. `None` exactly where the bytes are no such name.
    pub fn new(bytes: &[u8]) -> Option<Name>
        ensures { MatchOption result (is_name bytes.now ≡ false)
            (λ name. (name ≡ bytes.now) × IsTrue (is_name bytes.now)) }
    {
        Name::in_format(Format::One, bytes)
    }

    /// The name of a format of these bytes. In format 3 it is a letter or `_`, and up to 62 letters,
    /// digits and `_`; in formats 1 and 2 as `new` says. `None` exactly where the bytes are no such
    /// name.
    pub fn in_format(format: Format, bytes: &[u8]) -> Option<Name>
        ensures { MatchOption result (is_name_in format bytes.now ≡ false)
            (λ name. (name ≡ bytes.now) × IsTrue (is_name_in format bytes.now)) }
    {
        if !begins_name(format, bytes) {
            return None;
        }
        let mut padded = [0; 63];
        if !copy_parts(format, bytes, &mut padded) {
            return None;
        }
        Some(Name {
            bytes: padded,
            len: bytes.len() as u8,
        })
    }

    /// Its bytes.
    pub fn bytes(&self) -> &[u8]
        ensures bytes { result.now ≡ self.now }
        ensures name { IsTrue (is_name_in Three self.now) }
    {
        &self.bytes[..self.len as usize]
    }

    /// Its first eight bytes as a number, the first of them its highest digit. A byte that is not
    /// there counts as 0.
    pub fn front(&self) -> u64
        ensures { result ≡ front_number self.now }
    {
        front_of(&self.bytes)
    }
}

impl PartialEq for Name {
    ghost eq = { bytes_eq };

    ghost laws = { Prim.search (comparing, rules) };

    fn eq(&self, other: &Name) -> bool {
        self.len == other.len
            && self.front() == other.front()
            && (self.len <= 8 || same_bytes(self, other))
    }
}

/// Whether names have the same bytes. Out of line, so that the numbers of their first bytes are read in
/// one step.
#[inline(never)]
fn same_bytes(one: &Name, other: &Name) -> bool
    ensures { result ≡ bytes_eq one.now other.now }
{
    one.bytes() == other.bytes()
}

impl Eq for Name {
    ghost laws = { Prim.search (comparing, rules) };
}

impl Ord for Name {
    ghost cmp = { slice_cmp nat_cmp };

    ghost total = { Prim.search (comparing, rules) };

    ghost matches_partial_cmp = { Prim.search (comparing, rules) };

    ghost matches_eq = { Prim.search (comparing, rules) };

    fn cmp(&self, other: &Name) -> Ordering {
        let (bytes, others) = (self.bytes(), other.bytes());
        let (front, beside) = (self.front(), other.front());
        if front != beside {
            return front.cmp(&beside);
        }
        bytes.cmp(others)
    }
}

impl PartialOrd for Name {
    ghost partial_cmp = { as_partial_cmp (slice_cmp nat_cmp) };

    ghost laws = { partial_order_from_own_ties (Prim.search (comparing, rules)) (Prim.search (comparing, rules)) };

    fn partial_cmp(&self, other: &Name) -> Option<Ordering> {
        Some(self.cmp(other))
    }
}

/// The first eight bytes as a number, the first of them its highest digit.
fn front_of(bytes: &[u8; 63]) -> u64
    ensures { result ≡ front_number bytes.now }
{
    four_bytes(bytes[0], bytes[1], bytes[2], bytes[3]) * 4_294_967_296
        + four_bytes(bytes[4], bytes[5], bytes[6], bytes[7])
}

/// Four bytes as a number.
fn four_bytes(a: u8, b: u8, c: u8, d: u8) -> u64
    ensures number { result ≡ ((a * 256 + b) * 256 + c) * 256 + d }
    ensures small { result < 4294967296 }
{
    ((u64::from(a) * 256 + u64::from(b)) * 256 + u64::from(c)) * 256 + u64::from(d)
}

/// Whether a name of a format may begin with this byte.
fn is_first_in(format: Format, byte: u8) -> bool
    ensures { result ≡ is_first_in format byte }
{
    match format {
        Format::Three => byte.is_ascii_lowercase() || byte.is_ascii_uppercase() || byte == b'_',
        _ => byte.is_ascii_lowercase(),
    }
}

/// For each byte where it may stand in a name: in each format (0), in format 3 alone (1), in none (2).
#[rattlefmt::skip]
static CLASSES: [u8; 256] = [
    2, 2, 2, 2, 2, 2, 2, 2, 2, 2, 2, 2, 2, 2, 2, 2,
    2, 2, 2, 2, 2, 2, 2, 2, 2, 2, 2, 2, 2, 2, 2, 2,
    2, 2, 2, 2, 2, 2, 2, 2, 2, 2, 2, 2, 2, 2, 2, 2,
    0, 0, 0, 0, 0, 0, 0, 0, 0, 0, 2, 2, 2, 2, 2, 2,
    2, 1, 1, 1, 1, 1, 1, 1, 1, 1, 1, 1, 1, 1, 1, 1,
    1, 1, 1, 1, 1, 1, 1, 1, 1, 1, 1, 2, 2, 2, 2, 0,
    2, 0, 0, 0, 0, 0, 0, 0, 0, 0, 0, 0, 0, 0, 0, 0,
    0, 0, 0, 0, 0, 0, 0, 0, 0, 0, 0, 2, 2, 2, 2, 2,
    2, 2, 2, 2, 2, 2, 2, 2, 2, 2, 2, 2, 2, 2, 2, 2,
    2, 2, 2, 2, 2, 2, 2, 2, 2, 2, 2, 2, 2, 2, 2, 2,
    2, 2, 2, 2, 2, 2, 2, 2, 2, 2, 2, 2, 2, 2, 2, 2,
    2, 2, 2, 2, 2, 2, 2, 2, 2, 2, 2, 2, 2, 2, 2, 2,
    2, 2, 2, 2, 2, 2, 2, 2, 2, 2, 2, 2, 2, 2, 2, 2,
    2, 2, 2, 2, 2, 2, 2, 2, 2, 2, 2, 2, 2, 2, 2, 2,
    2, 2, 2, 2, 2, 2, 2, 2, 2, 2, 2, 2, 2, 2, 2, 2,
    2, 2, 2, 2, 2, 2, 2, 2, 2, 2, 2, 2, 2, 2, 2, 2,
];

/// Whether a byte may stand in a name of a format.
fn is_later_in(format: Format, byte: u8) -> bool
    ensures { result ≡ is_later_in format byte }
{
    CLASSES[usize::from(byte)] <= greatest_class(format)
}

/// The greatest class of the bytes of a name of a format.
fn greatest_class(format: Format) -> u8
    ensures { result ≡ greatest_class format }
{
    match format {
        Format::Three => 1,
        _ => 0,
    }
}

/// The most bytes of a name of a format.
fn most_bytes(format: Format) -> usize
    ensures { result ≡ most_bytes format }
{
    match format {
        Format::Three => 63,
        _ => 31,
    }
}

/// Whether bytes are as many as a name of a format may have, and begin like one.
fn begins_name(format: Format, bytes: &[u8]) -> bool
    ensures { result ≡ begins_name format bytes.now }
{
    match bytes {
        [] => false,
        [first, ..] => bytes.len() <= most_bytes(format) && is_first_in(format, *first),
    }
}

/// Copies bytes to the front of others, up to the first that may not stand in a name of a format, and tells whether there is none.
fn copy_parts(format: Format, bytes: &[u8], copy: &mut [u8; 63]) -> bool
    requires { length bytes.now ≤ 63 }
    ensures all { result ≡ list_all (is_later_in format) bytes.now }
    ensures copied { result ≡ true → copy.new ≡ bytes.now ++ drop (length bytes.now) copy.old }
{
    for i in 0..bytes.len() {
        let byte = bytes[i];
        if !is_later_in(format, byte) {
            return false;
        }
        copy[i] = byte;
    }
    true
}
