//! In which place each word of a line stands.

ghost use Rattle.basics.specs.Words.{contents};
ghost use Rattle.std.specs.Prelude.{◌≡◌, ◌<◌, ◌≤◌, ◌+◌, length, drop, option_map, None, cond, IfSome};
ghost use Rattle.graph_words.specs.Calls.{access_words};
ghost use Rattle.graph_reader.specs.Reading.{is_operation};
ghost use Rattle.refused_words.specs.Places.{place_value, space_place, columns_place, lock_place, barrier_place, decl_place, is_merge, is_call, call_size, access_place, part_place, line_call, behind_kind, kind_in, kind_place, verb_place, operation_place, place_at};

use graph_terms::format::Format;
use graph_terms::table::{Kind, Place};
use graph_words::calls::{call_words, mode_of};
use graph_words::words::{behind, has_on, kind_of, word};
use std::marker::Model;

/// What stands in the place of a word of a line.
#[derive(Clone, Copy, Debug, PartialEq, Eq)]
pub enum WordPlace {
    /// The name that the line gives.
    NewName,
    /// The word by which the host knows the body of a call.
    CallName,
    /// The fields of an instance or of data.
    Fields,
    /// How many arrivals complete a phase.
    Count,
    /// The intervals of a space.
    Intervals,
    /// An event that the line waits for.
    Event,
    /// A column of data that a call uses.
    DataColumn,
    /// What the table of kinds has there.
    Of(Place),
}

/// How many values, accesses and events a call has.
#[derive(Clone, Copy)]
pub(crate) struct CallSize {
    pub(crate) values: usize,
    pub(crate) accesses: usize,
    pub(crate) events: usize,
}

/// The words of a line in a format. The place of each is found at once, however many there are.
#[derive(Drop)]
pub struct LineWords<'a, 'b> {
    format: Format,
    words: &'b [&'a [u8]],
    /// Whether the line is an operation, and a merge.
    operation: bool,
    merge: bool,
    /// Where the line is a call, or of a kind.
    call: Option<CallSize>,
    kind: Option<Kind>,
}

impl<'a, 'b> Model for LineWords<'a, 'b> {
    ghost use Rattle.std.specs.Prelude.{◌≡◌};
    ghost use Rattle.basics.specs.Words.{contents};
    ghost use Rattle.std.specs.Prelude.{drop};
    ghost use Rattle.graph_reader.specs.Reading.{is_operation};
    ghost use Rattle.refused_words.specs.Places.{WordsIn, is_merge, line_call, kind_in};

    ghost Value = { WordsIn };

    ghost view = { λ a. record { format = a.format; words = contents a.words.now } };

    ghost invariant = { λ a. (a.operation ≡ is_operation (contents a.words.now)) × (a.merge ≡ is_merge (drop 2 (contents a.words.now))) × (a.call ≡ line_call (record { format = a.format; words = contents a.words.now })) × (a.kind ≡ kind_in a.format (drop 2 (contents a.words.now))) };
}

impl<'a, 'b> LineWords<'a, 'b> {
    ghost use Rattle.std.specs.Prelude.{◌≡◌, option_map};
    ghost use Rattle.basics.specs.Words.{contents};
    ghost use Rattle.refused_words.specs.Places.{place_value, place_at};

    /// The words of a line in a format.
    pub fn of(format: Format, words: &'b [&'a [u8]]) -> LineWords<'a, 'b>
        ensures { result ≡ record { format = format; words = contents words.now } }
    {
        let rest = behind_sign(words);
        LineWords {
            format,
            words,
            operation: is_operation(words),
            merge: is_merge(rest),
            call: line_call(format, words),
            kind: kind_of(format, rest),
        }
    }

    /// The words.
    pub fn words(&self) -> &'b [&'a [u8]]
        ensures { contents result.now ≡ self.now.words }
    {
        self.words
    }

    /// In which place the word of number `k` stands, from 0. `None` for a word that only says what the
    /// line is, for one of a line without form, and where there is no such word.
    #[tactic(auto, unfolding(crate::specs::Places::place_at))]
    pub fn place(&self, k: usize) -> Option<WordPlace>
        ensures { option_map place_value result ≡ place_at self.now.format self.now.words k }
    {
        if k >= self.words.len() {
            return None;
        }
        if self.operation {
            operation_place(self.format, self.merge, self.call, self.kind, self.words, k)
        } else {
            decl_place(self.format, word(self.words, 0), k)
        }
    }
}

/// The same of one word of a line. All words of a call are looked at for it.
pub fn place_at(format: Format, words: &[&[u8]], k: usize) -> Option<WordPlace>
    ensures { option_map place_value result ≡ place_at format (contents words.now) k }
{
    LineWords::of(format, words).place(k)
}

/// Whether the words are those of an operation line.
pub(crate) fn is_operation(words: &[&[u8]]) -> bool
    ensures { result ≡ is_operation (contents words.now) }
{
    words.len() >= 2 && word(words, 1) == b"=".as_slice()
}

/// In which place a word of a declaration stands, by the first word of it.
fn decl_place(format: Format, first: &[u8], k: usize) -> Option<WordPlace>
    ensures { option_map place_value result ≡ decl_place format first.now k }
{
    if first == b"space".as_slice() {
        return space_place(k);
    }
    if first == b"inst".as_slice() {
        return columns_place(k);
    }
    if first == b"lock".as_slice() {
        return lock_place(k);
    }
    if first == b"barrier".as_slice() {
        return barrier_place(k);
    }
    if first == b"data".as_slice() && format.has_since(Format::Three) {
        return columns_place(k);
    }
    None
}

fn space_place(k: usize) -> Option<WordPlace>
    ensures { option_map place_value result ≡ space_place k }
{
    if k == 1 {
        return Some(WordPlace::NewName);
    }
    if k == 2 {
        return Some(WordPlace::Intervals);
    }
    None
}

/// Of an instance, and of data.
fn columns_place(k: usize) -> Option<WordPlace>
    ensures { option_map place_value result ≡ columns_place k }
{
    if k == 1 {
        return Some(WordPlace::NewName);
    }
    if k == 2 {
        return Some(WordPlace::Of(Place::Space));
    }
    if k == 3 {
        return Some(WordPlace::Fields);
    }
    None
}

fn lock_place(k: usize) -> Option<WordPlace>
    ensures { option_map place_value result ≡ lock_place k }
{
    if k == 1 {
        return Some(WordPlace::NewName);
    }
    None
}

fn barrier_place(k: usize) -> Option<WordPlace>
    ensures { option_map place_value result ≡ barrier_place k }
{
    if k == 1 {
        return Some(WordPlace::NewName);
    }
    if k == 2 {
        return Some(WordPlace::Count);
    }
    if k == 4 {
        return Some(WordPlace::Of(Place::Value));
    }
    None
}

/// In which place a word of an operation line stands.
fn operation_place(
    format: Format,
    merge: bool,
    call: Option<CallSize>,
    kind: Option<Kind>,
    words: &[&[u8]],
    k: usize,
) -> Option<WordPlace>
    requires long { 2 ≤ length words.now }
    requires kind { kind ≡ kind_in format (drop 2 (contents words.now)) }
    requires merge { merge ≡ is_merge (drop 2 (contents words.now)) }
    requires call { call ≡ cond (is_call (drop 2 (contents words.now))) (call_size format (drop 2 (contents words.now))) None }
    ensures { option_map place_value result ≡ operation_place format (contents words.now) k }
{
    if k == 0 {
        return Some(WordPlace::NewName);
    }
    if k == 1 {
        return None;
    }
    verb_place(format, merge, call, kind, behind(words, 2), k - 2)
}

/// Whether the words behind the sign are those of a merge.
pub(crate) fn is_merge(words: &[&[u8]]) -> bool
    ensures { result ≡ is_merge (contents words.now) }
{
    word(words, 0) == b"merge".as_slice() || word(words, 0) == b"mergei".as_slice()
}

/// Whether they are those of a call.
pub(crate) fn is_call(words: &[&[u8]]) -> bool
    ensures { result ≡ is_call (contents words.now) }
{
    word(words, 0) == b"call".as_slice()
}

/// In which place a word behind the sign stands.
fn verb_place(
    format: Format,
    merge: bool,
    call: Option<CallSize>,
    kind: Option<Kind>,
    words: &[&[u8]],
    k: usize,
) -> Option<WordPlace>
    requires merge { merge ≡ is_merge (contents words.now) }
    requires kind { kind ≡ kind_in format (contents words.now) }
    requires call { call ≡ cond (is_call (contents words.now)) (call_size format (contents words.now)) None }
    ensures { option_map place_value result ≡ verb_place format (contents words.now) k }
{
    if merge {
        return if k == 0 { None } else { Some(WordPlace::Event) };
    }
    if is_call(words) {
        return part_place(call?, k);
    }
    match kind {
        Some(kind) => kind_place(format, kind, words, k),
        None => None,
    }
}

/// In which place a word of a line of a kind stands.
fn kind_place(format: Format, kind: Kind, words: &[&[u8]], k: usize) -> Option<WordPlace>
    ensures { option_map place_value result ≡ kind_place format kind (contents words.now) k }
{
    let fixed = kind.words().len();
    if k < fixed || words.len() < fixed {
        return None;
    }
    place_behind(format, kind, behind(words, fixed), k - fixed)
}

/// In which place a word behind the fixed ones of a kind stands.
fn place_behind(format: Format, kind: Kind, rest: &[&[u8]], k: usize) -> Option<WordPlace>
    ensures { option_map place_value result ≡ behind_kind format kind (contents rest.now) k }
{
    let places = kind.places();
    if k < places.len() {
        return Some(WordPlace::Of(places[k]));
    }
    if k > places.len() && has_on(format, kind, rest) {
        return Some(WordPlace::Event);
    }
    None
}

/// The words behind the sign, none where there is no sign.
fn behind_sign<'a, 'b>(words: &'b [&'a [u8]]) -> &'b [&'a [u8]]
    ensures { contents result.now ≡ drop 2 (contents words.now) }
{
    if words.len() < 2 {
        &[]
    } else {
        behind(words, 2)
    }
}

/// The size of the call that a line of these words is.
fn line_call(format: Format, words: &[&[u8]]) -> Option<CallSize>
    ensures { result ≡ line_call (record { format = format; words = contents words.now }) }
{
    if words.len() < 3 {
        return None;
    }
    let words = behind(words, 2);
    if is_call(words) {
        call_size(format, words)
    } else {
        None
    }
}

/// The size of a call, by the words behind the sign.
pub(crate) fn call_size(format: Format, words: &[&[u8]]) -> Option<CallSize>
    requires { 1 ≤ length words.now }
    ensures size { result ≡ call_size format (contents words.now) }
    ensures few { IfSome result (λ size. size.events ≤ 9223372036854775807) }
{
    if !format.has_since(Format::Three) {
        return None;
    }
    let call = call_words(behind(words, 1))?;
    Some(CallSize {
        values: call.values.len(),
        accesses: access_count(call.accesses),
        events: call.events.len(),
    })
}

/// How many accesses words begin with.
fn access_count(words: &[&[u8]]) -> usize
    ensures { result ≡ length (access_words (contents words.now)) }
{
    let mut count: usize = 0;
    let mut rest = words;
    while let [mode, _, _, others @ ..] = rest {
        if mode_of(mode).is_none() {
            return count;
        }
        count += 1;
        rest = others;
    }
    count
}

/// In which place a word of a call stands, from the one that says that it is a call.
fn part_place(size: CallSize, k: usize) -> Option<WordPlace>
    ensures { option_map place_value result ≡ part_place size k }
{
    if k == 0 {
        return None;
    }
    if k == 1 {
        return Some(WordPlace::CallName);
    }
    let behind = k - 2;
    if behind < size.values {
        return Some(WordPlace::Of(Place::Value));
    }
    access_place(size.accesses, behind - size.values)
}

/// In which place a word behind the values of a call stands, by how many accesses it has: each is of
/// three words, and `on` and its events follow.
fn access_place(accesses: usize, k: usize) -> Option<WordPlace>
    ensures { option_map place_value result ≡ access_place accesses k }
{
    if k / 3 > accesses {
        return Some(WordPlace::Event);
    }
    let part = k % 3;
    if part == 0 {
        return None;
    }
    if k / 3 == accesses {
        return Some(WordPlace::Event);
    }
    if part == 1 {
        return Some(WordPlace::DataColumn);
    }
    Some(WordPlace::Of(Place::Space))
}
