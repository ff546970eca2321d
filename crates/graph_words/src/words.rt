//! Words of a line.

ghost use Rattle.basics.specs.Words.{contents};
ghost use Rattle.std.specs.Prelude.{◌≡◌, ◌≤◌, ◌<◌, ◌+◌, ◌++◌, take, ℕ, List, ◌∷◌, length, drop, map, ◌==◌, find, OnOk, IfOk, IfSome, MatchOption, [], slice_index_or, option_map, option_copied, true, codes, zip};
ghost use Rattle.graph_terms.specs.Format.{has_since};
ghost use Rattle.graph_words.specs.Words.{pieces};
ghost use Rattle.graph_words.specs.Draft.{Placed, form_of, is_own_word, takes_own_word, fits_behind, is_of_form, same_word, has_events, has_on, on_events, has_room, as_place, words_in};
ghost use Rattle.std.specs.List.{list_any, list_all, starts_with};
ghost use Rattle.std.specs.Str.{bytes_eq};

use crate::cuts::cut;
use graph_terms::format::Format;
use graph_terms::table::{KINDS, Kind, Place};
use index_spaces::NoMemory;
use index_spaces::room::push;
use std::alloc::Global;

/// Puts a word at a place that is in the list or right behind its end.
fn put<'a>(words: &mut Vec<&'a [u8]>, place: usize, word: &'a [u8]) -> Result<(), NoMemory>
    requires { place ≤ length words.old.items }
    ensures words { OnOk result (contents (take (place + 1) words.new.items) ≡ contents (take place words.old.items) ++ word.now ∷ []) }
    ensures there { OnOk result (place < length words.new.items) }
{
    if place < words.len() {
        words[place] = word;
        return Ok(());
    }
    push(words, word)
}

/// Puts the pieces of bytes between the separators into the first places of a list, and tells how many they are. What
/// stands behind them is left there, so that a list which is kept from line to line seldom grows.
pub fn cut_into<'a>(
    words: &mut Vec<&'a [u8]>,
    bytes: &'a [u8],
    separator: u8,
) -> Result<usize, NoMemory>
    ensures count { IfOk result (λ n. n ≤ length words.new.items) }
    ensures pieces { IfOk result (λ n. contents (take n words.new.items) ≡ pieces separator bytes.now) }
{
    let mut count = 0;
    let mut start = 0;
    for end in 0..bytes.len() {
        if bytes[end] == separator {
            put(words, count, &bytes[start..end])?;
            start = end + 1;
            count += 1;
        }
    }
    put(words, count, &bytes[start..])?;
    Ok(count + 1)
}

/// Puts the pieces of bytes between the separators into a list, in place of what it held.
pub fn split_into<'a>(
    words: &mut Vec<&'a [u8]>,
    bytes: &'a [u8],
    separator: u8,
) -> Result<(), NoMemory>
    ensures { OnOk result (contents words.new.items ≡ pieces separator bytes.now) }
{
    words.clear();
    let mut rest = bytes;
    while let Some((word, after)) = cut(rest, separator) {
        push(words, word)?;
        rest = after;
    }
    push(words, rest)
}

/// Whether two words are one. Words are short, so their bytes are compared one by one.
pub fn is_same(word: &[u8], other: &[u8]) -> bool
    ensures { result ≡ bytes_eq word.now other.now }
{
    if word.len() != other.len() {
        return false;
    }
    for i in 0..word.len() {
        if word[i] != other[i] {
            return false;
        }
    }
    true
}

/// The pieces of bytes between the separators.
pub fn split(alloc: Global, bytes: &[u8], separator: u8) -> Result<Vec<&[u8]>, NoMemory>
    ensures { IfOk result (λ v. contents v.items ≡ pieces separator bytes.now) }
{
    let mut words = Vec::new(alloc);
    split_into(&mut words, bytes, separator)?;
    Ok(words)
}

/// The word at a place, or no byte where there is none.
pub fn word<'a>(words: &[&'a [u8]], i: usize) -> &'a [u8]
    ensures { result.now ≡ slice_index_or (contents words.now) i [] }
{
    match words.get(i) {
        Some(word) => word,
        None => b"",
    }
}

/// The words behind the first `n`.
pub fn behind<'a, 'b>(words: &'b [&'a [u8]], n: usize) -> &'b [&'a [u8]]
    requires { n ≤ length words.now }
    ensures { contents result.now ≡ drop n (contents words.now) }
{
    &words[n..]
}

/// Whether the words begin with the fixed ones. Most kinds differ by the first.
fn begins(words: &[&[u8]], fixed: &[&[u8]]) -> bool
    ensures { result ≡ starts_with same_word (contents words.now) (contents fixed.now) }
{
    match (words, fixed) {
        (_, []) => true,
        ([], _) => false,
        ([word, rest @ ..], [first, others @ ..]) => is_same(first, word)
            && all_follow(rest, others),
    }
}

/// Whether the words begin with the fixed ones, which are compared one by one.
fn all_follow(words: &[&[u8]], fixed: &[&[u8]]) -> bool
    ensures { result ≡ starts_with same_word (contents words.now) (contents fixed.now) }
{
    if words.len() < fixed.len() {
        return false;
    }
    words.iter().zip(fixed).all(|(word, fixed)| fixed == word)
}

/// How many places a kind has.
#[tactic(auto, using(crate::proofs::WordLists::places_counted))]
pub fn place_count(kind: Kind) -> usize
    ensures { result ≡ length (form_of kind).places }
{
    kind.places().len()
}

/// Whether words are as many as these places, `on` and its events: one event in formats 1 and 2,
/// one or more in format 3.
fn has_events(format: Format, places: usize, words: usize) -> bool
    ensures { result ≡ has_events format places words }
{
    if format.has_since(Format::Three) {
        words > places && words - places > 1
    } else {
        words > places && words - places == 2
    }
}

/// Whether `on` and its events follow the words in the places of a kind.
pub fn has_on(format: Format, kind: Kind, rest: &[&[u8]]) -> bool
    ensures { result ≡ has_on format (form_of kind) (contents rest.now) }
{
    let places = place_count(kind);
    kind.takes_on() && has_events(format, places, rest.len()) && is_same(word(rest, places), b"on")
}

/// The words of the events behind `on`.
pub fn on_events<'a, 'b>(format: Format, kind: Kind, rest: &'b [&'a [u8]]) -> &'b [&'a [u8]]
    ensures { contents result.now ≡ on_events format (form_of kind) (contents rest.now) }
{
    if has_on(format, kind, rest) {
        behind(rest, place_count(kind) + 1)
    } else {
        &[]
    }
}

/// The words of the events behind `on`, where there is room for the words of a kind.
pub fn room_events<'a, 'b>(format: Format, kind: Kind, rest: &'b [&'a [u8]]) -> &'b [&'a [u8]]
    requires { has_room format (form_of kind) (contents rest.now) ≡ true }
    ensures { contents result.now ≡ on_events format (form_of kind) (contents rest.now) }
{
    let places = place_count(kind);
    if rest.len() == places {
        return &[];
    }
    behind(rest, places + 1)
}

/// Whether a format has a kind.
fn has_kind(format: Format, kind: Kind) -> bool
    ensures { result ≡ has_since (form_of kind).since format }
{
    format.has_since(kind.since())
}

/// Whether a word is the one that its place takes, where that takes one word alone.
fn is_own_word(place: Place, word: &[u8]) -> bool
    ensures { result ≡ is_own_word (as_place place) word.now }
{
    match place {
        Place::Times => is_same(word, b"times"),
        Place::Shared => is_same(word, b"shared"),
        _ => true,
    }
}

/// Whether a kind has a place that takes one word alone.
fn takes_own_word(kind: Kind) -> bool
    ensures { result ≡ list_any takes_own_word (form_of kind).places }
{
    matches!(kind, Kind::ArriveTimes | Kind::AcquireShared)
}

/// Whether each word in its place is the one that the place takes, where that takes one word alone. Few kinds have such a
/// place.
#[tactic(auto, using(crate::proofs::WordLists::own_places))]
fn has_own_words(kind: Kind, rest: &[&[u8]]) -> bool
    ensures { result ≡ list_all (λ (p : Placed). is_own_word p.0 p.1) (zip (form_of kind).places (contents rest.now)) }
{
    !takes_own_word(kind) || are_own_words(kind.places(), rest)
}

/// The same of words in places.
fn are_own_words(places: &[Place], words: &[&[u8]]) -> bool
    ensures { result ≡ list_all (λ (p : Placed). is_own_word p.0 p.1) (words_in places.now (contents words.now)) }
{
    places
        .iter()
        .zip(words)
        .all(|(place, word)| is_own_word(*place, word))
}

/// Whether there is a word for each place, with `on` and its events behind these or without.
fn has_room(format: Format, kind: Kind, rest: &[&[u8]]) -> bool
    ensures { result ≡ has_room format (form_of kind) (contents rest.now) }
{
    rest.len() == place_count(kind) || has_on(format, kind, rest)
}

/// Whether the words behind the fixed ones fit a kind, and the format has it.
fn fits_behind(format: Format, kind: Kind, rest: &[&[u8]]) -> bool
    ensures { result ≡ fits_behind format (form_of kind) (contents rest.now) }
{
    has_kind(format, kind) && has_room(format, kind, rest) && has_own_words(kind, rest)
}

/// Whether the words behind the sign have the form of a kind.
fn is_of_kind(format: Format, words: &[&[u8]], kind: Kind) -> bool
    ensures { result ≡ is_of_form format (contents words.now) (form_of kind) }
{
    let fixed = kind.words();
    begins(words, fixed) && fits_behind(format, kind, &words[fixed.len()..])
}

/// The kinds whose first word begins with this byte, and all kinds where none does.
fn kinds_with(first: u8) -> &'static [Kind]
    ensures { (format : Format) (word : List ℕ) (rest : List (List ℕ))
        → find (λ k. is_of_form format ((first ∷ word) ∷ rest) (form_of k)) result.now
        ≡ find (λ k. is_of_form format ((first ∷ word) ∷ rest) (form_of k)) KINDS }
{
    match first {
        b'a' => &[
            Kind::Arrive,
            Kind::ArriveTimes,
            Kind::Acquire,
            Kind::AcquireShared,
        ],
        b'c' => &[Kind::Cancel, Kind::Copy],
        b'f' => &[Kind::Fill],
        // Merges, which are of no kind.
        b'm' => &[],
        b'p' => &[Kind::Phase],
        b'r' => &[
            Kind::Release,
            Kind::ReduceSum,
            Kind::ReduceMin,
            Kind::ReduceMax,
        ],
        b't' => &[
            Kind::Trigger,
            Kind::Iota,
            Kind::Axpy,
            Kind::Stencil,
            Kind::Scan,
            Kind::Hist,
            Kind::Dot,
            Kind::Expect,
            Kind::Gather,
        ],
        b'u' => &[Kind::User],
        _ => &KINDS,
    }
}

/// The kinds of which one can be that of a line with this first word.
fn kinds_of_word(word: &[u8]) -> &'static [Kind]
    ensures { (format : Format) (rest : List (List ℕ))
        → find (λ k. is_of_form format (word.now ∷ rest) (form_of k)) result.now
        ≡ find (λ k. is_of_form format (word.now ∷ rest) (form_of k)) KINDS }
{
    match word {
        [] => &KINDS,
        [first, ..] => kinds_with(*first),
    }
}

/// The tasks whose second word begins with this byte, and all kinds where none does.
fn tasks_with(first: u8) -> &'static [Kind]
    ensures { (format : Format) (word : List ℕ) (rest : List (List ℕ))
        → find (λ k. is_of_form format (codes "task" ∷ (first ∷ word) ∷ rest) (form_of k)) result.now
        ≡ find (λ k. is_of_form format (codes "task" ∷ (first ∷ word) ∷ rest) (form_of k)) KINDS }
{
    match first {
        b'a' => &[Kind::Axpy],
        b'd' => &[Kind::Dot],
        b'e' => &[Kind::Expect],
        b'g' => &[Kind::Gather],
        b'h' => &[Kind::Hist],
        b'i' => &[Kind::Iota],
        b's' => &[Kind::Stencil, Kind::Scan],
        _ => &KINDS,
    }
}

/// The kinds of which one can be that of a task with this second word.
fn tasks_of_word(word: &[u8]) -> &'static [Kind]
    ensures { (format : Format) (rest : List (List ℕ))
        → find (λ k. is_of_form format (codes "task" ∷ word.now ∷ rest) (form_of k)) result.now
        ≡ find (λ k. is_of_form format (codes "task" ∷ word.now ∷ rest) (form_of k)) KINDS }
{
    match word {
        [] => &KINDS,
        [first, ..] => tasks_with(*first),
    }
}

/// The kinds of which one can be that of a line with these first two words. Most kinds differ by the first.
fn kinds_of_words(word: &[u8], second: &[u8]) -> &'static [Kind]
    ensures { (format : Format) (rest : List (List ℕ))
        → find (λ k. is_of_form format (word.now ∷ second.now ∷ rest) (form_of k)) result.now
        ≡ find (λ k. is_of_form format (word.now ∷ second.now ∷ rest) (form_of k)) KINDS }
{
    if is_same(word, b"task") {
        return tasks_of_word(second);
    }
    kinds_of_word(word)
}

/// The first of these kinds that is that of the words behind the sign.
fn kind_among(format: Format, words: &[&[u8]], kinds: &[Kind]) -> Option<Kind>
    ensures { result ≡ find (λ k. is_of_form format (contents words.now) (form_of k)) kinds.now }
{
    kinds
        .iter()
        .copied()
        .find(|kind| is_of_kind(format, words, *kind))
}

/// The kind of the words behind the sign.
pub fn kind_of(format: Format, words: &[&[u8]]) -> Option<Kind>
    ensures { result ≡ find (λ k. is_of_form format (contents words.now) (form_of k)) KINDS }
{
    match words {
        [] => None,
        [word] => kind_among(format, words, kinds_of_word(word)),
        [word, second, ..] => kind_among(format, words, kinds_of_words(word, second)),
    }
}
