//! What the words of a refused line name.

ghost use Rattle.std.specs.Prelude.{◌≡◌, ◌++◌, ◌-◌, ◌<◌, length, map, take, option_map, Contains, IfOk, IfSome, OnOk};
ghost use Rattle.basics.specs.Words.{contents};
ghost use Rattle.graph_words.specs.Words.{pieces};
ghost use Rattle.refused_words.specs.Places.{place_value};
ghost use Rattle.told_names.specs.Named.{IsNamedWord, IsInside, name_in, told_new, told_word, once_words, third_of, over_word, space_word, place_text, below_text, named_text, named_texts, names_text, space_text};
ghost use Rattle.told_names.specs.declared.naming.NamedWord.{NamedWord};

use crate::look_ups::{look_up, look_up_all};
use crate::name_list::NameList;
use explain_text::Text;
use graph_terms::format::Format;
use graph_terms::table::Place;
use graph_words::cuts::{before_dot, cut};
use graph_words::words::word;
use index_spaces::NoMemory;
use refused_words::{LineWords, WordPlace, place_at};
use std::alloc::Global;

/// A name that a word stands for, the topmost line above that gives it, and the topmost line below that
/// does, by their places from 0.
#[derive(Clone, Copy)]
pub struct NamedWord<'a> {
    pub word: &'a [u8],
    pub above: Option<usize>,
    pub below: Option<usize>,
}

/// Names that words of a line stand for, and how many more there are.
#[derive(Drop)]
pub struct NamedWords<'a> {
    pub told: Vec<NamedWord<'a>>,
    pub more: usize,
}

/// The first `most` names that words of a line stand for, each once, by the places in which they stand, with the
/// lines that give them; the name that the line gives itself only where a line above gives it too. The
/// line is counted from 1, and the names that lines give stand in the order of the lines.
pub fn named_words<'a>(
    alloc: Global,
    format: Format,
    names: &[&[u8]],
    number: u32,
    words: &[&'a [u8]],
    most: usize,
) -> Result<NamedWords<'a>, NoMemory>
    ensures words { IfOk result (λ v. map (λ (x : NamedWord). x.word.now) v.told.items ≡ take most (once_words (told_word format (contents names.now) number (contents words.now)) (length words.now))) }
    ensures more { IfOk result (λ v. v.more ≡ length (once_words (told_word format (contents names.now) number (contents words.now)) (length words.now)) - most) }
    ensures named { IfOk result (λ v. (x : NamedWord) → Contains v.told.items x → IsNamedWord (contents names.now) number x) }
    ensures inside { IfOk result (λ v. (x : NamedWord) → Contains v.told.items x → IsInside (length names.now) x) }
{
    let list = told_names(alloc, format, names, number, words)?;
    let told = look_up_all(alloc, names, number, &list, most)?;
    Ok(NamedWords {
        told,
        more: list.len().saturating_sub(most),
    })
}

/// The names that are told of words of a line, each once.
fn told_names<'a>(
    alloc: Global,
    format: Format,
    names: &[&[u8]],
    number: u32,
    words: &[&'a [u8]],
) -> Result<NameList<'a>, NoMemory>
    ensures { IfOk result (λ v. v ≡ once_words (told_word format (contents names.now) number (contents words.now)) (length words.now)) }
{
    let places = LineWords::of(format, words);
    let mut list = NameList::new(alloc);
    for k in 0..words.len() {
        if let Some(name) = told_word(&places, names, number, words, k) {
            list.add(name)?;
        }
    }
    Ok(list)
}

/// The name that is told of the word of number `k`.
fn told_word<'a>(
    places: &LineWords,
    names: &[&[u8]],
    number: u32,
    words: &[&'a [u8]],
    k: usize,
) -> Option<&'a [u8]>
    requires words { places.now.words ≡ contents words.now }
    requires there { k < length words.now }
    ensures { option_map (λ x. x.now) result ≡ told_word places.now.format (contents names.now) number (contents words.now) k }
{
    let word = words[k];
    match places.place(k) {
        None => None,
        Some(WordPlace::NewName) => given_above(names, number, word),
        Some(place) => name_in(place, word),
    }
}

/// The name that a line gives, where a line above gives it too.
fn given_above<'a>(names: &[&[u8]], number: u32, word: &'a [u8]) -> Option<&'a [u8]>
    ensures { option_map (λ x. x.now) result ≡ told_new (contents names.now) number word.now }
{
    if look_up(names, number, word).above.is_some() {
        Some(word)
    } else {
        None
    }
}

/// The name that a word stands for in a place that is not that of a new name.
fn name_in(place: WordPlace, word: &[u8]) -> Option<&[u8]>
    ensures { option_map (λ x. x.now) result ≡ name_in (place_value place) word.now }
{
    match place {
        WordPlace::Event => Some(word),
        WordPlace::Of(Place::Column(..)) | WordPlace::DataColumn => Some(before_dot(word)),
        WordPlace::Of(
            Place::User
            | Place::Phase
            | Place::Acquire
            | Place::Lock
            | Place::Barrier
            | Place::Space,
        ) => Some(word),
        _ => None,
    }
}

/// The space over which the instance or the data of the word of number `k` is declared, with the lines
/// that give it, where that word is a column. The line is counted from 1, and the names are those that
/// lines give.
pub fn named_space<'a>(
    format: Format,
    lines: &[&'a [u8]],
    names: &[&[u8]],
    number: u32,
    words: &[&[u8]],
    k: usize,
) -> Option<NamedWord<'a>>
    requires { length names.now ≡ length lines.now }
    ensures word { option_map (λ (x : NamedWord). x.word.now) result ≡ space_word format (contents lines.now) (contents names.now) number (contents words.now) k }
    ensures named { IfSome result (IsNamedWord (contents names.now) number) }
    ensures inside { IfSome result (IsInside (length names.now)) }
{
    match place_at(format, words, k) {
        Some(WordPlace::Of(Place::Column(..)) | WordPlace::DataColumn) => {
            let space = over_word(lines, names, number, before_dot(word(words, k)));
            Some(look_up(names, number, space))
        }
        _ => None,
    }
}

/// The third word of the line above that gives this name: of an instance or of data its space.
fn over_word<'a>(lines: &[&'a [u8]], names: &[&[u8]], number: u32, owner: &[u8]) -> &'a [u8]
    requires { length names.now ≡ length lines.now }
    ensures { result.now ≡ over_word (contents lines.now) (contents names.now) number owner.now }
{
    match look_up(names, number, owner).above {
        Some(place) => third_word(lines[place]),
        None => b"",
    }
}

/// The third word of a line, none where there is none.
fn third_word(line: &[u8]) -> &[u8]
    ensures { result.now ≡ third_of (pieces 32 line.now) }
{
    let Some((_, behind)) = cut(line, b' ') else {
        return b"";
    };
    let Some((_, rest)) = cut(behind, b' ') else {
        return b"";
    };
    match cut(rest, b' ') {
        Some((third, _)) => third,
        None => rest,
    }
}

/// Puts which lines give the names that words stand for, and how many more names there are.
pub fn put_named_words(text: &mut Text, lines: &[&[u8]], named: &NamedWords) -> Result<(), NoMemory>
    requires { (x : NamedWord) → Contains named.now.told.items x → IsInside (length lines.now) x }
    ensures { OnOk result (text.new ≡ text.old ++ names_text (contents lines.now) named.now.told.items named.now.more) }
{
    put_each_named(text, lines, named.told.as_slice())?;
    text.put_more(named.more)
}

/// Puts which lines give some names.
fn put_each_named(text: &mut Text, lines: &[&[u8]], words: &[NamedWord]) -> Result<(), NoMemory>
    requires { (x : NamedWord) → Contains words.now x → IsInside (length lines.now) x }
    ensures { OnOk result (text.new ≡ text.old ++ named_texts (contents lines.now) words.now) }
{
    for word in words {
        put_named(text, lines, word)?;
    }
    Ok(())
}

/// Puts which line gives a word as a name, where there is such a word.
pub fn put_space(
    text: &mut Text,
    lines: &[&[u8]],
    space: &Option<NamedWord>,
) -> Result<(), NoMemory>
    requires { IfSome space.now (IsInside (length lines.now)) }
    ensures { OnOk result (text.new ≡ text.old ++ space_text (contents lines.now) space.now) }
{
    match space {
        Some(word) => put_named(text, lines, word),
        None => Ok(()),
    }
}

/// Puts which line gives the name that a word stands for.
fn put_named(text: &mut Text, lines: &[&[u8]], word: &NamedWord) -> Result<(), NoMemory>
    requires { IsInside (length lines.now) word.now }
    ensures { OnOk result (text.new ≡ text.old ++ named_text (contents lines.now) word.now) }
{
    let Some(place) = word.above else {
        return put_below(text, lines, word.word, word.below);
    };
    text.put_shown(word.word)?;
    text.put(b" is given by line ")?;
    put_place(text, lines, word.word, place)
}

/// Puts that no line above gives a name, and the line below that does, where one does.
fn put_below(
    text: &mut Text,
    lines: &[&[u8]],
    word: &[u8],
    below: Option<usize>,
) -> Result<(), NoMemory>
    requires { IfSome below (λ k. k < length lines.now) }
    ensures { OnOk result (text.new ≡ text.old ++ below_text (contents lines.now) word.now below) }
{
    text.put(b"no line above gives ")?;
    text.put_shown(word)?;
    let Some(place) = below else {
        return text.put(b"\n");
    };
    text.put(b", but line ")?;
    put_place(text, lines, word, place)
}

/// Puts the number of a line, from 1, and the line, as it is told for a word.
fn put_place(text: &mut Text, lines: &[&[u8]], word: &[u8], place: usize) -> Result<(), NoMemory>
    requires { place < length lines.now }
    ensures { OnOk result (text.new ≡ text.old ++ place_text (contents lines.now) word.now place) }
{
    let _ = lines.len();
    text.put_number(place as u64 + 1)?;
    text.put(b": ")?;
    text.put_shown_for(word, lines[place])?;
    text.put(b"\n")
}
