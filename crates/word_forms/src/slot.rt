//! What kind of word stands in each place of a form, and how words of that kind are spelled.

use graph_terms::format::Format;
use graph_terms::why::Why;
use graph_words::calls::begins_with_digit;
use line_forms::calls::Expected;

/// What kind of word stands in a place of a form, as docs/LANGUAGE.md names it.
#[derive(Clone, Copy)]
pub enum Slot {
    Name,
    Space,
    Fields,
    Intervals,
    Count,
    Value,
    Weight,
    Column,
    /// A column of data.
    Data,
    /// The word by which the host knows the body of a call.
    Word,
    User,
    Phase,
    Acquire,
    Lock,
    Barrier,
    Event,
    /// A word that stands there as it is.
    Fixed,
}

ghost use Rattle.std.specs.Prelude.{◌≡◌};
ghost use Rattle.word_forms.specs.Slots.{call_slot, name_slot, slot_of, slot_word, name_note, count_note, weight_note, number_note, kind_note, note_of};

/// What kind of word a word of a call stands for, by what may stand there behind others.
pub(crate) fn call_slot(expected: Option<Expected>, word: &[u8]) -> Slot
    ensures { result ≡ call_slot expected word.now }
{
    match expected {
        Some(Expected::Value(_)) if begins_with_digit(word) => Slot::Value,
        Some(Expected::Column) => Slot::Data,
        Some(Expected::Space) => Slot::Space,
        Some(Expected::Event) => Slot::Event,
        _ => Slot::Fixed,
    }
}

/// What kind of word a word of a form stands for.
pub(crate) fn slot_of(item: &[u8]) -> Slot
    ensures { result ≡ slot_of item.now }
{
    if item == b"COLUMN".as_slice() {
        return Slot::Column;
    }
    if item == b"FIELDS".as_slice() {
        return Slot::Fields;
    }
    if item == b"INTERVALS".as_slice() {
        return Slot::Intervals;
    }
    if item == b"COUNT".as_slice() {
        return Slot::Count;
    }
    if item == b"VALUE".as_slice() {
        return Slot::Value;
    }
    if item == b"WEIGHT".as_slice() {
        return Slot::Weight;
    }
    name_slot(item)
}

/// The same of a word of a form that stands for a name, or for itself.
fn name_slot(item: &[u8]) -> Slot
    ensures { result ≡ name_slot item.now }
{
    if item == b"NAME".as_slice() {
        return Slot::Name;
    }
    if item == b"SPACE".as_slice() {
        return Slot::Space;
    }
    if item == b"WORD".as_slice() {
        return Slot::Word;
    }
    if item == b"USER".as_slice() {
        return Slot::User;
    }
    if item == b"PHASE".as_slice() {
        return Slot::Phase;
    }
    if item == b"ACQUIRE".as_slice() {
        return Slot::Acquire;
    }
    if item == b"LOCK".as_slice() {
        return Slot::Lock;
    }
    if item == b"BARRIER".as_slice() {
        return Slot::Barrier;
    }
    if item == b"EVENT]".as_slice() {
        return Slot::Event;
    }
    Slot::Fixed
}

/// Its name.
pub(crate) fn slot_word(slot: Slot) -> &'static [u8]
    ensures { result.now ≡ slot_word slot }
{
    match slot {
        Slot::Name => b"NAME",
        Slot::Space => b"SPACE",
        Slot::Fields => b"FIELDS",
        Slot::Intervals => b"INTERVALS",
        Slot::Count => b"COUNT",
        Slot::Value => b"VALUE",
        Slot::Weight => b"WEIGHT",
        Slot::Column | Slot::Data => b"COLUMN",
        Slot::Word => b"WORD",
        Slot::User => b"USER",
        Slot::Phase => b"PHASE",
        Slot::Acquire => b"ACQUIRE",
        Slot::Lock => b"LOCK",
        Slot::Barrier => b"BARRIER",
        Slot::Event => b"EVENT",
        Slot::Fixed => b"a fixed word",
    }
}

/// What is told of a word of this kind that is refused for this reason, nothing for others.
pub(crate) fn note_of(format: Format, why: Why, slot: Slot) -> &'static [u8]
    ensures { result.now ≡ note_of format why slot }
{
    match why {
        Why::Name => name_note(slot),
        Why::Number => number_note(format, slot),
        Why::Kind => kind_note(slot),
        _ => b"",
    }
}

/// Of a word that is misspelled.
fn name_note(slot: Slot) -> &'static [u8]
    ensures { result.now ≡ name_note slot }
{
    match slot {
        Slot::Name => b"the name that the line gives",
        Slot::Fields => b"one NAME or more, with , between two and no space",
        Slot::Column => b"INSTANCE.FIELD, two NAMEs with one . between them",
        Slot::Data => b"DATA.FIELD, two NAMEs with one . between them",
        _ => b"a NAME",
    }
}

/// Of one that is no number of its range.
fn number_note(format: Format, slot: Slot) -> &'static [u8]
    ensures { result.now ≡ number_note format slot }
{
    match slot {
        Slot::Intervals => {
            b"LOW..HIGH, or several with , between two and no space; LOW and HIGH are numbers from 0 to 4294967295, in digits, with no 0 in front"
        }
        Slot::Count => count_note(format),
        Slot::Weight => weight_note(format),
        Slot::Value => {
            b"a number from 0 to 18446744073709551615, in digits, with no sign, no point and no 0 in front"
        }
        _ => b"",
    }
}

/// Of the arrivals of a phase.
fn count_note(format: Format) -> &'static [u8]
    ensures { result.now ≡ count_note format }
{
    match format {
        Format::Three => b"a number from 1 to 65536, in digits, with no 0 in front",
        _ => b"a number from 1 to 8192, in digits, with no 0 in front",
    }
}

/// Of what one arrival counts for.
fn weight_note(format: Format) -> &'static [u8]
    ensures { result.now ≡ weight_note format }
{
    match format {
        Format::Three => {
            b"a number from 2 to 65536, in digits, with no 0 in front; an arrival that counts for one has no times"
        }
        _ => {
            b"a number from 2 to 8192, in digits, with no 0 in front; an arrival that counts for one has no times"
        }
    }
}

/// Of one that names something else than its place takes.
fn kind_note(slot: Slot) -> &'static [u8]
    ensures { result.now ≡ kind_note slot }
{
    match slot {
        Slot::Space => b"the NAME of a space: space NAME INTERVALS",
        Slot::Column => b"INSTANCE.FIELD, of an instance: inst NAME SPACE FIELDS",
        Slot::Data => b"DATA.FIELD, of data: data NAME SPACE FIELDS",
        Slot::User => b"the NAME of a user event: NAME = user",
        Slot::Phase => b"the NAME of a phase: NAME = phase BARRIER",
        Slot::Acquire => b"the NAME of an acquire: NAME = acquire LOCK",
        Slot::Lock => b"the NAME of a reservation: lock NAME",
        Slot::Barrier => b"the NAME of a barrier: barrier NAME COUNT OP VALUE",
        Slot::Event => b"the NAME of an operation: NAME = ..",
        _ => b"",
    }
}
