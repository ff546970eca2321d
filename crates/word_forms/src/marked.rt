//! What is told of a word that is refused.

ghost use Rattle.std.specs.Prelude.{◌≡◌, ◌<◌, ◌^◌, ◌++◌, [], drop, take, IfOk, OnOk};
ghost use Rattle.basics.specs.Words.{contents};
ghost use Rattle.std.specs.List.{list_all, slice_index_or};
ghost use Rattle.graph_terms.specs.Name.{is_name_in};
ghost use Rattle.graph_words.specs.Words.{pieces};
ghost use Rattle.word_forms.specs.Slots.{has_events, call_slot, form_slot, is_behind_word, slot_at};
ghost use Rattle.line_forms.specs.Calls.{expected_behind};
ghost use Rattle.line_forms.specs.Forms.{form_words};
ghost use Rattle.word_forms.specs.Marked.{slot_text, note_line, noted_text, note_text, name_rule, is_later, separator, later_text, is_event, events_text, comma_text, misnamed_text, merge_on_text, mark_text, may_go_on, is_marked, form_mark, form_marks, marked_text, word_advice};

use crate::order::put_intervals;
use crate::slot::{Slot, call_slot, note_of, slot_of, slot_word};
use graph_terms::format::Format;
use graph_terms::why::Why;
use graph_words::names::names_of;
use graph_words::words::{behind, split, word};
use index_spaces::NoMemory;
use line_forms::blanks::{Blank, blank_text, ends_with_return, has_tab};
use line_forms::calls::{Expected, expected_behind};
use line_forms::follow::{followed, is_told};
use line_forms::hint::{front, put_merge_lines};
use line_forms::putting::{put, put_decimal};
use line_forms::splitting::split_long;
use line_forms::{FORMS, Form};
use std::alloc::Global;

/// What is told of the word of number `mark`, from 0, of a line of these words, which this reason refuses in
/// a text of this format, if it refuses one: what kind of word has to stand there, and how that is spelled. Of a
/// line that ends with a carriage return nothing is told.
pub fn word_advice(
    alloc: Global,
    format: Format,
    why: Why,
    line: &[u8],
    words: &[&[u8]],
    mark: Option<usize>,
) -> Result<Vec<u8>, NoMemory>
    ensures { IfOk result (λ v. v.items ≡ word_advice format why line.now (contents words.now) mark) }
{
    let mut out = Vec::new(alloc);
    if ends_with_return(line) {
        return Ok(out);
    }
    put_marked(alloc, &mut out, format, why, line, words, mark)?;
    Ok(out)
}

/// Puts what is told of the word of number `mark`, from 0, that is refused for this reason.
fn put_marked(
    alloc: Global,
    out: &mut Vec<u8>,
    format: Format,
    why: Why,
    line: &[u8],
    words: &[&[u8]],
    mark: Option<usize>,
) -> Result<(), NoMemory>
    ensures { OnOk result (out.new.items ≡ out.old.items ++ marked_text format why line.now (contents words.now) mark) }
{
    let Some(k) = mark else {
        return Ok(());
    };
    if has_tab(line) {
        return put(out, blank_text(Blank::Tab));
    }
    put_form_marks(alloc, out, format, why, words, k, &FORMS)
}

/// Puts it by each of some forms that the line has.
fn put_form_marks(
    alloc: Global,
    out: &mut Vec<u8>,
    format: Format,
    why: Why,
    words: &[&[u8]],
    k: usize,
    forms: &[Form],
) -> Result<(), NoMemory>
    ensures { OnOk result (out.new.items ≡ out.old.items ++ form_marks format why (contents words.now) k forms.now) }
{
    for form in forms {
        put_form_mark(alloc, out, format, why, words, k, *form)?;
    }
    Ok(())
}

/// Puts it by a form where the line has that form.
fn put_form_mark(
    alloc: Global,
    out: &mut Vec<u8>,
    format: Format,
    why: Why,
    words: &[&[u8]],
    k: usize,
    form: Form,
) -> Result<(), NoMemory>
    ensures { OnOk result (out.new.items ≡ out.old.items ++ form_mark format why (contents words.now) k form) }
{
    let (n, all) = followed(alloc, form, words)?;
    if !is_marked(format, form, n, all, words.len()) {
        return Ok(());
    }
    put_mark(alloc, out, format, why, words, k, form)
}

/// Whether a line of `count` words has the form of `all` words, of which it follows `n`.
fn is_marked(format: Format, form: Form, n: usize, all: usize, count: usize) -> bool
    requires { all ≡ form_words form }
    ensures { result ≡ is_marked format form n count }
{
    is_told(format, form, n) && (may_go_on(format, form, n, all) || n == count)
}

/// Whether a line that follows a form of `all` words to its end may have more events behind it.
fn may_go_on(format: Format, form: Form, n: usize, all: usize) -> bool
    requires { all ≡ form_words form }
    ensures { result ≡ may_go_on format form n }
{
    form.takes_many() || (form.takes_several(format) && n == all)
}

/// Puts what is told of the word of number `k` of a line of the form.
fn put_mark(
    alloc: Global,
    out: &mut Vec<u8>,
    format: Format,
    why: Why,
    words: &[&[u8]],
    k: usize,
    form: Form,
) -> Result<(), NoMemory>
    ensures { OnOk result (out.new.items ≡ out.old.items ++ mark_text format why form (contents words.now) k) }
{
    match why {
        Why::Name => put_misnamed(alloc, out, format, form, words, k),
        Why::Number => put_note(alloc, out, format, Why::Number, form, words, k),
        Why::Kind => put_note(alloc, out, format, Why::Kind, form, words, k),
        Why::Unknown => put_merge_on(out, form, word(words, k)),
        Why::Space => put_intervals(alloc, out, word(words, k)),
        _ => Ok(()),
    }
}

/// What kind of word stands at number `k` of a line of the form.
fn slot_at(
    alloc: Global,
    format: Format,
    form: Form,
    words: &[&[u8]],
    k: usize,
) -> Result<Slot, NoMemory>
    ensures { IfOk result (λ s. s ≡ slot_at format form (contents words.now) k) }
{
    if is_behind_word(form, k) {
        return Ok(slot_behind(words, k));
    }
    form_slot(alloc, format, form, k)
}

/// Whether word `k` of a line of the form stands behind the word of a call.
fn is_behind_word(form: Form, k: usize) -> bool
    ensures { result ≡ is_behind_word form k }
{
    match form {
        Form::Call => k > 3,
        _ => false,
    }
}

/// The same behind the word of a call, by the words of the line.
fn slot_behind(words: &[&[u8]], k: usize) -> Slot
    ensures { result ≡ call_slot (expected_behind (Expected.Value 0) (drop 4 (take k (contents words.now)))) (slice_index_or (contents words.now) k []) }
{
    let before = front(words, k);
    if before.len() < 4 {
        return call_slot(Some(Expected::Value(0)), word(words, k));
    }
    call_slot(expected_behind(behind(before, 4)), word(words, k))
}

/// The same by the words of the form.
fn form_slot(alloc: Global, format: Format, form: Form, k: usize) -> Result<Slot, NoMemory>
    ensures { IfOk result (λ s. s ≡ form_slot format form k) }
{
    let items = split(alloc, form.text(), b' ')?;
    if has_events(format, form, items.len(), k) {
        return Ok(Slot::Event);
    }
    Ok(slot_of(word(items.as_slice(), k)))
}

/// Whether events alone stand from word `k` of a form of `all` words on.
fn has_events(format: Format, form: Form, all: usize, k: usize) -> bool
    requires { all ≡ form_words form }
    ensures { result ≡ has_events format form k }
{
    (form.takes_many() && k > 2) || (form.takes_several(format) && k >= all)
}

/// Puts what kind of word stands at number `k` of the form, and how it is spelled.
fn put_note(
    alloc: Global,
    out: &mut Vec<u8>,
    format: Format,
    why: Why,
    form: Form,
    words: &[&[u8]],
    k: usize,
) -> Result<(), NoMemory>
    ensures { OnOk result (out.new.items ≡ out.old.items ++ note_text format why form (contents words.now) k) }
{
    let slot = slot_at(alloc, format, form, words, k)?;
    put_noted(out, slot, front(words, k).len(), note_of(format, why, slot))
}

/// Puts a note on a word behind so many words, where there is one.
fn put_noted(out: &mut Vec<u8>, slot: Slot, before: usize, note: &[u8]) -> Result<(), NoMemory>
    requires { before < 2 ^ 63 }
    ensures { OnOk result (out.new.items ≡ out.old.items ++ noted_text slot before note.now) }
{
    if note.is_empty() {
        return Ok(());
    }
    put_note_line(out, slot, before as u64 + 1, note)
}

/// Puts a note on the word of this number, from 1.
fn put_note_line(out: &mut Vec<u8>, slot: Slot, number: u64, note: &[u8]) -> Result<(), NoMemory>
    ensures { OnOk result (out.new.items ≡ out.old.items ++ note_line slot number note.now) }
{
    put(out, b"word ")?;
    put_decimal(out, number)?;
    put_slot(out, slot)?;
    put(out, note)?;
    put(out, b"\n")
}

/// Puts what kind of word has to stand there.
fn put_slot(out: &mut Vec<u8>, slot: Slot) -> Result<(), NoMemory>
    ensures { OnOk result (out.new.items ≡ out.old.items ++ slot_text slot) }
{
    put(out, b" has to be ")?;
    put(out, slot_word(slot))?;
    put(out, b": ")
}

/// Puts how a name is spelled, and where events stand with commas between them the lines to write.
fn put_misnamed(
    alloc: Global,
    out: &mut Vec<u8>,
    format: Format,
    form: Form,
    words: &[&[u8]],
    k: usize,
) -> Result<(), NoMemory>
    ensures { OnOk result (out.new.items ≡ out.old.items ++ misnamed_text format form (contents words.now) k) }
{
    put_note(alloc, out, format, Why::Name, form, words, k)?;
    put_rule(out, format)?;
    put_later(alloc, out, format, form, words, k)?;
    put_commas(alloc, out, format, form, words, k)
}

/// Puts how names are spelled.
fn put_rule(out: &mut Vec<u8>, format: Format) -> Result<(), NoMemory>
    ensures { OnOk result (out.new.items ≡ out.old.items ++ name_rule format) }
{
    put(out, name_rule(format))
}

/// How names are spelled.
fn name_rule(format: Format) -> &'static [u8]
    ensures { result.now ≡ name_rule format }
{
    match format {
        Format::One | Format::Two => b"a NAME is 1 to 31 of a-z, 0-9 and _, a letter first\n",
        Format::Three => b"a NAME is 1 to 63 of a-z, A-Z, 0-9 and _, no digit first\n",
    }
}

/// Puts that format 3 has such names as the word of number `k` has, where it has and this format has not.
fn put_later(
    alloc: Global,
    out: &mut Vec<u8>,
    format: Format,
    form: Form,
    words: &[&[u8]],
    k: usize,
) -> Result<(), NoMemory>
    ensures { OnOk result (out.new.items ≡ out.old.items ++ later_text format form (contents words.now) k) }
{
    let slot = slot_at(alloc, format, form, words, k)?;
    let later = is_later(alloc, format, word(words, k), separator(slot))?;
    if later {
        return put(out, b"format 3 has such names\n");
    }
    Ok(())
}

/// Whether the parts of a word are names of format 3, and not all of this format.
fn is_later(alloc: Global, format: Format, word: &[u8], separator: u8) -> Result<bool, NoMemory>
    ensures { IfOk result (λ b. b ≡ is_later format (pieces separator word.now)) }
{
    let parts = split_long(alloc, word, separator)?;
    let now = are_names(alloc, format, parts.as_slice())?;
    let later = are_names(alloc, Format::Three, parts.as_slice())?;
    Ok(!now && later)
}

/// What stands between the names that a word of this kind has; no word has a space in it.
fn separator(slot: Slot) -> u8
    ensures { result ≡ separator slot }
{
    match slot {
        Slot::Column | Slot::Data => b'.',
        Slot::Fields => b',',
        _ => b' ',
    }
}

/// Puts the lines to write where the word of number `k` names events, with commas between them.
fn put_commas(
    alloc: Global,
    out: &mut Vec<u8>,
    format: Format,
    form: Form,
    words: &[&[u8]],
    k: usize,
) -> Result<(), NoMemory>
    ensures { OnOk result (out.new.items ≡ out.old.items ++ comma_text format form (contents words.now) k) }
{
    let slot = slot_at(alloc, format, form, words, k)?;
    let events = split_long(alloc, word(words, k), b',')?;
    let named = are_names(alloc, format, events.as_slice())?;
    if is_event(slot) && named {
        return put_events(out, format, form, front(words, k), events.as_slice());
    }
    Ok(())
}

fn is_event(slot: Slot) -> bool
    ensures { result ≡ is_event slot }
{
    matches!(slot, Slot::Event)
}

/// Whether all are spelled as names of a format.
fn are_names(alloc: Global, format: Format, words: &[&[u8]]) -> Result<bool, NoMemory>
    ensures { IfOk result (λ b. b ≡ list_all (is_name_in format) (contents words.now)) }
{
    let names = names_of(alloc, format, words)?;
    Ok(names.is_some())
}

/// Puts what to write for events that stand with commas between them behind these words.
fn put_events(
    out: &mut Vec<u8>,
    format: Format,
    form: Form,
    words: &[&[u8]],
    events: &[&[u8]],
) -> Result<(), NoMemory>
    ensures { OnOk result (out.new.items ≡ out.old.items ++ events_text format form (contents words.now) (contents events.now)) }
{
    if form.takes_on() && !form.takes_several(format) {
        return put_merge_lines(out, form, words, events);
    }
    put(out, b"one space stands between two events\n")
}

/// Puts that a merge takes no `on`, where the word is that.
fn put_merge_on(out: &mut Vec<u8>, form: Form, word: &[u8]) -> Result<(), NoMemory>
    ensures { OnOk result (out.new.items ≡ out.old.items ++ merge_on_text form word.now) }
{
    if form.takes_many() && word == b"on".as_slice() {
        return put(
            out,
            b"a merge takes no on: it names that event among its own\n",
        );
    }
    Ok(())
}
