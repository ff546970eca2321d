//! Lines to write for one that waits for several events.

ghost use Rattle.std.specs.Prelude.{◌≡◌, ◌++◌, ◌≤◌, drop, take, length, flat_map, OnOk};
ghost use Rattle.std.specs.List.{list_any};
ghost use Rattle.basics.specs.Words.{contents};
ghost use Rattle.line_forms.specs.Hint.{before_space, behind_space, is_no_event, may_merge, are_events, merge_words, later_format, merge_lines, merge_hint};

use crate::blanks::begins_comment;
use crate::form::Form;
use crate::putting::put;
use graph_terms::limits::MAX_EVENTS;
use graph_words::words::behind;
use index_spaces::NoMemory;

/// Puts the two lines to write in place of one that has `n` words before the second event.
pub(crate) fn put_merge_hint(
    out: &mut Vec<u8>,
    form: Form,
    words: &[&[u8]],
    n: usize,
) -> Result<(), NoMemory>
    requires { n ≤ length words.now }
    ensures { OnOk result (out.new.items ≡ out.old.items ++ merge_hint form (contents words.now) n) }
{
    let kept = n.saturating_sub(1);
    put_merge_lines(out, form, front(words, kept), behind(words, kept))
}

/// Puts the two lines to write in place of one that has these words before these events, and the
/// format that takes the events themselves.
pub fn put_merge_lines(
    out: &mut Vec<u8>,
    form: Form,
    words: &[&[u8]],
    events: &[&[u8]],
) -> Result<(), NoMemory>
    ensures { OnOk result (out.new.items ≡ out.old.items ++ merge_lines form (contents words.now) (contents events.now)) }
{
    put(out, merge_words(form))?;
    put_before(out, events)?;
    put(out, b"\n")?;
    put_behind(out, words)?;
    put(out, b"NAME\n")?;
    put(out, later_format())
}

/// What is told of the format in which the line may wait for its events without a merge.
fn later_format() -> &'static [u8]
    ensures { result.now ≡ later_format }
{
    b"or write it in format 3, where on takes several events\n"
}

/// What is told of the merge that a line of the form may wait for. A release waits for one that
/// ignores faults.
fn merge_words(form: Form) -> &'static [u8]
    ensures { result.now ≡ merge_words form }
{
    match form {
        Form::Release => {
            b"on takes one event: put a mergei above, and wait for that\nNAME = mergei"
        }
        _ => b"on takes one event: put a merge above, and wait for that\nNAME = merge",
    }
}

/// Whether the words from number `n` less 1 on may name events.
pub(crate) fn are_events(words: &[&[u8]], n: usize) -> bool
    requires { n ≤ length words.now }
    ensures { result ≡ are_events (contents words.now) n }
{
    let last = n.saturating_sub(1);
    may_merge(behind(words, last))
}

/// Whether words may name the events of a merge of formats 1 and 2.
fn may_merge(words: &[&[u8]]) -> bool
    ensures { result ≡ may_merge (contents words.now) }
{
    words.len() <= MAX_EVENTS as usize && !has_other(words)
}

/// Whether one of some words names no event.
fn has_other(words: &[&[u8]]) -> bool
    ensures { result ≡ list_any is_no_event (contents words.now) }
{
    words.iter().any(|word| is_no_event(word))
}

fn is_no_event(word: &[u8]) -> bool
    ensures { result ≡ is_no_event word.now }
{
    begins_comment(word)
        || word == b"on".as_slice()
        || word == b"merge".as_slice()
        || word == b"mergei".as_slice()
        || word == b"and".as_slice()
}

/// Puts words, each with a space before it.
pub(crate) fn put_before(out: &mut Vec<u8>, words: &[&[u8]]) -> Result<(), NoMemory>
    ensures { OnOk result (out.new.items ≡ out.old.items ++ flat_map before_space (contents words.now)) }
{
    for word in words {
        put(out, b" ")?;
        put(out, word)?;
    }
    Ok(())
}

/// Puts words, each with a space behind it.
fn put_behind(out: &mut Vec<u8>, words: &[&[u8]]) -> Result<(), NoMemory>
    ensures { OnOk result (out.new.items ≡ out.old.items ++ flat_map behind_space (contents words.now)) }
{
    for word in words {
        put(out, word)?;
        put(out, b" ")?;
    }
    Ok(())
}

/// The first `n` words, or all where there are fewer.
pub fn front<'a, 'b>(words: &'b [&'a [u8]], n: usize) -> &'b [&'a [u8]]
    ensures { contents result.now ≡ take n (contents words.now) }
{
    if n < words.len() { &words[..n] } else { words }
}
