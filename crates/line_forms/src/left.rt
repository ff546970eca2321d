//! What is told of the word at which a line leaves a form.

ghost use Rattle.std.specs.Prelude.{◌≡◌, ◌&&◌, ◌==◌, codes};
ghost use Rattle.std.specs.Str.{bytes_eq};
ghost use Rattle.graph_terms.specs.declared.format.Format.TheVariants.{One};
ghost use Rattle.line_forms.specs.Left.{one_if, is_first, left_text};

use crate::form::Form;
use graph_terms::format::Format;
use graph_words::calls::begins_with_digit;

/// What is told of a word at which a line leaves the form, by its number from 0.
pub(crate) fn left_text(format: Format, form: Form, n: usize, word: &[u8]) -> &'static [u8]
    ensures { result.now ≡ left_text format form n word.now }
{
    match form {
        Form::Space => one_if(
            n == 3,
            b"INTERVALS is one word: LOW..HIGH, or several with , between two and no space\n",
        ),
        Form::Inst | Form::Data => one_if(
            n == 4,
            b"FIELDS is one word: one NAME or more, with , between two and no space\n",
        ),
        Form::Barrier | Form::Reduce => one_if(n == 3, b"OP is sum, min or max\n"),
        Form::User => one_if(
            n == 3 && is_on(word),
            b"a user event takes no on: the line that triggers or cancels it may\n",
        ),
        Form::Phase => one_if(
            n == 4 && is_on(word),
            b"a phase takes no on: the lines that arrive at it may\n",
        ),
        Form::Arrive => one_if(
            is_first(format) && (n == 5 && word == b"times".as_slice()),
            b"times is of format 2: a text that begins with realm 2 has it\n",
        ),
        Form::Acquire => one_if(
            is_first(format) && (n == 4 && word == b"shared".as_slice()),
            b"shared is of format 2: a text that begins with realm 2 has it\n",
        ),
        Form::Call => one_if(
            n > 3 && begins_with_digit(word),
            b"VALUEs stand right behind WORD, and at most 4 of them\n",
        ),
        _ => b"",
    }
}

/// A text where something holds, and else none.
fn one_if(holds: bool, text: &'static [u8]) -> &'static [u8]
    ensures { result.now ≡ one_if holds text.now }
{
    if holds { text } else { b"" }
}

fn is_on(word: &[u8]) -> bool
    ensures { result ≡ bytes_eq word.now (codes "on") }
{
    word == b"on".as_slice()
}

fn is_first(format: Format) -> bool
    ensures { result ≡ is_first format }
{
    matches!(format, Format::One)
}
