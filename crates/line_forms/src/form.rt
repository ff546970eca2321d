//! The forms of lines.

use graph_terms::format::Format;

/// The forms of lines, in the language's order.
#[derive(Clone, Copy)]
pub enum Form {
    Space,
    Inst,
    Data,
    Lock,
    Barrier,
    User,
    Trigger,
    Cancel,
    Merge,
    MergeIgnore,
    Phase,
    Arrive,
    ArriveTimes,
    Acquire,
    AcquireShared,
    Release,
    Fill,
    Copy,
    Reduce,
    Iota,
    Axpy,
    Stencil,
    Scan,
    Hist,
    Dot,
    Expect,
    Gather,
    Call,
}

/// All forms.
pub const FORMS: [Form; 28] = [
    Form::Space,
    Form::Inst,
    Form::Data,
    Form::Lock,
    Form::Barrier,
    Form::User,
    Form::Trigger,
    Form::Cancel,
    Form::Merge,
    Form::MergeIgnore,
    Form::Phase,
    Form::Arrive,
    Form::ArriveTimes,
    Form::Acquire,
    Form::AcquireShared,
    Form::Release,
    Form::Fill,
    Form::Copy,
    Form::Reduce,
    Form::Iota,
    Form::Axpy,
    Form::Stencil,
    Form::Scan,
    Form::Hist,
    Form::Dot,
    Form::Expect,
    Form::Gather,
    Form::Call,
];

impl Form {
    ghost use Rattle.std.specs.Prelude.{◌≡◌};
    ghost use Rattle.line_forms.specs.Forms.{form_text, form_since, key_words, takes_on, takes_several, shown_front, shown_end, takes_many};

    /// The form in the first format that has it, as docs/LANGUAGE.md writes it: a word in capitals stands for any
    /// word of its kind, and what stands in brackets may be left out.
    pub fn text(self) -> &'static [u8]
        ensures { result.now ≡ form_text self }
    {
        match self {
            Form::Space => b"space NAME INTERVALS",
            Form::Inst => b"inst NAME SPACE FIELDS",
            Form::Data => b"data NAME SPACE FIELDS",
            Form::Lock => b"lock NAME",
            Form::Barrier => b"barrier NAME COUNT OP VALUE",
            Form::User => b"NAME = user",
            Form::Trigger => b"NAME = trigger USER [on EVENT]",
            Form::Cancel => b"NAME = cancel USER [on EVENT]",
            Form::Merge => b"NAME = merge EVENT ...",
            Form::MergeIgnore => b"NAME = mergei EVENT ...",
            Form::Phase => b"NAME = phase BARRIER",
            Form::Arrive => b"NAME = arrive PHASE VALUE [on EVENT]",
            Form::ArriveTimes => b"NAME = arrive PHASE VALUE times WEIGHT [on EVENT]",
            Form::Acquire => b"NAME = acquire LOCK [on EVENT]",
            Form::AcquireShared => b"NAME = acquire LOCK shared [on EVENT]",
            Form::Release => b"NAME = release ACQUIRE [on EVENT]",
            Form::Fill => b"NAME = fill COLUMN SPACE VALUE [on EVENT]",
            Form::Copy => b"NAME = copy COLUMN COLUMN SPACE [on EVENT]",
            Form::Reduce => b"NAME = reduce OP COLUMN COLUMN SPACE [on EVENT]",
            Form::Iota => b"NAME = task iota COLUMN SPACE VALUE [on EVENT]",
            Form::Axpy => b"NAME = task axpy COLUMN COLUMN SPACE VALUE [on EVENT]",
            Form::Stencil => b"NAME = task stencil COLUMN COLUMN SPACE SPACE [on EVENT]",
            Form::Scan => b"NAME = task scan COLUMN COLUMN SPACE [on EVENT]",
            Form::Hist => b"NAME = task hist COLUMN COLUMN SPACE SPACE [on EVENT]",
            Form::Dot => b"NAME = task dot COLUMN COLUMN COLUMN SPACE SPACE [on EVENT]",
            Form::Expect => b"NAME = task expect COLUMN SPACE VALUE VALUE [on EVENT]",
            Form::Gather => b"NAME = task gather COLUMN COLUMN COLUMN SPACE SPACE [on EVENT]",
            Form::Call => {
                b"NAME = call WORD [VALUE ...] [read|write|sum|min|max COLUMN SPACE ...] [on EVENT]"
            }
        }
    }

    /// The format that brought it.
    pub fn since(self) -> Format
        ensures { result ≡ form_since self }
    {
        match self {
            Form::ArriveTimes | Form::AcquireShared => Format::Two,
            Form::Data | Form::Call => Format::Three,
            _ => Format::One,
        }
    }

    /// How many words of a line tell that it is to have this form: up to its verb or its kernel.
    pub(crate) fn key_words(self) -> usize
        ensures { result ≡ key_words self }
    {
        match self {
            Form::Space | Form::Inst | Form::Data | Form::Lock | Form::Barrier => 1,
            Form::Iota
            | Form::Axpy
            | Form::Stencil
            | Form::Scan
            | Form::Hist
            | Form::Dot
            | Form::Expect
            | Form::Gather => 4,
            _ => 3,
        }
    }

    /// Whether ` on EVENT` may stand at its end.
    pub fn takes_on(self) -> bool
        ensures { result ≡ takes_on self }
    {
        match self {
            Form::Space
            | Form::Inst
            | Form::Data
            | Form::Lock
            | Form::Barrier
            | Form::User
            | Form::Merge
            | Form::MergeIgnore
            | Form::Phase => false,
            _ => true,
        }
    }

    /// Whether several events may stand at its end behind `on`, which format 3 brought.
    pub fn takes_several(self, format: Format) -> bool
        ensures { result ≡ takes_several format self }
    {
        format.has_since(Format::Three) && self.takes_on()
    }

    /// The form as a format has it, where more events may stand behind one, but for its end.
    pub(crate) fn shown_front(self, format: Format) -> &'static [u8]
        ensures { result.now ≡ shown_front format self }
    {
        let text = self.text();
        if self.takes_several(format) {
            &text[..text.len().saturating_sub(1)]
        } else {
            text
        }
    }

    /// Its end.
    pub(crate) fn shown_end(self, format: Format) -> &'static [u8]
        ensures { result.now ≡ shown_end format self }
    {
        if self.takes_several(format) {
            b" ...]\n"
        } else {
            b"\n"
        }
    }

    /// Whether any number of events stand at its end.
    pub fn takes_many(self) -> bool
        ensures { result ≡ takes_many self }
    {
        matches!(self, Form::Merge | Form::MergeIgnore)
    }
}
