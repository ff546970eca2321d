//! The words that tell what a line is.

ghost use Rattle.std.specs.Prelude.{◌≡◌};
ghost use Rattle.basics.specs.Words.{contents};
ghost use Rattle.line_forms.specs.Words.{vocabulary_words, vocabulary_text};

use graph_terms::format::Format;

/// The words that may stand in one place of a line and tell what it is.
#[derive(Clone, Copy)]
pub enum Vocabulary {
    /// Those with which a line begins that is no operation.
    Starts,
    /// Behind the sign.
    Verbs,
    /// Behind `task`.
    Kernels,
}

/// The words that a format has, in the language's order.
pub(crate) fn vocabulary_words(format: Format, vocabulary: Vocabulary) -> &'static [&'static [u8]]
    ensures { contents result.now ≡ vocabulary_words format vocabulary }
{
    match (format, vocabulary) {
        (Format::Three, Vocabulary::Starts) => {
            &[b"space", b"inst", b"data", b"lock", b"barrier", b"end"]
        }
        (Format::Three, Vocabulary::Verbs) => &[
            b"user", b"trigger", b"cancel", b"merge", b"mergei", b"phase", b"arrive", b"acquire",
            b"release", b"fill", b"copy", b"reduce", b"task", b"call",
        ],
        (_, Vocabulary::Starts) => &[b"space", b"inst", b"lock", b"barrier", b"end"],
        (_, Vocabulary::Verbs) => &[
            b"user", b"trigger", b"cancel", b"merge", b"mergei", b"phase", b"arrive", b"acquire",
            b"release", b"fill", b"copy", b"reduce", b"task",
        ],
        (_, Vocabulary::Kernels) => &[
            b"iota", b"axpy", b"stencil", b"scan", b"hist", b"dot", b"expect", b"gather",
        ],
    }
}

/// What is told of them.
pub(crate) fn vocabulary_text(format: Format, vocabulary: Vocabulary) -> &'static [u8]
    ensures { result.now ≡ vocabulary_text format vocabulary }
{
    match (format, vocabulary) {
        (Format::Three, Vocabulary::Starts) => {
            b"a line begins with space, inst, data, lock, barrier or end, or with NAME =\n"
        }
        (Format::Three, Vocabulary::Verbs) => {
            b"the verbs are user, trigger, cancel, merge, mergei, phase, arrive, acquire, release, fill, copy, reduce, task and call\n"
        }
        (_, Vocabulary::Starts) =>
            b"a line begins with space, inst, lock, barrier or end, or with NAME =\n",
        (_, Vocabulary::Verbs) => {
            b"the verbs are user, trigger, cancel, merge, mergei, phase, arrive, acquire, release, fill, copy, reduce and task\n"
        }
        (_, Vocabulary::Kernels) => {
            b"the kernels are iota, axpy, stencil, scan, hist, dot, expect and gather\n"
        }
    }
}
