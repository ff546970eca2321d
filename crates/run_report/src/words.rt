//! Lines of words.

ghost use Rattle.basics.specs.Words.{contents};
ghost use Rattle.graph_terms.specs.Spelling.{spelled};
ghost use Rattle.realm_io.specs.Written.{Writes};

use realm_io::{Sink, WriteFault, put_bytes};

/// Writes words with a space between each two, and a newline. After a fault the sink has taken a prefix of the line.
pub fn put_words<K: Sink>(sink: &mut K, words: &[&[u8]]) -> Result<(), WriteFault>
    ensures { Writes (K.state sink.old) (K.state sink.new) result (spelled (contents words.now)) }
{
    match words {
        [] => put_bytes(sink, b"\n"),
        [last] => {
            put_bytes(sink, last)?;
            put_bytes(sink, b"\n")
        }
        [first, rest @ ..] => {
            put_bytes(sink, first)?;
            put_bytes(sink, b" ")?;
            put_words(sink, rest)
        }
    }
}
