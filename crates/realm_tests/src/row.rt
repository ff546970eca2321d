//! A call of `realm` over a source and a sink that never fail.

use realm_io::{Gate, SureSink, SureSource};
use realm_top::realm;
use realm_top::status::Status;
use std::alloc::Global;
use std::sync::Wait;
use std::test::Fail;
use std::thread::Threads;

/// A command line over a text, which is done and writes this.
#[derive(Clone, Copy)]
pub(crate) struct Row<'a> {
    /// The words after the program's name.
    pub(crate) command: &'a str,
    pub(crate) text: &'a str,
    pub(crate) output: &'a str,
}

/// The program's name and the words of a command line.
pub(crate) fn words(alloc: Global, command: &str) -> Result<Vec<String>, Fail> {
    let mut words = Vec::new(alloc);
    words.push(String::from_str(alloc, "realm")?)?;
    for word in command.split_ascii_whitespace() {
        words.push(String::from_str(alloc, word)?)?;
    }
    Ok(words)
}

/// How `realm` ends with these words, and the sink that it wrote to.
fn ended<R: Threads + Wait + Sync + AllocGlobal, G: Gate>(
    rt: &R,
    words: &[String],
    mut source: SureSource,
    mut sink: SureSink,
    gate: &G,
) -> (Status, SureSink) {
    let status = realm(rt, rt.alloc(), words, &mut source, &mut sink, gate);
    (status, sink)
}

impl Row<'_> {
    /// How `realm` ends, whose workers pass this gate, and the sink that it wrote to, with room for a short trace too.
    pub(crate) fn run<R: Threads + Wait + Sync + AllocGlobal, G: Gate>(
        &self,
        rt: &R,
        gate: &G,
    ) -> Result<(Status, SureSink), Fail> {
        let words = words(rt.alloc(), self.command)?;
        let bytes = Vec::from_slice(rt.alloc(), self.text.as_bytes())?;
        let room = self.output.len().saturating_add(64);
        let sink = SureSink::new(vec![in rt.alloc(); 0u8; room]?);
        Ok(ended(rt, words.as_slice(), SureSource::new(bytes), sink, gate))
    }

    /// Whether this is what the call is to write.
    pub(crate) fn is_output(&self, sink: &SureSink) -> bool {
        sink.kept() == self.output.as_bytes() && sink.taken() == self.output.len() as u64
    }
}
