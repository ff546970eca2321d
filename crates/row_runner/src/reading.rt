//! From the lines of a block to a row.

use crate::fault::Fault;
use crate::lines::FileLine;
use crate::row::{Command, Each, Program, Row, Wanted};
use crate::texts::{Texts, add_line};
use graph_terms::format::Format;
use std::alloc::Global;

/// Where lines of texts belong.
#[derive(Clone, Copy, Drop)]
enum Section {
    Head,
    Input,
    Output,
}

/// The program that words call.
fn program_of(line: &str) -> Option<Program> {
    match line.split_once(' ').unwrap_or((line, "")) {
        ("realm", _) | ("", "") => Some(Program::Realm),
        ("realm-explain", "") => Some(Program::Explain {
            ends: false,
            all: false,
        }),
        ("realm-explain", "--ends") => Some(Program::Explain {
            ends: true,
            all: false,
        }),
        ("realm-explain", "--all") => Some(Program::Explain {
            ends: false,
            all: true,
        }),
        ("realm-flow", words) => flow_of(words),
        _ => None,
    }
}

/// The program that writes flows, with what its words ask for.
fn flow_of(words: &str) -> Option<Program> {
    let (commute, format) = match words {
        "" => (false, Format::One),
        "--commute" => (true, Format::One),
        "--format 3" => (false, Format::Three),
        "--commute --format 3" => (true, Format::Three),
        "--format 3 --commute" => (true, Format::Three),
        _ => return None,
    };
    Some(Program::Flow { commute, format })
}

/// The command line of some words.
fn command<'f>(words: &'f str, each_engine: bool, number: u32) -> Result<Command<'f>, Fault> {
    match program_of(words) {
        Some(program) => Ok(Command {
            program,
            line: words,
            each_engine,
        }),
        None => Err(Fault::Line(number, "no command line of a program")),
    }
}

/// A number that a word spells.
fn number_of(word: &str, number: u32) -> Result<u32, Fault> {
    match word.parse() {
        Ok(value) => Ok(value),
        Err(_) => Err(Fault::Line(number, "no number")),
    }
}

/// Adds the numbers that words spell.
fn add_numbers(into: &mut Vec<u32>, words: &str, number: u32) -> Result<(), Fault> {
    for word in words.split(' ') {
        into.push(number_of(word, number)?)?;
    }
    Ok(())
}

/// The status that a word spells.
fn status_of(word: &str, number: u32) -> Result<u8, Fault> {
    match word.parse() {
        Ok(status) => Ok(status),
        Err(_) => Err(Fault::Line(number, "no status")),
    }
}

/// Takes a line of a text, which belongs to the section.
fn take_text<'f>(
    alloc: Global,
    texts: &Texts,
    row: &mut Row<'f>,
    section: Section,
    line: &FileLine<'f>,
) -> Result<(), Fault> {
    match (section, &mut row.output) {
        (Section::Input, _) => add_line(alloc, texts, line, &mut row.input),
        (Section::Output, Wanted::Bytes(bytes)) => add_line(alloc, texts, line, bytes),
        _ => Err(Fault::Line(line.number, "neither a keyword nor in an input or output")),
    }
}

/// Takes what is wanted of the output, where nothing was wanted before.
fn set_output<'f>(row: &mut Row<'f>, wanted: Wanted<'f>, number: u32) -> Result<(), Fault> {
    if !row.has_no_output() {
        return Err(Fault::Line(number, "a second output"));
    }
    row.output = wanted;
    Ok(())
}

/// Takes a line that says one thing by itself; whether it is one.
fn take_phrase(row: &mut Row, line: &FileLine) -> Result<bool, Fault> {
    match line.text {
        "output any" => set_output(row, Wanted::Any, line.number)?,
        "output with a lawful trace" => set_output(row, Wanted::Traced, line.number)?,
        "each read fails" => row.each = Each::Read,
        "each write fails" => row.each = Each::Write,
        "each cut" => row.each = Each::Cut,
        _ => return Ok(false),
    }
    Ok(true)
}

/// A number that is not 0.
fn count_of(word: &str, number: u32) -> Result<u32, Fault> {
    match number_of(word, number)? {
        0 => Err(Fault::Line(number, "0 calls or bytes")),
        count => Ok(count),
    }
}

/// Takes a line of a keyword and what belongs to it; whether it is one.
fn take_keyword<'f>(row: &mut Row<'f>, line: &FileLine<'f>) -> Result<bool, Fault> {
    let number = line.number;
    if line.text == "$" {
        row.commands.push(command("", false, number)?)?;
    } else if let Some(words) = line.text.strip_prefix("$ ") {
        row.commands.push(command(words, false, number)?)?;
    } else if let Some(words) = line.text.strip_prefix("each engine $ ") {
        row.commands.push(command(words, true, number)?)?;
    } else if let Some(words) = line.text.strip_prefix("output of $ ") {
        set_output(row, Wanted::Of(command(words, false, number)?), number)?;
    } else if let Some(word) = line.text.strip_prefix("status ") {
        row.status = status_of(word, number)?;
    } else if let Some(word) = line.text.strip_prefix("piece ") {
        row.piece = count_of(word, number)? as usize;
    } else if let Some(word) = line.text.strip_prefix("times ") {
        row.times = count_of(word, number)?;
    } else if let Some(words) = line.text.strip_prefix("failing reads ") {
        add_numbers(&mut row.failing_reads, words, number)?;
    } else if let Some(words) = line.text.strip_prefix("failing writes ") {
        add_numbers(&mut row.failing_writes, words, number)?;
    } else {
        return take_phrase(row, line);
    }
    Ok(true)
}

/// Takes a line of a row: the section that the next one belongs to.
fn take_line<'f>(
    alloc: Global,
    texts: &Texts,
    row: &mut Row<'f>,
    section: Section,
    line: &FileLine<'f>,
) -> Result<Section, Fault> {
    match line.text {
        "input" => return Ok(Section::Input),
        "output" => return Ok(Section::Output),
        _ => {}
    }
    if take_keyword(row, line)? {
        return Ok(Section::Head);
    }
    take_text(alloc, texts, row, section, line)?;
    Ok(section)
}

/// The row with this first line and these lines below it.
pub(crate) fn read_row<'f>(
    alloc: Global,
    texts: &Texts,
    head: &FileLine<'f>,
    body: &[FileLine<'f>],
) -> Result<Row<'f>, Fault> {
    let mut row = Row::new(alloc, head.text.strip_prefix("row ").unwrap_or(head.text));
    let mut section = Section::Head;
    for line in body {
        section = take_line(alloc, texts, &mut row, section, line)?;
    }
    if row.commands.is_empty() {
        return Err(Fault::Line(head.number, "a row without a command line"));
    }
    if !row.is_tried() {
        return Err(Fault::Line(
            head.number,
            "a trace, or writes that fail, with an output that is not compared",
        ));
    }
    Ok(row)
}

/// The text of these lines.
pub(crate) fn read_text(alloc: Global, texts: &Texts, body: &[FileLine]) -> Result<Vec<u8>, Fault> {
    let mut bytes = Vec::new(alloc);
    for line in body {
        add_line(alloc, texts, line, &mut bytes)?;
    }
    Ok(bytes)
}
