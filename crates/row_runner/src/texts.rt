//! Texts: what a line of a text stands for, and texts that others name.

use crate::fault::Fault;
use crate::lines::FileLine;
use itoa::Buffer;
use std::alloc::{AllocError, Global};

/// A text that lines below it may name.
#[derive(Drop)]
struct NamedText<'f> {
    name: &'f str,
    bytes: Vec<u8>,
}

/// The named texts so far.
#[derive(Drop)]
pub(crate) struct Texts<'f> {
    named: Vec<NamedText<'f>>,
}

impl<'f> Texts<'f> {
    pub(crate) fn new(alloc: Global) -> Texts<'f> {
        Texts {
            named: Vec::new(alloc),
        }
    }

    /// Gives a name to a text.
    pub(crate) fn add(&mut self, name: &'f str, bytes: Vec<u8>) -> Result<(), AllocError> {
        self.named.push(NamedText { name, bytes })?;
        Ok(())
    }

    /// The text of a name.
    pub(crate) fn find(&self, name: &str) -> Option<&[u8]> {
        for text in self.named.iter() {
            if text.name == name {
                return Some(text.bytes.as_slice());
            }
        }
        None
    }
}

/// The numbers of the copies of a part, from the first to the last.
#[derive(Drop)]
struct Copies {
    first: u32,
    last: u32,
}

/// The numbers that a word spells: one, or two with `..` between them.
fn copies_of(word: &str) -> Option<Copies> {
    let (first, last) = word.split_once("..").unwrap_or((word, word));
    match (first.parse(), last.parse()) {
        (Ok(first), Ok(last)) => Some(Copies { first, last }),
        _ => None,
    }
}

/// The numbers that stand in front of a line, and the part behind them.
fn numbered_part<'f>(line: &FileLine<'f>) -> Result<(Option<Copies>, &'f str), Fault> {
    if !line
        .text
        .starts_with(|letter: char| letter.is_ascii_digit())
    {
        return Ok((None, line.text));
    }
    let Some((word, part)) = line.text.split_once(' ') else {
        return Err(Fault::Line(line.number, "numbers with nothing behind them"));
    };
    match copies_of(word) {
        Some(copies) => Ok((Some(copies), part)),
        None => Err(Fault::Line(line.number, "no numbers of copies")),
    }
}

/// The value of a hexadecimal digit.
fn digit(byte: u8) -> Option<u8> {
    match byte {
        b'0'..=b'9' => Some(byte - b'0'),
        b'a'..=b'f' => Some(byte - b'a' + 10),
        _ => None,
    }
}

/// Adds the byte that two hexadecimal digits spell and what stands behind them.
fn add_escaped(into: &mut Vec<u8>, bytes: &[u8], number: u32) -> Result<(), Fault> {
    let [high, low, rest @ ..] = bytes else {
        return Err(Fault::Line(number, "an escape of fewer than two digits"));
    };
    let (Some(high), Some(low)) = (digit(*high), digit(*low)) else {
        return Err(Fault::Line(number, "an escape without its two digits"));
    };
    into.push(high.wrapping_mul(16).wrapping_add(low))?;
    into.extend_from_slice(rest)?;
    Ok(())
}

/// Adds the bytes that some letters stand for.
fn add_letters(into: &mut Vec<u8>, letters: &str, number: u32) -> Result<(), Fault> {
    for (place, piece) in letters.split("\\x").enumerate() {
        if place == 0 {
            into.extend_from_slice(piece.as_bytes())?;
        } else {
            add_escaped(into, piece.as_bytes(), number)?;
        }
    }
    Ok(())
}

/// The bytes that a part stands for: a line, a piece of one, or all of a named text.
fn part_bytes(alloc: Global, texts: &Texts, part: &str, number: u32) -> Result<Vec<u8>, Fault> {
    let mut bytes = Vec::new(alloc);
    if part == "|" {
        bytes.push(b'\n')?;
    } else if let Some(letters) = part.strip_prefix("| ") {
        add_letters(&mut bytes, letters, number)?;
        bytes.push(b'\n')?;
    } else if let Some(letters) = part.strip_prefix(": ") {
        add_letters(&mut bytes, letters, number)?;
    } else if let Some(name) = part.strip_prefix("& ") {
        let Some(text) = texts.find(name) else {
            return Err(Fault::Line(number, "a text that no line above names"));
        };
        bytes.extend_from_slice(text)?;
    } else {
        return Err(Fault::Line(number, "neither a keyword nor a part of a text"));
    }
    Ok(bytes)
}

/// Adds a copy of some bytes: its number in place of each `#`, and the number before in place of each `~`.
fn add_copy(into: &mut Vec<u8>, bytes: &[u8], number: u32) -> Result<(), AllocError> {
    let mut buffer = Buffer::new();
    for byte in bytes {
        match *byte {
            b'#' => into.extend_from_slice(buffer.format(number).as_bytes())?,
            b'~' => {
                let before = number.saturating_sub(1);
                into.extend_from_slice(buffer.format(before).as_bytes())?;
            }
            other => into.push(other)?,
        }
    }
    Ok(())
}

/// Adds what a line of a text stands for.
pub(crate) fn add_line(
    alloc: Global,
    texts: &Texts,
    line: &FileLine,
    into: &mut Vec<u8>,
) -> Result<(), Fault> {
    let (copies, part) = numbered_part(line)?;
    let bytes = part_bytes(alloc, texts, part, line.number)?;
    match copies {
        Some(copies) => {
            for number in copies.first..=copies.last {
                add_copy(into, bytes.as_slice(), number)?;
            }
        }
        None => into.extend_from_slice(bytes.as_slice())?,
    }
    Ok(())
}
