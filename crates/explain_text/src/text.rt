//! Text that grows at its end.

ghost use Rattle.std.specs.Prelude.{◌≡◌, ◌<◌, ◌≤◌, ◌++◌, [], decimal, length, map, take, OnOk};
ghost use Rattle.explain_text.specs.Shown.{shown, shown_at, shown_behind, shown_for, more_text, TellsWord};
ghost use Rattle.explain_text.specs.Visible.{visible, visible_byte};

use crate::bounds::{BEFORE_WORD, MAX_SHOWN, NEAR_FRONT};
use crate::split::place_of;
use crate::visible::is_plain;
use index_spaces::NoMemory;
use itoa::Buffer;
use std::alloc::Global;
use std::marker::Model;

/// A text in memory, seen as its bytes.
#[derive(Drop)]
pub struct Text {
    bytes: Vec<u8>,
}

impl Model for Text {
    ghost use Rattle.std.specs.Prelude.{ℕ, List};

    ghost Value = { List ℕ };

    ghost view = { λ a. a.bytes.items };
}

impl Text {
    /// The text without bytes. It takes no memory.
    pub fn new(alloc: Global) -> Text
        ensures { result ≡ [] }
    {
        Text {
            bytes: Vec::new(alloc),
        }
    }

    /// The text of these bytes.
    pub fn of(bytes: Vec<u8>) -> Text
        ensures { result ≡ bytes.items }
    {
        Text { bytes }
    }

    /// Its bytes.
    pub fn bytes(&self) -> &[u8]
        ensures { result.now ≡ self.now }
    {
        self.bytes.as_slice()
    }

    /// Puts bytes at the end.
    pub fn put(&mut self, bytes: &[u8]) -> Result<(), NoMemory>
        ensures { OnOk result (self.new ≡ self.old ++ bytes.now) }
    {
        match self.bytes.extend_from_slice(bytes) {
            Ok(()) => Ok(()),
            Err(_) => Err(NoMemory),
        }
    }

    /// How many bytes there are.
    pub fn len(&self) -> usize
        ensures { result ≡ length self.now }
    {
        self.bytes.len()
    }

    /// Keeps the first bytes, or all where there are fewer.
    pub fn keep(&mut self, count: usize)
        ensures { self.new ≡ take count self.old }
    {
        self.bytes.truncate(count)
    }

    /// Puts bytes at the end as they are told: of many the front, and `..`.
    pub fn put_shown(&mut self, bytes: &[u8]) -> Result<(), NoMemory>
        ensures { OnOk result (self.new ≡ self.old ++ shown bytes.now) }
    {
        if bytes.len() <= MAX_SHOWN {
            return self.put(bytes);
        }
        self.put(&bytes[..MAX_SHOWN - 2])?;
        self.put(b"..")
    }

    /// Puts a line at the end as it is told for a word of it: of a long line the part around the word.
    pub fn put_shown_for(&mut self, word: &[u8], line: &[u8]) -> Result<(), NoMemory>
        ensures shown { OnOk result (self.new ≡ self.old ++ shown_for word.now line.now) }
        ensures word { TellsWord word.now line.now }
    {
        if line.len() <= MAX_SHOWN {
            return self.put(line);
        }
        self.put_shown_at(place_of(word, line), line)
    }

    /// Puts the part of a long line around a place.
    fn put_shown_at(&mut self, place: usize, line: &[u8]) -> Result<(), NoMemory>
        requires place { place ≤ length line.now }
        requires long { MAX_SHOWN < length line.now }
        ensures { OnOk result (self.new ≡ self.old ++ shown_at place line.now) }
    {
        if place < NEAR_FRONT {
            return self.put_shown(line);
        }
        self.put_shown_behind(&line[place - BEFORE_WORD..])
    }

    /// Puts what stands from a place of a long line on.
    fn put_shown_behind(&mut self, rest: &[u8]) -> Result<(), NoMemory>
        ensures { OnOk result (self.new ≡ self.old ++ shown_behind rest.now) }
    {
        self.put(b"..")?;
        if rest.len() <= MAX_SHOWN - 2 {
            return self.put(rest);
        }
        self.put(&rest[..MAX_SHOWN - 4])?;
        self.put(b"..")
    }

    /// Puts how many more there are, where there are some.
    pub fn put_more(&mut self, more: usize) -> Result<(), NoMemory>
        ensures { OnOk result (self.new ≡ self.old ++ more_text more) }
    {
        if more == 0 {
            return Ok(());
        }
        self.put(b"and ")?;
        self.put_number(more as u64)?;
        self.put(b" more\n")
    }

    /// Puts a number at the end, in decimal digits.
    pub fn put_number(&mut self, number: u64) -> Result<(), NoMemory>
        ensures { OnOk result (self.new ≡ self.old ++ decimal number) }
    {
        let mut buffer = Buffer::new();
        self.put(buffer.format(number).as_bytes())
    }

    /// Puts a byte at the end, as often as there are bytes.
    pub fn put_for_each(&mut self, bytes: &[u8], byte: u8) -> Result<(), NoMemory>
        ensures { OnOk result (self.new ≡ self.old ++ map (λ b. byte) bytes.now) }
    {
        for _each in bytes {
            self.put(&[byte])?;
        }
        Ok(())
    }

    /// Puts a byte at the end, as often as there are bytes as these are written.
    pub fn put_below(&mut self, bytes: &[u8], byte: u8) -> Result<(), NoMemory>
        ensures { OnOk result (self.new ≡ self.old ++ map (λ b. byte) (visible bytes.now)) }
    {
        for each in bytes {
            self.put_below_byte(*each, byte)?;
        }
        Ok(())
    }

    /// The same below one byte.
    fn put_below_byte(&mut self, each: u8, byte: u8) -> Result<(), NoMemory>
        ensures { OnOk result (self.new ≡ self.old ++ map (λ b. byte) (visible_byte each)) }
    {
        if is_plain(each) {
            return self.put(&[byte]);
        }
        self.put(&[byte, byte, byte, byte])
    }

    /// Puts spaces at the end, as many as a number has decimal digits.
    pub fn put_number_blank(&mut self, number: u64) -> Result<(), NoMemory>
        ensures { OnOk result (self.new ≡ self.old ++ map (λ d. 32) (decimal number)) }
    {
        let mut buffer = Buffer::new();
        self.put_for_each(buffer.format(number).as_bytes(), b' ')
    }
}
