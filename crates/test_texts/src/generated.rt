//! Texts that are put together.

use std::alloc::{AllocError, Global};

/// So many copies of a text, each with its number, from 0, in place of each `#`.
pub fn numbered(alloc: Global, copies: u32, each: &str) -> Result<String, AllocError> {
    let mut text = String::new(alloc);
    for number in 0..copies {
        let digits = format!(in alloc; "{number}")?;
        text.push_str(each.replace(alloc, '#', digits.as_str())?.as_str())?;
    }
    Ok(text)
}

/// So many fills of one cell, each on the one before it.
pub fn chain(alloc: Global, fills: u32) -> Result<String, AllocError> {
    let mut text = String::from_str(
        alloc,
        "realm 1\nspace s 0..0\ninst a s x\nf1 = fill a.x s 1\n",
    )?;
    for i in 1..fills {
        let next = i + 1;
        let line = format!(in alloc; "f{next} = fill a.x s {next} on f{i}\n")?;
        text.push_str(line.as_str())?;
    }
    text.push_str("end\n")?;
    Ok(text)
}
