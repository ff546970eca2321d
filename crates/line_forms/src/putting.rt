//! Bytes that grow at their end.

ghost use Rattle.std.specs.Prelude.{◌≡◌, ◌++◌, decimal, OnOk};
ghost use Rattle.std.specs.List.{concat};
ghost use Rattle.basics.specs.Words.{contents};

use index_spaces::NoMemory;
use itoa::Buffer;

/// Puts bytes at the end.
pub fn put(out: &mut Vec<u8>, bytes: &[u8]) -> Result<(), NoMemory>
    ensures { OnOk result (out.new.items ≡ out.old.items ++ bytes.now) }
{
    match out.extend_from_slice(bytes) {
        Ok(()) => Ok(()),
        Err(_) => Err(NoMemory),
    }
}

/// Puts parts at the end, one after the other.
pub(crate) fn put_all(out: &mut Vec<u8>, parts: &[&[u8]]) -> Result<(), NoMemory>
    ensures { OnOk result (out.new.items ≡ out.old.items ++ concat (contents parts.now)) }
{
    for part in parts {
        put(out, part)?;
    }
    Ok(())
}

/// Puts a number at the end, in decimal digits.
pub fn put_decimal(out: &mut Vec<u8>, number: u64) -> Result<(), NoMemory>
    ensures { OnOk result (out.new.items ≡ out.old.items ++ decimal number) }
{
    let mut buffer = Buffer::new();
    put(out, buffer.format(number).as_bytes())
}
