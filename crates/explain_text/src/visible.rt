//! Bytes as they are written.

ghost use Rattle.std.specs.Prelude.{◌≡◌, ◌<◌, ◌++◌, true, IfOk, OnOk};
ghost use Rattle.std.specs.List.{list_all};
ghost use Rattle.explain_text.specs.Visible.{is_plain, hex_digit, visible_byte, visible, IsFrontOf};

use index_spaces::NoMemory;
use std::alloc::Global;

/// Bytes as they are written: one that is not printable, but for a newline, as `\x` and two hexadecimal
/// digits. Where they are more than `most`, a front of them that has more than that.
pub fn visible_front(alloc: Global, bytes: &[u8], most: usize) -> Result<Vec<u8>, NoMemory>
    ensures front { IfOk result (λ v. IsFrontOf most v.items (visible bytes.now)) }
    ensures plain { IfOk result (λ v. list_all is_plain v.items ≡ true) }
{
    let mut out = Vec::new(alloc);
    for byte in bytes {
        if out.len() > most {
            return Ok(out);
        }
        put_visible(&mut out, *byte)?;
    }
    Ok(out)
}

/// Puts a byte at the end as it is written.
fn put_visible(out: &mut Vec<u8>, byte: u8) -> Result<(), NoMemory>
    ensures { OnOk result (out.new.items ≡ out.old.items ++ visible_byte byte) }
{
    if is_plain(byte) {
        return put(out, &[byte]);
    }
    put(
        out,
        &[b'\\', b'x', hex_digit(byte / 16 % 16), hex_digit(byte % 16)],
    )
}

fn put(out: &mut Vec<u8>, bytes: &[u8]) -> Result<(), NoMemory>
    ensures { OnOk result (out.new.items ≡ out.old.items ++ bytes.now) }
{
    match out.extend_from_slice(bytes) {
        Ok(()) => Ok(()),
        Err(_) => Err(NoMemory),
    }
}

/// Whether a byte is written as it is.
pub(crate) fn is_plain(byte: u8) -> bool
    ensures { result ≡ is_plain byte }
{
    byte == b'\n' || (32 <= byte && byte <= 126)
}

fn hex_digit(n: u8) -> u8
    requires { n < 16 }
    ensures { result ≡ hex_digit n }
{
    if n < 10 { 48 + n } else { 87 + n }
}
