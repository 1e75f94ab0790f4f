//! Bytes as the text of an HTML element.

ghost use Rattle.std.specs.Prelude.{◌≡◌, IfErr};
ghost use Rattle.cw_report.specs.Escaping.{escaped, escaped_byte, is_shown, is_special, reference};
ghost use Rattle.cw_report.specs.Texts.{Grows};

use cw_text::Fault;
use itoa::Buffer;

/// Appends a text to a page: ASCII, with one character for each byte.
///
/// # Errors
///
/// `Fault::Memory` if memory runs out.
pub fn push_escaped(page: &mut Vec<u8>, text: &[u8]) -> Result<(), Fault>
    ensures ok { Grows page.old page.new (escaped text.now) result }
    ensures why { IfErr result (λ e. e ≡ Fault.Memory) }
{
    for byte in text {
        push_byte(page, *byte)?;
    }
    Ok(())
}

// Appends a byte.
fn push_byte(page: &mut Vec<u8>, byte: u8) -> Result<(), Fault>
    ensures ok { Grows page.old page.new (escaped_byte byte) result }
    ensures why { IfErr result (λ e. e ≡ Fault.Memory) }
{
    if is_special(byte) {
        return push_reference(page, u32::from(byte));
    }
    if is_shown(byte) {
        page.push(byte)?;
        return Ok(());
    }
    if byte < 32 {
        return push_reference(page, 9216 + u32::from(byte));
    }
    if byte == 127 {
        return push_reference(page, 9249);
    }
    push_reference(page, 65533)
}

// Returns whether a byte is written as a reference to itself.
fn is_special(byte: u8) -> bool
    ensures { result ≡ is_special byte }
{
    byte == b'&' || byte == b'<' || byte == b'>' || byte == b'"' || byte == b'\'' || byte == b'\r'
}

// Returns whether a byte that is not special is written as it is.
fn is_shown(byte: u8) -> bool
    ensures { result ≡ is_shown byte }
{
    byte == b'\t' || byte == b'\n' || (32 <= byte && byte <= 126)
}

// Appends the reference to a character.
fn push_reference(page: &mut Vec<u8>, character: u32) -> Result<(), Fault>
    ensures ok { Grows page.old page.new (reference character) result }
    ensures why { IfErr result (λ e. e ≡ Fault.Memory) }
{
    let mut buffer = Buffer::new();
    page.extend_from_slice(b"&#")?;
    page.extend_from_slice(buffer.format(character).as_bytes())?;
    page.extend_from_slice(b";")?;
    Ok(())
}
