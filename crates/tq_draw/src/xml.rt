// Texts in XML and HTML.

ghost use Rattle.std.specs.Prelude.{◌≡◌, ◌++◌, OnOk, decimal};
ghost use Rattle.tq_draw.specs.Xml.{xml_byte, xml_text};

use itoa::Buffer;
use std::alloc::AllocError;

fn push_xml_byte(text: &mut Vec<u8>, byte: u8) -> Result<(), AllocError>
    ensures { OnOk result (text.new.items ≡ text.old.items ++ xml_byte byte) }
{
    if byte == b'&' {
        return text.extend_from_slice(b"&amp;");
    }
    if byte == b'<' {
        return text.extend_from_slice(b"&lt;");
    }
    if byte == b'>' {
        return text.extend_from_slice(b"&gt;");
    }
    text.push(byte)?;
    Ok(())
}

/// Appends the bytes as a text.
pub(crate) fn push_xml(text: &mut Vec<u8>, bytes: &[u8]) -> Result<(), AllocError>
    ensures { OnOk result (text.new.items ≡ text.old.items ++ xml_text bytes.now) }
{
    'bytes: for byte in bytes {
        push_xml_byte(text, *byte)?;
    }
    Ok(())
}

/// Appends a number in decimal.
pub(crate) fn push_number(text: &mut Vec<u8>, number: u128) -> Result<(), AllocError>
    ensures { OnOk result (text.new.items ≡ text.old.items ++ decimal number) }
{
    text.extend_from_slice(Buffer::new().format(number).as_bytes())
}
