//! How bytes are shown and compared.

use std::alloc::{AllocError, Global};

/// Bytes in quotes, as a row writes them.
fn shown(alloc: Global, bytes: &[u8]) -> Result<String, AllocError> {
    let mut text = String::from_str(alloc, "\"")?;
    for byte in bytes {
        match byte {
            b'\n' => text.push_str("\\n")?,
            b'\\' => text.push_str("\\\\")?,
            b' '..=b'~' => text.push(*byte as char)?,
            _ => write!(text, "\\x{byte:02x}")?,
        }
    }
    text.push('"')?;
    Ok(text)
}

/// What came out, in quotes as a row writes it, where it isn't what the row wants; nothing where it is.
pub fn difference(alloc: Global, came: &[u8], wanted: &[u8]) -> Result<String, AllocError> {
    if came == wanted {
        return Ok(String::new(alloc));
    }
    shown(alloc, came)
}
