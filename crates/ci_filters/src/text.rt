// The text of a file's bytes.
ghost use Rattle.std.specs.Prelude.{◌≡◌, ◌≤◌, IfSome, IsUtf8, length, take, option_map};
ghost use Rattle.ci_filters.specs.Texts.{text_of};

use crate::format::FILE_BYTES;
use ci_base::{Text, Text8};

/// The bytes as a text, without a copy. None: they aren't UTF-8.
pub(crate) fn text_of(bytes: Text8) -> Option<Text>
    ensures { result ≡ text_of bytes }
{
    let count = text_bytes(bytes.items())?;
    let mut bytes = bytes.into_vec();
    bytes.truncate(count);
    match String::from_utf8(bytes) {
        Ok(text) => Some(Text::from(text)),
        Err(_) => unreachable!(),
    }
}

// How many of the bytes are the text.
fn text_bytes(bytes: &[u8]) -> Option<usize>
    ensures text { option_map (λ count. take count bytes.now) result ≡ text_of bytes.now }
    ensures utf8 { IfSome result (λ count. IsUtf8 (take count bytes.now)) }
{
    match str::from_utf8(bytes) {
        Ok(_) => Some(bytes.len()),
        Err(fault) => {
            if bytes.len() == FILE_BYTES && fault.error_len().is_none() {
                Some(fault.valid_up_to())
            } else {
                None
            }
        }
    }
}
