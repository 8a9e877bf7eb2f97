ghost use Rattle.std.specs.Prelude.{◌≡◌};
ghost use Rattle.ci_pieces.specs.Bytes as spec;

use crate::PieceKind;

pub fn is_blank(byte: u8) -> bool
    ensures { result ≡ spec.is_blank byte }
{
    byte == b' ' || byte == b'\t'
}

pub fn is_quote(byte: u8) -> bool
    ensures { result ≡ spec.is_quote byte }
{
    byte == b'"'
}

/// The sign that a byte is by itself.
pub fn sign_kind(byte: u8) -> Option<PieceKind>
    ensures { result ≡ spec.sign_kind byte }
{
    match byte {
        b'(' => Some(PieceKind::Open),
        b')' => Some(PieceKind::Close),
        b'&' => Some(PieceKind::And),
        b'|' => Some(PieceKind::Or),
        b'!' => Some(PieceKind::Not),
        b'~' => Some(PieceKind::Near),
        _ => None,
    }
}

/// Whether a run ends before this byte.
pub fn is_end(byte: u8) -> bool
    ensures { result ≡ spec.is_end byte }
{
    is_blank(byte)
        || byte == b'('
        || byte == b')'
        || byte == b'&'
        || byte == b'|'
        || byte == b'!'
        || byte == b'~'
        || is_quote(byte)
}

pub fn is_name(byte: u8) -> bool
    ensures { result ≡ spec.is_name byte }
{
    (byte >= b'0' && byte <= b'9')
        || (byte >= b'A' && byte <= b'Z')
        || (byte >= b'a' && byte <= b'z')
}
