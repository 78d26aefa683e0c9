//! What bytes may be.

ghost use Rattle.std.specs.Prelude.{◌≡◌};
ghost use Rattle.vg_text.specs.Byte.{is_white, is_printable, is_letter, is_digit, begins_digit, is_hex_digit, is_name, is_name_text, in_comment, is_pair};
ghost use Rattle.std.specs.List.{list_all};
ghost use Rattle.std.specs.Str.{bytes_eq};

/// Space, tab, CR or LF.
pub fn is_white(byte: u8) -> bool
    ensures { result ≡ is_white byte }
{
    byte == b' ' || byte == b'\t' || byte == b'\r' || byte == b'\n'
}

/// A byte of 0x21 to 0x7E.
pub fn is_printable(byte: u8) -> bool
    ensures { result ≡ is_printable byte }
{
    32 < byte && byte < 127
}

/// A letter or `_`.
pub fn is_letter(byte: u8) -> bool
    ensures { result ≡ is_letter byte }
{
    b'a' <= byte && byte <= b'z' || b'A' <= byte && byte <= b'Z' || byte == b'_'
}

/// A decimal digit.
pub fn is_digit(byte: u8) -> bool
    ensures { result ≡ is_digit byte }
{
    b'0' <= byte && byte <= b'9'
}

/// Whether a text begins with a decimal digit.
pub fn begins_digit(text: &[u8]) -> bool
    ensures { result ≡ begins_digit text.now }
{
    match text {
        [] => false,
        [first, ..] => is_digit(*first),
    }
}

/// A hexadecimal digit of either case.
pub fn is_hex_digit(byte: u8) -> bool
    ensures { result ≡ is_hex_digit byte }
{
    is_digit(byte) || b'a' <= byte && byte <= b'f' || b'A' <= byte && byte <= b'F'
}

/// A byte with which a name may go on.
pub fn is_name(byte: u8) -> bool
    ensures { result ≡ is_name byte }
{
    is_letter(byte) || is_digit(byte)
}

fn goes_on(bytes: &[u8]) -> bool
    ensures { result ≡ list_all is_name bytes.now }
{
    bytes.iter().all(|byte| is_name(*byte))
}

/// Whether two texts are the same bytes.
pub fn is_text(bytes: &[u8], text: &[u8]) -> bool
    ensures { result ≡ bytes_eq bytes.now text.now }
{
    bytes == text
}

/// A letter or `_`, then letters, digits and `_`, at most 64 bytes.
pub fn is_name_text(bytes: &[u8]) -> bool
    ensures { result ≡ is_name_text bytes.now }
{
    match bytes {
        [first, behind @ ..] => is_letter(*first) && goes_on(behind) && behind.len() <= 63,
        [] => false,
    }
}

/// A byte with which a comment goes on.
pub fn in_comment(byte: u8) -> bool
    ensures { result ≡ in_comment byte }
{
    byte != b'\n' && (is_white(byte) || is_printable(byte))
}

/// Whether two bytes are one sign.
pub fn is_pair(first: u8, second: u8) -> bool
    ensures { result ≡ is_pair first second }
{
    match (first, second) {
        (b':' | b'=' | b'!' | b'<' | b'>', b'=') => true,
        (b'<', b'<') => true,
        (b'>', b'>') => true,
        _ => false,
    }
}
