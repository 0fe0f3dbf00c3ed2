//! Classes of bytes: letters, digits, blanks (Go specification, "Characters", "Letters and
//! digits").

ghost use Rattle.std.specs.Prelude.{◌≡◌};
ghost use Rattle.golf_lex_tokens.specs.Bytes as bytes_spec;

// Returns whether a byte is a letter, as Go counts `_` among them.
pub(crate) fn is_letter(byte: u8) -> bool
    ensures { result ≡ bytes_spec.is_letter byte }
{
    (byte >= b'A' && byte <= b'Z') || (byte >= b'a' && byte <= b'z') || byte == b'_'
}

// Returns whether a byte is a decimal digit.
pub(crate) fn is_digit(byte: u8) -> bool
    ensures { result ≡ bytes_spec.is_digit byte }
{
    byte >= b'0' && byte <= b'9'
}

// Returns whether a byte may stand in a word behind its first byte.
pub(crate) fn is_word_byte(byte: u8) -> bool
    ensures { result ≡ bytes_spec.is_word_byte byte }
{
    is_letter(byte) || is_digit(byte)
}

// Returns whether a byte is white space.
pub(crate) fn is_blank(byte: u8) -> bool
    ensures { result ≡ bytes_spec.is_blank byte }
{
    byte == b' ' || byte == b'\t' || byte == b'\r' || byte == b'\n'
}

// Returns whether a byte stands for itself in a string literal.
pub(crate) fn is_ordinary(byte: u8) -> bool
    ensures { result ≡ bytes_spec.is_ordinary byte }
{
    !(byte == 0 || byte == b'\n' || byte == b'"' || byte == b'\\')
}

// Counts the ends of lines.
pub(crate) fn newlines(bytes: &[u8]) -> usize
    ensures { result ≡ bytes_spec.newlines bytes.now }
{
    bytes.iter().filter(|b| **b == b'\n').count()
}
