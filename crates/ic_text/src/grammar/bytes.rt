ghost use Rattle.std.specs.Prelude.{◌≡◌};
ghost use Rattle.ic_text.specs.Texts.{is_letter, is_name_byte};

/// Whether this is a byte with which a name begins: a small letter or `_`.
pub fn is_letter(byte: u8) -> bool
    ensures { result ≡ is_letter byte }
{
    byte.is_ascii_lowercase() || byte == b'_'
}

/// Whether this is a byte with which a name goes on: a small letter, `_` or a digit.
pub fn is_name_byte(byte: u8) -> bool
    ensures { result ≡ is_name_byte byte }
{
    is_letter(byte) || byte.is_ascii_digit()
}
