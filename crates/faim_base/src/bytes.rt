// The classes of bytes.
ghost use Rattle.std.specs.Prelude.{◌≡◌};
ghost use Rattle.std.specs.List.{list_all};
ghost use Rattle.faim_base.specs.Text.{is_text_byte, is_name_byte, is_digit};

/// True exactly where the byte is a text byte: a printable byte of ASCII but `*`, `{` and `}` (docs/FORMATS.md, "Bytes").
pub fn is_text_byte(b: u8) -> bool
    ensures { result ≡ is_text_byte b }
{
    32 <= b && b <= 126 && b != b'*' && b != b'{' && b != b'}'
}

/// True exactly where each byte is a text byte; so it is where there is none.
pub fn are_text(bytes: &[u8]) -> bool
    ensures { result ≡ list_all is_text_byte bytes.now }
{
    bytes.iter().all(|b| is_text_byte(*b))
}

/// True exactly where the byte is one of `0` to `9`.
pub fn is_digit(b: u8) -> bool
    ensures { result ≡ is_digit b }
{
    b.is_ascii_digit()
}

/// True exactly where each byte is a digit; so it is where there is none.
pub fn are_digits(bytes: &[u8]) -> bool
    ensures { result ≡ list_all is_digit bytes.now }
{
    bytes.iter().all(|b| is_digit(*b))
}

/// True exactly where the byte is a text byte and no blank, as each byte of an endpoint is (docs/FORMATS.md, "Bytes").
pub fn is_name_byte(b: u8) -> bool
    ensures { result ≡ is_name_byte b }
{
    is_text_byte(b) && b != b' '
}
