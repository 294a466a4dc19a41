// The kinds of bytes.
ghost use Rattle.std.specs.Prelude.{◌≡◌};
ghost use Rattle.fd_lexer.specs.Bytes as of;

use fd_base::is_digit;

pub fn is_blank(b: u8) -> bool
    ensures { result ≡ of.is_blank b }
{
    b == b' ' || b == b'\t'
}

pub fn is_letter(b: u8) -> bool
    ensures { result ≡ of.is_letter b }
{
    (b'A' <= b && b <= b'Z') || (b'a' <= b && b <= b'z')
}

pub fn is_name_byte(b: u8) -> bool
    ensures { result ≡ of.is_name_byte b }
{
    is_letter(b) || is_digit(b) || b == b'_'
}

pub fn is_plain(b: u8) -> bool
    ensures { result ≡ of.is_plain b }
{
    (b' ' <= b && b <= b'~') || b == b'\t'
}

pub fn is_quotable(b: u8) -> bool
    ensures { result ≡ of.is_quotable b }
{
    b' ' <= b && b != 127
}
