ghost use Rattle.std.specs.Prelude.{◌≡◌, ◌≤◌, length};
ghost use Rattle.std.specs.List.{prefix_len};
ghost use Rattle.al_lex.specs.Bytes.{is_space, is_blank, is_letter, is_digit, is_octal, is_hex, is_name_byte, is_in_line, is_file_byte, is_plain, digit_value};
ghost use Rattle.al_lex.specs.Scan.{class, first_is};

/// What a byte begins.
#[derive(Clone, Copy, Debug, PartialEq, Eq)]
pub(crate) enum ByteClass {
    Blank,
    Letter,
    Digit,
    Quote,
    Apostrophe,
    Hash,
    Slash,
    /// An operator other than those with a slash, or nothing.
    Other,
}

pub(crate) fn class_of(b: u8) -> ByteClass
    ensures { result ≡ class b }
{
    if is_blank(b) {
        ByteClass::Blank
    } else if is_letter(b) {
        ByteClass::Letter
    } else if b.is_ascii_digit() {
        ByteClass::Digit
    } else if b == b'"' {
        ByteClass::Quote
    } else if b == b'\'' {
        ByteClass::Apostrophe
    } else if b == b'#' {
        ByteClass::Hash
    } else if b == b'/' {
        ByteClass::Slash
    } else {
        ByteClass::Other
    }
}

/// Whether the byte is a blank within a line: a space, a tab, a carriage return or a form feed.
fn is_space(b: u8) -> bool
    ensures { result ≡ is_space b }
{
    b == b' ' || b == b'\t' || b == b'\r' || b == 12
}

fn is_blank(b: u8) -> bool
    ensures { result ≡ is_blank b }
{
    is_space(b) || b == b'\n'
}

fn is_letter(b: u8) -> bool
    ensures { result ≡ is_letter b }
{
    b.is_ascii_alphabetic() || b == b'_'
}

/// Whether a name goes on with the byte.
fn is_name_byte(b: u8) -> bool
    ensures { result ≡ is_name_byte b }
{
    is_letter(b) || b.is_ascii_digit()
}

fn is_octal(b: u8) -> bool
    ensures { result ≡ is_octal b }
{
    b >= b'0' && b <= b'7'
}

fn is_in_line(b: u8) -> bool
    ensures { result ≡ is_in_line b }
{
    b != b'\n'
}

/// Whether the byte may stand in the name of a skipped line.
fn is_file_byte(b: u8) -> bool
    ensures { result ≡ is_file_byte b }
{
    b != b'"' && is_in_line(b)
}

/// Whether the byte stands for itself in what ends with the byte `end`.
pub(crate) fn is_plain(end: u8, b: u8) -> bool
    ensures { result ≡ is_plain end b }
{
    b != end && b != b'\\' && is_in_line(b)
}

pub(crate) fn first_is(byte: u8, rest: &[u8]) -> bool
    ensures { result ≡ first_is byte rest.now }
{
    match rest {
        [first, ..] => *first == byte,
        [] => false,
    }
}

/// How many bytes from the front on are spaces.
pub(crate) fn spaces(rest: &[u8]) -> usize
    ensures value { result ≡ prefix_len is_space rest.now }
    ensures within { result ≤ length rest.now }
{
    rest.iter().take_while(|b| is_space(**b)).count()
}

/// How many bytes from the front on are decimal digits.
pub(crate) fn digits(rest: &[u8]) -> usize
    ensures value { result ≡ prefix_len is_digit rest.now }
    ensures within { result ≤ length rest.now }
{
    rest.iter().take_while(|b| b.is_ascii_digit()).count()
}

/// How many bytes from the front on are octal digits.
pub(crate) fn octal_digits(rest: &[u8]) -> usize
    ensures value { result ≡ prefix_len is_octal rest.now }
    ensures within { result ≤ length rest.now }
{
    rest.iter().take_while(|b| is_octal(**b)).count()
}

/// How many bytes from the front on are hexadecimal digits.
pub(crate) fn hex_digits(rest: &[u8]) -> usize
    ensures value { result ≡ prefix_len is_hex rest.now }
    ensures within { result ≤ length rest.now }
{
    rest.iter().take_while(|b| b.is_ascii_hexdigit()).count()
}

/// How many bytes from the front on are letters, digits and `_`.
pub(crate) fn name_bytes(rest: &[u8]) -> usize
    ensures value { result ≡ prefix_len is_name_byte rest.now }
    ensures within { result ≤ length rest.now }
{
    rest.iter().take_while(|b| is_name_byte(**b)).count()
}

/// How many bytes from the front on are of the same line.
pub(crate) fn line_bytes(rest: &[u8]) -> usize
    ensures value { result ≡ prefix_len is_in_line rest.now }
    ensures within { result ≤ length rest.now }
{
    rest.iter().take_while(|b| is_in_line(**b)).count()
}

/// How many bytes from the front on are such as may stand in the name of a skipped line.
pub(crate) fn file_bytes(rest: &[u8]) -> usize
    ensures value { result ≡ prefix_len is_file_byte rest.now }
    ensures within { result ≤ length rest.now }
{
    rest.iter().take_while(|b| is_file_byte(**b)).count()
}
