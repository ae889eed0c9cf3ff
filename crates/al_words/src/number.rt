ghost use Rattle.std.specs.Prelude.{◌≡◌, ◌≤◌, ◌+◌, ◌*◌, ◌^◌, IfSome, IsTrue, length};
ghost use Rattle.std.specs.List.{list_all};
ghost use Rattle.std.specs.Char.{is_ascii_digit};
ghost use Rattle.al_words.specs.Job as spec;

/// The number that 1 to 10 decimal digits spell, where it is from `least` to `most`.
pub fn number_in(least: u64, most: u64, text: &str) -> Option<u64>
    ensures value { result ≡ spec.number_in least most text.now }
    ensures bound { IfSome result (λ n. n ≤ most) }
{
    let digits = text.as_bytes();
    if !is_number(digits) {
        return None;
    }
    let value = spelled(0, digits);
    if least <= value && value <= most {
        Some(value)
    } else {
        None
    }
}

fn is_number(text: &[u8]) -> bool
    ensures { result ≡ spec.is_number text.now }
{
    if text.is_empty() || 10 < text.len() {
        return false;
    }
    all_digits(text)
}

fn all_digits(text: &[u8]) -> bool
    ensures { result ≡ list_all is_ascii_digit text.now }
{
    text.iter().all(|b| b.is_ascii_digit())
}

/// At most ten digits, so that the number stays far below 2^64.
fn spelled(value: u64, digits: &[u8]) -> u64
    requires digits { IsTrue (list_all is_ascii_digit digits.now) }
    requires room { (value + 1) * 10 ^ length digits.now ≤ 10 ^ 10 }
    ensures { result ≡ spec.spelled value digits.now }
{
    match digits.split_first() {
        None => value,
        Some((digit, rest)) => spelled(10 * value + (*digit - b'0') as u64, rest),
    }
}
