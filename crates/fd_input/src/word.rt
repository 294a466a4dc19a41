// The number that a word is.
ghost use Rattle.std.specs.Prelude.{◌≡◌, ◌≤◌, ◌+◌, IfErr, if◌then◌else◌, Some, None, length};
ghost use Rattle.fd_base.specs.Numbers.{fits_i64};
ghost use Rattle.fd_base.specs.Digits.{decimal_value};
ghost use Rattle.fd_input.specs.Numbers.{signed_value, number_behind, word_number};

use fd_base::{decimal_number, digits_len};

/// The number that a word is, or how far its first bad byte is from its beginning.
pub fn word_value(word: &[u8]) -> Result<i64, usize>
    ensures value { result ≡ word_number word.now }
    ensures within { IfErr result (λ k. k ≤ length word.now) }
{
    let Some(first) = word.first() else {
        return Err(0);
    };
    if *first == b'-' {
        value_behind(1, true, &word[1..])
    } else if *first == b'+' {
        value_behind(1, false, &word[1..])
    } else {
        value_behind(0, false, word)
    }
}

// The number of a word whose sign was taken.
fn value_behind(sign: usize, negative: bool, rest: &[u8]) -> Result<i64, usize>
    requires { sign ≤ 1 }
    ensures value { result ≡ number_behind sign negative rest.now }
    ensures within { IfErr result (λ k. k ≤ sign + length rest.now) }
{
    let count = digits_len(rest);
    if count == 0 {
        return Err(0);
    }
    match number_of(negative, &rest[..count]) {
        None => Err(0),
        Some(number) => {
            if count == rest.len() {
                Ok(number)
            } else {
                Err(sign + count)
            }
        }
    }
}

// The number of digits behind a sign, where it is within 64 bits.
fn number_of(negative: bool, digits: &[u8]) -> Option<i64>
    ensures { result ≡ (if fits_i64 (signed_value negative (decimal_value digits.now)) then Some (signed_value negative (decimal_value digits.now)) else None) }
{
    let value = i128::from(decimal_number(digits)?);
    let signed = if negative { -value } else { value };
    i64::try_from(signed).ok()
}
