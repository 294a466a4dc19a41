// Numbers as decimal digits.
ghost use Rattle.std.specs.Prelude.{◌≡◌, ◌++◌, ◌^◌, ◌≤◌, length, nat_lt, if◌then◌else◌, Some, None, OnOk};
ghost use Rattle.std.specs.List.{prefix_len};
ghost use Rattle.std.specs.Fmt.{decimal, signed_decimal};
ghost use Rattle.fd_base.specs.Digits as of;
ghost use Rattle.fd_base.specs.Digits.{decimal_value};

use crate::Memory;
use crate::lists::ListOf;
use itoa::Buffer;

/// Whether a byte is one of `0` to `9`.
pub fn is_digit(b: u8) -> bool
    ensures { result ≡ of.is_digit b }
{
    b'0' <= b && b <= b'9'
}

/// How many digits the bytes begin with.
pub fn digits_len(bytes: &[u8]) -> usize
    ensures value { result ≡ prefix_len of.is_digit bytes.now }
    ensures within { result ≤ length bytes.now }
{
    bytes.iter().take_while(|b| is_digit(**b)).count()
}

/// The number that digits stand for, where it is below 2^64.
pub fn decimal_number(digits: &[u8]) -> Option<u64>
    ensures { result ≡ (if nat_lt (decimal_value digits.now) (2 ^ 64) then Some (decimal_value digits.now) else None) }
{
    let mut value: u64 = 0;
    for b in digits {
        let digit = u64::from(b.saturating_sub(b'0'));
        if value > (u64::MAX - digit) / 10 {
            return None;
        }
        value = 10 * value + digit;
    }
    Some(value)
}

impl ListOf<u8> {
    /// Puts the digits of a number behind the other bytes.
    pub fn append_number(&mut self, number: u64) -> Result<(), Memory>
        ensures { OnOk result (self.new ≡ self.old ++ decimal number) }
    {
        let mut buffer = Buffer::new();
        self.append(buffer.format(number).as_bytes())
    }

    /// The same, with a sign before the digits of a number below 0.
    pub fn append_signed(&mut self, number: i64) -> Result<(), Memory>
        ensures { OnOk result (self.new ≡ self.old ++ signed_decimal number) }
    {
        let mut buffer = Buffer::new();
        self.append(buffer.format(number).as_bytes())
    }
}
