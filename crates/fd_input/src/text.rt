// The numbers of an input.
ghost use Rattle.std.specs.Prelude.{◌≡◌, ◌+◌, ◌^◌, ◌<◌, ◌≤◌, ◌-◌, ℕ, length, IfOk, IfErr};
ghost use Rattle.std.specs.List.{position_or_len};
ghost use Rattle.fd_input.specs.Bad.{IsBadAt, IsToldBad};
ghost use Rattle.fd_input.specs.Text.{is_white, input_numbers, part_numbers, IsRead, IsTaken};

use crate::InputRefusal;
use crate::word::word_value;
use fd_base::NumList;
use std::alloc::Global;

/// The numbers of an input, which white space separates, or the offset of its first bad byte.
pub fn read_input(alloc: Global, bytes: &[u8]) -> Result<NumList, InputRefusal>
    requires { length bytes.now < 2 ^ 32 - 1 }
    ensures numbers { IsRead (input_numbers bytes.now) result }
    ensures bad { IfErr result (IsToldBad bytes.now) }
    ensures good { IfOk result (λ _. (k : ℕ) → IsBadAt bytes.now k → ⊥) }
{
    let mut numbers = NumList::new(alloc);
    let mut at = 0;
    loop {
        let (_, rest) = bytes.split_at(at);
        let count = word_len(rest);
        let (word, _) = rest.split_at(count);
        take_part(word, at, &mut numbers)?;
        if count == rest.len() {
            return Ok(numbers);
        }
        at += count + 1;
    }
}

// Puts the number of a word, which begins at the offset, behind the others. A part without bytes is no word.
fn take_part(word: &[u8], at: usize, numbers: &mut NumList) -> Result<(), InputRefusal>
    requires { at + length word.now < 2 ^ 32 }
    ensures { IsTaken (part_numbers at word.now) numbers.old numbers.new result }
{
    if word.is_empty() {
        return Ok(());
    }
    match word_value(word) {
        Ok(number) => {
            numbers.push(number)?;
            Ok(())
        }
        Err(bad) => Err(InputRefusal::Bad((at + bad) as u32)),
    }
}

// How many bytes come before the first white one.
fn word_len(bytes: &[u8]) -> usize
    ensures len { result ≡ position_or_len is_white bytes.now }
    ensures within { result ≤ length bytes.now }
{
    bytes
        .iter()
        .take_while(|b| !(**b == b' ' || **b == b'\t' || **b == b'\n' || **b == b'\r'))
        .count()
}
