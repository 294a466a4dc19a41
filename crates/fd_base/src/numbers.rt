// Arithmetic on 64-bit signed integers, each operation with its faults, and the iteration count of a DO.
ghost use Rattle.std.specs.Prelude.{◌≡◌, ◌+ℤ◌, ◌-ℤ◌, ◌*ℤ◌, neg_ℤ, pos, unsigned_abs, int_div, ◌≢◌, ◌<◌, ◌^◌};
ghost use Rattle.fd_base.specs.Numbers.{exact, exact_quotient, exact_remainder, exact_trip_count};

/// What ends a run before its end.
#[derive(Clone, Copy, PartialEq, Eq)]
pub enum FaultKind {
    /// A result outside 64 bits.
    Overflow,
    /// A division or MOD by 0.
    ZeroDivide,
    /// A subscript outside its declared bounds.
    Bounds,
    /// A DO step of 0.
    ZeroStep,
    /// A READ with no number left.
    EndOfInput,
    /// The first step past the limit.
    StepLimit,
}

/// The sum, or Overflow exactly where it is outside 64 bits.
pub fn add(a: i64, b: i64) -> Result<i64, FaultKind>
    ensures { result ≡ exact (a +ℤ b) }
{
    a.checked_add(b).ok_or(FaultKind::Overflow)
}

/// The difference, or Overflow exactly where it is outside 64 bits.
pub fn sub(a: i64, b: i64) -> Result<i64, FaultKind>
    ensures { result ≡ exact (a -ℤ b) }
{
    a.checked_sub(b).ok_or(FaultKind::Overflow)
}

/// The product, or Overflow exactly where it is outside 64 bits.
pub fn mul(a: i64, b: i64) -> Result<i64, FaultKind>
    ensures { result ≡ exact (a *ℤ b) }
{
    a.checked_mul(b).ok_or(FaultKind::Overflow)
}

/// The number with its sign turned, or Overflow exactly where it is outside 64 bits.
pub fn neg(a: i64) -> Result<i64, FaultKind>
    ensures { result ≡ exact (neg_ℤ a) }
{
    a.checked_neg().ok_or(FaultKind::Overflow)
}

/// The quotient rounded toward zero; ZeroDivide exactly where the divisor is 0, Overflow exactly where the quotient is outside 64 bits.
pub fn div(a: i64, b: i64) -> Result<i64, FaultKind>
    ensures { result ≡ exact_quotient a b }
{
    if b == 0 {
        return Err(FaultKind::ZeroDivide);
    }
    a.checked_div(b).ok_or(FaultKind::Overflow)
}

/// MOD(a, b), which has the sign of `a`; ZeroDivide exactly where the divisor is 0. The remainder by -1 is 0 for every `a`.
pub fn rem(a: i64, b: i64) -> Result<i64, FaultKind>
    ensures { result ≡ exact_remainder a b }
{
    if b == 0 {
        return Err(FaultKind::ZeroDivide);
    }
    Ok(a.wrapping_rem(b))
}

/// The absolute value, or Overflow exactly where it is outside 64 bits.
pub fn abs(a: i64) -> Result<i64, FaultKind>
    ensures { result ≡ exact (pos (unsigned_abs a)) }
{
    a.checked_abs().ok_or(FaultKind::Overflow)
}

/// How often a DO from `first` to `last` by `step` iterates, exact in 128 bits; ZeroStep exactly where the step is 0.
pub fn trip_count(first: i64, last: i64, step: i64) -> Result<u128, FaultKind>
    ensures { result ≡ exact_trip_count first last step }
{
    if step == 0 {
        return Err(FaultKind::ZeroStep);
    }
    let quotient = whole_quotient(span(first, last, step), i128::from(step));
    Ok(u128::try_from(quotient).unwrap_or(0))
}

/// The way from `first` one step past `last`.
fn span(first: i64, last: i64, step: i64) -> i128
    ensures { result ≡ last -ℤ first +ℤ step }
{
    i128::from(last) - i128::from(first) + i128::from(step)
}

/// The quotient rounded toward zero, of a number far inside 128 bits.
fn whole_quotient(a: i128, b: i128) -> i128
    requires divisor { b ≢ pos 0 }
    requires small { unsigned_abs a < 2 ^ 66 }
    ensures { result ≡ int_div a b }
{
    a / b
}
