// What is wrong with a line.
ghost use Rattle.std.specs.Prelude.{◌≡◌};
ghost use Rattle.fd_lexer.specs.Cause.{number};

/// What is wrong with a line, in the order in which it is told.
#[derive(Clone, Copy, PartialEq, Eq)]
pub enum Cause {
    /// A byte that may not stand where it stands.
    BadByte,
    /// More than 4,096 bytes.
    LineTooLong,
    /// Bytes that are no token: an unknown byte, a text without its closing quote, an unknown dot word, a name of more
    /// than 31 bytes.
    BadToken,
    /// A number past 9,223,372,036,854,775,807.
    NumberTooLarge,
}

/// The number of a refusal.
pub fn cause_number(cause: Cause) -> u8
    ensures { result ≡ number cause }
{
    match cause {
        Cause::BadByte => 1,
        Cause::LineTooLong => 2,
        Cause::BadToken => 3,
        Cause::NumberTooLarge => 4,
    }
}
