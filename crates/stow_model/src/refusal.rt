//! What the service does not do.
ghost use Rattle.std.specs.Prelude.{◌≡◌};
ghost use Rattle.stow_model.specs.Texts.{refusal_text};

/// Why a request is refused. The connection stays as it was.
#[derive(Clone, Copy, Debug, PartialEq, Eq)]
pub enum Refusal {
    NotAuthenticated,
    WrongPassword,
    UnknownCommand,
    WrongArgumentCount,
    SyntaxError,
    NotAnInteger,
    Overflow,
    KeyTooLong,
    ValueTooLong,
    TooManyKeys,
    TooManySnapshots,
    NoSuchSnapshot,
    QuotaExceeded,
    OutOfMemory,
    WriteNumbersUsedUp,
    QuotedInline,
}

/// The text that the client is told.
pub fn refusal_text(refusal: Refusal) -> &'static [u8]
    ensures { result.now ≡ refusal_text refusal }
{
    match refusal {
        Refusal::NotAuthenticated => b"NOAUTH Authentication required.",
        Refusal::WrongPassword => b"WRONGPASS invalid name or password",
        Refusal::UnknownCommand => b"ERR unknown command",
        Refusal::WrongArgumentCount => b"ERR wrong number of arguments",
        Refusal::SyntaxError => b"ERR syntax error",
        Refusal::NotAnInteger => b"ERR value is not an integer or out of range",
        Refusal::Overflow => b"ERR increment or decrement would overflow",
        Refusal::KeyTooLong => b"ERR key is too long",
        Refusal::ValueTooLong => b"ERR value is too long",
        Refusal::TooManyKeys => b"ERR too many keys",
        Refusal::TooManySnapshots => b"ERR too many snapshots",
        Refusal::NoSuchSnapshot => b"ERR no such snapshot",
        Refusal::QuotaExceeded => b"QUOTA byte quota exceeded",
        Refusal::OutOfMemory => b"OOM memory was refused",
        Refusal::WriteNumbersUsedUp => b"ERR write numbers are used up",
        Refusal::QuotedInline => b"ERR quotes in an inline request are not served",
    }
}
