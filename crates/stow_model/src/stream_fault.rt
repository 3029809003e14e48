//! Why a stream can't go on.
ghost use Rattle.std.specs.Prelude.{◌≡◌};
ghost use Rattle.stow_model.specs.Texts.{fault_text};

/// What is wrong at the first byte after which a stream can become no message. It is told once, and
/// then the connection is closed.
#[derive(Clone, Copy, Debug, PartialEq, Eq)]
pub enum StreamFault {
    InvalidArrayLength,
    ExpectedBulk,
    InvalidBulkLength,
    BulkNotEnded,
    InlineTooLong,
}

/// The text that the client is told, after `-ERR Protocol error: `.
pub fn fault_text(fault: StreamFault) -> &'static [u8]
    ensures { result.now ≡ fault_text fault }
{
    match fault {
        StreamFault::InvalidArrayLength => b"invalid multibulk length",
        StreamFault::ExpectedBulk => b"expected '$'",
        StreamFault::InvalidBulkLength => b"invalid bulk length",
        StreamFault::BulkNotEnded => b"bulk not ended by CRLF",
        StreamFault::InlineTooLong => b"inline request too long",
    }
}
