//! What streams hold, as text: a message as `M` and its words in brackets, a quoted line as `Q`, a blank as `B`, and at the
//! end `.` where more is waited for, `!` for no memory, or the text of a fault.
use std::alloc::{AllocError, Allocator};
use stow_model::message::Message;
use stow_model::reader::read_stream;
use stow_model::stream_fault::fault_text;
use stow_model::stream_read::StreamRead;
use stow_model::stream_rest::StreamRest;
use stow_model::words::Words;
use stow_resp::input::Input;
use stow_resp::next::Next;

/// Adds the words of a message.
fn push_words<A: Allocator, B: Allocator>(
    log: &mut Vec<u8, B>,
    words: &Words<A>,
) -> Result<(), AllocError> {
    log.push(b'M')?;
    for index in 0..words.len() {
        log.push(b'[')?;
        log.extend_from_slice(words.lent().get(index))?;
        log.push(b']')?;
    }
    Ok(())
}

/// Adds what an input gives next; whether it was a message.
fn push_next<A: Allocator, B: Allocator>(
    log: &mut Vec<u8, B>,
    next: Next<A>,
) -> Result<bool, AllocError> {
    match next {
        Next::Message(words) => push_words(log, &words)?,
        Next::Quoted => log.push(b'Q')?,
        Next::Blank => log.push(b'B')?,
        Next::More => {
            log.push(b'.')?;
            return Ok(false);
        }
        Next::Fault(fault) => {
            log.extend_from_slice(fault_text(fault))?;
            return Ok(false);
        }
        Next::NoMemory => {
            log.push(b'!')?;
            return Ok(false);
        }
    }
    Ok(true)
}

/// Adds all that an input gives. Answers how long the log was before what is no message.
pub(crate) fn tell<A: Allocator + Copy, B: Allocator>(
    input: &mut Input<A>,
    alloc: A,
    log: &mut Vec<u8, B>,
) -> Result<usize, AllocError> {
    for _ in 0..2_000u32 {
        let before = log.len();
        if !push_next(log, input.next(alloc))? {
            return Ok(before);
        }
    }
    Ok(log.len())
}

/// Feeds a piece, and adds all that is given then.
fn tell_piece<A: Allocator + Copy, B: Allocator>(
    input: &mut Input<A>,
    alloc: A,
    log: &mut Vec<u8, B>,
    piece: &[u8],
) -> Result<usize, AllocError> {
    input.feed(piece)?;
    tell(input, alloc, log)
}

/// Adds what is told in the end of bytes that come in pieces: a first one, and then pieces of one size.
fn tell_pieces<A: Allocator + Copy, B: Allocator>(
    input: &mut Input<A>,
    alloc: A,
    log: &mut Vec<u8, B>,
    (front, back, size): (&[u8], &[u8], usize),
) -> Result<(), AllocError> {
    let mut told = tell_piece(input, alloc, log, front)?;
    for piece in back.chunks(size.max(1)) {
        log.truncate(told);
        told = tell_piece(input, alloc, log, piece)?;
    }
    Ok(())
}

/// Whether bytes that come so are told this in the end.
pub(crate) fn is_told_in_pieces<A: Allocator + Copy>(
    alloc: A,
    bytes: &[u8],
    (first, size): (usize, usize),
    told: &[u8],
) -> Result<bool, AllocError> {
    let mut log = Vec::new(alloc);
    let (front, back) = bytes.split_at(first.min(bytes.len()));
    tell_pieces(&mut Input::new(alloc), alloc, &mut log, (front, back, size))?;
    Ok(log.as_slice() == told)
}

/// Whether the bytes are told so in one piece, cut in two at each place, and byte by byte.
pub(crate) fn is_told<A: Allocator + Copy>(
    alloc: A,
    bytes: &[u8],
    told: &[u8],
) -> Result<bool, AllocError> {
    for cut in 0..=bytes.len() {
        if !is_told_in_pieces(alloc, bytes, (cut, bytes.len()), told)? {
            return Ok(false);
        }
    }
    is_told_in_pieces(alloc, bytes, (0, 1), told)
}

/// Adds a message of the plain reader.
fn push_message<A: Allocator, B: Allocator>(
    log: &mut Vec<u8, B>,
    message: &Message<A>,
) -> Result<(), AllocError> {
    match message {
        Message::Words(words) => push_words(log, words)?,
        Message::Quoted => log.push(b'Q')?,
        Message::Blank => log.push(b'B')?,
    }
    Ok(())
}

/// Adds what the plain reader has read.
fn push_read<A: Allocator, B: Allocator>(
    log: &mut Vec<u8, B>,
    read: &StreamRead<A>,
) -> Result<(), AllocError> {
    for message in &read.messages {
        push_message(log, message)?;
    }
    match read.rest {
        StreamRest::Waits => log.push(b'.')?,
        StreamRest::Faulty(fault) => log.extend_from_slice(fault_text(fault))?,
    }
    Ok(())
}

/// What the plain reader tells of the bytes.
pub(crate) fn told_plainly<A: Allocator + Copy>(
    alloc: A,
    bytes: &[u8],
) -> Result<Vec<u8, A>, AllocError> {
    let mut log = Vec::new(alloc);
    push_read(&mut log, &read_stream(alloc, bytes)?)?;
    Ok(log)
}

/// Whether the plain reader tells this of the bytes, and leaves so many.
pub(crate) fn is_read<A: Allocator + Copy>(
    alloc: A,
    bytes: &[u8],
    told: &[u8],
    left: usize,
) -> Result<bool, AllocError> {
    let used = read_stream(alloc, bytes)?.used;
    Ok(told_plainly(alloc, bytes)?.as_slice() == told && bytes.len().saturating_sub(used) == left)
}

/// Adds what an input gives of the first bytes, of the last, and of more behind them.
fn tell_late<A: Allocator + Copy, B: Allocator>(
    input: &mut Input<A>,
    alloc: A,
    log: &mut Vec<u8, B>,
    (front, last): (&[u8], &[u8]),
) -> Result<(), AllocError> {
    tell_piece(input, alloc, log, front)?;
    tell_piece(input, alloc, log, last)?;
    tell_piece(input, alloc, log, b"*0\r\n")?;
    Ok(())
}

/// Whether the bytes are waited for without their last one, and with it are the fault of this text, which then stays.
pub(crate) fn is_fault<A: Allocator + Copy>(
    alloc: A,
    bytes: &[u8],
    fault: &[u8],
) -> Result<bool, AllocError> {
    let mut log = Vec::new(alloc);
    let parts = bytes.split_at(bytes.len().saturating_sub(1));
    tell_late(&mut Input::new(alloc), alloc, &mut log, parts)?;
    let (front, both) = log.split_at(1.min(log.len()));
    let (once, again) = both.split_at(fault.len().min(both.len()));
    Ok(front == b".".as_slice() && once == fault && again == fault)
}
