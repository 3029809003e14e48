//! Each request for memory refused in turn, and what asks for none.
use crate::resp::replies::pair;
use crate::resp::telling::tell;
use std::alloc::{AllocError, Allocator, Global};
use std::test::Fail;
use stow_model::reply::Reply;
use stow_refusing::{Plan, Refusing};
use stow_resp::encode::Encode;
use stow_resp::input::Input;
use stow_resp::next::Next;

/// Two pieces, between which a message is asked for, a last one, and what is told of them.
#[derive(Clone, Copy)]
struct Case {
    front: &'static [u8],
    back: &'static [u8],
    last: &'static [u8],
    told: &'static [u8],
}

/// Feeds the first two pieces.
fn feed<A: Allocator + Copy>(
    input: &mut Input<A>,
    alloc: A,
    front: &[u8],
    back: &[u8],
) -> Result<(), AllocError> {
    input.feed(front)?;
    input.next(alloc);
    input.feed(back)
}

/// Whether an input gives this.
fn gives<A: Allocator + Copy>(
    input: &mut Input<A>,
    (alloc, global): (A, Global),
    told: &[u8],
) -> Result<bool, AllocError> {
    let mut log = Vec::new(global);
    tell(input, alloc, &mut log)?;
    Ok(log.as_slice() == told)
}

/// Whether the last piece isn't fed, or where it is empty, no message is given for want of memory.
fn is_refused<A: Allocator + Copy>(input: &mut Input<A>, alloc: A, last: &[u8]) -> bool {
    if last.is_empty() {
        matches!(input.next(alloc), Next::NoMemory)
    } else {
        input.feed(last).is_err()
    }
}

/// Whether a call that this request for memory is refused to tells that, and then gives all; `None` where it asks for fewer.
fn withstands<A: Allocator + Copy, B: Allocator>(
    heap: &Refusing<B>,
    input: &mut Input<A>,
    (alloc, global): (A, Global),
    (case, at): (&Case, u64),
) -> Result<Option<bool>, AllocError> {
    let is_free = heap.asked() == 0;
    heap.set(Plan::Grant);
    feed(input, alloc, case.front, case.back)?;
    heap.set(Plan::RefuseAt(at));
    let is_refused = is_refused(input, alloc, case.last);
    if heap.asked() <= at {
        return Ok(None);
    }
    heap.set(Plan::Grant);
    input.feed(case.last)?;
    Ok(Some(is_free && is_refused && gives(input, (alloc, global), case.told)?))
}

/// How many requests for memory a call makes, if it withstands the refusal of each. A new input makes none.
fn refusals<A: Allocator + Copy, B: Allocator>(
    heap: &Refusing<B>,
    (alloc, global): (A, Global),
    case: &Case,
) -> Result<u64, AllocError> {
    for at in 0..100u64 {
        heap.set(Plan::RefuseAll);
        let stood = withstands(heap, &mut Input::new(alloc), (alloc, global), (case, at))?;
        match stood {
            None => return Ok(at),
            Some(true) => {}
            Some(false) => return Ok(0),
        }
    }
    Ok(0)
}

const ARRAY: Case = Case {
    front: b"",
    back: b"*2\r\n$3\r\nGET\r\n$1\r\nk\r\n*0\r\n*",
    last: b"",
    told: b"M[GET][k]B.",
};

const LINE: Case = Case {
    front: b"SET k ",
    back: b" v\r\n\n'\n*",
    last: b"",
    told: b"M[SET][k][v]BQ.",
};

const PIECE: Case = Case {
    front: b"*1\r\n",
    back: b"$4\r\n",
    last: b"PING\r\n",
    told: b"M[PING].",
};

#[test]
fn calls_withstand_each_refusal(rt: HostRuntime) -> Result<(), Fail> {
    let heap = Refusing::new(rt.alloc());
    for (case, least) in [(ARRAY, 2), (LINE, 2), (PIECE, 1)] {
        let asked = refusals(&heap, (&heap, rt.alloc()), &case)?;
        assert!(rt; asked >= least, "{asked}");
    }
    Ok(())
}

/// Pieces of which nothing but words takes memory, and what is told of them: blanks, quoted lines, and faults.
const WITHOUT_WORDS: [Case; 3] = [
    Case {
        front: b"*0\r\n",
        back: b"*-1\r\n*2\r\n$3\r\nGET\r\n",
        last: b"",
        told: b"B.",
    },
    Case {
        front: b"*2\r\n$3\r\nGET\r\n",
        back: b"X",
        last: b"",
        told: b"expected '$'",
    },
    Case {
        front: b"\n \t",
        back: b"\r\n a'\n\"b\nPI",
        last: b"",
        told: b"BQQ.",
    },
];

/// Whether an input that was fed two pieces tells this with every request for memory refused, and asks for none.
fn is_told_without_memory<A: Allocator + Copy, B: Allocator>(
    heap: &Refusing<B>,
    input: &mut Input<A>,
    (alloc, global): (A, Global),
    (front, back, told): (&[u8], &[u8], &[u8]),
) -> Result<bool, AllocError> {
    heap.set(Plan::Grant);
    feed(input, alloc, front, back)?;
    heap.set(Plan::RefuseAll);
    Ok(gives(input, (alloc, global), told)? && heap.asked() == 0)
}

/// Whether nothing but words takes memory, of these pieces and of a line that is too long.
fn only_words<A: Allocator + Copy, B: Allocator>(
    heap: &Refusing<B>,
    (alloc, global): (A, Global),
    long: &[u8],
) -> Result<bool, AllocError> {
    for case in &WITHOUT_WORDS {
        let pieces = (case.front, case.back, case.told);
        let input = &mut Input::new(alloc);
        if !is_told_without_memory(heap, input, (alloc, global), pieces)? {
            return Ok(false);
        }
    }
    let pieces = (b" ".as_slice(), long, b"inline request too long".as_slice());
    is_told_without_memory(heap, &mut Input::new(alloc), (alloc, global), pieces)
}

/// Takes a message off, and gives its words back.
fn use_words<A: Allocator + Copy>(input: &mut Input<A>, alloc: A) {
    if let Next::Message(words) = input.next(alloc) {
        input.reuse(words);
    }
}

/// Whether the words `DEL` and `l` are next.
fn is_deletion<A: Allocator + Copy>(input: &mut Input<A>, alloc: A) -> bool {
    match input.next(alloc) {
        Next::Message(words) => matches!(words.lent().two(), Some((b"DEL", b"l"))),
        _ => false,
    }
}

/// Whether a message whose words are filled into used ones takes no memory.
fn are_filled_again<A: Allocator + Copy, B: Allocator>(
    heap: &Refusing<B>,
    input: &mut Input<A>,
    alloc: A,
) -> Result<bool, AllocError> {
    heap.set(Plan::Grant);
    input.feed(b"*2\r\n$3\r\nGET\r\n$1\r\nk\r\n*2\r\n$3\r\nDEL\r\n$1\r\nl\r\n")?;
    use_words(input, alloc);
    heap.set(Plan::RefuseAll);
    Ok(is_deletion(input, alloc) && heap.asked() == 0)
}

/// Whether nothing but words takes memory, and not where used ones are filled again.
fn is_little_asked<A: Allocator + Copy, B: Allocator>(
    heap: &Refusing<B>,
    (alloc, global): (A, Global),
) -> Result<bool, AllocError> {
    let long = vec![in global; b' '; 65_537]?;
    Ok(
        only_words(heap, (alloc, global), long.as_slice())?
            && are_filled_again(heap, &mut Input::new(alloc), alloc)?,
    )
}

// Used words are filled again: the next message takes no memory, unless it needs more than they have.
#[test]
fn only_new_words_take_memory(rt: HostRuntime) -> Result<(), Fail> {
    let heap = Refusing::new(rt.alloc());
    assert!(rt; is_little_asked(&heap, (&heap, rt.alloc()))?);
    Ok(())
}

/// Whether a reply that this request for memory is refused to is not written, and is later; `None` where it asks for fewer.
fn write_withstands<A: Allocator + Copy, B: Allocator>(
    heap: &Refusing<B>,
    out: &mut Vec<u8, A>,
    reply: &Reply<Global>,
    at: u64,
) -> Option<bool> {
    heap.set(Plan::RefuseAt(at));
    let is_written = reply.write(out).is_ok();
    if heap.asked() <= at {
        return None;
    }
    let stood = !is_written && out.as_slice() == b"+OK\r\n".as_slice();
    heap.set(Plan::Grant);
    let is_written_now = reply.write(out).is_ok();
    let want = b"+OK\r\n*2\r\n$1\r\na\r\n:7\r\n".as_slice();
    Some(stood && is_written_now && out.as_slice() == want)
}

/// How many requests for memory the writing of a reply makes, if it withstands the refusal of each.
fn write_refusals<A: Allocator + Copy, B: Allocator>(
    heap: &Refusing<B>,
    alloc: A,
    reply: &Reply<Global>,
) -> Result<u64, AllocError> {
    for at in 0..100u64 {
        heap.set(Plan::Grant);
        let stood = write_withstands(heap, &mut Vec::from_slice(alloc, b"+OK\r\n")?, reply, at);
        match stood {
            None => return Ok(at),
            Some(true) => {}
            Some(false) => return Ok(0),
        }
    }
    Ok(0)
}

#[test]
fn write_withstands_each_refusal(rt: HostRuntime) -> Result<(), Fail> {
    let heap = Refusing::new(rt.alloc());
    let asked = write_refusals(&heap, &heap, &pair(rt.alloc())?)?;
    assert!(rt; asked >= 2, "{asked}");
    Ok(())
}
