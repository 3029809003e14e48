//! Words and an array's replies, which stand in one block each.
use std::alloc::{AllocError, Allocator};
use std::test::Fail;
use stow_bytes::byte_string::ByteString;
use stow_model::item::Item;
use stow_model::items::Items;
use stow_model::words::Words;

/// The words `ab` and the empty one, the first of which was taken from a list.
fn two_words<A: Allocator + Copy>(alloc: A) -> Result<Words<A>, AllocError> {
    let mut list = Vec::new(alloc);
    list.push(ByteString::from_slice(alloc, b"ab")?)?;
    let mut words = Words::from_slice(alloc, list.as_slice())?;
    words.push(b"")?;
    Ok(words)
}

/// The block that two words stand in, if there are two places.
fn block_of_two<A: Allocator + Copy>(alloc: A) -> Result<Vec<u8, A>, AllocError> {
    let (block, spans) = two_words(alloc)?.into_parts();
    if spans.len() == 2 {
        Ok(block)
    } else {
        Err(AllocError)
    }
}

#[test]
fn words_have_one_block(rt: HostRuntime) -> Result<(), Fail> {
    assert!(rt; block_of_two(rt.alloc())?.as_slice() == b"ab".as_slice());
    Ok(())
}

/// The words `a`, the empty one, and `bc`.
fn three_words<A: Allocator + Copy>(alloc: A) -> Result<Words<A>, AllocError> {
    let mut words = Words::new(alloc);
    words.push(b"a")?;
    words.push(b"")?;
    words.push(b"bc")?;
    Ok(words)
}

/// Whether the words are lent as those three, all at once, from the first on, and from the last.
fn are_lent<A: Allocator>(words: &Words<A>) -> bool {
    let lent = words.lent();
    let Some((first, later)) = lent.split_first() else {
        return false;
    };
    let all = matches!(lent.three(), Some((b"a", b"", b"bc"))) && lent.len() == 3;
    let rest = first == b"a".as_slice() && matches!(later.two(), Some((b"", b"bc")));
    all && rest && later.only().is_none()
}

/// Whether the first words are lent.
fn is_front_lent<A: Allocator>(words: &Words<A>) -> bool {
    let lent = words.lent();
    if lent.len() < 1 {
        return false;
    }
    matches!(lent.first(1).only(), Some(b"a")) && lent.first(0).is_empty()
}

/// Whether each of the calls that lend words does so.
fn are_three_lent<A: Allocator + Copy>(alloc: A) -> Result<bool, AllocError> {
    let words = three_words(alloc)?;
    Ok(are_lent(&words) && is_front_lent(&words))
}

#[test]
fn words_are_lent(rt: HostRuntime) -> Result<(), Fail> {
    assert!(rt; are_three_lent(rt.alloc())?);
    Ok(())
}

/// Whether these are a bulk string, an integer and a null.
fn are_three<A: Allocator>(items: &Items<A>) -> bool {
    items.len() == 3
        && matches!(items.get(0), Item::Bulk(b"ab"))
        && matches!(items.get(1), Item::Integer(-7))
        && matches!(items.get(2), Item::Null)
}

/// Whether the replies of an array are kept in order.
fn are_kept<A: Allocator + Copy>(alloc: A) -> Result<bool, AllocError> {
    let mut items = Items::with_capacity(alloc, 3, 2)?;
    items.push_bulk(b"ab")?;
    items.push_integer(-7)?;
    items.push_null()?;
    Ok(are_three(&items))
}

#[test]
fn items_are_kept(rt: HostRuntime) -> Result<(), Fail> {
    assert!(rt; are_kept(rt.alloc())?);
    Ok(())
}
