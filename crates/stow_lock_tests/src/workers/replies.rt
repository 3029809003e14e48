//! What room replies keep.
use std::test::Fail;
use stow_bytes::byte_string::ByteString;
use stow_model::reply::Reply;
use stow_workers::counted::Counted;
use stow_workers::replies::Replies;

// Once a reply of 65,545 bytes is written its room is given back.
#[test]
fn room_for_a_long_reply_is_not_kept(rt: HostRuntime) -> Result<(), Fail> {
    let alloc = rt.alloc();
    let value = ByteString::from_vec(vec![in alloc; b'v'; 65_535]?);
    let mut output = Vec::new(alloc);
    let mut writer = Counted::new(&mut output);
    let mut replies = Replies::new(alloc);
    replies.add(&Some(Reply::Bulk(value)))?;
    replies.flush(&mut writer);
    assert!(rt; replies.waiting() == 0 && replies.room() <= 65_536);
    Ok(())
}

// Four replies of 16,384 bytes wait together, and a fifth is too much.
#[test]
fn replies_wait_up_to_a_limit(rt: HostRuntime) -> Result<(), Fail> {
    let alloc = rt.alloc();
    let value = ByteString::from_vec(vec![in alloc; b'v'; 16_374]?);
    let reply = Some(Reply::Bulk(value));
    let mut output = Vec::new(alloc);
    let mut writer = Counted::new(&mut output);
    let mut replies = Replies::new(alloc);
    for waiting in [16_384, 32_768, 49_152, 65_536, 0usize] {
        replies.add(&reply)?;
        if replies.is_long() {
            replies.flush(&mut writer);
        }
        assert_eq!(rt; replies.waiting(), waiting);
    }
    Ok(())
}
