//! What no clause says: that the values of worked examples can be made, that the calls succeed where there is
//! memory, and that each request for memory may be refused.
use std::alloc::{AllocError, Allocator};
use std::test::Fail;
use stow_refusing::{Plan, Refusing};
use stow_tree_model::message::Message;
use stow_tree_model::numbered_value::NumberedValue;
use stow_tree_model::op::Op;
use stow_tree_model::pin::Pin;
use stow_tree_model::plain::{merge, message, value_of_key, version};
use stow_tree_model::tenant_key::TenantKey;
use stow_tree_model::tenant_key_buf::TenantKeyBuf;
use stow_tree_model::version::Version;
use stow_tree_model::version_buf::VersionBuf;

/// A tenant's key of these bytes, which are few.
fn key_of<A: Allocator>(alloc: A, tenant: u32, own: &[u8]) -> Result<TenantKeyBuf<A>, AllocError> {
    if tenant > 65_536 || own.len() > 1_024 {
        return Err(AllocError);
    }
    TenantKeyBuf::new(alloc, tenant, own)
}

/// Whether two keys are a tenant's, packed so.
fn are_packed(key: TenantKey<'_>, copy: TenantKey<'_>, tenant: u32, packed: &[u8]) -> bool {
    let is_same = key.bytes == packed && copy.bytes == packed;
    is_same && TenantKey::from_packed(key.bytes).tenant() == tenant
}

/// Whether a tenant's key, and its copy, are packed so.
fn is_packed<A: Allocator + Copy>(
    alloc: A,
    tenant: u32,
    own: &[u8],
    packed: &[u8],
) -> Result<bool, AllocError> {
    let key = key_of(alloc, tenant, own)?;
    let copy = TenantKeyBuf::from_key(alloc, key.as_key())?;
    Ok(are_packed(key.as_key(), copy.as_key(), tenant, packed))
}

fn is_message(key: TenantKey<'_>, number: u64, op: Op<'_>) -> bool {
    message(key, number, op).is_some()
}

/// Whether parts make a removal, a value, a suffix and a row.
fn made<A: Allocator + Copy>(
    alloc: A,
    tenant: u32,
    number: u64,
    len: usize,
) -> Result<[bool; 4], AllocError> {
    let key = key_of(alloc, tenant, b"a")?;
    let bytes = vec![in alloc; 120u8; len]?;
    Ok([
        is_message(key.as_key(), number, Op::Gone),
        is_message(key.as_key(), number, Op::Put(bytes.as_slice())),
        is_message(key.as_key(), number, Op::Append(bytes.as_slice())),
        version(key.as_key(), number, Some(bytes.as_slice())).is_some(),
    ])
}

#[test]
fn parts_out_of_range_make_nothing(rt: HostRuntime) -> Result<(), Fail> {
    for (tenant, number, len, want) in [
        (0, 1, 0, [false; 4]),
        (65_536, 1, 0, [false; 4]),
        (1, 0, 0, [false; 4]),
        (1, 1, 0, [true; 4]),
        (1, 9_223_372_036_854_775_807, 0, [true; 4]),
        (1, 9_223_372_036_854_775_808, 0, [false; 4]),
        (1, 1, 1_048_576, [true; 4]),
        (1, 1, 1_048_577, [true, false, false, false]),
    ] {
        assert!(rt;
            made(rt.alloc(), tenant, number, len)? == want,
            "{tenant} {number} {len}"
        );
    }
    Ok(())
}

/// Adds a message, whose parts are in range.
fn add<'a, A: Allocator>(
    messages: &mut Vec<Message<'a>, A>,
    key: TenantKey<'a>,
    number: u64,
    op: Op<'a>,
) -> Result<(), AllocError> {
    if let Some(made) = message(key, number, op) {
        messages.push(made)?;
    }
    Ok(())
}

/// A key's messages: a value, more of it, its removal, and more again, out of order.
fn four<A: Allocator>(alloc: A, key: TenantKey<'_>) -> Result<Vec<Message<'_>, A>, AllocError> {
    let mut messages = Vec::new(alloc);
    add(&mut messages, key, 4, Op::Append(b"z"))?;
    add(&mut messages, key, 2, Op::Append(b"y"))?;
    add(&mut messages, key, 1, Op::Put(b"x"))?;
    add(&mut messages, key, 3, Op::Gone)?;
    Ok(messages)
}

/// Whether this is the value of a number, or none.
fn is_found<A: Allocator>(found: &Option<NumberedValue<A>>, want: (u64, &[u8])) -> bool {
    match found {
        Some(found) => found.number == want.0 && found.value.as_slice() == want.1,
        None => want.0 == 0,
    }
}

/// Whether a key with these messages gives the asked key at a number this value of a number, or none.
fn is_given<A: Allocator + Copy>(
    alloc: A,
    (key, asked): (TenantKey<'_>, TenantKey<'_>),
    number: u64,
    want: (u64, &[u8]),
) -> Result<bool, AllocError> {
    let messages = four(alloc, key)?;
    Ok(is_found(
        &value_of_key(alloc, messages.as_slice(), asked, number)?,
        want,
    ))
}

/// Whether tenant 1's key `a` gives a tenant's key `a` at a number this value of a number, or none.
fn is_value<A: Allocator + Copy>(
    alloc: A,
    tenant: u32,
    number: u64,
    want: (u64, &[u8]),
) -> Result<bool, AllocError> {
    let key = key_of(alloc, 1, b"a")?;
    is_given(
        alloc,
        (key.as_key(), key_of(alloc, tenant, b"a")?.as_key()),
        number,
        want,
    )
}

#[test]
fn values(rt: HostRuntime) -> Result<(), Fail> {
    for (tenant, number, from, want) in [
        (1, 0, 0, b"".as_slice()),
        (1, 1, 1, b"x"),
        (1, 2, 2, b"xy"),
        (1, 3, 0, b""),
        (1, 4, 4, b"z"),
        (1, 9, 4, b"z"),
        (2, 9, 0, b""),
    ] {
        assert!(rt;
            is_value(rt.alloc(), tenant, number, (from, want))?,
            "{tenant} at {number}"
        );
    }
    Ok(())
}

/// Whether a version of the key `a` of tenant 1 is this, with an empty value where it has none.
fn is_version<A: Allocator>(found: &VersionBuf<A>, number: u64, want: &[u8]) -> bool {
    let is_value = match &found.value {
        Some(bytes) => bytes.as_slice() == want && !want.is_empty(),
        None => want.is_empty(),
    };
    is_value
        && found.number == number
        && found.key.as_key().bytes == b"\x00\x00\x00\x01a".as_slice()
}

/// Whether these are the versions of numbers, with an empty value where there is none.
fn are_versions<A: Allocator>(found: &[VersionBuf<A>], want: &[(u64, &[u8])]) -> bool {
    for (version, (number, bytes)) in found.iter().zip(want) {
        if !is_version(version, *number, bytes) {
            return false;
        }
    }
    found.len() == want.len()
}

/// A row of "x" at 1.
fn row_of<A: Allocator>(alloc: A, key: TenantKey<'_>) -> Result<Vec<Version<'_>, A>, AllocError> {
    let mut rows = Vec::new(alloc);
    if let Some(row) = version(key, 1, Some(b"x")) {
        rows.push(row)?;
    }
    Ok(rows)
}

/// "y" that is appended at 2, and where it is removed, that at 3.
fn batch_of<A: Allocator>(
    alloc: A,
    key: TenantKey<'_>,
    is_removed: bool,
) -> Result<Vec<Message<'_>, A>, AllocError> {
    let mut batch = Vec::new(alloc);
    add(&mut batch, key, 2, Op::Append(b"y"))?;
    if is_removed {
        add(&mut batch, key, 3, Op::Gone)?;
    }
    Ok(batch)
}

/// Whether a key's row has become these versions after the batch.
fn has_become<A: Allocator + Copy>(
    alloc: A,
    (key, is_removed): (TenantKey<'_>, bool),
    pins: &[Pin],
    want: &[(u64, &[u8])],
) -> Result<bool, AllocError> {
    let rows = row_of(alloc, key)?;
    let batch = batch_of(alloc, key, is_removed)?;
    Ok(are_versions(
        merge(alloc, rows.as_slice(), batch.as_slice(), pins)?.as_slice(),
        want,
    ))
}

/// Whether the row of tenant 1's key `a` has.
fn is_merged<A: Allocator + Copy>(
    alloc: A,
    is_removed: bool,
    pins: &[Pin],
    want: &[(u64, &[u8])],
) -> Result<bool, AllocError> {
    has_become(
        alloc,
        (key_of(alloc, 1, b"a")?.as_key(), is_removed),
        pins,
        want,
    )
}

const PINS: [Pin; 2] = [
    Pin {
        tenant: 2,
        number: 1,
    },
    Pin {
        tenant: 1,
        number: 2,
    },
];

/// Whether a row is merged with a removal, under pins or none, and without one.
fn are_merged<A: Allocator + Copy>(alloc: A) -> Result<bool, AllocError> {
    Ok(
        is_merged(alloc, true, &[], &[])?
            && is_merged(alloc, true, &PINS, &[(2, b"xy"), (3, b"")])?
            && is_merged(alloc, false, &[], &[(2, b"xy")])?,
    )
}

/// Whether each call gets the memory that it asks for.
fn are_answered<A: Allocator + Copy>(alloc: A) -> Result<bool, AllocError> {
    Ok(
        is_packed(alloc, 1, b"a", b"\x00\x00\x00\x01a")?
            && is_packed(alloc, 65_536, b"", b"\x00\x01\x00\x00")?
            && is_value(alloc, 1, 4, (4, b"z"))?
            && are_merged(alloc)?,
    )
}

#[test]
fn each_request_is_refused_in_turn(rt: HostRuntime) -> Result<(), Fail> {
    let heap = Refusing::new(rt.alloc());
    assert!(rt; are_answered(&heap)?);
    let needed = heap.asked();
    for at in 0..needed {
        heap.set(Plan::RefuseAt(at));
        assert!(rt; are_answered(&heap).is_err(), "request {at}");
    }
    assert!(rt; needed >= 8, "{needed} requests");
    Ok(())
}
