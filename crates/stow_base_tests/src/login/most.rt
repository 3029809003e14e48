//! The most tenants that there may be.
use crate::login::{has_quota, tenants_of};
use std::alloc::{AllocError, Allocator, Global};
use std::string::String;
use std::test::Fail;
use stow_login::tenants::Tenants;

/// The digest of the password `abc` without a salt.
const DIGEST: &str = "ba7816bf8f01cfea414140de5dae2223b00361a396177a9cb410ff61f20015ad";

/// A file of as many tenants as there may be: `t1` with the quota 1, and so on.
fn most_tenants<A: Allocator + Copy>(alloc: A) -> Result<String<A>, AllocError> {
    let mut text = String::new(alloc);
    for index in 1..65_536u32 {
        let table = format!(in alloc;
            "[[tenant]]\nname = \"t{index}\"\nsalt = \"\"\ndigest = \"{DIGEST}\"\nquota = {index}\n"
        )?;
        text.push_str(table.as_str())?;
    }
    Ok(text)
}

/// Whether the tenant of an index has its name, its password and its quota.
fn is_tenant<A: Allocator>(tenants: &Tenants<A>, name: &str, index: u32) -> bool {
    tenants.find(name.as_bytes()) == Some(index)
        && tenants.check(name.as_bytes(), b"abc") == Some(index)
        && has_quota(tenants, name, u64::from(index))
}

/// Whether these are all tenants of that file.
fn are_most<A: Allocator>(tenants: &Tenants<A>) -> bool {
    let named = is_tenant(tenants, "t1", 1)
        && is_tenant(tenants, "t40000", 40_000)
        && is_tenant(tenants, "t65535", 65_535);
    let none = tenants.find(b"t0").is_none() && tenants.find(b"t65536").is_none();
    named && none && tenants.count() == 65_535
}

/// Whether the most tenants are read.
fn are_read<A: Allocator + Copy>(alloc: A, global: Global) -> Result<bool, AllocError> {
    let text = most_tenants(alloc)?;
    Ok(are_most(&tenants_of(alloc, global, text.as_str())?))
}

// Each is found by its own name.
#[test]
fn the_most_tenants_are_read(rt: HostRuntime) -> Result<(), Fail> {
    assert!(rt; are_read(rt.alloc(), rt.alloc())?);
    Ok(())
}
