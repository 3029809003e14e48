//! Keys of three tenants.
use std::alloc::{AllocError, Allocator};
use stow_tree_model::tenant_key::TenantKey;
use stow_tree_model::tenant_key_buf::TenantKeyBuf;

/// How many tenants have keys.
pub(crate) const TENANTS: u32 = 3;

/// Keys of the tenants from 1 on: each tenant has one of each of some letters, before each of some tails where there are some.
/// Where these rise, so do the keys.
#[derive(Drop)]
pub(crate) struct Keys<A: Allocator> {
    all: Vec<TenantKeyBuf<A>, A>,
    /// Of each key one that stands behind it and before the next.
    behind: Vec<TenantKeyBuf<A>, A>,
    /// Of each tenant, of 0 and of the one above them the lowest key.
    lows: Vec<TenantKeyBuf<A>, A>,
    /// Above the keys of all tenants.
    beyond: TenantKeyBuf<A>,
}

/// Where an interval of keys begins or ends: at a tenant's lowest key, or at the key of a place.
#[derive(Clone, Copy)]
pub(crate) enum Bound {
    Low(u32),
    At(usize),
}

fn lows_of<A: Allocator + Copy>(alloc: A) -> Result<Vec<TenantKeyBuf<A>, A>, AllocError> {
    let mut lows = Vec::new(alloc);
    for tenant in 0..TENANTS + 2 {
        lows.push(TenantKeyBuf::new(alloc, tenant, &[])?)?;
    }
    Ok(lows)
}

/// Of each tenant each letter, before each tail where there are some, or what stands behind it.
fn keys_of<A: Allocator + Copy>(
    alloc: A,
    letters: &[u8],
    tails: &[u8],
    is_behind: bool,
) -> Result<Vec<TenantKeyBuf<A>, A>, AllocError> {
    let mut keys = Vec::new(alloc);
    for tenant in 1..=TENANTS {
        for letter in letters {
            if tails.is_empty() {
                let key = [*letter, b'~'];
                let len = if is_behind { 2 } else { 1 };
                keys.push(TenantKeyBuf::new(alloc, tenant, &key[..len])?)?;
            }
            for tail in tails {
                let key = [*letter, *tail, b'~'];
                let len = if is_behind { 3 } else { 2 };
                keys.push(TenantKeyBuf::new(alloc, tenant, &key[..len])?)?;
            }
        }
    }
    Ok(keys)
}

impl<A: Allocator + Copy> Keys<A> {
    /// Of each tenant each letter.
    pub(crate) fn new(alloc: A, letters: &[u8]) -> Result<Keys<A>, AllocError> {
        Keys::tailed(alloc, letters, b"")
    }

    /// Of each tenant each letter, before each tail where there are some.
    pub(crate) fn tailed(alloc: A, letters: &[u8], tails: &[u8]) -> Result<Keys<A>, AllocError> {
        Ok(Keys {
            all: keys_of(alloc, letters, tails, false)?,
            behind: keys_of(alloc, letters, tails, true)?,
            lows: lows_of(alloc)?,
            beyond: TenantKeyBuf::new(alloc, 65_536, b"a")?,
        })
    }

    /// How many they are.
    pub(crate) fn len(&self) -> usize {
        self.all.len()
    }

    /// The key at a place, or one above those of all tenants.
    fn lent<'k>(&'k self, keys: &'k [TenantKeyBuf<A>], place: usize) -> TenantKey<'k> {
        match keys.get(place) {
            Some(key) => key.as_key(),
            None => self.beyond.as_key(),
        }
    }

    /// The key at a place.
    pub(crate) fn at(&self, place: usize) -> TenantKey<'_> {
        self.lent(self.all.as_slice(), place)
    }

    /// The key behind that at a place, which is none of these.
    pub(crate) fn behind(&self, place: usize) -> TenantKey<'_> {
        self.lent(self.behind.as_slice(), place)
    }

    /// The lowest key of a tenant: a tenant's keys are those from its lowest on and below the next one's.
    pub(crate) fn low(&self, tenant: u32) -> TenantKey<'_> {
        self.lent(self.lows.as_slice(), tenant as usize)
    }

    pub(crate) fn bound(&self, bound: Bound) -> TenantKey<'_> {
        match bound {
            Bound::Low(tenant) => self.low(tenant),
            Bound::At(place) => self.at(place),
        }
    }
}
