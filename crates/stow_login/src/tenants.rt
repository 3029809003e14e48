//! The tenants of the service.
ghost use Rattle.std.specs.Bool.{OnTrue};
ghost use Rattle.std.specs.Prelude.{◌≡◌, ◌<◌, ◌≤◌, ◌↔◌, ◌++◌, ◌∷◌, [], false, length, IsTrue, IfSome, OnOk};
ghost use Rattle.stow_model.specs.Login.{IsTenant, login, quota_of};
ghost use Rattle.stow_model.specs.StowBytes.Limits.{number_limit};
ghost use Rattle.stow_login.specs.Entries.{entry_of, name_of, index_named, is_own};
ghost use Rattle.stow_login.specs.TenantFile.{IsReading, is_used};

use crate::names::Names;
use crate::reading::{TENANT_LIMIT, read_table};
use crate::spelling::digest_of;
use crate::tenant::Tenant;
use crate::tenants_fault::TenantsFault;
use std::alloc::{AllocError, Allocator, Global};
use std::marker::Model;
use stow_model::stow_bytes::byte_string::ByteString;

/// Fewer than 65,536 tenants, each with an index that counts from 1.
#[derive(Drop)]
pub struct Tenants<A: Allocator = Global> {
    tenants: Vec<Tenant<A>, A>,
    names: Names<A>,
}

impl<A: Allocator> Model for Tenants<A> {
    ghost use Rattle.std.specs.Prelude.{List, map};
    ghost use Rattle.stow_model.specs.Login.{Entry};
    ghost use Rattle.stow_login.specs.Entries.{entry_of};
    ghost use Rattle.stow_login.specs.Names.{AreNamed};

    ghost Value = { List Entry };

    ghost view = { λ t. map entry_of t.tenants.items };

    ghost invariant = { λ t. AreNamed (map entry_of t.tenants.items) t.names };
}

impl<A: Allocator + Copy> Tenants<A> {
    /// The tenants of a tenant file's text, in its order, or the first fault. `heap` is where `toml` keeps the
    /// file's table for as long as it is read.
    pub fn read(alloc: A, heap: Global, text: &str) -> Result<Tenants<A>, TenantsFault>
        ensures { IsReading text.now result }
    {
        match toml::table_from_str(heap, text) {
            Ok(table) => read_table(alloc, &table),
            Err(error) if error.is_memory() => Err(TenantsFault::OutOfMemory),
            Err(_) => Err(TenantsFault::NotToml),
        }
    }

    /// No tenants.
    pub(crate) fn new(alloc: A) -> Tenants<A>
        ensures { result ≡ [] }
    {
        Tenants {
            tenants: Vec::new(alloc),
            names: Names::new(alloc),
        }
    }

    /// Adds a tenant whose name no other has.
    pub(crate) fn add(&mut self, alloc: A, tenant: Tenant<A>) -> Result<(), AllocError>
        requires few { length self.old < 65535 }
        requires unused { is_used self.old tenant.name ≡ false }
        ensures { OnOk result (self.new ≡ self.old ++ entry_of tenant ∷ []) }
    {
        let index = self.count() + 1;
        self.tenants.reserve(1)?;
        self.names.add(alloc, tenant.name.as_slice(), index)?;
        let _ = self.tenants.push(tenant);
        Ok(())
    }
}

impl<A: Allocator> Tenants<A> {
    /// The tenant of this name, if the password is its own.
    pub fn check(&self, name: &[u8], password: &[u8]) -> Option<u32>
        ensures login { result ≡ login self.now name.now password.now }
        ensures tenant { IfSome result (λ t. IsTenant self.now t) }
    {
        let index = self.find(name)?;
        if is_password(&self.tenants[index as usize - 1], password) {
            Some(index)
        } else {
            None
        }
    }

    /// How many tenants there are.
    pub fn count(&self) -> u32
        ensures all { result ≡ length self.now }
        ensures few { result < 65536 }
    {
        self.tenants.len() as u32
    }

    /// The tenant of this name, in time that grows with the logarithm of how many there are.
    pub fn find(&self, name: &[u8]) -> Option<u32>
        ensures named { result ≡ index_named self.now name.now }
        ensures tenant { IfSome result (λ t. IsTenant self.now t) }
    {
        self.names.get(name)
    }

    /// Whether one tenant more may be added.
    pub(crate) fn has_room(&self) -> bool
        ensures { OnTrue result (length self.now < 65535) }
    {
        self.tenants.len() < TENANT_LIMIT
    }

    /// Whether a tenant has the name.
    pub(crate) fn has(&self, name: &[u8]) -> bool
        ensures { result ≡ is_used self.now name.now }
    {
        self.find(name).is_some()
    }

    pub fn name(&self, index: u32) -> &[u8]
        requires { IsTenant self.now index }
        ensures { result.now ≡ name_of self.now index }
    {
        self.tenants[index as usize - 1].name.as_slice()
    }

    /// Whether both are the same tenants in the same order, with the same names, salts, digests and quotas.
    pub fn is_same(&self, other: &Tenants<A>) -> bool
        ensures { IsTrue result ↔ (self.now ≡ other.now) }
    {
        if self.tenants.len() != other.tenants.len() {
            return false;
        }
        for index in 0..self.tenants.len() {
            if !is_same_tenant(&self.tenants[index], &other.tenants[index]) {
                return false;
            }
        }
        true
    }

    /// The most that a tenant may be charged, in bytes.
    pub fn quota(&self, index: u32) -> u64
        requires { IsTenant self.now index }
        ensures quota { result ≡ quota_of self.now index }
        ensures within { result ≤ number_limit }
    {
        self.tenants[index as usize - 1].quota
    }
}

fn is_same_tenant<A: Allocator>(a: &Tenant<A>, b: &Tenant<A>) -> bool
    ensures { IsTrue result ↔ (entry_of a.now ≡ entry_of b.now) }
{
    a.name.as_slice() == b.name.as_slice()
        && a.salt.as_slice() == b.salt.as_slice()
        && a.digest == b.digest
        && a.quota == b.quota
}

fn is_password<A: Allocator>(tenant: &Tenant<A>, password: &[u8]) -> bool
    ensures { result ≡ is_own (entry_of tenant.now) password.now }
{
    digest_of(tenant.salt.as_slice(), password) == tenant.digest
}
