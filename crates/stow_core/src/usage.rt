//! Usage and quotas.
ghost use Rattle.std.specs.Prelude.{◌≡◌, ◌*◌, ◌≤◌, IfOk};
ghost use Rattle.stow_bytes.specs.Limits.{number_limit};
ghost use Rattle.stow_ledger.specs.Accounts.{usage_of};
ghost use Rattle.stow_model.specs.Login.{IsTenant};
ghost use Rattle.stow_model.specs.Reply.{reply_of};
ghost use Rattle.stow_model.specs.Reply as reply;
ghost use Rattle.stow_model.specs.Store.{counted, usage, usage_items, AreWithin};
ghost use Rattle.stow_core.specs.State.{store_of, GivesQuota};

use crate::Core;
use std::alloc::{AllocError, Allocator};
use stow_bytes::limits::NUMBER_LIMIT;
use stow_ledger::account::Account;
use stow_model::reply::Reply;
use stow_model::usage::Usage;
use stow_versions::versions::Versions;

impl<A: Allocator + Copy> Core<A> {
    /// What a tenant uses.
    pub fn usage(&self, tenant: u32) -> Usage
        requires { IsTenant self.now.entries tenant }
        ensures { result ≡ usage (store_of self.now tenant) }
    {
        let tenancy = self.tenancy(tenant);
        tenancy.account.report(&tenancy.versions)
    }

    /// Gives a tenant another quota, in bytes. It takes no memory. A number that is no tenant's changes nothing.
    pub fn set_quota(&mut self, tenant: u32, quota: u64)
        requires { quota ≤ number_limit }
        ensures { GivesQuota self.old tenant quota self.new }
    {
        if !self.is_tenant(tenant) {
            return;
        }
        self.tenancies[tenant as usize - 1].set_quota(quota);
    }

    /// The usage report of a tenant, whose request for it is counted.
    pub(crate) fn usage_reply(&self, alloc: A, tenant: u32) -> Result<Reply<A>, AllocError>
        requires { IsTenant self.now.entries tenant }
        ensures { IfOk result (λ r. reply_of r
            ≡ reply.Array (usage_items (usage (counted (store_of self.now tenant))))) }
    {
        let tenancy = self.tenancy(tenant);
        let mut account = tenancy.account;
        account.served();
        let usage = report(&account, &tenancy.versions);
        Ok(Reply::Array(usage.items(alloc)?))
    }
}

/// The usage report of an account with what its rows are charged, which keeps each number within the limit.
fn report<A: Allocator + Copy>(account: &Account, versions: &Versions<A>) -> Usage
    requires { 16 * account.now.rows ≤ account.now.charge }
    ensures usage { result ≡ usage_of account.now versions.now }
    ensures within { AreWithin result }
{
    let present = account.present();
    prove!(present.charge <= NUMBER_LIMIT);
    account.report(versions)
}
