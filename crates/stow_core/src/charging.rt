//! What writes are charged.
ghost use Rattle.std.specs.Prelude.{◌≡◌, ◌++◌, ◌∷◌, [], ℕ, List};
ghost use Rattle.stow_ledger.specs.Shown.{change_of, charge_of, sized_option, with_row};
ghost use Rattle.stow_model.specs.Login.{IsTenant};
ghost use Rattle.stow_model.specs.Store.{value_in};
ghost use Rattle.stow_core.specs.Prepared.{IsPriced, IsChargeWithin, IsRowWithout, next_row, store_without};
ghost use Rattle.stow_core.specs.State.{store_of};
ghost use Rattle.stow_core.specs.Writes.{row_of};
ghost use Rattle.stow_tree_model.specs.Op.{Op};
ghost use Rattle.stow_tree_model.specs.Value.{IsValue};

use crate::Core;
use crate::given::length_of;
use std::alloc::Allocator;
use stow_dropping::stow_read::found::Found;
use stow_ledger::charge::Charge;
use stow_ledger::row_change::RowChange;
use stow_ledger::sized_version::SizedVersion;

impl<A: Allocator + Copy> Core<A> {
    /// The tenant's charge once its next write changes a row so.
    #[inline(always)]
    pub(crate) fn charge_of_write(&self, tenant: u32, change: &RowChange) -> Charge
        requires { IsTenant self.now.entries tenant }
        ensures { (key : List ℕ) (op : Op)
            → change.now
            ≡ change_of (store_of self.now tenant) key (next_row self.now tenant op key)
            → IsPriced self.now tenant result
            (with_row (store_of self.now tenant) key (next_row self.now tenant op key)) }
    {
        let tenancy = self.tenancy(tenant);
        let account = &tenancy.account;
        account.after_write(account.present(), change, tenancy.versions.pins())
    }

    /// A charge so far, once the tenant's next write also takes a row away whose key has so many bytes of its own.
    pub(crate) fn charge_without(
        &self,
        tenant: u32,
        so_far: Charge,
        key: u32,
        before: SizedVersion,
    ) -> Charge
        requires is_tenant { IsTenant self.now.entries tenant }
        requires within { IsChargeWithin self.now tenant so_far }
        ensures within { IsChargeWithin self.now tenant result }
        ensures charged { (keys : List (List ℕ)) (own : List ℕ)
            → IsRowWithout (store_of self.now tenant) keys own key before
            → so_far ≡ charge_of (store_without keys (store_of self.now tenant))
            → result ≡ charge_of (store_without (keys ++ own ∷ []) (store_of self.now tenant)) }
    {
        let tenancy = self.tenancy(tenant);
        let change = RowChange {
            key,
            before: Some(before),
            after: None,
        };
        tenancy
            .account
            .after_write(so_far, &change, tenancy.versions.pins())
    }
}

/// The number and the length of a row's version.
pub(crate) fn sized<A: Allocator>(row: &Option<Found<'_, A>>) -> Option<SizedVersion>
    requires { IsValue (value_in (row_of row.now)) }
    ensures { result ≡ sized_option (row_of row.now) }
{
    match row {
        Some(found) => Some(SizedVersion {
            number: found.number(),
            length: length_of(found.bytes()),
        }),
        None => None,
    }
}
