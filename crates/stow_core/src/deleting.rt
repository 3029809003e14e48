//! Deletions.
ghost use Rattle.std.specs.Prelude.{◌≡◌, ◌≤◌, [], IfOk, length};
ghost use Rattle.std.specs.List.{list_any};
ghost use Rattle.std.specs.Str.{bytes_eq};
ghost use Rattle.stow_bytes.specs.Limits.{deleted_limit};
ghost use Rattle.stow_model.specs.Login.{IsTenant};
ghost use Rattle.stow_model.specs.Command.{Del};
ghost use Rattle.stow_model.specs.LentWords.{words_in};
ghost use Rattle.stow_core.specs.Legal.{AreShortKeys};
ghost use Rattle.stow_ledger.specs.StowState.State.{IsSound};
ghost use Rattle.stow_core.specs.State.{store_of, shared_of};
ghost use Rattle.stow_core.specs.Prepared.{IsPrepared, IsChargedWithout, serves};
ghost use Rattle.stow_core.specs.Taken.{AreTaken};

use crate::Core;
use crate::given::Given;
use crate::places::Places;
use crate::prepared::Prepared;
use crate::preparing::only_counted;
use crate::write::Write;
use std::alloc::{AllocError, Allocator};
use stow_ledger::charge::Charge;
use stow_model::lent_words::LentWords;
use stow_model::reply::Reply;
use stow_model::words::Words;

impl<A: Allocator + Copy> Core<A> {
    /// Finds what a deletion of keys says.
    pub(crate) fn prepare_del<'a>(
        &mut self,
        buffer: &mut Vec<u8, A>,
        alloc: A,
        tenant: u32,
        keys: LentWords<'_>,
    ) -> Result<Prepared<'a, A>, AllocError>
        requires is_tenant { IsTenant self.old.entries tenant }
        requires sound { IsSound (shared_of self.old) }
        requires short { AreShortKeys (words_in keys) }
        requires few { length (words_in keys) ≤ deleted_limit }
        ensures { IsPrepared self.old tenant (serves (Del (words_in keys.entry))) self.new result }
    {
        let spare = self.spare_keys(alloc);
        let mut places = Places::none();
        let (taken, charge) = self.taken(spare, buffer, alloc, tenant, keys, &mut places)?;
        if taken.len() == 0 {
            self.keep_keys(taken);
            return Ok(only_counted(tenant, Reply::Integer(0)));
        }
        let reply = Reply::Integer(taken.len() as i64);
        let write = Write {
            keys: taken,
            given: Given::Gone,
            charge,
            length: None,
        };
        self.prepare_write(alloc, tenant, write, places, reply)
    }

    /// Those of the keys that have a row, each once, among the keys of all, in a list that had none, and the charge
    /// without these rows. The places are then those of their next messages.
    fn taken(
        &self,
        spare: Words<A>,
        buffer: &mut Vec<u8, A>,
        alloc: A,
        tenant: u32,
        keys: LentWords<'_>,
        places: &mut Places,
    ) -> Result<(Words<A>, Charge), AllocError>
        requires is_tenant { IsTenant self.now.entries tenant }
        requires short { AreShortKeys (words_in keys) }
        requires none { spare ≡ [] }
        ensures taken { IfOk result (λ r. AreTaken tenant (store_of self.now tenant).rows
            (words_in keys.entry) r.0) }
        ensures charge { IfOk result (λ r. IsChargedWithout self.now tenant r.0 r.1) }
    {
        let mut taken = spare;
        let mut charge = self.tenancy(tenant).account.present();
        for index in 0..keys.len() {
            let row = self.sized_row(buffer, alloc, tenant, keys.get(index))?;
            if let Some(version) = row.version {
                if !is_among(buffer.as_slice(), taken.lent()) {
                    let own = (buffer.len() - 4) as u32;
                    charge = self.charge_without(tenant, charge, own, version);
                    places.set(taken.len(), row.place);
                    taken.push(buffer.as_slice())?;
                }
            }
        }
        Ok((taken, charge))
    }
}

fn is_among(key: &[u8], keys: LentWords<'_>) -> bool
    ensures { result ≡ list_any (bytes_eq key.now) (words_in keys.entry) }
{
    let mut left = keys;
    while let Some((other, later)) = left.split_first() {
        if key == other {
            return true;
        }
        left = later;
    }
    false
}
