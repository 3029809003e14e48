//! The lengths of values behind which appends wait.
ghost use Rattle.std.specs.Prelude.{◌≡◌, ◌<◌, All, Contains, IfOk, IfSome};
ghost use Rattle.stow_core.specs.RowLengths.{IsKeptIn};

use crate::length_entry::LengthEntry;
use std::alloc::{AllocError, Allocator, Global};
use std::marker::Model;

/// How many lengths are held.
const PLACES: u64 = 65_536;

/// The lengths of values that appends made: 1 MiB, got once. A length stays until another one comes to its place.
#[derive(Drop)]
pub struct Lengths<A: Allocator = Global> {
    entries: Vec<LengthEntry, A>,
}

impl<A: Allocator> Model for Lengths<A> {
    ghost use Rattle.std.specs.Prelude.{List};
    ghost use Rattle.stow_core.specs.declared.length_entry.LengthEntry.{LengthEntry};

    ghost Value = { List LengthEntry };

    ghost view = { λ l. l.entries.items };
}

impl<A: Allocator> Lengths<A> {
    /// A table that tells no write's length: each entry has the number 0, which no write has.
    pub(crate) fn new(alloc: A) -> Result<Lengths<A>, AllocError>
        ensures { IfOk result (λ lengths. All (λ entry. entry.number ≡ 0) lengths) }
    {
        Lengths::with_places(alloc, PLACES as usize)
    }

    fn with_places(alloc: A, places: usize) -> Result<Lengths<A>, AllocError>
        ensures { IfOk result (λ lengths. All (λ entry. entry.number ≡ 0) lengths) }
    {
        let none = LengthEntry {
            tenant: 0,
            length: 0,
            number: 0,
        };
        Ok(Lengths {
            entries: vec![in alloc; none; places]?,
        })
    }

    /// The length of the value that a tenant's write with the number made, if it is held.
    pub(crate) fn length_of(&self, tenant: u32, number: u64) -> Option<u32>
        ensures { IfSome result (λ length. Contains self.now
            (record { tenant = tenant; length = length; number = number })) }
    {
        let entry = self.entries.get(place_of(tenant, number))?;
        if entry.tenant == tenant && entry.number == number {
            Some(entry.length)
        } else {
            None
        }
    }

    /// Holds the length, if one is told, of the value that a tenant's write with the number made.
    pub(crate) fn keep(&mut self, tenant: u32, number: u64, length: Option<u32>)
        ensures { IsKeptIn self.old tenant number length self.new }
    {
        if let Some(length) = length {
            let entry = LengthEntry {
                tenant,
                length,
                number,
            };
            if let Some(held) = self.entries.get_mut(place_of(tenant, number)) {
                *held = entry;
            }
        }
    }
}

/// Where the length of a write's value stands: a tenant's successive writes have successive places.
fn place_of(tenant: u32, number: u64) -> usize {
    (number.wrapping_add(tenant as u64 * 40_503) % PLACES) as usize
}
