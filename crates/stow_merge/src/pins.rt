//! The numbers at which tenants' rows are to stay readable.
ghost use Rattle.std.specs.Prelude.{◌≡◌, ℕ, ◌+◌, ◌<◌, ◌≤◌, ◌==◌, length, filter, not, IfOk};
ghost use Rattle.stow_merge.specs.PinLists.{pin_limit, numbers_at, AreRising};

use std::alloc::{AllocError, Allocator, Global};

/// Each tenant's pins: at most 64 numbers, rising.
#[derive(Drop)]
pub struct Pins<A: Allocator = Global> {
    numbers: Vec<Vec<u64, A>, A>,
    ghost few: { (tenant : ℕ) → length (numbers_at numbers.items tenant) ≤ pin_limit },
    ghost rising: { (tenant : ℕ) → AreRising (numbers_at numbers.items tenant) },
}

impl<A: Allocator + Copy> Pins<A> {
    ghost use Rattle.std.specs.Prelude.{[], ◌∷◌, ◌++◌, All, OnOk};
    ghost use Rattle.stow_page.specs.StowTreeModel.Agreement.{with_pins};
    ghost use Rattle.stow_merge.specs.Pins.{pins_in, room_in};

    /// No tenant has a pin.
    pub fn new(alloc: A) -> Pins<A>
        ensures { (t : ℕ) → pins_in result t ≡ [] }
    {
        Pins {
            numbers: Vec::new(alloc),
        }
    }

    /// A tenant's pins, rising.
    pub fn of(&self, tenant: u32) -> &[u64]
        ensures { result.now ≡ pins_in self.now tenant }
    {
        match self.numbers.get(tenant as usize) {
            None => &[],
            Some(numbers) => numbers.as_slice(),
        }
    }

    /// The same pins in lists of their own.
    pub fn copied(&self, alloc: A) -> Result<Pins<A>, AllocError>
        ensures { IfOk result (λ copy. (t : ℕ) → pins_in copy t ≡ pins_in self.now t) }
    {
        let mut numbers = Vec::new(alloc);
        for i in 0..self.numbers.len() {
            numbers.push(copied_numbers(alloc, self.numbers[i].as_slice())?)?;
        }
        Ok(Pins { numbers })
    }

    /// Makes room for one more pin of a tenant.
    pub fn room(&mut self, tenant: u32) -> Result<(), AllocError>
        ensures same { (t : ℕ) → pins_in self.new t ≡ pins_in self.old t }
        ensures room { OnOk result (0 < room_in self.new tenant) }
    {
        let index = tenant as usize;
        while self.numbers.len() <= index {
            let alloc = *self.numbers.allocator();
            self.numbers.push(Vec::new(alloc))?;
        }
        self.numbers[index].reserve(1)
    }

    /// Adds a pin above those that the tenant has.
    pub fn add(&mut self, tenant: u32, number: u64)
        requires room { 0 < room_in self.old tenant }
        requires few { length (pins_in self.old tenant) < pin_limit }
        requires above { All (λ p. p < number) (pins_in self.old tenant) }
        ensures { (t : ℕ) → pins_in self.new t
            ≡ with_pins (pins_in self.old) tenant (pins_in self.old tenant ++ number ∷ []) t }
    {
        let _ = self.numbers[tenant as usize].push(number);
    }

    /// Takes a pin of a tenant away. Nothing changes where it isn't there.
    pub fn remove(&mut self, tenant: u32, number: u64)
        ensures { (t : ℕ) → pins_in self.new t
            ≡ with_pins (pins_in self.old) tenant
            (filter (λ p. not (p == number)) (pins_in self.old tenant)) t }
    {
        if let Some(numbers) = self.numbers.get_mut(tenant as usize) {
            take_out(numbers, number);
        }
    }
}

/// The numbers in a list of their own.
fn copied_numbers<A: Allocator + Copy>(alloc: A, numbers: &[u64]) -> Result<Vec<u64, A>, AllocError>
    ensures { IfOk result (λ copy. copy.items ≡ numbers.now) }
{
    let mut copy = Vec::new(alloc);
    copy.extend_from_slice(numbers)?;
    Ok(copy)
}

fn take_out<A: Allocator + Copy>(numbers: &mut Vec<u64, A>, number: u64)
    ensures { numbers.new.items ≡ filter (λ p. not (p == number)) numbers.old.items }
{
    numbers.retain(|p| *p != number);
}
