//! The versions of one leaf, unpacked and shared.
ghost use Rattle.std.specs.Prelude.{◌≡◌, ◌==◌, IsTrue, ◌<◌, ◌≤◌, ◌^◌, ◌++◌, length, slice_get, Some, option_map, IfOk};
ghost use Rattle.std.specs.Arc.{arc_value};
ghost use Rattle.stow_tree_model.specs.Order.{VersionsRise};
ghost use Rattle.stow_tree_model.specs.Value.{bytes_at};
ghost use Rattle.stow_tree_model.specs.Version.{version_of};
ghost use Rattle.stow_page.specs.Format.{AreVersions, packed_page};
ghost use Rattle.stow_page.specs.Rows.{AreAlone, IsCountFrom, IsCountUpTo, version_at, value_at};

use crate::packed_rows::PackedRows;
use std::alloc::{AllocError, Allocator, Global};
use std::marker::Model;
use std::sync::Arc;
use stow_tree_model::tenant_key::TenantKey;
use stow_tree_model::version::Version;

/// Versions that rise by key, then number, in a block that a copy shares.
#[derive(Drop)]
pub struct Rows<A: Allocator = Global> {
    packed: Arc<PackedRows<A>, A>,
}

impl<A: Allocator> Model for Rows<A> {
    ghost use Rattle.std.specs.Prelude.{List};
    ghost use Rattle.std.specs.Arc.{arc_value};
    ghost use Rattle.stow_tree_model.specs.Version.{Version};

    ghost Value = { List Version };

    ghost view = { λ r. arc_value r.packed };
}

impl<A: Allocator + Copy> Rows<A> {
    /// The versions that were packed, with a hint of where their keys stand.
    pub fn new(alloc: A, packed: PackedRows<A>) -> Result<Rows<A>, AllocError>
        ensures { IfOk result (λ r. r ≡ packed) }
    {
        let mut packed = packed;
        packed.note_keys(alloc)?;
        Ok(Rows {
            packed: Arc::new(alloc, packed)?,
        })
    }

    /// These versions and others above them, in a block of their own.
    pub fn joined(&self, alloc: A, upper: &Rows<A>) -> Result<Rows<A>, AllocError>
        requires rise { VersionsRise (self.now ++ upper.now) }
        requires room { length (packed_page (self.now ++ upper.now)) < 2 ^ 32 }
        ensures { IfOk result (λ r. r ≡ self.now ++ upper.now) }
    {
        Rows::new(
            alloc,
            PackedRows::joined(alloc, &self.packed, &upper.packed)?,
        )
    }
}

impl<A: Allocator> Rows<A> {
    /// Rows in a block that others share.
    pub(crate) fn from_shared(packed: Arc<PackedRows<A>, A>) -> Rows<A>
        ensures { result ≡ arc_value packed }
    {
        Rows { packed }
    }

    /// The same rows, sharing their block.
    pub fn share(&self) -> Result<Rows<A>, AllocError>
        ensures { IfOk result (λ r. r ≡ self.now) }
    {
        Ok(Rows {
            packed: Arc::try_clone(&self.packed)?,
        })
    }

    /// The block that they stand in.
    pub fn packed(&self) -> &PackedRows<A>
        ensures { result.now ≡ self.now }
    {
        &self.packed
    }

    /// The block that they stand in, shared.
    pub(crate) fn shared(&self) -> Result<Arc<PackedRows<A>, A>, AllocError>
        ensures same { IfOk result (λ p. arc_value p ≡ self.now) }
        ensures short { length (packed_page self.now) < 2 ^ 32 }
    {
        let _known = self.packed.as_bytes();
        Arc::try_clone(&self.packed)
    }

    /// How many versions there are.
    pub fn len(&self) -> usize
        ensures len { result ≡ length self.now }
        ensures rise { VersionsRise self.now }
        ensures versions { AreVersions self.now }
    {
        self.packed.len()
    }

    pub fn is_empty(&self) -> bool
        ensures { result ≡ (length self.now == 0) }
    {
        self.packed.is_empty()
    }

    /// Whether each version is known to be a value, and the only one of its key.
    pub fn are_alone(&self) -> bool
        ensures { IsTrue result → AreAlone self.now }
    {
        self.packed.are_alone()
    }

    /// How many bytes their page has.
    pub fn page_len(&self) -> usize
        ensures len { result ≡ length (packed_page self.now) }
        ensures short { result < 2 ^ 32 }
    {
        self.packed.as_bytes().len()
    }

    /// How many bytes the page of these versions and others above them has.
    pub fn page_len_with(&self, upper: &Rows<A>) -> usize
        ensures { result ≡ length (packed_page (self.now ++ upper.now)) }
    {
        self.packed.page_len_with(&upper.packed)
    }

    /// The version at this place in the order, lent.
    pub fn get(&self, index: usize) -> Version<'_>
        requires { index < length self.now }
        ensures version { slice_get self.now index ≡ Some (version_of result) }
        ensures rise { VersionsRise self.now }
    {
        self.packed.get(index)
    }

    /// How many versions stand at the key and number or below.
    pub fn count_up_to(&self, key: TenantKey<'_>, number: u64) -> usize
        ensures { IsCountUpTo self.now (key.entry.bytes.now, number) result }
    {
        self.packed.count_up_to(key, number)
    }

    /// How many versions stand at the key and number or below, those before `from` counted without a look at them. It is found the faster
    /// the fewer stand between (exponential search: Bentley and Yao 1976).
    pub fn count_from(&self, key: TenantKey<'_>, number: u64, from: usize) -> usize
        requires { from ≤ length self.now }
        ensures { IsCountFrom self.now (key.entry.bytes.now, number) from result }
    {
        self.packed.count_from(key, number, from)
    }

    /// How many versions stand at the key and number or below. It is found at once where it is the guess or one more.
    pub fn count_near(&self, key: TenantKey<'_>, number: u64, guess: usize) -> usize
        ensures { IsCountUpTo self.now (key.entry.bytes.now, number) result }
    {
        self.packed.count_near(key, number, guess)
    }

    /// The newest version of the key numbered at most this, lent. It is found the faster the nearer the guess is to its
    /// place; with a guess beyond all places the hint makes one.
    pub fn version_at(&self, key: TenantKey<'_>, number: u64, guess: usize) -> Option<Version<'_>>
        ensures { option_map version_of result ≡ version_at self.now key.entry.bytes.now number }
    {
        self.packed.version_at(key, number, guess)
    }
}

/// The value of the newest version of the key numbered at most this, lent. A tombstone has none.
pub fn at<'a, A: Allocator>(rows: &'a Rows<A>, key: TenantKey<'_>, number: u64) -> Option<&'a [u8]>
    ensures { bytes_at result ≡ value_at rows.now key.entry.bytes.now number }
{
    match rows.version_at(key, number, usize::MAX) {
        None => None,
        Some(version) => version.value,
    }
}
