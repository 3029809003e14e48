//! Versions of a leaf in one block.
ghost use Rattle.std.specs.Prelude.{◌≡◌, ◌==◌, ◌↔◌, IsTrue, ◌+◌, ◌-◌, ◌<◌, ◌≤◌, ◌^◌, [], ◌∷◌, ◌++◌, length, map, take, drop, slice_get, Some, option_map, true, IfOk, IfSome, OnOk, OnErr};
ghost use Rattle.std.specs.List.{All};
ghost use Rattle.stow_tree_model.specs.Version.{version_of};
ghost use Rattle.stow_tree_model.specs.Order.{VersionsRise};
ghost use Rattle.stow_tree_model.specs.Value.{bytes_at};
ghost use Rattle.stow_page.specs.Format.{entries, packed_in, packed_page, format_of, places_from, IsTold, AreVersions};
ghost use Rattle.stow_page.specs.Rows.{AreAlone, CanTake, CoversRows, HasRoomFor, IsBlock, rows_in, entry_of, wider, with_count, is_above, is_up_to, IsCountBetween, IsCountFrom, IsCountUpTo, version_at};
ghost use Rattle.stow_page.specs.declared.format.Format.TheVariants.{Two};

use crate::entry::{append_entry, entry_size, format_of, lent_version};
use crate::format::Format;
use crate::guess::Guess;
use crate::hashed_key::HashedKey;
use crate::hint::Hint;
use crate::notes::Notes;
use std::alloc::{AllocError, Allocator, Global};
use std::cmp::Ordering;
use std::marker::Model;
use stow_filter::filter::Filter;
use stow_tree_model::stow_bytes::compare::compare;
use stow_tree_model::tenant_key::TenantKey;
use stow_tree_model::version::Version;

/// Versions that rise by key, then number, in packed form, with the place of each one's entry, a hint of where keys stand, and
/// marks of the keys that are there. A page has fewer than 2^32 bytes.
#[derive(Drop)]
pub struct PackedRows<A: Allocator = Global> {
    format: Format,
    bytes: Vec<u8, A>,
    places: Vec<u32, A>,
    hint: Hint<A>,
    filter: Filter<A>,
    /// Whether each version is known to be a value, and the only one of its key.
    alone: bool,
}

impl<A: Allocator> Model for PackedRows<A> {
    ghost use Rattle.std.specs.Prelude.{ℕ, List};
    ghost use Rattle.stow_tree_model.specs.Version.{Version};
    ghost use Rattle.stow_page.specs.Rows.{rows_in, IsNoted};

    ghost Value = { List Version };

    ghost view = { λ r. rows_in r.format r.bytes.items r.places.items };

    ghost invariant = { λ r. IsNoted r.format r.bytes.items r.places.items r.filter r.alone };
}

impl<A: Allocator + Copy> PackedRows<A> {
    /// The versions of a block, of which nothing is noted yet.
    fn from_block(alloc: A, format: Format, bytes: Vec<u8, A>, places: Vec<u32, A>) -> PackedRows<A>
        requires { IsBlock format bytes.items places.items }
        ensures { result ≡ rows_in format bytes.items places.items }
    {
        PackedRows {
            format,
            bytes,
            places,
            hint: Hint::new(alloc),
            filter: Filter::none(alloc),
            alone: false,
        }
    }

    /// No versions, in a block of their page's header.
    pub fn new(alloc: A) -> Result<PackedRows<A>, AllocError>
        ensures { IfOk result (λ r. r ≡ []) }
    {
        let mut bytes = Vec::new(alloc);
        bytes.extend_from_slice(&[1, 0, 0, 0, 0])?;
        let places = Vec::new(alloc);
        Ok(PackedRows::from_block(alloc, Format::One, bytes, places))
    }

    /// No versions, with room for a page of so many bytes and for so many versions.
    pub fn with_room(alloc: A, size: usize, versions: usize) -> Result<PackedRows<A>, AllocError>
        ensures { IfOk result (λ r. r ≡ []) }
    {
        let mut bytes = Vec::with_capacity(alloc, size)?;
        bytes.extend_from_slice(&[1, 0, 0, 0, 0])?;
        let places = Vec::with_capacity(alloc, versions)?;
        Ok(PackedRows::from_block(alloc, Format::One, bytes, places))
    }

    /// Versions and others above them, in a block of their own. Their entries are copied as they stand, if their formats
    /// are the same.
    pub(crate) fn joined(
        alloc: A,
        lower: &PackedRows<A>,
        upper: &PackedRows<A>,
    ) -> Result<PackedRows<A>, AllocError>
        requires rise { VersionsRise (lower.now ++ upper.now) }
        requires room { length (packed_page (lower.now ++ upper.now)) < 2 ^ 32 }
        ensures { IfOk result (λ r. r ≡ lower.now ++ upper.now) }
    {
        if lower.format().is_same(upper.format()) {
            PackedRows::joined_alike(alloc, lower, upper)
        } else {
            PackedRows::joined_anew(alloc, lower, upper)
        }
    }

    /// Versions and others above them, in a block of their own. Their entries are copied as they stand.
    fn joined_alike(
        alloc: A,
        lower: &PackedRows<A>,
        upper: &PackedRows<A>,
    ) -> Result<PackedRows<A>, AllocError>
        requires rise { VersionsRise (lower.now ++ upper.now) }
        requires room { length (packed_page (lower.now ++ upper.now)) < 2 ^ 32 }
        requires alike { format_of lower.now ≡ format_of upper.now }
        ensures { IfOk result (λ r. r ≡ lower.now ++ upper.now) }
    {
        let (_, entries) = upper.bytes.as_slice().split_at(5);
        let mut bytes = Vec::with_capacity(alloc, lower.bytes.len() + entries.len())?;
        bytes.extend_from_slice(lower.bytes.as_slice())?;
        bytes.extend_from_slice(entries)?;
        let from = (lower.bytes.len() - 5) as u32;
        let places = joined_places(
            alloc,
            lower.places.as_slice(),
            upper.places.as_slice(),
            from,
        )?;
        write_count(&mut bytes, places.len() as u32);
        Ok(PackedRows::from_block(alloc, lower.format, bytes, places))
    }

    /// Versions and others above them, written anew in format 2.
    fn joined_anew(
        alloc: A,
        lower: &PackedRows<A>,
        upper: &PackedRows<A>,
    ) -> Result<PackedRows<A>, AllocError>
        requires rise { VersionsRise (lower.now ++ upper.now) }
        requires room { length (packed_page (lower.now ++ upper.now)) < 2 ^ 32 }
        requires wide { format_of (lower.now ++ upper.now) ≡ Two }
        ensures { IfOk result (λ r. r ≡ lower.now ++ upper.now) }
    {
        let size = lower.len_in(Format::Two) + upper.len_in(Format::Two) - 5;
        let mut bytes = Vec::with_capacity(alloc, size)?;
        let mut places = Vec::with_capacity(alloc, lower.len() + upper.len())?;
        bytes.extend_from_slice(&[2, 0, 0, 0, 0])?;
        append_all(&mut bytes, &mut places, lower)?;
        append_all(&mut bytes, &mut places, upper)?;
        write_count(&mut bytes, places.len() as u32);
        Ok(PackedRows::from_block(alloc, Format::Two, bytes, places))
    }

    /// Adds a version above all others. An `Err` changes nothing. The first value that two bytes can't tell the length of
    /// has the page written anew in format 2.
    pub fn push(&mut self, version: Version<'_>) -> Result<(), AllocError>
        requires above { VersionsRise (self.old ++ version_of version ∷ []) }
        requires room { HasRoomFor self.old (version_of version) }
        ensures ok { OnOk result (self.new ≡ self.old ++ version_of version.entry ∷ []) }
        ensures err { OnErr result (self.new ≡ self.old) }
    {
        if !self.format().is_same(self.format_with(version)) {
            *self = self.anew_with(version)?;
            return Ok(());
        }
        self.push_alike(version)
    }

    /// Adds a version above all others that leaves the page its format. An `Err` changes nothing.
    fn push_alike(&mut self, version: Version<'_>) -> Result<(), AllocError>
        requires above { VersionsRise (self.old ++ version_of version ∷ []) }
        requires room { HasRoomFor self.old (version_of version) }
        requires alike { format_of self.old ≡ format_of (self.old ++ version_of version ∷ []) }
        ensures ok { OnOk result (self.new ≡ self.old ++ version_of version.entry ∷ []) }
        ensures err { OnErr result (self.new ≡ self.old) }
    {
        append_placed(&mut self.bytes, &mut self.places, self.format, version)?;
        write_count(&mut self.bytes, self.places.len() as u32);
        self.filter.forget();
        self.alone = false;
        Ok(())
    }

    /// The same versions in a block of just their size.
    pub fn exact<B: Allocator + Copy>(&self, alloc: B) -> Result<PackedRows<B>, AllocError>
        ensures { IfOk result (λ r. r ≡ self.now) }
    {
        let bytes = Vec::from_slice(alloc, self.bytes.as_slice())?;
        let places = Vec::from_slice(alloc, self.places.as_slice())?;
        Ok(PackedRows::from_block(alloc, self.format, bytes, places))
    }

    /// These versions and one above them, written anew in format 2, in a block that is no smaller.
    fn anew_with(&self, version: Version<'_>) -> Result<PackedRows<A>, AllocError>
        requires above { VersionsRise (self.now ++ version_of version ∷ []) }
        requires room { HasRoomFor self.now (version_of version) }
        requires wide { format_of (self.now ++ version_of version ∷ []) ≡ Two }
        ensures { IfOk result (λ r. r ≡ self.now ++ version_of version.entry ∷ []) }
    {
        let alloc = *self.bytes.allocator();
        let size = self.len_in(Format::Two) + entry_size(Format::Two, version);
        let mut bytes = Vec::with_capacity(alloc, self.bytes.capacity().max(size))?;
        let mut places = Vec::with_capacity(alloc, self.places.capacity().max(self.len() + 1))?;
        bytes.extend_from_slice(&[2, 0, 0, 0, 0])?;
        append_all(&mut bytes, &mut places, self)?;
        append_placed(&mut bytes, &mut places, Format::Two, version)?;
        write_count(&mut bytes, places.len() as u32);
        Ok(PackedRows::from_block(alloc, Format::Two, bytes, places))
    }
}

impl<A: Allocator> PackedRows<A> {
    /// Makes look-ups of keys fast, until versions are added.
    pub(crate) fn note_keys(&mut self, alloc: A) -> Result<(), AllocError>
        ensures { self.new ≡ self.old }
    {
        self.hint.reserve(self.places.len())?;
        let notes = noted(
            alloc,
            &mut self.hint,
            self.format,
            self.bytes.as_slice(),
            self.places.as_slice(),
        )?;
        self.filter = notes.filter;
        self.alone = notes.alone;
        Ok(())
    }

    /// How many versions there are.
    pub fn len(&self) -> usize
        ensures len { result ≡ length self.now }
        ensures rise { VersionsRise self.now }
        ensures versions { AreVersions self.now }
    {
        self.places.len()
    }

    pub fn is_empty(&self) -> bool
        ensures { result ≡ (length self.now == 0) }
    {
        self.places.is_empty()
    }

    /// Whether each version is known to be a value, and the only one of its key.
    pub fn are_alone(&self) -> bool
        ensures { IsTrue result → AreAlone self.now }
    {
        self.alone
    }

    /// The bytes of the page of these versions.
    pub fn as_bytes(&self) -> &[u8]
        ensures page { result.now ≡ packed_page self.now }
        ensures short { length (packed_page self.now) < 2 ^ 32 }
    {
        self.bytes.as_slice()
    }

    /// The format of the page of these versions.
    pub fn format(&self) -> Format
        ensures { result ≡ format_of self.now }
    {
        self.format
    }

    /// The format of the page of these versions and this one.
    fn format_with(&self, version: Version<'_>) -> Format
        ensures { result ≡ format_of (self.now ++ version_of version.entry ∷ []) }
    {
        self.format.wider(format_of(version))
    }

    /// How many bytes these versions have in the format.
    fn len_in(&self, format: Format) -> usize
        ensures len { result ≡ length (packed_in format self.now) }
        ensures few { result < 2 ^ 53 }
    {
        if self.format.is_same(format) {
            return self.bytes.len();
        }
        let mut len = 5;
        for index in 0..self.len() {
            len += entry_size(format, self.get(index));
        }
        len
    }

    /// How many bytes the page of these versions and others above them has.
    pub(crate) fn page_len_with(&self, upper: &PackedRows<A>) -> usize
        ensures { result ≡ length (packed_page (self.now ++ upper.now)) }
    {
        let format = self.format.wider(upper.format);
        self.len_in(format) + upper.len_in(format) - 5
    }

    /// The version at this place in the order, lent.
    pub fn get(&self, index: usize) -> Version<'_>
        requires { index < length self.now }
        ensures version { slice_get self.now index ≡ Some (version_of result) }
        ensures rise { VersionsRise self.now }
    {
        lent_at(
            self.format,
            self.bytes.as_slice(),
            self.places.as_slice(),
            index,
        )
    }

    /// The version stands above all of them.
    pub fn is_below(&self, version: Version<'_>) -> bool
        ensures { IsTrue result ↔ VersionsRise (self.now ++ version_of version.entry ∷ []) }
    {
        let len = self.len();
        if len == 0 {
            return true;
        }
        let last = self.get(len - 1);
        stands_above(version, last.key, last.number)
    }

    /// The page of these versions and this one has fewer than 2^32 bytes.
    pub fn has_room_for(&self, version: Version<'_>) -> bool
        ensures { IsTrue result ↔ HasRoomFor self.now (version_of version.entry) }
    {
        let format = self.format_with(version);
        self.len_in(format) + entry_size(format, version) < 4_294_967_296
    }

    /// Where the entry with this index begins, or where the entries end, if the index is behind the last one.
    fn place_of(&self, index: usize) -> usize
        requires { index ≤ length self.now }
        ensures place { result ≡ 5 + length (entries (format_of self.now) (take index self.now)) }
        ensures few { result < 2 ^ 32 }
    {
        if index == self.places.len() {
            self.bytes.len()
        } else {
            self.places[index] as usize
        }
    }

    /// Whether `push_rows` can add these rows.
    pub fn can_take<B: Allocator>(&self, other: &PackedRows<B>, from: usize, to: usize) -> bool
        requires order { from ≤ to }
        requires within { to ≤ length other.now }
        ensures { IsTrue result ↔ CanTake self.now other.now from to }
    {
        if !self.format.is_same(other.format()) {
            return false;
        }
        let more = other.place_of(to) - other.place_of(from);
        self.bytes.len() + more < 4_294_967_296
    }

    /// Adds rows of another block, from one place to before another, above all versions. Their entries are copied as they stand. An `Err`
    /// changes nothing.
    pub fn push_rows<B: Allocator>(
        &mut self,
        other: &PackedRows<B>,
        from: usize,
        to: usize,
    ) -> Result<(), AllocError>
        requires order { from ≤ to }
        requires within { to ≤ length other.now }
        requires rise { VersionsRise (self.old ++ drop from (take to other.now)) }
        requires can { CanTake self.old other.now from to }
        ensures ok { OnOk result (self.new ≡ self.old ++ drop from (take to other.now)) }
        ensures err { OnErr result (self.new ≡ self.old) }
    {
        let first = other.place_of(from);
        let end = other.place_of(to);
        let entries = &other.bytes.as_slice()[first..end];
        let places = &other.places.as_slice()[from..to];
        append_moved(
            &mut self.bytes,
            &mut self.places,
            entries,
            places,
            first as u32,
        )?;
        write_count(&mut self.bytes, self.places.len() as u32);
        self.filter.forget();
        self.alone = false;
        Ok(())
    }

    /// How many versions stand at the key and number or below.
    pub fn count_up_to(&self, key: TenantKey<'_>, number: u64) -> usize
        ensures { IsCountUpTo self.now (key.entry.bytes.now, number) result }
    {
        self.count_between(key, number, 0, self.len())
    }

    /// How many versions stand at the key and number or below, those before `from` counted without a look at them. It is found the faster
    /// the fewer stand between (exponential search: Bentley and Yao 1976).
    pub fn count_from(&self, key: TenantKey<'_>, number: u64, from: usize) -> usize
        requires { from ≤ length self.now }
        ensures { IsCountFrom self.now (key.entry.bytes.now, number) from result }
    {
        let len = self.places.len();
        let mut low = from;
        let mut next = from;
        while next < len {
            if stands_above(self.get(next), key, number) {
                return self.count_between(key, number, low, next);
            }
            low = next + 1;
            next += low - from;
        }
        self.count_between(key, number, low, len)
    }

    /// How many versions before the place `high` stand at the key and number or below, those before `low` counted without a look at
    /// them.
    fn count_between(&self, key: TenantKey<'_>, number: u64, low: usize, high: usize) -> usize
        requires order { low ≤ high }
        requires within { high ≤ length self.now }
        ensures { IsCountBetween self.now (key.entry.bytes.now, number) low high result }
    {
        let (mut low, mut high) = (low, high);
        while low < high {
            let middle = low + (high - low) / 2;
            if stands_above(self.get(middle), key, number) {
                high = middle;
            } else {
                low = middle + 1;
            }
        }
        low
    }

    /// Whether so many versions stand at the key and number or below.
    fn is_count(&self, count: usize, key: TenantKey<'_>, number: u64) -> bool
        requires { count ≤ length self.now }
        ensures { IsTrue result → IsCountUpTo self.now (key.entry.bytes.now, number) count }
    {
        if count > 0 && stands_above(self.get(count - 1), key, number) {
            return false;
        }
        count == self.len() || stands_above(self.get(count), key, number)
    }

    /// How many versions stand at the key and number or below, if that is the guess or one more.
    fn count_at(&self, key: TenantKey<'_>, number: u64, guess: usize) -> Option<usize>
        ensures { IfSome result (IsCountUpTo self.now (key.entry.bytes.now, number)) }
    {
        let len = self.len();
        if guess <= len && self.is_count(guess, key, number) {
            return Some(guess);
        }
        if guess < len && self.is_count(guess + 1, key, number) {
            return Some(guess + 1);
        }
        None
    }

    /// How many versions stand at the key and number or below. It is found at once where it is the guess or one more, or where the hint
    /// knows the key.
    pub fn count_near(&self, key: TenantKey<'_>, number: u64, guess: usize) -> usize
        ensures { IsCountUpTo self.now (key.entry.bytes.now, number) result }
    {
        if let Some(count) = self.count_at(key, number, guess) {
            return count;
        }
        if let Some(count) = self.count_at(key, number, self.hint.guess(key.bytes).index) {
            return count;
        }
        self.count_up_to(key, number)
    }

    /// The newest version of the key numbered at most this, lent. It is found the faster the nearer the guess is to its
    /// place; with a guess beyond all places the hint makes one.
    pub fn version_at(&self, key: TenantKey<'_>, number: u64, guess: usize) -> Option<Version<'_>>
        ensures { option_map version_of result ≡ version_at self.now key.entry.bytes.now number }
    {
        if guess <= self.len() {
            return self.version_near(key, number, guess);
        }
        let guess = self.hint.guess(key.bytes);
        if let Some(version) = self.newest_at(guess, key, number) {
            return Some(version);
        }
        if !self.filter.may_have(key.bytes) {
            return None;
        }
        self.version_near(key, number, guess.index)
    }

    /// The version that a guess names, lent, if its entry begins where the guess says. That is where it is read, which doesn't wait for the
    /// list of places.
    #[inline(always)]
    fn guessed(&self, guess: Guess) -> Option<Version<'_>>
        ensures { IfSome result (λ version. slice_get self.now guess.index
            ≡ Some (version_of version)) }
    {
        if guess.index >= self.places.len() || guess.place != self.places[guess.index] as usize {
            return None;
        }
        let entries = self.bytes.as_slice().split_at(guess.place).1;
        Some(lent_version(self.format, entries))
    }

    /// The version that a guess names, lent, if it is the newest of the key numbered at most this.
    #[inline(always)]
    fn newest_at(&self, guess: Guess, key: TenantKey<'_>, number: u64) -> Option<Version<'_>>
        ensures { IfSome result (λ version. Some (version_of version)
            ≡ version_at self.now key.entry.bytes.now number) }
    {
        let version = self.guessed(guess)?;
        if !is_up_to(version, key, number) {
            return None;
        }
        if self.alone {
            return Some(version);
        }
        let len = self.len();
        let next = guess.index + 1;
        if next == len {
            return Some(version);
        }
        if is_up_to(self.get(next), key, number) {
            None
        } else {
            Some(version)
        }
    }

    /// The newest version of the key numbered at most this, lent, by a search that begins at the guess.
    fn version_near(&self, key: TenantKey<'_>, number: u64, guess: usize) -> Option<Version<'_>>
        ensures { option_map version_of result ≡ version_at self.now key.entry.bytes.now number }
    {
        let count = self.count_near(key, number, guess);
        if count == 0 {
            return None;
        }
        let version = self.get(count - 1);
        if is_up_to(version, key, number) {
            Some(version)
        } else {
            None
        }
    }
}

/// The version whose entry stands at the place with this index, lent.
fn lent_at<'a>(format: Format, bytes: &'a [u8], places: &[u32], index: usize) -> Version<'a>
    requires block { IsBlock format bytes.now places.now }
    requires within { index < length places.now }
    ensures { slice_get (rows_in format bytes.now places.now) index ≡ Some (version_of result) }
{
    let place = places[index] as usize;
    lent_version(format, bytes.split_at(place).1)
}

/// What is noted of the versions of a block. The hint comes to know where the newest of each key stands.
fn noted<A: Allocator>(
    alloc: A,
    hint: &mut Hint<A>,
    format: Format,
    bytes: &[u8],
    places: &[u32],
) -> Result<Notes<A>, AllocError>
    requires { IsBlock format bytes.now places.now }
    ensures marks { IfOk result (λ notes.
        CoversRows notes.filter (rows_in format bytes.now places.now)) }
    ensures alone { IfOk result (λ notes. notes.alone ≡ true
        → AreAlone (rows_in format bytes.now places.now)) }
{
    let mut filter = Filter::for_keys(alloc, places.len())?;
    let (mut last, mut alone) = (None, true);
    for index in 0..places.len() {
        let version = lent_at(format, bytes, places, index);
        let key = HashedKey::new(version.key.bytes);
        filter.add_hashed(key.bytes, key.hash);
        if key.is_same(last) {
            alone = false;
        } else {
            note_before(hint, places, index, last);
            alone = alone && version.value.is_some();
        }
        last = Some(key);
    }
    note_before(hint, places, places.len(), last);
    Ok(Notes { filter, alone })
}

/// Notes the last row before one with this index, the newest of its key.
#[inline(always)]
fn note_before<A: Allocator>(
    hint: &mut Hint<A>,
    places: &[u32],
    index: usize,
    last: Option<HashedKey<'_>>,
) {
    let index = index.saturating_sub(1);
    if let (Some(last), Some(place)) = (last, places.get(index)) {
        hint.note(last.hash, index, *place);
    }
}

/// The version is the key's, and numbered at most this.
#[inline(always)]
fn is_up_to(version: Version<'_>, key: TenantKey<'_>, number: u64) -> bool
    ensures { result ≡ is_up_to key.entry.bytes.now number (version_of version.entry) }
{
    compare(key.bytes, version.key.bytes).is_eq() && version.number <= number
}

/// The version stands above the key and number.
fn stands_above(version: Version<'_>, key: TenantKey<'_>, number: u64) -> bool
    ensures { result ≡ is_above (key.entry.bytes.now, number) (version_of version.entry) }
{
    match compare(key.bytes, version.key.bytes) {
        Ordering::Less => true,
        Ordering::Equal => number < version.number,
        Ordering::Greater => false,
    }
}

/// Writes the version's entry behind the bytes, and its place behind the places.
fn append_placed<A: Allocator>(
    bytes: &mut Vec<u8, A>,
    places: &mut Vec<u32, A>,
    format: Format,
    version: Version<'_>,
) -> Result<(), AllocError>
    requires low { length bytes.old.items < 2 ^ 32 }
    requires told { IsTold format (bytes_at version.value) }
    ensures bytes { OnOk result
        (bytes.new.items ≡ bytes.old.items ++ entry_of format version.entry) }
    ensures places { OnOk result (places.new.items
        ≡ places.old.items ++ length bytes.old.items ∷ []) }
    ensures bytes_stay { OnErr result (bytes.new.items ≡ bytes.old.items) }
    ensures places_stay { OnErr result (places.new.items ≡ places.old.items) }
{
    let start = bytes.len();
    if let Err(refused) = append_entry(bytes, format, version) {
        bytes.truncate(start);
        return Err(refused);
    }
    if places.push(start as u32).is_err() {
        bytes.truncate(start);
        return Err(AllocError);
    }
    Ok(())
}

/// Writes entries behind the bytes, and behind the places where they stand then, of those where they stood from `first` on.
fn append_moved<A: Allocator>(
    bytes: &mut Vec<u8, A>,
    places: &mut Vec<u32, A>,
    entries: &[u8],
    stood: &[u32],
    first: u32,
) -> Result<(), AllocError>
    requires low { length bytes.old.items < 2 ^ 32 }
    requires above { All (λ place. first ≤ place) stood.now }
    requires fit { All (λ place. place - first + length bytes.old.items < 2 ^ 32) stood.now }
    ensures bytes { OnOk result (bytes.new.items ≡ bytes.old.items ++ entries.now) }
    ensures places { OnOk result (places.new.items ≡ places.old.items
        ++ map (λ place. place - first + length bytes.old.items) stood.now) }
    ensures bytes_stay { OnErr result (bytes.new.items ≡ bytes.old.items) }
    ensures places_stay { OnErr result (places.new.items ≡ places.old.items) }
{
    let start = bytes.len();
    let len = places.len();
    bytes.extend_from_slice(entries)?;
    if places.extend_from_slice(stood).is_err() {
        bytes.truncate(start);
        return Err(AllocError);
    }
    move_places(&mut places[len..], first, start as u32);
    Ok(())
}

/// Moves places that stand from `first` on, so that they stand from `start` on.
fn move_places(places: &mut [u32], first: u32, start: u32)
    requires above { All (λ place. first ≤ place) places.old }
    requires fit { All (λ place. place - first + start < 2 ^ 32) places.old }
    ensures { places.new ≡ map (λ place. place - first + start) places.old }
{
    for place in places.iter_mut() {
        *place = *place - first + start;
    }
}

/// Writes the entries of versions in format 2 behind the bytes, and their places behind the places.
fn append_all<A: Allocator>(
    bytes: &mut Vec<u8, A>,
    places: &mut Vec<u32, A>,
    rows: &PackedRows<A>,
) -> Result<(), AllocError>
    requires { length bytes.old.items + length (entries Two rows.now) < 2 ^ 32 }
    ensures bytes { OnOk result (bytes.new.items ≡ bytes.old.items ++ entries Two rows.now) }
    ensures places { OnOk result (places.new.items
        ≡ places.old.items ++ places_from Two (length bytes.old.items) rows.now) }
{
    for index in 0..rows.len() {
        append_placed(bytes, places, Format::Two, rows.get(index))?;
    }
    Ok(())
}

/// Writes the count of entries into the header.
fn write_count<A: Allocator>(bytes: &mut Vec<u8, A>, count: u32)
    requires { 5 ≤ length bytes.old.items }
    ensures { bytes.new.items ≡ with_count bytes.old.items count }
{
    bytes[1..5].copy_from_slice(&count.to_be_bytes());
}

/// Places, and others that stand so many bytes further on than they did.
fn joined_places<A: Allocator + Copy>(
    alloc: A,
    lower: &[u32],
    upper: &[u32],
    by: u32,
) -> Result<Vec<u32, A>, AllocError>
    requires { All (λ place. by + place < 2 ^ 32) upper.now }
    ensures { IfOk result (λ places. places.items
        ≡ lower.now ++ map (λ place. by + place) upper.now) }
{
    let mut places = Vec::from_slice(alloc, lower)?;
    places.reserve(upper.len())?;
    for i in 0..upper.len() {
        places.push(by + upper[i])?;
    }
    Ok(places)
}
