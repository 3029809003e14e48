//! The way down to a leaf, along which a range goes from key to key.
//!
//! A part of it, a buffer or the leaf's rows, has its next key at hand: of what a key has at a number only those are asked whose
//! next key it is.
ghost use Rattle.std.specs.Prelude.{◌≡◌, true, false, IfOk, IfSome};
ghost use Rattle.std.specs.Option.{option_map};
ghost use Rattle.stow_node.specs.StowLeaf.Intervals.{top_key, spans};
ghost use Rattle.stow_tree_model.specs.Operations.{latest, value_in};
ghost use Rattle.stow_tree_model.specs.Value.{IsValue};
ghost use Rattle.stow_read.specs.Found.{found_value, lent_of};
ghost use Rattle.stow_read.specs.NextKey.{IsNextKey};
ghost use Rattle.stow_read.specs.Suffixes.{suffixes_of, continued};
ghost use Rattle.stow_read.specs.Walk.{head_of, IsHeadOf, IsNumberAfter};
ghost use Rattle.stow_read.specs.Way.{buffers_of, key_in, is_next, lower_key, lower_next, least_of, AreNext, row_ops, way_ops, IsReadyFor, WayStandsAt, IsAt, IsSameWay};

use crate::descent::below_until;
use crate::found::Found;
use crate::getting::value_in_rows;
use crate::guesses::Guesses;
use crate::lent_value::LentValue;
use crate::level::Level;
use crate::next_key::{is_below, next_in_rows};
use crate::next_number::{number_in_buffer, number_in_rows};
use crate::row_head::RowHead;
use crate::start::Start;
use crate::suffixes::{Look, Suffixes};
use crate::value_head::ValueHead;
use std::alloc::{AllocError, Allocator};
use stow_node::child::Child;
use stow_node::node::Node;
use stow_node::stow_leaf::ends::top_key;
use stow_node::stow_page::rows::Rows;
use stow_tree_model::tenant_key::TenantKey;
use stow_tree_model::tenant_key_buf::TenantKeyBuf;

/// All that a node has of the keys of one leaf: what the buffers on the way down to it and its rows have of them.
#[derive(Drop)]
pub(crate) struct Way<'a, A: Allocator> {
    /// The buffers from the top on.
    levels: Vec<Level<'a, A>, A>,
    /// The leaf's rows.
    rows: &'a Rows<A>,
    /// The lowest key of an interval that has rows.
    next_row: Option<TenantKey<'a>>,
    /// Where they stand.
    place: usize,
    /// Where the leaf's keys end.
    pub(crate) end: TenantKey<'a>,
}

/// The lower one of two keys.
fn lower_key<'b>(key: TenantKey<'b>, other: TenantKey<'b>) -> TenantKey<'b>
    ensures { result.bytes.now ≡ lower_key key.entry.bytes.now other.entry.bytes.now }
{
    if is_below(other, key) { other } else { key }
}

/// The lower one of two keys that may be there.
fn lower_next<'b>(key: Option<TenantKey<'b>>, other: Option<TenantKey<'b>>) -> Option<TenantKey<'b>>
    ensures { key_in result ≡ lower_next (key_in key.entry) (key_in other.entry) }
{
    let Some(first) = key else {
        return other;
    };
    match other {
        None => Some(first),
        Some(second) => Some(lower_key(first, second)),
    }
}

/// The lowest one of the levels' next keys and this one.
fn least<'a, A: Allocator>(
    levels: &[Level<'a, A>],
    next_row: Option<TenantKey<'a>>,
) -> Option<TenantKey<'a>>
    ensures { key_in result ≡ least_of levels.now (key_in next_row.entry) }
{
    let mut at = levels.len();
    let mut least = next_row;
    while at > 0 {
        at -= 1;
        least = lower_next(levels[at].next, least);
    }
    least
}

/// Whether the next key is this one.
fn is_next(next: Option<TenantKey<'_>>, key: TenantKey<'_>) -> bool
    ensures { result ≡ is_next (key_in next.entry) key.entry.bytes.now }
{
    match next {
        None => false,
        Some(next) => next.is_same(key),
    }
}

/// Each level whose next key this is goes on to the next one behind it and below `to`.
fn pass_levels<'a, A: Allocator>(
    levels: &mut Vec<Level<'a, A>, A>,
    key: TenantKey<'_>,
    to: TenantKey<'_>,
)
    requires { AreNext key.bytes.now false to.bytes.now levels.old.items }
    ensures buffers { buffers_of levels.new.items ≡ buffers_of levels.old.items }
    ensures next { AreNext key.entry.bytes.now true to.entry.bytes.now levels.new.items }
{
    for i in 0..levels.len() {
        if is_next(levels[i].next, key) {
            let guess = levels[i].place.saturating_add(1);
            levels[i] = Level::new(levels[i].buffer, Start { key, after: true }, to, guess);
        }
    }
}

impl<'a, A: Allocator> Way<'a, A> {
    /// The rows go on behind the key if it is their next one.
    fn pass_row(&mut self, key: TenantKey<'_>, to: TenantKey<'_>)
        requires { IsNextKey (row_ops self.old) key.bytes.now false to.bytes.now
            (key_in self.old.next_row) }
        ensures same { IsSameWay self.old self.new }
        ensures levels { self.new.levels ≡ self.old.levels }
        ensures next { IsNextKey (row_ops self.new) key.entry.bytes.now true to.entry.bytes.now
            (key_in self.new.next_row) }
    {
        if is_next(self.next_row, key) {
            let mut place = self.place.saturating_add(1);
            self.next_row = next_in_rows(self.rows, Start { key, after: true }, to, &mut place);
            self.place = place;
        }
    }

    /// Goes on to the lowest key behind this one and below `to` that has messages here.
    pub(crate) fn pass(&mut self, key: TenantKey<'_>, to: TenantKey<'_>) -> Option<TenantKey<'a>>
        requires { WayStandsAt self.old key.bytes.now to.bytes.now }
        ensures same { IsSameWay self.old self.new }
        ensures next { IsNextKey (way_ops self.new) key.entry.bytes.now true to.entry.bytes.now
            (key_in result) }
        ensures stands { IfSome result (λ k. WayStandsAt self.new k.bytes.now to.entry.bytes.now) }
    {
        pass_levels(&mut self.levels, key, to);
        self.pass_row(key, to);
        least(self.levels.as_slice(), self.next_row)
    }
}

impl<'a, A: Allocator + Copy> Way<'a, A> {
    /// The way down to the leaf of the key, standing at the key. The guesses are where searches for it ended.
    pub(crate) fn to(
        alloc: A,
        node: &'a Node<A>,
        key: TenantKey<'_>,
        to: TenantKey<'_>,
        guesses: &Guesses,
    ) -> Result<Way<'a, A>, AllocError>
        requires { spans node.now.low top_key key.bytes.now ≡ true }
        ensures { IfOk result (λ way. IsAt node.now way key.entry.bytes.now to.entry.bytes.now) }
    {
        let start = Start { key, after: false };
        let mut levels = Vec::new(alloc);
        let mut here = node;
        let mut end = top_key();
        loop {
            let _known = here.children();
            let guess = guesses.at(levels.len());
            levels.push(Level::new(here.buffer(), start, to, guess))?;
            let below = below_until(here, key);
            end = lower_key(below.high, end);
            match below.child {
                Child::Leaf(leaf) => {
                    let mut place = guesses.at(levels.len());
                    let next_row = next_in_rows(&leaf.rows, start, to, &mut place);
                    return Ok(Way {
                        levels,
                        rows: &leaf.rows,
                        next_row,
                        place,
                        end,
                    });
                }
                Child::Node(lower) => here = lower,
            }
        }
    }

    /// Goes over the levels, adding the key's suffixes, up to the first message or row that is no append.
    fn base(
        &self,
        suffixes: &mut Suffixes<'a, A>,
        key: TenantKey<'_>,
        at: u64,
    ) -> Result<Option<LentValue<'a>>, AllocError>
        requires { IsReadyFor self.now key.bytes.now }
        ensures { IfOk result (λ base.
            continued (suffixes_of suffixes.old) (latest (way_ops self.now key.entry.bytes.now) at)
            ≡ continued (suffixes_of suffixes.new) (option_map lent_of base)) }
    {
        for i in 0..self.levels.len() {
            let level = &self.levels[i];
            if is_next(level.next, key) {
                let guess = level.buffer.near(level.place);
                if let Look::Base(base) = suffixes.look(level.buffer, key, at, guess)? {
                    return Ok(base);
                }
            }
        }
        if is_next(self.next_row, key) {
            Ok(value_in_rows(self.rows, key, at, self.place.saturating_add(1)))
        } else {
            Ok(None)
        }
    }

    /// What the key has at a number.
    pub(crate) fn value(
        &self,
        alloc: A,
        key: TenantKey<'_>,
        at: u64,
    ) -> Result<Option<Found<'a, A>>, AllocError>
        requires { IsReadyFor self.now key.bytes.now }
        ensures { IfOk result (λ found. option_map found_value found
            ≡ latest (way_ops self.now key.entry.bytes.now) at) }
    {
        let mut suffixes = Suffixes::new(alloc);
        let base = self.base(&mut suffixes, key, at)?;
        suffixes.on(alloc, base)
    }

    /// What is told of the value that the key has at a number.
    fn value_head(
        &self,
        alloc: A,
        key: TenantKey<'_>,
        at: u64,
    ) -> Result<Option<ValueHead>, AllocError>
        requires ready { IsReadyFor self.now key.bytes.now }
        requires short { IsValue (value_in (latest (way_ops self.now key.bytes.now) at)) }
        ensures { IfOk result (λ head. head
            ≡ option_map head_of (latest (way_ops self.now key.entry.bytes.now) at)) }
    {
        let mut suffixes = Suffixes::new(alloc);
        let base = self.base(&mut suffixes, key, at)?;
        Ok(suffixes.head_on(base))
    }

    /// The least number above this one of the key's rows.
    fn next_row_number(&self, key: TenantKey<'_>, at: u64) -> Option<u64>
        requires { IsReadyFor self.now key.bytes.now }
        ensures { IsNumberAfter (row_ops self.now key.entry.bytes.now) at result }
    {
        if is_next(self.next_row, key) {
            number_in_rows(self.rows, key, at, self.place.saturating_add(1))
        } else {
            None
        }
    }

    /// The least number above this one of the key's messages: those in a buffer are newer than those below it.
    fn next_number(&self, key: TenantKey<'_>, at: u64) -> Option<u64>
        requires { IsReadyFor self.now key.bytes.now }
        ensures { IsNumberAfter (way_ops self.now key.entry.bytes.now) at result }
    {
        let mut next = self.next_row_number(key, at);
        let mut i = self.levels.len();
        while i > 0 {
            i -= 1;
            let level = &self.levels[i];
            if next.is_none() && is_next(level.next, key) {
                next = number_in_buffer(level.buffer, key, at, level.place);
            }
        }
        next
    }

    /// The key with what is told of the value that it has at a number, and its next number.
    pub(crate) fn head(
        &self,
        alloc: A,
        key: TenantKey<'_>,
        at: u64,
    ) -> Result<Option<RowHead<A>>, AllocError>
        requires ready { IsReadyFor self.now key.bytes.now }
        requires short { IsValue (value_in (latest (way_ops self.now key.bytes.now) at)) }
        ensures { IfOk result (λ head. IsHeadOf key.entry.bytes.now
            (way_ops self.now key.entry.bytes.now) at head) }
    {
        let Some(value) = self.value_head(alloc, key, at)? else {
            return Ok(None);
        };
        let next = self.next_number(key, at);
        let key = TenantKeyBuf::from_key(alloc, key)?;
        Ok(Some(RowHead {
            key,
            number: value.number,
            length: value.length,
            next,
        }))
    }
}
