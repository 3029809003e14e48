//! The replies of an array.
ghost use Rattle.std.specs.Prelude.{◌≡◌, ◌++◌, ◌∷◌, [], ◌<◌, length, get_or};
ghost use Rattle.std.specs.Prelude.{IfOk, OnOk, OnErr};
ghost use Rattle.stow_model.specs.Item.{Integer, Bulk, Null, item_of};

use crate::item::Item;
use crate::item_span::ItemSpan;
use crate::span::Span;
use std::alloc::{AllocError, Allocator, Global};
use std::marker::Model;

/// The replies inside an array, in one block of bytes with the span of each.
#[derive(Drop)]
pub struct Items<A: Allocator = Global> {
    block: Vec<u8, A>,
    spans: Vec<ItemSpan, A>,
}

impl<A: Allocator> Model for Items<A> {
    ghost use Rattle.std.specs.Prelude.{List};
    ghost use Rattle.stow_model.specs.Item.{Item};
    ghost use Rattle.stow_model.specs.Items.{items_at, AreItemsInside};

    ghost Value = { List Item };

    ghost view = { λ a. items_at a.block.items a.spans.items };

    ghost invariant = { λ a. AreItemsInside a.block.items a.spans.items };
}

impl<A: Allocator + Copy> Items<A> {
    /// No replies. It takes no memory.
    pub fn new(alloc: A) -> Items<A>
        ensures { result ≡ [] }
    {
        Items {
            block: Vec::new(alloc),
            spans: Vec::new(alloc),
        }
    }

    /// No replies, with room for this many of so many bytes together.
    pub fn with_capacity(alloc: A, items: usize, bytes: usize) -> Result<Items<A>, AllocError>
        ensures { IfOk result (λ made. made ≡ []) }
    {
        Ok(Items {
            block: Vec::with_capacity(alloc, bytes)?,
            spans: Vec::with_capacity(alloc, items)?,
        })
    }
}

impl<A: Allocator> Items<A> {
    /// How many replies there are.
    pub fn len(&self) -> usize
        ensures { result ≡ length self.now }
    {
        self.spans.len()
    }

    /// The reply at an index.
    pub fn get(&self, index: usize) -> Item<'_>
        requires { index < length self.now }
        ensures { item_of result ≡ get_or self.now index (item_of result) }
    {
        match self.spans[index] {
            ItemSpan::Integer(number) => Item::Integer(number),
            ItemSpan::Bulk(span) => Item::Bulk(&self.block[span.start..span.end]),
            ItemSpan::Null => Item::Null,
        }
    }

    /// Adds an integer. An `Err` changes nothing.
    pub fn push_integer(&mut self, number: i64) -> Result<(), AllocError>
        ensures ok { OnOk result (self.new ≡ self.old ++ Integer number ∷ []) }
        ensures err { OnErr result (self.new ≡ self.old) }
    {
        self.spans.push(ItemSpan::Integer(number))?;
        Ok(())
    }

    /// Adds a bulk string, a copy of the bytes. An `Err` changes nothing.
    pub fn push_bulk(&mut self, bytes: &[u8]) -> Result<(), AllocError>
        ensures ok { OnOk result (self.new ≡ self.old ++ Bulk bytes.now ∷ []) }
        ensures err { OnErr result (self.new ≡ self.old) }
    {
        self.spans.reserve(1)?;
        let start = self.block.len();
        self.block.extend_from_slice(bytes)?;
        let end = self.block.len();
        self.spans.push(ItemSpan::Bulk(Span { start, end }))?;
        Ok(())
    }

    /// Adds a null. An `Err` changes nothing.
    pub fn push_null(&mut self) -> Result<(), AllocError>
        ensures ok { OnOk result (self.new ≡ self.old ++ Null ∷ []) }
        ensures err { OnErr result (self.new ≡ self.old) }
    {
        self.spans.push(ItemSpan::Null)?;
        Ok(())
    }
}
