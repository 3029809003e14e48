//! Indexes by names.
ghost use Rattle.std.specs.Prelude.{◌≡◌, ℕ, List, [], Some, OnOk, OnErr, if◌then◌else◌};
ghost use Rattle.std.specs.Str.{bytes_eq};
ghost use Rattle.stow_login.specs.Names.{index_in};

use std::alloc::{AllocError, Allocator, Global};
use std::collections::BTreeMap;
use std::marker::Model;

/// The index of each name.
#[derive(Drop)]
pub(crate) struct Names<A: Allocator = Global> {
    map: BTreeMap<Vec<u8, A>, u32, A>,
}

impl<A: Allocator> Model for Names<A> {
    ghost use Rattle.stow_login.specs.Names.{Names, names_of};

    ghost Value = { Names };

    ghost view = { λ n. names_of n.map.entries };
}

impl<A: Allocator + Copy> Names<A> {
    pub(crate) fn new(alloc: A) -> Names<A>
        ensures { result ≡ [] }
    {
        Names {
            map: BTreeMap::new(alloc),
        }
    }

    /// Gives a name an index. An `Err` changes nothing.
    pub(crate) fn add(&mut self, alloc: A, name: &[u8], index: u32) -> Result<(), AllocError>
        ensures ok { OnOk result ((q : List ℕ)
            → index_in self.new q
            ≡ (if bytes_eq name.now q then Some index else index_in self.old q)) }
        ensures err { OnErr result (self.new ≡ self.old) }
    {
        self.map.insert(Vec::from_slice(alloc, name)?, index)?;
        Ok(())
    }
}

impl<A: Allocator> Names<A> {
    /// The index of a name.
    pub(crate) fn get(&self, name: &[u8]) -> Option<u32>
        ensures { result ≡ index_in self.now name.now }
    {
        self.map.get(name).copied()
    }
}
