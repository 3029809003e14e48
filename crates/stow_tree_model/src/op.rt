//! What a message does to the value of its key.

/// What a message does to the value of its key (Bender and others 2015).
#[derive(Clone, Copy)]
pub enum Op<'a> {
    /// The key has this value.
    Put(&'a [u8]),
    /// The key has no value any more: a tombstone.
    Gone,
    /// The key's value is followed by this, a missing one counting as empty: an upsert.
    Append(&'a [u8]),
}

impl<'a> Op<'a> {
    ghost use Rattle.std.specs.Prelude.{◌≡◌};
    ghost use Rattle.stow_tree_model.specs.Op.{op_of, bytes_in};

    /// The bytes that it carries: the value of a put, the suffix of an append.
    pub fn carried(self) -> &'a [u8]
        ensures { result.now ≡ bytes_in (op_of self.entry) }
    {
        match self {
            Op::Put(value) => value,
            Op::Gone => &[],
            Op::Append(suffix) => suffix,
        }
    }
}
