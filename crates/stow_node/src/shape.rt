//! How large the parts of a tree may grow.
ghost use Rattle.std.specs.Prelude.{◌≡◌, ◌≤◌, ◌/◌, max};

/// How large the parts of a tree may grow.
#[derive(Clone, Copy)]
pub struct Shape {
    /// The bytes of a node's buffer.
    pub buffer: u32,
    /// The bytes of a page that a leaf is cut by.
    pub leaf: u32,
    /// The most children that a node may have.
    pub fan_out: u32,
}

impl Shape {
    /// How many bytes of a buffer are to be free once messages moved to make room for so many: at least a quarter of the block,
    /// since all that stay are copied for it.
    pub fn ample(self, bytes: usize) -> usize
        ensures is { result ≡ max bytes (self.buffer / 4) }
        ensures least { bytes ≤ result }
        ensures most { bytes ≤ self.buffer → result ≤ self.buffer }
    {
        bytes.max(self.buffer as usize / 4)
    }
}
