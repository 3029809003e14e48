//! The two formats of a page.
ghost use Rattle.std.specs.Prelude.{◌≡◌, ◌↔◌, IsTrue, ◌<◌, ◌≤◌, ◌^◌, length};
ghost use Rattle.stow_page.specs.Format.{length_width};
ghost use Rattle.stow_page.specs.Rows.{length_in, wider};

use crate::big_endian::{u16_at_front, u32_at_front};

/// How a page tells the lengths of its values.
#[derive(Clone, Copy)]
pub enum Format {
    /// In two bytes: none is longer than 65,535 bytes.
    One,
    /// In four bytes: one at least is longer.
    Two,
}

impl Format {
    pub(crate) fn is_same(self, other: Format) -> bool
        ensures { IsTrue result ↔ (self ≡ other) }
    {
        match self {
            Format::One => matches!(other, Format::One),
            Format::Two => matches!(other, Format::Two),
        }
    }

    /// The format of versions, some of which have this one alone, and the others the other.
    pub(crate) fn wider(self, other: Format) -> Format
        ensures { result ≡ wider self other }
    {
        match self {
            Format::One => other,
            Format::Two => Format::Two,
        }
    }

    /// In how many bytes the length of a value is told.
    pub(crate) fn length_width(self) -> usize
        ensures { result ≡ length_width self }
    {
        match self {
            Format::One => 2,
            Format::Two => 4,
        }
    }

    /// The length of a value that stands at the front of the bytes.
    pub(crate) fn length_at_front(self, bytes: &[u8]) -> usize
        requires { length_width self ≤ length bytes.now }
        ensures length { result ≡ length_in self bytes.now }
        ensures few { result < 2 ^ 32 }
    {
        match self {
            Format::One => u16_at_front(bytes) as usize,
            Format::Two => u32_at_front(bytes) as usize,
        }
    }
}
