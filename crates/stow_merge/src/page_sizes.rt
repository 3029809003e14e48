//! The sizes that pages are to have.

/// The sizes that pages are to have, in bytes, as far as keys let them.
#[derive(Clone, Copy)]
pub(crate) struct PageSizes {
    first: u64,
    others: u64,
}

impl PageSizes {
    /// All pages full.
    pub(crate) fn all_full(room: u64) -> PageSizes {
        PageSizes {
            first: room,
            others: room,
        }
    }

    /// As few pages as hold all bytes, each of the same size.
    pub(crate) fn even(total: u64, room: u64) -> PageSizes {
        if room == 0 {
            return PageSizes::all_full(room);
        }
        let size = total.div_ceil(total.div_ceil(room).max(1));
        PageSizes {
            first: size,
            others: size,
        }
    }

    /// All pages full but the first. It gets what the others leave, each of which may lack a key's bytes.
    pub(crate) fn rest_first(keys: u64, total: u64, room: u64) -> PageSizes {
        if room == 0 || keys == 0 {
            return PageSizes::all_full(room);
        }
        let others = total.div_ceil(room).saturating_sub(1);
        let held = room.saturating_sub(total / keys).saturating_mul(others);
        PageSizes {
            first: total.saturating_sub(held).min(room),
            others: room,
        }
    }

    /// The size that a page is to have, with so many pages before it.
    pub(crate) fn after(self, pages: usize) -> u64 {
        if pages == 0 { self.first } else { self.others }
    }
}
