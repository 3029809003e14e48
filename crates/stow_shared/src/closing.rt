//! Whether what is handed back when a lock is closed belongs together.
ghost use Rattle.std.specs.Prelude.{◌≡◌, ◌↔◌, ◌≤◌, length, IsTrue};
ghost use Rattle.std.specs.List.{All};
ghost use Rattle.stow_shared.specs.Closed.{seats_of, AreOneEach, HasReceipts, IsOfSeat};
ghost use Rattle.stow_shared.specs.Entries.{entries_of};

use crate::comparing::same_entry;
use crate::entry::Entry;
use crate::journal::Journal;
use crate::seat::Seat;
use std::alloc::Allocator;

/// How many of the seats have this number.
fn count_of<J: Journal, A: Allocator>(seats: &[Seat<J, A>], number: u32) -> usize
    ensures { result ≡ seats_of number seats.now }
{
    let mut count = 0;
    for seat in seats {
        if seat.number() == number {
            count += 1;
        }
    }
    count
}

/// Whether there is one seat of each number up to the count, and no other.
pub(crate) fn are_one_each<J: Journal, A: Allocator>(seats: &[Seat<J, A>], count: u32) -> bool
    ensures { IsTrue result ↔ AreOneEach count seats.now }
{
    if seats.len() != count as usize {
        return false;
    }
    for before in 0..count {
        if count_of(seats, before + 1) != 1 {
            return false;
        }
    }
    true
}

/// Whether the seat's receipts are the journal's entries of its number, in order.
fn has_receipts<J: Journal, A: Allocator>(seat: &Seat<J, A>, journal: &[Entry<A>]) -> bool
    ensures { IsTrue result ↔ HasReceipts (entries_of journal.now) seat.now }
{
    let number = seat.number();
    let mut left = seat.receipts();
    for entry in journal {
        if number == entry.seat {
            match left.split_first() {
                Some((receipt, later)) if same_entry(receipt, entry) => left = later,
                _ => return false,
            }
        }
    }
    left.is_empty()
}

/// Whether each seat's receipts are the journal's entries of its number.
pub(crate) fn have_receipts<J: Journal, A: Allocator>(
    seats: &[Seat<J, A>],
    journal: &[Entry<A>],
) -> bool
    ensures { IsTrue result ↔ All (HasReceipts (entries_of journal.now)) seats.now }
{
    for seat in seats {
        if !has_receipts(seat, journal) {
            return false;
        }
    }
    true
}

/// Whether each entry is of a seat.
pub(crate) fn are_of_seats<A: Allocator>(journal: &[Entry<A>], count: u32) -> bool
    ensures { IsTrue result ↔ All (IsOfSeat count) (entries_of journal.now) }
{
    for entry in journal {
        if entry.seat == 0 || entry.seat > count {
            return false;
        }
    }
    true
}
