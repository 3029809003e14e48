//! Searches in quarters. They take no branch by what they find, which a processor would guess wrong half of the time, and three looks that
//! don't wait for each other take hardly longer than one.
ghost use Rattle.std.specs.Prelude.{◌+◌, ◌<◌, ◌≤◌, length};

/// What is sought among entries that rise.
pub trait Sought<T> {
    /// The step where the entry at a place is below what is sought, and 0 where it isn't.
    fn step_past(&self, entry: T, at: usize, step: usize) -> usize
        ensures { result ≤ step };
}

/// The step where the bit is 1, and 0 where it is 0.
#[inline(always)]
pub fn step_if(bit: usize, step: usize) -> usize
    ensures { result ≤ step }
{
    step & 0usize.wrapping_sub(bit)
}

/// How many entries are below what is sought, where they rise.
#[inline(always)]
pub fn count_below<T: Copy, S: Sought<T>>(entries: &[T], sought: &S) -> usize
    ensures { result ≤ length entries.now }
{
    let (mut low, mut left) = (0, entries.len());
    while left > 2 {
        let quarter = (left - 3) / 4 + 1;
        let one = step_at(entries, sought, low + quarter - 1, quarter);
        let two = step_at(entries, sought, low + 2 * quarter - 1, quarter);
        let three = step_at(entries, sought, low + 3 * quarter - 1, quarter);
        low += one + two + three;
        left -= 3 * quarter;
    }
    low + count_of_two(entries, sought, low, left)
}

/// How many of the entries from a place on are, of so many: two at most.
#[inline(always)]
fn count_of_two<T: Copy, S: Sought<T>>(entries: &[T], sought: &S, from: usize, left: usize) -> usize
    requires { from + left ≤ length entries.now }
    ensures { result ≤ left }
{
    if left == 0 {
        return 0;
    }
    let first = step_at(entries, sought, from, 1);
    if left == 1 {
        return first;
    }
    first + step_at(entries, sought, from + 1, 1)
}

/// The step where the entry at a place is below what is sought, and 0 where it isn't.
#[inline(always)]
fn step_at<T: Copy, S: Sought<T>>(entries: &[T], sought: &S, at: usize, step: usize) -> usize
    requires { at < length entries.now }
    ensures { result ≤ step }
{
    sought.step_past(entries[at], at, step)
}
