//! The line that an array begins with.
ghost use Rattle.std.specs.Prelude.{◌≡◌, ◌≤◌, ◌∷◌, [], length, take};
ghost use Rattle.stow_resp.specs.Scans.{IsLineAt};

use stow_model::number_at::{NumberAt, number};

/// What is found where a request is to stand.
pub enum LineAt<'a> {
    /// A count of words that isn't zero, and what comes after the line.
    Array(u32, &'a [u8]),
    /// An array of no words, and what comes after the line.
    Blank(&'a [u8]),
    /// There are bytes, and no array begins with them.
    Inline,
    /// The bytes begin such a line, and aren't all of it.
    More,
    /// They can become none.
    Stuck,
}

/// The first line of an array at the front of the bytes, if one stands there.
pub fn line(bytes: &[u8]) -> LineAt<'_>
    ensures { IsLineAt bytes.now result }
{
    let Some((sign, after)) = bytes.split_first() else {
        return LineAt::More;
    };
    if *sign != b'*' {
        return LineAt::Inline;
    }
    let Some((first, later)) = after.split_first() else {
        return LineAt::More;
    };
    if *first == b'-' {
        return null_line(later);
    }
    match number(after, 1024) {
        NumberAt::Number(0, rest) => LineAt::Blank(rest),
        NumberAt::Number(count, rest) => LineAt::Array(count, rest),
        NumberAt::More => LineAt::More,
        NumberAt::Stuck => LineAt::Stuck,
    }
}

/// The line of a null array, after its first two bytes.
fn null_line(after: &[u8]) -> LineAt<'_>
    ensures { IsLineAt (42 ∷ 45 ∷ after.now) result }
{
    let expected = b"1\r\n";
    for index in 0..3 {
        if index == after.len() {
            return LineAt::More;
        }
        if after[index] != expected[index] {
            return LineAt::Stuck;
        }
    }
    LineAt::Blank(&after[3..])
}
