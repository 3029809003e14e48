//! The number of a line that counts words or bytes.
ghost use Rattle.std.specs.Prelude.{◌≡◌, ◌<◌, ◌≤◌, List, ℕ, [], ◌∷◌, ◌++◌, length, true, false};
ghost use Rattle.stow_model.specs.Parts.{IsNumberAt, IsSoFar};

/// What is found where a number and its line's end are to stand.
pub enum NumberAt<'a> {
    /// The number, and what comes after the line.
    Number(u32, &'a [u8]),
    /// The bytes begin such a line, and aren't all of it.
    More,
    /// They can become none.
    Stuck,
}

/// The number up to the limit at the front of the bytes, in decimal with no sign and no leading zero, with
/// CR and LF after it.
#[inline(always)]
pub fn number(bytes: &[u8], limit: u32) -> NumberAt<'_>
    requires { limit < 10000000 }
    ensures { IsNumberAt limit bytes.now result }
{
    let mut value: u32 = 0;
    for i in 0..bytes.len() {
        let byte = bytes[i];
        if byte < 48 || byte > 57 {
            return end_of_line(byte, &bytes[i + 1..], value, i > 0);
        }
        if i > 0 && value == 0 {
            return NumberAt::Stuck;
        }
        let next = value * 10 + u32::from(byte - 48);
        if next > limit {
            return NumberAt::Stuck;
        }
        value = next;
    }
    NumberAt::More
}

/// What is found at the byte after the digits of a number, if there were some.
#[inline(always)]
fn end_of_line(byte: u8, after: &[u8], value: u32, some: bool) -> NumberAt<'_>
    requires { 48 ≤ byte → byte ≤ 57 → ⊥ }
    ensures { (front : List ℕ) (limit : ℕ) → limit < 10000000 → IsSoFar limit front value
        → (some ≡ true → 0 < length front) → (some ≡ false → front ≡ [])
        → IsNumberAt limit (front ++ byte ∷ after.now) result }
{
    if !some || byte != b'\r' {
        return NumberAt::Stuck;
    }
    match after.split_first() {
        None => NumberAt::More,
        Some((line_feed, rest)) => {
            if *line_feed != b'\n' {
                return NumberAt::Stuck;
            }
            NumberAt::Number(value, rest)
        }
    }
}
