//! Rows of 32-bit numbers in bytes: each takes four, the highest first.
ghost use Rattle.std.specs.Prelude.{◌≡◌, ◌+◌, ◌*◌, ◌≤◌, ◌++◌, length, take, drop};
ghost use Rattle.std.specs.Int.{w32, to_be_bytes, from_be_bytes};

/// How many bytes a number takes.
pub(crate) const WORD: usize = 4;

/// The number at `index`.
pub(crate) fn word_at(bytes: &[u8], index: usize) -> u32
    requires { 4 * index + 4 ≤ length bytes.now }
    ensures { result ≡ from_be_bytes w32 (take 4 (drop (4 * index) bytes.now)) }
{
    let at = WORD * index;
    u32::from_be_bytes([bytes[at], bytes[at + 1], bytes[at + 2], bytes[at + 3]])
}

/// Writes `word` over the number at `index`.
pub(crate) fn set_word(bytes: &mut [u8], index: usize, word: u32)
    requires { 4 * index + 4 ≤ length bytes.old }
    ensures len { length bytes.new ≡ length bytes.old }
    ensures after { bytes.new
        ≡ take (4 * index) bytes.old ++ (to_be_bytes w32 word ++ drop (4 * index + 4) bytes.old) }
{
    let at = WORD * index;
    bytes[at..at + WORD].copy_from_slice(&word.to_be_bytes());
}

/// Moves the numbers at 1 to `index` one place down, and writes `word` at `index`.
pub(crate) fn insert_word(bytes: &mut [u8], index: usize, word: u32)
    requires { 4 * index + 4 ≤ length bytes.old }
    ensures len { length bytes.new ≡ length bytes.old }
    ensures after { bytes.new
        ≡ take (4 * index) (drop 4 bytes.old)
        ++ (to_be_bytes w32 word ++ drop (4 * index + 4) bytes.old) }
{
    let at = WORD * index;
    bytes.copy_within(WORD..at + WORD, 0);
    set_word(bytes, index, word);
}

/// Moves the `count` numbers from `from` on to the places from `to` on.
pub(crate) fn move_words(bytes: &mut [u8], to: usize, from: usize, count: usize)
    requires { (4 * (from + count) ≤ length bytes.old) × (4 * (to + count) ≤ length bytes.old) }
    ensures len { length bytes.new ≡ length bytes.old }
    ensures after { bytes.new
        ≡ take (4 * to) bytes.old
        ++ (take (4 * count) (drop (4 * from) bytes.old) ++ drop (4 * (to + count)) bytes.old) }
{
    bytes.copy_within(WORD * from..WORD * (from + count), WORD * to);
}
