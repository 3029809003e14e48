//! Numbers by which keys are told apart quickly.
ghost use Rattle.std.specs.Prelude.{◌≡◌, ◌/◌, length};
ghost use Rattle.stow_filter.specs.Filter.{mixed, words_mixed, number_from, last_number, hash};

use stow_bytes::compare::word_at;

/// How many bytes are read as one number, the highest first: keys differ most in their last bytes, and a product's upper bits tell its factor's
/// lower ones best.
const WORD: usize = 8;

/// What a hash is multiplied by (multiplicative hashing: Knuth 1973): 2 ^ 64 over the golden ratio.
const FACTOR: u64 = 11_400_714_819_323_198_485;

/// Takes a number into a hash. What comes is told by all bits of both, the high ones most.
fn mixed(hash: u64, number: u64) -> u64
    ensures { result ≡ mixed hash number }
{
    let product = (hash ^ number).wrapping_mul(FACTOR);
    product ^ (product >> 32)
}

/// The hash of the bytes, eight at a time, but those at the end that are fewer.
fn hash_of_words(bytes: &[u8]) -> u64
    ensures { result ≡ words_mixed 0 (length bytes.now / 8) bytes.now }
{
    let mut hash = 0;
    for i in 0..bytes.len() / WORD {
        hash = mixed(hash, word_at(bytes, WORD * i));
    }
    hash
}

/// The bytes as a number, the highest first.
fn number_of(bytes: &[u8]) -> u64
    ensures { result ≡ number_from 0 bytes.now }
{
    let mut number = 0u64;
    for i in 0..bytes.len() {
        number = number.wrapping_mul(256).wrapping_add(u64::from(bytes[i]));
    }
    number
}

/// The last eight bytes as a number, or all of fewer.
fn last_number(bytes: &[u8]) -> u64
    ensures { result ≡ last_number bytes.now }
{
    if bytes.len() < WORD {
        number_of(bytes)
    } else {
        word_at(bytes, bytes.len() - WORD)
    }
}

/// A number for the bytes, which others may have too.
#[inline(always)]
pub fn hash(key: &[u8]) -> u64
    ensures { result ≡ hash key.now }
{
    mixed(hash_of_words(key), last_number(key))
}
