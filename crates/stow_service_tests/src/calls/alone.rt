//! Random requests of three tenants, with snapshots that come and go and quotas that rise and fall, each beside the tenant's
//! own plain store.
use crate::making::{call, core_in, give, shape_of};
use std::alloc::{AllocError, Allocator, Global};
use std::test::Fail;
use stow_house::stow_core::Core;
use stow_house::stow_tree::tree_shape::{
    MOST_BUFFER, MOST_CACHE, MOST_FAN_OUT, MOST_LEAF, TreeShape,
};
use stow_model::reply::Reply;
use stow_model::words::Words;
use stow_plain::plain_request::PlainRequest;
use stow_plain::plain_store::PlainStore;
use stow_testing::lines::{push_word, repeated, words_of};
use stow_testing::random::Random;
use stow_testing::replies::reply_text;
use stow_testing::tenants::SMALL_QUOTA;

const KEYS: [&str; 6] = ["''", "a", "ab", "b", "b0", "c"];

const VALUES: [&str; 6] = ["''", "7", "-3", "x", "9223372036854775807", "007"];

/// Bytes of a long value.
const LONG: usize = 200_000;

/// The largest shape.
const LARGEST: TreeShape = TreeShape {
    buffer: MOST_BUFFER,
    leaf: MOST_LEAF,
    fan_out: MOST_FAN_OUT,
    cache: MOST_CACHE,
};

const NUMBERS: [&str; 5] = ["0", "1", "2", "3", "4"];

/// The ids of snapshots that are asked for, of which most come to be.
const IDS: [&str; 12] = [
    "1", "2", "3", "4", "5", "6", "7", "8", "9", "10", "11", "12",
];

/// The quota that the first two tenants begin with, which holds many long values.
const LONG_QUOTA: u32 = 15_000_000;

/// A quota that an operator gives. Some hold no row, and some all.
fn quota_of(number: u32) -> u32 {
    match number {
        0 => 0,
        1 => 40,
        2 => 200,
        3 => 450_000,
        4 => 900_000,
        _ => LONG_QUOTA,
    }
}

/// A request's line: `k` and `l` are keys, `v` is a value, `w` a long one, `n` a number, and `i` a snapshot's id.
const LINES: [&str; 28] = [
    "GET k",
    "MGET k l k",
    "EXISTS k l k",
    "STRLEN k",
    "RANGE k l n",
    "RANGE k '' n",
    "SET k v NX",
    "SET k v XX",
    "APPEND k v",
    "INCR k",
    "DECR k",
    "INCRBY k v",
    "DEL k l",
    "DEL k l k",
    "ECHO v",
    "SET k v",
    "SNAPSHOT TAKE",
    "SNAPSHOT LIST",
    "SNAPSHOT DROP i",
    "SNAPSHOT DROP i",
    "SNAPSHOT GET i k",
    "SNAPSHOT RANGE i k l n",
    "SNAPSHOT RANGE i '' '' 9",
    "USAGE",
    "SET c w",
    "SET c w XX",
    "APPEND c w",
    "ECHO w",
];

/// What the letters of a line stand for.
#[derive(Clone, Copy)]
struct Letters<'a> {
    k: &'static str,
    l: &'static str,
    v: &'static str,
    n: &'static str,
    i: &'static str,
    w: &'a [u8],
}

/// A random key.
fn key(random: &mut Random) -> &'static str {
    random.one_of(&KEYS)
}

/// A random value.
fn value(random: &mut Random) -> &'static str {
    random.one_of(&VALUES)
}

/// A random number of rows.
fn rows(random: &mut Random) -> &'static str {
    random.one_of(&NUMBERS)
}

/// A random snapshot's id.
fn id(random: &mut Random) -> &'static str {
    random.one_of(&IDS)
}

impl<'a> Letters<'a> {
    fn draw(random: &mut Random, w: &'a [u8]) -> Letters<'a> {
        Letters {
            k: key(random),
            l: key(random),
            v: value(random),
            n: rows(random),
            i: id(random),
            w,
        }
    }

    /// Adds what a word stands for.
    fn push<A: Allocator + Copy>(
        self,
        words: &mut Words<A>,
        alloc: A,
        word: &str,
    ) -> Result<(), AllocError> {
        match word {
            "k" => push_word(words, alloc, self.k),
            "l" => push_word(words, alloc, self.l),
            "v" => push_word(words, alloc, self.v),
            "n" => push_word(words, alloc, self.n),
            "i" => push_word(words, alloc, self.i),
            "w" => words.push(self.w),
            _ => push_word(words, alloc, word),
        }
    }
}

/// A line's words with what its letters stand for.
fn filled_words<A: Allocator + Copy>(
    alloc: A,
    line: &str,
    letters: Letters<'_>,
) -> Result<Words<A>, AllocError> {
    let mut words = Words::new(alloc);
    for word in line.split_whitespace() {
        letters.push(&mut words, alloc, word)?;
    }
    Ok(words)
}

/// Whether two replies are the same.
fn is_same<A: Allocator + Copy>(
    alloc: A,
    told: &Reply<A>,
    want: &Reply<A>,
) -> Result<bool, AllocError> {
    Ok(reply_text(alloc, told)?.as_slice() == reply_text(alloc, want)?.as_slice())
}

/// What a tenant's own store tells to a request. What the call promises stops here, so that no test carries it.
fn step<A: Allocator + Copy>(
    store: &mut PlainStore<A>,
    alloc: A,
    request: &PlainRequest<A>,
) -> Result<Reply<A>, AllocError> {
    store.step(alloc, request)
}

/// What it tells to words; and whether memory is refused to them.
fn told_alone<A: Allocator + Copy>(
    store: &mut PlainStore<A>,
    alloc: A,
    (words, is_refused): (Words<A>, bool),
) -> Result<Reply<A>, AllocError> {
    step(store, alloc, &PlainRequest { words, is_refused })
}

/// Whether it tells this.
pub(crate) fn is_alike<A: Allocator + Copy>(
    store: &mut PlainStore<A>,
    alloc: A,
    told: &Reply<A>,
    asked: (Words<A>, bool),
) -> Result<bool, AllocError> {
    is_same(alloc, told, &told_alone(store, alloc, asked)?)
}

/// The own stores of three tenants.
#[derive(Drop)]
struct OwnStores<A: Allocator + Copy> {
    first: PlainStore<A>,
    second: PlainStore<A>,
    third: PlainStore<A>,
}

impl<A: Allocator + Copy> OwnStores<A> {
    /// Three stores without rows.
    fn new(alloc: A) -> OwnStores<A> {
        OwnStores {
            first: PlainStore::new(alloc, u64::from(LONG_QUOTA)),
            second: PlainStore::new(alloc, u64::from(LONG_QUOTA)),
            third: PlainStore::new(alloc, SMALL_QUOTA),
        }
    }

    /// The store of tenant 1, 2 or 3.
    fn of(&mut self, tenant: u32) -> &mut PlainStore<A> {
        match tenant {
            1 => &mut self.first,
            2 => &mut self.second,
            _ => &mut self.third,
        }
    }
}

/// Gives a tenant's own store a quota.
fn give_alone<A: Allocator + Copy>(store: &mut PlainStore<A>, quota: u32) {
    store.set_quota(u64::from(quota));
}

/// Gives a tenant a quota in a core and in its own store.
fn give_both<A: Allocator + Copy>(
    core: &mut Core<A>,
    stores: &mut OwnStores<A>,
    tenant: u32,
    quota: u32,
) {
    give(core, tenant, quota);
    give_alone(stores.of(tenant), quota);
}

/// Whether a core and the tenant's own store tell words the same.
fn are_alike<A: Allocator + Copy>(
    core: &mut Core<A>,
    store: &mut PlainStore<A>,
    alloc: A,
    (tenant, words): (u32, Words<A>),
) -> Result<bool, AllocError> {
    let told = call(core, alloc, tenant, &words);
    is_alike(store, alloc, &told, (words, false))
}

/// One of the tenants.
fn one_tenant(random: &mut Random) -> u32 {
    random.below(3) + 1
}

/// A random quota for a random tenant, now and then.
fn give_random<A: Allocator + Copy>(
    core: &mut Core<A>,
    stores: &mut OwnStores<A>,
    random: &mut Random,
) {
    if random.below(100) == 0 {
        let tenant = one_tenant(random);
        give_both(core, stores, tenant, quota_of(random.below(6)));
    }
}

/// A random line to a random tenant, if it isn't told as alone.
fn other_line<A: Allocator + Copy>(
    core: &mut Core<A>,
    stores: &mut OwnStores<A>,
    alloc: A,
    (random, long): (&mut Random, &[u8]),
) -> Result<Option<&'static str>, AllocError> {
    let tenant = one_tenant(random);
    let letters = Letters::draw(random, long);
    let line = random.one_of(&LINES);
    let words = filled_words(alloc, line, letters)?;
    let is_alike = are_alike(core, stores.of(tenant), alloc, (tenant, words))?;
    Ok(if is_alike { None } else { Some(line) })
}

/// Random requests and quotas; `None` where each is answered as alone, and else the first line that isn't.
fn first_other<A: Allocator + Copy>(
    core: &mut Core<A>,
    stores: &mut OwnStores<A>,
    alloc: A,
    (count, long): (u32, &[u8]),
) -> Result<Option<&'static str>, AllocError> {
    let mut random = Random::new(7);
    for _ in 0..count {
        give_random(core, stores, &mut random);
        let other = other_line(core, stores, alloc, (&mut random, long))?;
        if other.is_some() {
            return Ok(other);
        }
    }
    Ok(None)
}

/// Whether they tell a line the same.
fn is_told_alike<A: Allocator + Copy>(
    core: &mut Core<A>,
    store: &mut PlainStore<A>,
    alloc: A,
    (tenant, line): (u32, &str),
) -> Result<bool, AllocError> {
    are_alike(core, store, alloc, (tenant, words_of(alloc, line)?))
}

/// Whether a tenant has written more than fifty times.
fn has_written<A: Allocator + Copy>(store: &PlainStore<A>) -> bool {
    store.last.get() > 50
}

/// Whether it has, and has the rows and the usage that its own store has.
fn are_rows_alike<A: Allocator + Copy>(
    core: &mut Core<A>,
    store: &mut PlainStore<A>,
    alloc: A,
    tenant: u32,
) -> Result<bool, AllocError> {
    Ok(
        is_told_alike(core, store, alloc, (tenant, "RANGE '' '' 1024"))?
            && is_told_alike(core, store, alloc, (tenant, "USAGE"))?
            && has_written(store),
    )
}

/// Whether each tenant has.
fn are_all_alike<A: Allocator + Copy>(
    core: &mut Core<A>,
    stores: &mut OwnStores<A>,
    alloc: A,
) -> Result<bool, AllocError> {
    for tenant in 1..4u32 {
        if !are_rows_alike(core, stores.of(tenant), alloc, tenant)? {
            return Ok(false);
        }
    }
    Ok(true)
}

/// The first request that is not answered as alone, or that the rows are others, or that there are fewer leaves than so many.
fn other<A: Allocator + Copy>(
    core: &mut Core<A>,
    stores: &mut OwnStores<A>,
    alloc: A,
    (long, leaves): (&[u8], u64),
) -> Result<Option<&'static str>, AllocError> {
    give_both(core, stores, 1, LONG_QUOTA);
    give_both(core, stores, 2, LONG_QUOTA);
    let other = first_other(core, stores, alloc, (600, long))?;
    if other.is_some() {
        return Ok(other);
    }
    if shape_of(core).leaves < leaves {
        return Ok(Some("no flush"));
    }
    let are_alike = are_all_alike(core, stores, alloc)?;
    Ok(if are_alike { None } else { Some("the rows") })
}

/// The same of a new core of this shape.
fn other_of<A: Allocator + Copy>(
    alloc: A,
    global: Global,
    (shape, long, leaves): (TreeShape, &[u8], u64),
) -> Result<Option<&'static str>, AllocError> {
    other(
        &mut core_in(alloc, global, shape)?,
        &mut OwnStores::new(alloc),
        alloc,
        (long, leaves),
    )
}

// Values that are long enough for many flushes are among them.
#[test]
fn random_requests_are_answered_as_alone(rt: HostRuntime) -> Result<(), Fail> {
    let long = repeated(rt.alloc(), b'z', LONG)?;
    let other = other_of(
        rt.alloc(),
        rt.alloc(),
        (TreeShape::SMALLEST, long.as_slice(), 2),
    )?;
    assert!(rt; other.is_none(), "{other:?}");
    Ok(())
}

// In this shape most messages are superseded before any has to move.
#[test]
fn random_requests_are_answered_in_the_largest_shape(rt: HostRuntime) -> Result<(), Fail> {
    let long = repeated(rt.alloc(), b'z', LONG)?;
    let other = other_of(rt.alloc(), rt.alloc(), (LARGEST, long.as_slice(), 1))?;
    assert!(rt; other.is_none(), "{other:?}");
    Ok(())
}
