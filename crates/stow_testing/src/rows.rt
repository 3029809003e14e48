//! Worked requests of one tenant, each list from an empty store on, with the bytes of their replies.
use crate::spelling::push_array;
use std::alloc::{AllocError, Allocator};

/// A request as a line of words, of which `''` is the empty one, and the bytes of its reply.
pub type Told = (&'static str, &'static str);

/// Every list.
pub const ROWS: [&[Told]; 8] = [
    &EMPTY,
    &KEYS,
    &NUMBERS,
    &RANGES,
    &CONDITIONS,
    &SNAPSHOTS,
    &CHARGES,
    &REMOVED,
];

const USED: &str = "-ERR value is not an integer or out of range\r\n";

const OVER: &str = "-ERR increment or decrement would overflow\r\n";

const NO_SNAPSHOT: &str = "-ERR no such snapshot\r\n";

// The empty key and the empty value.
const EMPTY: [Told; 4] = [
    ("SET '' ''", "+OK\r\n"),
    ("GET ''", "$0\r\n\r\n"),
    ("RANGE '' '' 10", "*2\r\n$0\r\n\r\n$0\r\n\r\n"),
    (
        "USAGE",
        "*14\r\n$4\r\nrows\r\n:1\r\n$6\r\ncharge\r\n:16\r\n$5\r\nquota\r\n:1000000\r\n$6\r\nwrites\r\n:1\r\n$8\r\ncommands\r\n:4\r\n$8\r\nrefusals\r\n:0\r\n$9\r\nsnapshots\r\n:0\r\n",
    ),
];

// Repeats of a key; a deletion of nothing.
const KEYS: [Told; 6] = [
    ("SET k v", "+OK\r\n"),
    ("EXISTS k k", ":2\r\n"),
    ("DEL k k", ":1\r\n"),
    ("EXISTS k", ":0\r\n"),
    ("DEL k", ":0\r\n"),
    (
        "USAGE",
        "*14\r\n$4\r\nrows\r\n:0\r\n$6\r\ncharge\r\n:0\r\n$5\r\nquota\r\n:1000000\r\n$6\r\nwrites\r\n:2\r\n$8\r\ncommands\r\n:6\r\n$8\r\nrefusals\r\n:0\r\n$9\r\nsnapshots\r\n:0\r\n",
    ),
];

// Numbers at both ends of their 64 bits, and values that are no numbers.
const NUMBERS: [Told; 16] = [
    ("SET n 9223372036854775807", "+OK\r\n"),
    ("INCRBY n 1", OVER),
    ("GET n", "$19\r\n9223372036854775807\r\n"),
    ("SET n 007", "+OK\r\n"),
    ("INCR n", USED),
    ("GET n", "$3\r\n007\r\n"),
    ("INCRBY m -0", USED),
    ("GET m", "$-1\r\n"),
    ("DECR m", ":-1\r\n"),
    ("INCRBY m -9223372036854775808", OVER),
    ("GET m", "$2\r\n-1\r\n"),
    ("INCRBY z -9223372036854775808", ":-9223372036854775808\r\n"),
    ("DECR z", OVER),
    ("APPEND e ''", ":0\r\n"),
    ("EXISTS e", ":1\r\n"),
    ("GET e", "$0\r\n\r\n"),
];

// Intervals of keys: the upper end is left out, and the rows are the first ones, in byte order.
const RANGES: [Told; 14] = [
    ("SET b 1", "+OK\r\n"),
    ("SET a 2", "+OK\r\n"),
    ("SET c 3", "+OK\r\n"),
    (
        "RANGE a c 5",
        "*4\r\n$1\r\na\r\n$1\r\n2\r\n$1\r\nb\r\n$1\r\n1\r\n",
    ),
    ("RANGE c a 5", "*0\r\n"),
    ("RANGE b '' 1", "*2\r\n$1\r\nb\r\n$1\r\n1\r\n"),
    ("RANGE a '' 0", "*0\r\n"),
    ("RANGE a '' 1025", USED),
    (
        "RANGE '' '' 1024",
        "*6\r\n$1\r\na\r\n$1\r\n2\r\n$1\r\nb\r\n$1\r\n1\r\n$1\r\nc\r\n$1\r\n3\r\n",
    ),
    (
        "RANGE '' '' 2",
        "*4\r\n$1\r\na\r\n$1\r\n2\r\n$1\r\nb\r\n$1\r\n1\r\n",
    ),
    (
        "RANGE a0 c0 5",
        "*4\r\n$1\r\nb\r\n$1\r\n1\r\n$1\r\nc\r\n$1\r\n3\r\n",
    ),
    ("RANGE b b 5", "*0\r\n"),
    ("DEL b", ":1\r\n"),
    (
        "RANGE a '' 5",
        "*4\r\n$1\r\na\r\n$1\r\n2\r\n$1\r\nc\r\n$1\r\n3\r\n",
    ),
];

// Writes on condition; many values in one reply; lengths.
const CONDITIONS: [Told; 16] = [
    ("SET k v XX", "$-1\r\n"),
    ("GET k", "$-1\r\n"),
    ("SET k v NX", "+OK\r\n"),
    ("SET k w nx", "$-1\r\n"),
    ("SET k w NY", "-ERR syntax error\r\n"),
    ("SET k", "-ERR wrong number of arguments\r\n"),
    ("HELLO 3", "-ERR unknown command\r\n"),
    ("MGET k z k", "*3\r\n$1\r\nv\r\n$-1\r\n$1\r\nv\r\n"),
    ("SET k u xx", "+OK\r\n"),
    ("MGET k", "*1\r\n$1\r\nu\r\n"),
    ("STRLEN k", ":1\r\n"),
    ("APPEND k vw", ":3\r\n"),
    ("STRLEN k", ":3\r\n"),
    ("GET k", "$3\r\nuvw\r\n"),
    ("STRLEN z", ":0\r\n"),
    ("ECHO hi", "$2\r\nhi\r\n"),
];

// Two snapshots of the same rows; what one shows once the other is dropped; ids and words that name none.
const SNAPSHOTS: [Told; 12] = [
    ("SET a x", "+OK\r\n"),
    ("SNAPSHOT TAKE", ":1\r\n"),
    ("SNAPSHOT TAKE", ":2\r\n"),
    ("SNAPSHOT DROP 1", "+OK\r\n"),
    ("SET a y", "+OK\r\n"),
    ("SNAPSHOT GET 2 a", "$1\r\nx\r\n"),
    ("SNAPSHOT GET 1 a", NO_SNAPSHOT),
    ("SNAPSHOT GET 0 a", NO_SNAPSHOT),
    ("SNAPSHOT GET 01 a", USED),
    ("SNAPSHOT FOO", "-ERR syntax error\r\n"),
    ("SNAPSHOT LIST x", "-ERR wrong number of arguments\r\n"),
    (
        "USAGE",
        "*14\r\n$4\r\nrows\r\n:1\r\n$6\r\ncharge\r\n:36\r\n$5\r\nquota\r\n:1000000\r\n$6\r\nwrites\r\n:2\r\n$8\r\ncommands\r\n:12\r\n$8\r\nrefusals\r\n:0\r\n$9\r\nsnapshots\r\n:1\r\n",
    ),
];

// A version that two snapshots show is charged once, until both are dropped.
const CHARGES: [Told; 9] = [
    ("SET a 0123456789", "+OK\r\n"),
    ("SNAPSHOT TAKE", ":1\r\n"),
    ("SNAPSHOT TAKE", ":2\r\n"),
    ("SET a 9876543210", "+OK\r\n"),
    (
        "USAGE",
        "*14\r\n$4\r\nrows\r\n:1\r\n$6\r\ncharge\r\n:54\r\n$5\r\nquota\r\n:1000000\r\n$6\r\nwrites\r\n:2\r\n$8\r\ncommands\r\n:5\r\n$8\r\nrefusals\r\n:0\r\n$9\r\nsnapshots\r\n:2\r\n",
    ),
    ("SNAPSHOT DROP 1", "+OK\r\n"),
    (
        "USAGE",
        "*14\r\n$4\r\nrows\r\n:1\r\n$6\r\ncharge\r\n:54\r\n$5\r\nquota\r\n:1000000\r\n$6\r\nwrites\r\n:2\r\n$8\r\ncommands\r\n:7\r\n$8\r\nrefusals\r\n:0\r\n$9\r\nsnapshots\r\n:1\r\n",
    ),
    ("SNAPSHOT DROP 2", "+OK\r\n"),
    (
        "USAGE",
        "*14\r\n$4\r\nrows\r\n:1\r\n$6\r\ncharge\r\n:27\r\n$5\r\nquota\r\n:1000000\r\n$6\r\nwrites\r\n:2\r\n$8\r\ncommands\r\n:9\r\n$8\r\nrefusals\r\n:0\r\n$9\r\nsnapshots\r\n:0\r\n",
    ),
];

// A row that was removed and a snapshot shows.
const REMOVED: [Told; 8] = [
    ("SET a x", "+OK\r\n"),
    ("SNAPSHOT TAKE", ":1\r\n"),
    ("DEL a", ":1\r\n"),
    ("GET a", "$-1\r\n"),
    ("SNAPSHOT RANGE 1 '' '' 9", "*2\r\n$1\r\na\r\n$1\r\nx\r\n"),
    (
        "USAGE",
        "*14\r\n$4\r\nrows\r\n:0\r\n$6\r\ncharge\r\n:18\r\n$5\r\nquota\r\n:1000000\r\n$6\r\nwrites\r\n:2\r\n$8\r\ncommands\r\n:6\r\n$8\r\nrefusals\r\n:0\r\n$9\r\nsnapshots\r\n:1\r\n",
    ),
    ("SNAPSHOT DROP 1", "+OK\r\n"),
    (
        "USAGE",
        "*14\r\n$4\r\nrows\r\n:0\r\n$6\r\ncharge\r\n:0\r\n$5\r\nquota\r\n:1000000\r\n$6\r\nwrites\r\n:2\r\n$8\r\ncommands\r\n:8\r\n$8\r\nrefusals\r\n:0\r\n$9\r\nsnapshots\r\n:0\r\n",
    ),
];

/// The bytes of a login of ann's and of a list's requests, in array form.
pub fn asked<A: Allocator + Copy>(alloc: A, row: &[Told]) -> Result<Vec<u8, A>, AllocError> {
    let mut bytes = Vec::new(alloc);
    push_array(alloc, &mut bytes, "AUTH ann bc")?;
    for (line, _) in row {
        push_array(alloc, &mut bytes, line)?;
    }
    Ok(bytes)
}

/// The bytes of a list's replies.
pub fn told<A: Allocator + Copy>(alloc: A, row: &[Told]) -> Result<Vec<u8, A>, AllocError> {
    let mut bytes = Vec::new(alloc);
    for (_, reply) in row {
        bytes.extend_from_slice(reply.as_bytes())?;
    }
    Ok(bytes)
}
