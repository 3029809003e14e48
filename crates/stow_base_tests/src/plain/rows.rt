//! Worked requests with values from outside.

/// Tenants' own runs, with an empty line between two: a request a line, and what it is told. Behind `usage` stand the number of
/// rows, the charge, the number of writes and that of commands that are then reported.
///
/// A tenant that sets, reads, deletes and reads; another whose store is its own; repeats of a key in one deletion, and
/// a deletion of nothing, which is no write; names in any case; and then the other commands on rows.
pub const RUNS: &str = "SET k A = OK
GET k = $A
GET k = $A
usage = 1 18 1 3

SET k B = OK
DEL k = :1
GET k = nil
usage = 0 0 2 3

SET k v = OK
DEL k k = :1
DEL k = :0
usage = 0 0 2 3

set b 1 = OK
sEt a 2 = OK
SET b 1 = OK
Del a c b = :2
usage = 0 0 4 4

SET a 0123456789 = OK
SET a 9876543210 = OK
usage = 1 27 2 2

PING = PONG
ping hello = $hello
GET z = nil
usage = 0 0 0 3

SET k v = OK
!SET k w = OOM memory was refused
!DEL k = OOM memory was refused
GET k = $v
usage = 1 18 1 2

SET '' '' = OK
GET '' = $
RANGE '' '' 10 = [$ $ ]
usage = 1 16 1 3

SET k v = OK
EXISTS k k = :2
DEL k k = :1
EXISTS k = :0
DEL k = :0
usage = 0 0 2 5

SET n 9223372036854775807 = OK
INCRBY n 1 = ERR increment or decrement would overflow
GET n = $9223372036854775807
SET n 007 = OK
INCR n = ERR value is not an integer or out of range
GET n = $007
INCRBY m -0 = ERR value is not an integer or out of range
GET m = nil
DECR m = :-1
usage = 2 39 3 9

SET n -0 = OK
INCR n = ERR value is not an integer or out of range
SET n -5 = OK
INCRBY n 5 = :0
GET n = $0
usage = 1 18 3 5

DECR m = :-1
INCRBY m -9223372036854775808 = ERR increment or decrement would overflow
GET m = $-1
INCRBY z -9223372036854775808 = :-9223372036854775808
DECR z = ERR increment or decrement would overflow
APPEND e '' = :0
EXISTS e = :1
usage = 3 73 3 7

SET b 1 = OK
SET a 2 = OK
SET c 3 = OK
RANGE a c 5 = [$a $2 $b $1 ]
RANGE c a 5 = []
RANGE b '' 1 = [$b $1 ]
RANGE a '' 0 = []
RANGE a '' 1025 = ERR value is not an integer or out of range
usage = 3 54 3 8

SET k v XX = nil
SET k v NX = OK
SET k w nx = nil
SET k w NY = ERR syntax error
SET k = ERR wrong number of arguments
HELLO 3 = ERR unknown command
MGET k z k = [$v nil $v ]
SET k u xx = OK
STRLEN k = :1
APPEND k vw = :3
GET k = $uvw
STRLEN k = :3
STRLEN z = :0
ECHO hi = $hi
usage = 1 20 3 14";

/// A run in which each kind of command asks for memory.
pub const MIXED: &str = "SET k v = OK
SET l v = OK
DEL l k m = :2
PING x = $x
APPEND k ab = :2
INCR n = :1
MGET k z = [$ab nil ]
RANGE '' '' 9 = [$k $ab $n $1 ]";

/// Each refusal of words, in the order in which they are looked for: the name, then the number of arguments. Each is counted.
pub const REFUSED: &str = " = ERR unknown command
FOO = ERR unknown command
AUTH ann bc = ERR unknown command
PING a b = ERR wrong number of arguments
GET = ERR wrong number of arguments
GET a b = ERR wrong number of arguments
SET k = ERR wrong number of arguments
SET k v NX XX = ERR wrong number of arguments
DEL = ERR wrong number of arguments
ECHO = ERR wrong number of arguments
ECHO a b = ERR wrong number of arguments
EXISTS = ERR wrong number of arguments
MGET = ERR wrong number of arguments
APPEND k = ERR wrong number of arguments
APPEND k v w = ERR wrong number of arguments
STRLEN = ERR wrong number of arguments
STRLEN k l = ERR wrong number of arguments
INCR = ERR wrong number of arguments
DECR k 1 = ERR wrong number of arguments
INCRBY k = ERR wrong number of arguments
INCRBY k 1 2 = ERR wrong number of arguments
RANGE a b = ERR wrong number of arguments
RANGE a b 1 2 = ERR wrong number of arguments
SET k v EX = ERR syntax error
INCRBY k +1 = ERR value is not an integer or out of range
INCRBY k 9223372036854775808 = ERR value is not an integer or out of range
RANGE a b -1 = ERR value is not an integer or out of range
RANGE a b 01 = ERR value is not an integer or out of range
usage = 0 0 0 28";

/// Keys, values and deletions at their limits and one above, and which refusal comes first: options, then number
/// arguments, then keys, then values. A value grows up to its limit. With the last write number used (`spend`) no row changes any
/// more, a deletion of nothing is still answered, and no more commands are counted.
pub const LIMITS: &str = "SET x*1024 x*1048576 = OK
SET '' '' = OK
SET x*1025 x*1048577 = ERR key is too long
SET x*1024 x*1048577 = ERR value is too long
GET x*1025 = ERR key is too long
GET x*1025 x*1 = ERR wrong number of arguments
DEL x*1 x*1025 = ERR key is too long
DEL x#64 = :0
DEL x*1025 x#64 = ERR too many keys
MGET x*1 x*1025 = ERR key is too long
EXISTS x#65 = :0
STRLEN x*1024 = :1048576
STRLEN x*1023 = :0
SET x*1025 x*1048577 x*3 = ERR syntax error
INCRBY x*1025 x*1 = ERR value is not an integer or out of range
RANGE x*1025 x*1 x*1 = ERR value is not an integer or out of range
INCR x*1025 = ERR key is too long

APPEND x x*1048576 = :1048576
APPEND x x*1048577 = ERR value is too long
APPEND x*1025 x*1048577 = ERR key is too long

SET x x*65535 = OK
APPEND x x = :65536

SET x x*1048575 = OK
APPEND x x = :1048576
APPEND x x = ERR value is too long

SET k v = OK
spend
SET k w = ERR write numbers are used up
DEL k = ERR write numbers are used up
DEL z = :0
GET k = $v
PING = PONG
usage = 1 18 9223372036854775807 9223372036854775807";
