//! Every limit from both sides, with ample memory: each request is answered as its limit says, and want of memory
//! is told nowhere.
use crate::given::Given;
use crate::running::{
    AMPLE_PIPE, SCRIPT, Shelf, answers_all, answers_by, answers_each, answers_scripts, run_over,
};
use crate::serve::answers_served;
use crate::table::spread;
use std::alloc::{AllocError, Global};
use std::net::{Net, TcpListener, TcpStream};
use std::process::Abort;
use std::sync::Wait;
use std::test::Fail;
use std::thread::Threads;

/// A key has up to 1,024 bytes, and a value up to 1,048,576; two halves of the longest value are one, and a byte more is too
/// long. A value of 65,535 bytes grows.
const KEYS_AND_VALUES: &str = r"
*3\r\n$3\r\nSET\r\n$1024\r\n{0..1024|~}\r\n$1048576\r\n@\r\n => +OK\r\n
*3\r\n$3\r\nSET\r\n$1025\r\n{0..1025|~}\r\n$1\r\nv\r\n => -ERR key is too long\r\n
*2\r\n$3\r\nGET\r\n$1024\r\n{0..1024|~}\r\n => $1048576\r\n@\r\n
*2\r\n$4\r\nECHO\r\n$1048576\r\n@\r\n => $1048576\r\n@\r\n
*2\r\n$6\r\nSTRLEN\r\n$1024\r\n{0..1024|~}\r\n => :1048576\r\n
*3\r\n$6\r\nAPPEND\r\n$1024\r\n{0..1024|~}\r\n$0\r\n\r\n => :1048576\r\n
*3\r\n$6\r\nAPPEND\r\n$1024\r\n{0..1024|~}\r\n$1\r\nx\r\n => -ERR value is too long\r\n
*3\r\n$3\r\nSET\r\n$4\r\nhalf\r\n$524288\r\n{0..524288|v}\r\n => +OK\r\n
*3\r\n$6\r\nAPPEND\r\n$4\r\nhalf\r\n$524288\r\n{0..524288|v}\r\n => :1048576\r\n
*2\r\n$3\r\nGET\r\n$4\r\nhalf\r\n => $1048576\r\n@\r\n
*3\r\n$3\r\nSET\r\n$4\r\nlong\r\n$65535\r\n^\r\n => +OK\r\n
*3\r\n$6\r\nAPPEND\r\n$4\r\nlong\r\n$1\r\nv\r\n => :65536\r\n
*2\r\n$3\r\nGET\r\n$4\r\nlong\r\n => $65536\r\n^v\r\n
";

/// The longest value is charged whole, and what it would become isn't.
const CHARGED: &str = r"
*3\r\n$3\r\nSET\r\n$1\r\nv\r\n$1048576\r\n@\r\n => +OK\r\n
*3\r\n$6\r\nAPPEND\r\n$1\r\nv\r\n$1\r\nx\r\n => -ERR value is too long\r\n
*1\r\n$5\r\nUSAGE\r\n => *14\r\n$4\r\nrows\r\n:1\r\n$6\r\ncharge\r\n:1048593\r\n$5\r\nquota\r\n:10000000\r\n$6\r\nwrites\r\n:1\r\n$8\r\ncommands\r\n:3\r\n$8\r\nrefusals\r\n:0\r\n$9\r\nsnapshots\r\n:0\r\n
";

#[test]
fn keys_and_values_have_limits(rt: HostRuntime) -> Result<(), Fail> {
    answers_by(&rt, AMPLE_PIPE, KEYS_AND_VALUES)?;
    answers_by(&rt, "pipe --tenants ten.toml", CHARGED)
}

/// A request has up to 1,024 words, and a DEL up to 64 keys; too many keys are told before a key that is too long.
const WORDS: &str = r"
*65\r\n$3\r\nDEL\r\n{0..64|$1\r\nk\r\n} => :0\r\n
*66\r\n$3\r\nDEL\r\n{0..65|$1\r\nk\r\n} => -ERR too many keys\r\n
*66\r\n$3\r\nDEL\r\n$1025\r\n{0..1025|~}\r\n{0..64|$1\r\nk\r\n} => -ERR too many keys\r\n
*2\r\n$3\r\nGET\r\n$1024\r\n{0..1024|~}\r\n => $-1\r\n
*2\r\n$3\r\nGET\r\n$1025\r\n{0..1025|~}\r\n => -ERR key is too long\r\n
*3\r\n$3\r\nGET\r\n$1025\r\n{0..1025|~}\r\n$1025\r\n{0..1025|~}\r\n => -ERR wrong number of arguments\r\n
*3\r\n$3\r\nSET\r\n$1\r\nk\r\n$1\r\nv\r\n => +OK\r\n
*1024\r\n$4\r\nMGET\r\n{0..1023|$1\r\nk\r\n} => *1023\r\n{0..1023|$1\r\nv\r\n}
*1024\r\n$6\r\nEXISTS\r\n{0..1023|$1\r\nk\r\n} => :1023\r\n
*66\r\n$3\r\nDEL\r\n{0..65|$1\r\nk\r\n} => -ERR too many keys\r\n
*65\r\n$3\r\nDEL\r\n{0..64|$1\r\nk\r\n} => :1\r\n
*1025\r\n$4\r\nMGET\r\n{0..1024|$1\r\nk\r\n} => -ERR Protocol error: invalid multibulk length\r\n
";

#[test]
fn requests_have_a_most_of_words(rt: HostRuntime) -> Result<(), Fail> {
    answers_all(&rt, WORDS)?;
    answers_served(&rt, WORDS)
}

/// 1,024 rows of long values, in one reply of 64 MiB.
const RANGES: &str = r"
{1000..2024|*3\r\n$3\r\nSET\r\n$4\r\n%\r\n$65535\r\n^\r\n} => {1000..2024|+OK\r\n}
*3\r\n$3\r\nSET\r\n$1\r\n3\r\n$6\r\nbeyond\r\n => +OK\r\n
*4\r\n$5\r\nRANGE\r\n$0\r\n\r\n$0\r\n\r\n$4\r\n1024\r\n => *2048\r\n{1000..2024|$4\r\n%\r\n$65535\r\n^\r\n}
*4\r\n$5\r\nRANGE\r\n$0\r\n\r\n$0\r\n\r\n$4\r\n1025\r\n => -ERR value is not an integer or out of range\r\n
";

#[test]
fn ranges_have_a_most_of_rows(rt: HostRuntime) -> Result<(), Fail> {
    answers_by(&rt, AMPLE_PIPE, RANGES)
}

/// One message of 64 MiB, which comes in pieces.
const LARGE: &str = r"
*1024\r\n$4\r\nMGET\r\n{0..1023|$65535\r\n^\r\n} => -ERR key is too long\r\n
*2\r\n$4\r\nECHO\r\n$2\r\non\r\n => $2\r\non\r\n
";

#[test]
fn a_message_may_be_large(rt: HostRuntime) -> Result<(), Fail> {
    answers_all(&rt, LARGE)
}

/// The longest line there can be is a request; one byte more is a fault, told at that byte.
const LINES: &str = r"
AUTH ann bc\r\n{0..65536|x}\n => +OK\r\n-ERR unknown command\r\n
AUTH ann bc\r\n{0..65536|x} => +OK\r\n
AUTH ann bc\r\n{0..65535|x}\r\n => +OK\r\n-ERR unknown command\r\n
AUTH ann bc\r\n{0..65537|x} => +OK\r\n-ERR Protocol error: inline request too long\r\n
AUTH ann bc\r\n{0..65536|x}\r\nPING\r\n => +OK\r\n-ERR Protocol error: inline request too long\r\n
";

#[test]
fn lines_have_a_limit(rt: HostRuntime) -> Result<(), Fail> {
    answers_each(&rt, LINES)
}

/// The last key that there can be, beside another tenant's first.
const TWO_TENANTS: &str = r"open 1
open 2
piece 1 AUTH ann bc\n
piece 2 AUTH ben c\n
piece 1 *3\r\n$3\r\nSET\r\n$1024\r\n{0..1024|\xff}\r\n$1\r\nA\r\n
piece 2 *3\r\n$3\r\nSET\r\n$0\r\n\r\n$1\r\nB\r\n
piece 1 *4\r\n$5\r\nRANGE\r\n$0\r\n\r\n$0\r\n\r\n$4\r\n1024\r\n
piece 2 *4\r\n$5\r\nRANGE\r\n$0\r\n\r\n$0\r\n\r\n$4\r\n1024\r\n
serve 1
serve 1
serve 1
serve 2
serve 2
serve 2
----
open
open
taken
taken
taken
taken
taken
taken
reply +OK\r\n
reply +OK\r\n
reply *2\r\n$1024\r\n{0..1024|\xff}\r\n$1\r\nA\r\n
reply +OK\r\n
reply +OK\r\n
reply *2\r\n$0\r\n\r\n$1\r\nB\r\n
";

#[test]
fn ranges_end_with_the_tenant(rt: HostRuntime) -> Result<(), Fail> {
    answers_scripts(&rt, SCRIPT, TWO_TENANTS)
}

/// A tenant file above 16 MiB of as many tenants as there may be, with a comment before each. Each password is `abc`.
const TENANTS: &str =
    "{0..65535|# xxxxxxxxxxxxxxxxxxxxxxxxxxxxxxxxxxxxxxxxxxxxxxxxxxxxxxxxxxxxxxxxxxxxxxxxxxxxxxxxxxxxxxxxxxxxxxxxxxxxxxxxxxxxxxxxxxxxxxxxxxxxxxxxxxxxxxxxxxxxxxxxxxxxxx
[[tenant]]
name = \"n%\"
salt = \"\"
digest = \"ba7816bf8f01cfea414140de5dae2223b00361a396177a9cb410ff61f20015ad\"
quota = 9
}";

/// What a login of the last tenant is told, over a file.
fn last_told<H>(rt: &H, own: &[u8]) -> Result<(u8, Vec<u8>), AllocError>
where
    H: Abort
        + Alloc<A = Global>
        + Net<Listener = TcpListener, Stream = TcpStream>
        + Threads
        + Wait
        + Sync,
{
    let shelf = Shelf { own };
    let mut input = Given::all(b"AUTH n65534 abc\nPING\n");
    let (mut output, mut errors) = (Vec::new(rt.alloc()), Vec::new(rt.alloc()));
    let line = "pipe --tenants own.toml";
    let status = run_over(rt, &shelf, line, &mut input, &mut output, &mut errors)?;
    Ok((status, output))
}

#[test]
fn the_last_tenant_logs_in(rt: HostRuntime) -> Result<(), Fail> {
    let text = spread(rt.alloc(), TENANTS)?;
    assert!(rt; text.len() > 16 * 1024 * 1024);
    let (status, output) = last_told(&rt, text.as_bytes())?;
    assert!(rt; status == 0 && output.as_slice() == b"+OK\r\n+PONG\r\n".as_slice());
    Ok(())
}

/// Over 100,000 rows, of three tenants in turn under the same keys, and 5,000 appends to one key, of which the rows go again: more
/// than any merge of the other tests has.
const MANY: &str = r"
{100000..116667|*3\r\n$3\r\nSET\r\n$6\r\n%\r\n$1\r\nv\r\n} => {100000..116667|+OK\r\n}
AUTH ben c\n => +OK\r\n
{100000..116667|*3\r\n$3\r\nSET\r\n$6\r\n%\r\n$1\r\nw\r\n} => {100000..116667|+OK\r\n}
AUTH cap abc\n => +OK\r\n
{100000..116667|*3\r\n$3\r\nSET\r\n$6\r\n%\r\n$2\r\nxx\r\n} => {100000..116667|+OK\r\n}
AUTH ann bc\n => +OK\r\n
{116667..133334|*3\r\n$3\r\nSET\r\n$6\r\n%\r\n$1\r\nv\r\n} => {116667..133334|+OK\r\n}
AUTH ben c\n => +OK\r\n
{116667..133334|*3\r\n$3\r\nSET\r\n$6\r\n%\r\n$1\r\nw\r\n} => {116667..133334|+OK\r\n}
AUTH cap abc\n => +OK\r\n
{116667..133334|*3\r\n$3\r\nSET\r\n$6\r\n%\r\n$2\r\nxx\r\n} => {116667..133334|+OK\r\n}
AUTH ben c\n => +OK\r\n
{0..5000|*3\r\n$6\r\nAPPEND\r\n$1\r\na\r\n$1\r\nx\r\n} => {1..5001|:%\r\n}
*2\r\n$3\r\nGET\r\n$1\r\na\r\n => $5000\r\n{0..5000|x}\r\n
*4\r\n$5\r\nRANGE\r\n$6\r\n133324\r\n$0\r\n\r\n$2\r\n99\r\n => *22\r\n{133324..133334|$6\r\n%\r\n$1\r\nw\r\n}$1\r\na\r\n$5000\r\n{0..5000|x}\r\n
{100000..133334|*2\r\n$3\r\nDEL\r\n$6\r\n%\r\n} => {100000..133334|:1\r\n}
*2\r\n$6\r\nEXISTS\r\n$6\r\n116667\r\n => :0\r\n
AUTH ann bc\n => +OK\r\n
*4\r\n$5\r\nRANGE\r\n$6\r\n133324\r\n$0\r\n\r\n$2\r\n99\r\n => *20\r\n{133324..133334|$6\r\n%\r\n$1\r\nv\r\n}
{100000..133334|*2\r\n$3\r\nDEL\r\n$6\r\n%\r\n} => {100000..133334|:1\r\n}
*2\r\n$6\r\nEXISTS\r\n$6\r\n116667\r\n => :0\r\n
AUTH cap abc\n => +OK\r\n
*4\r\n$5\r\nRANGE\r\n$6\r\n133324\r\n$0\r\n\r\n$2\r\n99\r\n => *20\r\n{133324..133334|$6\r\n%\r\n$2\r\nxx\r\n}
{100000..133334|*2\r\n$3\r\nDEL\r\n$6\r\n%\r\n} => {100000..133334|:1\r\n}
*2\r\n$6\r\nEXISTS\r\n$6\r\n116667\r\n => :0\r\n
";

#[test]
fn a_store_may_be_large(rt: HostRuntime) -> Result<(), Fail> {
    answers_by(&rt, "pipe --tenants all.toml", MANY)?;
    answers_by(&rt, "pipe --tenants all.toml --fanout 256", MANY)?;
    answers_by(&rt, "pipe --tenants all.toml --fanout 4 --leaf 4096", MANY)
}

/// As many connections as there may be, and 90,000 events of some of them: more than 64 KiB of answers.
const LONG: &str = "{1..65536|open %
}{1..10001|serve %
}{1..10001|serve %
}{1..10001|serve %
}{1..10001|serve %
}{1..10001|serve %
}{1..10001|serve %
}{1..10001|serve %
}{1..10001|serve %
}{1..10001|serve %
}----
{0..65535|open
}{0..90000|more
}";

#[test]
fn a_script_may_be_long(rt: HostRuntime) -> Result<(), Fail> {
    answers_scripts(&rt, SCRIPT, LONG)
}
