//! What connections and scripts are answered: worked examples, whose answers come from the service's description.
use crate::given::Given;
use crate::running::{
    HELLO, HELLO_REPLIES, PIPE, SCRIPT, USAGE, answers, answers_all, answers_each, answers_scripts,
    run, wants,
};
use std::alloc::{AllocError, Allocator};
use std::test::Fail;
use stow_testing::rows::{ROWS, Told, asked, told};

#[test]
fn a_connection_is_answered_in_every_cutting(rt: HostRuntime) -> Result<(), Fail> {
    for first in 0..=HELLO.len() {
        let mut pieces = match first {
            0 => Given::pieces(HELLO, 1, 1),
            _ => Given::pieces(HELLO, first, 4096),
        };
        let ended = run(&rt, PIPE, &mut pieces)?;
        let is_answered = ended.output.as_bytes() == HELLO_REPLIES;
        assert!(rt; ended.status == 0 && is_answered, "cut at {first}");
    }
    Ok(())
}

/// Whole connections. Those before the login that fails are nobody's; what comes after a QUIT or a fault isn't read. A
/// connection changes hands, and a login that fails changes nothing.
const CONNECTIONS: &str = r#"
 => 
*3\r\n$4\r\nAUTH\r\n$3\r\nann\r\n$2\r\nbc\r\n*3\r\n$3\r\nSET\r\n$1\r\nk\r\n$2\r\nv1\r\n*2\r\n$3\r\nGET\r\n$1\r\nk\r\n => +OK\r\n+OK\r\n$2\r\nv1\r\n
*2\r\n$3\r\nGET\r\n$1\r\nk\r\n*1\r\n$3\r\nFOO\r\n*3\r\n$4\r\nAUTH\r\n$3\r\nann\r\n$1\r\nc\r\n*1\r\n$4\r\nQUIT\r\n*1\r\n$4\r\nPING\r\n => -NOAUTH Authentication required.\r\n-NOAUTH Authentication required.\r\n-WRONGPASS invalid name or password\r\n+OK\r\n
*3\r\n$4\r\nAUTH\r\n$3\r\nann\r\n$2\r\nbc\r\n*2\r\n$3\r\nGET\r\n$5\r\nabc => +OK\r\n
*3\r\n$4\r\nAUTH\r\n$3\r\nann\r\n$2\r\nbc\r\n*1\r\n$4\r\nPING\r\n*1\r\n$1048577\r\n*1\r\n$4\r\nPING\r\n => +OK\r\n+PONG\r\n-ERR Protocol error: invalid bulk length\r\n
*1024\r\n$1048576\r\n => 
*1024\r\n$65535\r\n => 
*x\r\n => -ERR Protocol error: invalid multibulk length\r\n
*0\r\n*-1\r\n*1\r\n$4\r\nquit\r\n => +OK\r\n
*3\r\n$4\r\nAUTH\r\n$3\r\nann\r\n$2\r\nbc\r\n*3\r\n$3\r\nSET\r\n$1\r\nk\r\n$1\r\na\r\n*3\r\n$4\r\nAUTH\r\n$3\r\nben\r\n$1\r\nc\r\n*3\r\n$3\r\nSET\r\n$1\r\nk\r\n$1\r\nb\r\n*3\r\n$4\r\nAUTH\r\n$3\r\nann\r\n$1\r\nc\r\n*2\r\n$3\r\nGET\r\n$1\r\nk\r\n => +OK\r\n+OK\r\n+OK\r\n+OK\r\n-WRONGPASS invalid name or password\r\n$1\r\nb\r\n
PING\r\n => -NOAUTH Authentication required.\r\n
GET k\n => -NOAUTH Authentication required.\r\n
SET k "w"\r\n => -NOAUTH Authentication required.\r\n
FOO\r\n => -NOAUTH Authentication required.\r\n
\r\nquit\nPING\n => +OK\r\n
"#;

/// Lines behind a login: blanks, quoted lines, and lines among arrays.
const LINES: &str = r#"
auth ann bc\r\nset k v\r\nGET  k\n => +OK\r\n+OK\r\n$1\r\nv\r\n
auth ann bc\r\n\r\n*0\r\n*-1\r\n\n \t\r\n => +OK\r\n
auth ann bc\r\nset k v\r\nSET k "w"\r\nGET k\r\n => +OK\r\n+OK\r\n-ERR quotes in an inline request are not served\r\n$1\r\nv\r\n
auth ann bc\r\necho it's\r\n => +OK\r\n-ERR quotes in an inline request are not served\r\n
auth ann bc\r\necho a\rb\r\n => +OK\r\n$3\r\na\rb\r\n
auth ann bc\r\necho\ta\n*1\r\n$4\r\nPING\r\nping\n => +OK\r\n$1\r\na\r\n+PONG\r\n+PONG\r\n
auth ann bc\r\n$4\r\n => +OK\r\n-ERR unknown command\r\n
auth ann bc\r\nping\r\npin => +OK\r\n+PONG\r\n
"#;

/// Commands of one connection, one after another behind its login.
const COMMANDS: &str = r#"
*3\r\n$4\r\nAUTH\r\n$3\r\nann\r\n$2\r\nbc\r\n => +OK\r\n
*1\r\n$4\r\nPiNg\r\n => +PONG\r\n
*2\r\n$4\r\nPING\r\n$2\r\nhi\r\n => $2\r\nhi\r\n
*3\r\n$4\r\nPING\r\n$1\r\na\r\n$1\r\nb\r\n => -ERR wrong number of arguments\r\n
*2\r\n$4\r\nAUTH\r\n$3\r\nann\r\n => -ERR wrong number of arguments\r\n
*2\r\n$4\r\nQUIT\r\n$1\r\nx\r\n => -ERR wrong number of arguments\r\n
*2\r\n$5\r\nHELLO\r\n$1\r\n3\r\n => -ERR unknown command\r\n
*1\r\n$3\r\nGET\r\n => -ERR wrong number of arguments\r\n
*2\r\n$3\r\nSET\r\n$1\r\nk\r\n => -ERR wrong number of arguments\r\n
*2\r\n$3\r\nGET\r\n$1\r\nk\r\n => $-1\r\n
*3\r\n$3\r\nset\r\n$0\r\n\r\n$0\r\n\r\n => +OK\r\n
*2\r\n$3\r\nget\r\n$0\r\n\r\n => $0\r\n\r\n
*3\r\n$3\r\nSET\r\n$1\r\nk\r\n$1\r\nv\r\n*3\r\n$3\r\nDEL\r\n$1\r\nk\r\n$1\r\nk\r\n => +OK\r\n:1\r\n
*2\r\n$3\r\nDEL\r\n$1\r\nk\r\n => :0\r\n
*1\r\n$3\r\nDEL\r\n => -ERR wrong number of arguments\r\n
"#;

#[test]
fn connections_are_answered(rt: HostRuntime) -> Result<(), Fail> {
    answers_each(&rt, CONNECTIONS)?;
    answers_each(&rt, LINES)?;
    answers_all(&rt, COMMANDS)
}

/// What a login and a row of worked requests are told.
fn replies<A: Allocator + Copy>(alloc: A, row: &[Told]) -> Result<String<A>, AllocError> {
    let told = told(alloc, row)?;
    let told = String::from_utf8_lossy(alloc, told.as_slice())?;
    format!(in alloc; "+OK\r\n{told}")
}

#[test]
fn worked_requests(rt: HostRuntime) -> Result<(), Fail> {
    for row in &ROWS {
        let asked = asked(rt.alloc(), row)?;
        let told = replies(rt.alloc(), row)?;
        let mut input = Given::all(asked.as_slice());
        wants(&rt, PIPE, &mut input, 0, told.as_str(), "")?;
    }
    Ok(())
}

/// Scripts, and what their lines are told. The third has two tenants with the same key; in the fourth two flushers have a job of
/// the same change, and a snapshot is taken meanwhile; the fifth has a blank, a byte with no other form, and a fault, after which
/// the connection is closed; in the last the operator lowers cap's quota below what cap is charged, and ann's to nothing.
const SCRIPTS: &str = r"open 1
piece 1 *3\r\n$4\r\nAUTH\r\n$3\r\nann\r\n$2\r\nbc\r\n
serve 1
serve 1
plan 1
serve 2
----
open
taken
reply +OK\r\n
more
none
refused
====
open 1
open 1
serve 1
plan 1
merge 1
resize 5
close 1
open 1
----
open
refused
more
none
refused
resized
closed
refused
====
# two tenants with the same key

open 1
open 2
piece 1 *3\r\n$4\r\nAUTH\r\n$3\r\nann\r\n$2\r\nbc\r\n*3\r\n$3\r\nSET\r\n$1\r\nk\r\n$1\r\nA\r\n*2\r\n$3\r\nGET\r\n$1\r\nk\r\n*2\r\n$3\r\nGET\r\n$1\r\nk\r\n
piece 2 *3\r\n$4\r\nAUTH\r\n$3\r\nben\r\n$1\r\nc\r\n*3\r\n$3\r\nSET\r\n$1\r\nk\r\n$1\r\n\x00\r\n*2\r\n$3\r\nDEL\r\n$1\r\nk\r\n*2\r\n$3\r\nGET\r\n$1\r\nk\r\n
serve 1
serve 2
serve 1
serve 2
serve 1
serve 2
serve 1
serve 2
----
open
open
taken
taken
reply +OK\r\n
reply +OK\r\n
reply +OK\r\n
reply +OK\r\n
reply $1\r\nA\r\n
reply :1\r\n
reply $1\r\nA\r\n
reply $-1\r\n
====
open 1
piece 1 auth ann bc\r\nset a x\r\nsnapshot take\r\nset a y\r\nsnapshot get 1 a\r\nget a\r\n
merge 1
serve 1
serve 1
plan 1
plan 1
install 1
merge 1
plan 2
serve 1
serve 1
merge 2
install 1
install 2
install 2
serve 1
serve 1
plan 64
----
open
taken
refused
reply +OK\r\n
reply +OK\r\n
job
refused
refused
merged
job
reply :1\r\n
reply +OK\r\n
merged
done
stale
refused
reply $1\r\nx\r\n
reply $1\r\ny\r\n
job
====
open 7
piece 7 *0\r\n*2\r\n$4\r\nPING\r\n$1\r\n\xE9\r\n*x
serve 7
serve 7
serve 7
serve 7
piece 7 
close 7
----
open
taken
blank
reply -NOAUTH Authentication required.\r\n
reply -ERR Protocol error: invalid multibulk length\r\n
refused
refused
refused
====
open 1
piece 1 *3\r\n$4\r\nauth\r\n$3\r\ncap\r\n$3\r\nabc\r\n*2\r\n$4\r\nping\r\n$2\r\n\\\xe9\r\n
serve 1
serve 1
resize 65536
resize 0
----
open
taken
reply +OK\r\n
reply $2\r\n\\\xe9\r\n
resized
resized
====
open 1
piece 1 auth cap abc\r\nset a {0..83|x}\r\n
serve 1
serve 1
quota cap 50
usage cap
piece 1 usage\r\n*3\r\n$3\r\nSET\r\n$1\r\nb\r\n$0\r\n\r\n*3\r\n$6\r\nAPPEND\r\n$1\r\na\r\n$0\r\n\r\nset a x\r\n
serve 1
serve 1
quota ann 0
serve 1
serve 1
piece 1 set a {0..34|x}\r\nset a {0..33|x}\r\nusage\r\n
serve 1
serve 1
serve 1
usage cap
usage ann
----
open
taken
reply +OK\r\n
reply +OK\r\n
set
cap rows=1 charge=100 quota=50 writes=1 commands=1 refusals=0 snapshots=0
taken
reply *14\r\n$4\r\nrows\r\n:1\r\n$6\r\ncharge\r\n:100\r\n$5\r\nquota\r\n:50\r\n$6\r\nwrites\r\n:1\r\n$8\r\ncommands\r\n:2\r\n$8\r\nrefusals\r\n:0\r\n$9\r\nsnapshots\r\n:0\r\n
reply -QUOTA byte quota exceeded\r\n
set
reply :83\r\n
reply +OK\r\n
taken
reply -QUOTA byte quota exceeded\r\n
reply +OK\r\n
reply *14\r\n$4\r\nrows\r\n:1\r\n$6\r\ncharge\r\n:50\r\n$5\r\nquota\r\n:50\r\n$6\r\nwrites\r\n:4\r\n$8\r\ncommands\r\n:8\r\n$8\r\nrefusals\r\n:2\r\n$9\r\nsnapshots\r\n:0\r\n
cap rows=1 charge=50 quota=50 writes=4 commands=8 refusals=2 snapshots=0
ann rows=0 charge=0 quota=0 writes=0 commands=0 refusals=0 snapshots=0
";

/// A script, and what each tenant uses after it.
const USAGES: &str = r"open 1
piece 1 auth ann bc\r\nset a 0123456789\r\nget a\r\n
serve 1
serve 1
serve 1
shape
usage ann
quota cap 7
----
ann rows=1 charge=27 quota=1000000 writes=1 commands=2 refusals=0 snapshots=0
ben rows=0 charge=0 quota=1000000 writes=0 commands=0 refusals=0 snapshots=0
cap rows=0 charge=0 quota=7 writes=0 commands=0 refusals=0 snapshots=0
";

#[test]
fn scripts_are_carried_out(rt: HostRuntime) -> Result<(), Fail> {
    answers_scripts(&rt, SCRIPT, SCRIPTS)?;
    answers_scripts(&rt, USAGE, USAGES)?;
    answers(
        &rt,
        SCRIPT,
        "open 1\nclose 1\nopen 1",
        "open\nclosed\nrefused\n",
    )
}
