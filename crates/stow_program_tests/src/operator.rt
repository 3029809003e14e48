//! The operator's commands: an entry is made, is good, and its password logs in.
use crate::given::Given;
use crate::running::{ENTRY, Shelf, answers, run, run_over};
use crate::table::rows_of;
use std::alloc::Global;
use std::net::{Net, TcpListener, TcpStream};
use std::process::Abort;
use std::sync::Wait;
use std::test::Fail;
use std::thread::Threads;

/// Command lines that end with status 0 over a file of the test's own, and what they are told.
fn tells<H>(rt: &H, own: &str, line: &str, input: &str, told: &str) -> Result<(), Fail>
where
    H: Abort
        + Alloc<A = Global>
        + Net<Listener = TcpListener, Stream = TcpStream>
        + Threads
        + Wait
        + Sync,
{
    let alloc = rt.alloc();
    let shelf = Shelf {
        own: own.as_bytes(),
    };
    let (mut output, mut errors) = (Vec::new(alloc), Vec::new(alloc));
    let mut input = Given::all(input.as_bytes());
    let status = run_over(rt, &shelf, line, &mut input, &mut output, &mut errors)?;
    let is_told = output.as_slice() == told.as_bytes() && errors.is_empty();
    assert!(rt; status == 0 && is_told, "{line}");
    Ok(())
}

/// What standard input is, and the password that it is: all of it but one LF, or CR LF, at its end.
const PASSWORDS: &str = "
word => word
word\\n => word
word\\r\\n => word
word\\n\\n => word\\n
word\\r => word\\r
\\n => 
 => 
two words => two words
";

/// Wants the entry that is made of an input to be good, and its password alone to log in.
fn makes_entry<H>(rt: &H, line: &str, input: &str, password: &str) -> Result<(), Fail>
where
    H: Abort
        + Alloc<A = Global>
        + Net<Listener = TcpListener, Stream = TcpStream>
        + Threads
        + Wait
        + Sync,
{
    let made = run(rt, line, &mut Given::all(input.as_bytes()))?;
    let own = made.output.as_str();
    assert!(rt; made.status == 0 && made.errors.is_empty(), "{input}");
    tells(
        rt,
        own,
        "check --tenants own.toml",
        "",
        "good, tenants: 1\n",
    )?;
    let login = "*3\r\n$4\r\nAUTH\r\n$4\r\ndora\r\n";
    let count = password.len();
    let asked = format!(in rt.alloc(); "{login}${count}\r\n{password}\r\n{login}$6\r\nwordly\r\n")?;
    let replies = "+OK\r\n-WRONGPASS invalid name or password\r\n";
    let pipe = "pipe --tenants own.toml";
    tells(rt, own, pipe, asked.as_str(), replies)
}

/// The entry of the salt and the password whose digest `sha256sum` told.
const DORA: &str = "[[tenant]]
digest = \"784470594392935937dd27aa31f9cc090f82deb6745c39978589a569b1c212a4\"
name = \"dora\"
quota = 1000000
salt = \"b7e27afc3a447de83f4950ceb8fc7350\"
";

#[test]
fn entries_are_made(rt: HostRuntime) -> Result<(), Fail> {
    for row in &rows_of(rt.alloc(), PASSWORDS)? {
        makes_entry(&rt, ENTRY, row.given.as_str(), row.told.as_str())?;
    }
    let salted = "entry dora --quota 1000000 --salt b7e27afc3a447de83f4950ceb8fc7350";
    answers(&rt, salted, "correct horse\n", DORA)?;
    answers(&rt, "check --tenants three.toml", "", "good, tenants: 3\n")
}

// The random source may fail; a salt that is given needs none.
#[test]
fn a_salt_may_be_wanting(rt: HostRuntime) -> Result<(), Fail> {
    let alloc = rt.alloc();
    let shelf = Shelf { own: b"no salt" };
    for (line, wanted) in [(ENTRY, 4), ("entry dora --quota 0 --salt 00", 0)] {
        let (mut output, mut errors) = (Vec::new(alloc), Vec::new(alloc));
        let mut input = Given::all(b"word");
        let status = run_over(&rt, &shelf, line, &mut input, &mut output, &mut errors)?;
        assert!(rt;
            status == wanted && output.is_empty() == (wanted == 4),
            "{line}"
        );
    }
    Ok(())
}
