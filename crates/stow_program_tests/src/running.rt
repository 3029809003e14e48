//! Runs of the program over memory.
ghost use Rattle.std.specs.Prelude.{◌≡◌, length};

use crate::given::Given;
use crate::table::{Row, rows_of, scripts_of};
use std::alloc::{AllocError, Allocator, Global};
use std::io;
use std::io::{Read, Write};
use std::net::{Net, TcpListener, TcpStream};
use std::process::Abort;
use std::sync::Wait;
use std::test::Fail;
use std::thread::Threads;
use stow_login::tenants::Tenants;
use stow_program::program::program;
use stow_program::stow_tasks::service::serve;
use stow_program::stow_tree::tree_shape::TreeShape;
use stow_program::stow_workers::counted::Counted;
use stow_run::folder::Folder;
use stow_run::job::Task;
use stow_run::salt_source::SaltSource;
use stow_testing::tenants::{AMPLE, AMPLE_THREE, TEN_MILLION, THREE};

/// The command lines that most runs are of.
pub const PIPE: &str = "pipe --tenants three.toml";

pub const SCRIPT: &str = "script --tenants three.toml";

pub const USAGE: &str = "usage --tenants three.toml";

pub const AMPLE_PIPE: &str = "pipe --tenants ample.toml";

pub const ENTRY: &str = "entry dora --quota 1000000";

/// A login, a write and a read, and their replies.
pub const HELLO: &[u8] =
    b"*3\r\n$4\r\nAUTH\r\n$3\r\nann\r\n$2\r\nbc\r\n*3\r\n$3\r\nSET\r\n$1\r\nk\r\n$2\r\nv1\r\n*2\r\n$3\r\nGET\r\n$1\r\nk\r\n";

pub const HELLO_REPLIES: &[u8] = b"+OK\r\n+OK\r\n$2\r\nv1\r\n";

/// Files over memory, of which one is the test's own.
#[derive(Clone, Copy)]
pub struct Shelf<'a> {
    pub own: &'a [u8],
}

impl<'a> Folder for Shelf<'a> {
    type File = Given<'a>;

    fn open(&self, path: &str) -> io::Result<Given<'a>> {
        match path {
            "three.toml" => Ok(Given::all(THREE.as_bytes())),
            "ample.toml" => Ok(Given::all(AMPLE.as_bytes())),
            "all.toml" => Ok(Given::all(AMPLE_THREE.as_bytes())),
            "ten.toml" => Ok(Given::all(TEN_MILLION.as_bytes())),
            "empty.toml" => Ok(Given::all(b"")),
            "latin.toml" => Ok(Given::all(b"# \xe9\n")),
            "number.toml" => Ok(Given::all(b"tenant = 1")),
            "broken.toml" => Ok(Given::broken()),
            "own.toml" => Ok(Given::all(self.own)),
            _ => Err(io::Error::from(io::ErrorKind::NotFound)),
        }
    }
}

/// Random bytes that are no others each time, but where the test's own file is this word: then there are none.
impl SaltSource for Shelf<'_> {
    ghost gives = { λ _ salt. length salt ≡ 16 };

    fn salt(&self) -> io::Result<[u8; 16]> {
        if self.own == b"no salt".as_slice() {
            return Err(io::Error::from(io::ErrorKind::Other));
        }
        Ok(*b"sixteen of these")
    }
}

/// The words of a command line, after the program's own name.
fn words_of(alloc: Global, line: &str) -> Result<Vec<String>, AllocError> {
    let mut words = Vec::new(alloc);
    words.push(String::from_str(alloc, "stow")?)?;
    for word in line.split_whitespace() {
        words.push(String::from_str(alloc, word)?)?;
    }
    Ok(words)
}

/// Runs a command line over files, a reader and writers, and gives the status.
pub fn run_over<H, R: Read, W: Write>(
    rt: &H,
    shelf: &Shelf<'_>,
    line: &str,
    input: &mut R,
    output: &mut W,
    errors: &mut Vec<u8>,
) -> Result<u8, AllocError>
where
    H: Abort
        + Alloc<A = Global>
        + Net<Listener = TcpListener, Stream = TcpStream>
        + Threads
        + Wait
        + Sync,
{
    let words = words_of(rt.alloc(), line)?;
    let mut reader = Counted::new(input);
    let mut writer = Counted::new(output);
    let words = words.as_slice();
    Ok(program(
        rt,
        rt.alloc(),
        shelf,
        words,
        &mut reader,
        &mut writer,
        errors,
    ))
}

/// Whether a task over a new service of these tenants ends well.
pub fn ends_well<A: Allocator + Copy, R: Read, W: Write>(
    alloc: A,
    tenants: Tenants<A>,
    task: Task,
    input: &mut R,
    output: &mut W,
) -> bool {
    let mut reader = Counted::new(input);
    let mut writer = Counted::new(output);
    let shape = TreeShape::USUAL;
    serve(alloc, tenants, shape, task, &mut reader, &mut writer).is_ok()
}

/// What a run ended with.
#[derive(Drop)]
pub struct Ended {
    pub status: u8,
    pub output: String,
    pub errors: String,
}

/// Runs a command line over a reader.
pub fn run<H>(rt: &H, line: &str, input: &mut Given<'_>) -> Result<Ended, AllocError>
where
    H: Abort
        + Alloc<A = Global>
        + Net<Listener = TcpListener, Stream = TcpStream>
        + Threads
        + Wait
        + Sync,
{
    let alloc = rt.alloc();
    let mut output = Vec::new(alloc);
    let mut errors = Vec::new(alloc);
    let shelf = Shelf { own: b"" };
    let status = run_over(rt, &shelf, line, input, &mut output, &mut errors)?;
    Ok(Ended {
        status,
        output: String::from_utf8_lossy(alloc, output.as_slice())?,
        errors: String::from_utf8_lossy(alloc, errors.as_slice())?,
    })
}

/// Wants a command line over a reader to end with this status, this output and these errors.
pub fn wants<H>(
    rt: &H,
    line: &str,
    input: &mut Given<'_>,
    status: u8,
    output: &str,
    errors: &str,
) -> Result<(), Fail>
where
    H: Abort
        + Alloc<A = Global>
        + Net<Listener = TcpListener, Stream = TcpStream>
        + Threads
        + Wait
        + Sync,
{
    let ended = run(rt, line, input)?;
    let is_told = ended.output.as_str() == output && ended.errors.as_str() == errors;
    let is_ended = ended.status == status;
    assert!(rt; is_ended && is_told, "{line}");
    Ok(())
}

/// Wants a command line to answer the text so, and to end with status 0 and no error.
pub fn answers<H>(rt: &H, line: &str, input: &str, output: &str) -> Result<(), Fail>
where
    H: Abort
        + Alloc<A = Global>
        + Net<Listener = TcpListener, Stream = TcpStream>
        + Threads
        + Wait
        + Sync,
{
    wants(rt, line, &mut Given::all(input.as_bytes()), 0, output, "")
}

/// Wants each row to be answered so.
fn answers_rows<H>(rt: &H, line: &str, rows: &[Row]) -> Result<(), Fail>
where
    H: Abort
        + Alloc<A = Global>
        + Net<Listener = TcpListener, Stream = TcpStream>
        + Threads
        + Wait
        + Sync,
{
    for row in rows {
        answers(rt, line, row.given.as_str(), row.told.as_str())?;
    }
    Ok(())
}

/// Wants each row of a table to be a connection that is answered so.
pub fn answers_each<H>(rt: &H, table: &str) -> Result<(), Fail>
where
    H: Abort
        + Alloc<A = Global>
        + Net<Listener = TcpListener, Stream = TcpStream>
        + Threads
        + Wait
        + Sync,
{
    let rows = rows_of(rt.alloc(), table)?;
    answers_rows(rt, PIPE, rows.as_slice())
}

/// Wants each script of a table to be told so.
pub fn answers_scripts<H>(rt: &H, line: &str, table: &str) -> Result<(), Fail>
where
    H: Abort
        + Alloc<A = Global>
        + Net<Listener = TcpListener, Stream = TcpStream>
        + Threads
        + Wait
        + Sync,
{
    let rows = scripts_of(rt.alloc(), table)?;
    answers_rows(rt, line, rows.as_slice())
}

/// What ann's login asks and is told, and then all rows of a table; `~` stands for the byte 255 in what is asked.
pub fn joined<A: Allocator + Copy>(
    alloc: A,
    table: &str,
) -> Result<(Vec<u8, A>, String<A>), AllocError> {
    let mut asked = Vec::from_slice(alloc, b"AUTH ann bc\n")?;
    let mut told = String::from_str(alloc, "+OK\r\n")?;
    for row in &rows_of(alloc, table)? {
        push_bytes(row.given.as_bytes(), &mut asked)?;
        told.push_str(row.told.as_str())?;
    }
    Ok((asked, told))
}

fn push_bytes<A: Allocator>(bytes: &[u8], all: &mut Vec<u8, A>) -> Result<(), AllocError> {
    for byte in bytes {
        all.push(if *byte == b'~' { 255 } else { *byte })?;
    }
    Ok(())
}

/// Wants the rows of a table to be answered so as one connection, behind ann's login.
pub fn answers_all<H>(rt: &H, table: &str) -> Result<(), Fail>
where
    H: Abort
        + Alloc<A = Global>
        + Net<Listener = TcpListener, Stream = TcpStream>
        + Threads
        + Wait
        + Sync,
{
    answers_by(rt, PIPE, table)
}

/// The same of a command line.
pub fn answers_by<H>(rt: &H, line: &str, table: &str) -> Result<(), Fail>
where
    H: Abort
        + Alloc<A = Global>
        + Net<Listener = TcpListener, Stream = TcpStream>
        + Threads
        + Wait
        + Sync,
{
    let (asked, told) = joined(rt.alloc(), table)?;
    let mut input = Given::all(asked.as_slice());
    wants(rt, line, &mut input, 0, told.as_str(), "")
}
