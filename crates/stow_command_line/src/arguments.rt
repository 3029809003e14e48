//! The command line.
ghost use Rattle.std.specs.Prelude.{IfErr, IfOk, IfSome};
ghost use Rattle.stow_command_line.specs.Words.{AsksByRule, RefusesWords};

use crate::entry;
use clap::error::ErrorKind;
use clap::{Arg, ArgAction, ArgMatches, Command, Error, value_parser};
use std::alloc::Global;
use stow_login::new_tenant::NewTenant;
use stow_run::failure::Failure;
use stow_run::job::{Job, Task};
use stow_run::serving::Serving;
use stow_tree::tree_shape::{
    LEAST_BUFFER, LEAST_FAN_OUT, LEAST_LEAF, MOST_BUFFER, MOST_CACHE, MOST_FAN_OUT, MOST_LEAF,
    TreeShape,
};

/// An option whose value is a number, and the limits of that.
struct Count {
    name: &'static str,
    value: &'static str,
    help: &'static str,
    /// The number where the option is left out.
    usual: &'static str,
    least: u32,
    most: u32,
}

/// What `--version` tells behind the program's name.
const VERSION: &str = "0.1.0";

/// The sizes of the tree.
const SIZES: [Count; 4] = [
    Count {
        name: "buffer",
        value: "BYTES",
        help: "How many bytes of messages a node of the tree holds",
        usual: "2097152",
        least: LEAST_BUFFER,
        most: MOST_BUFFER,
    },
    Count {
        name: "leaf",
        value: "BYTES",
        help: "How many bytes the page of a leaf is cut by",
        usual: "65536",
        least: LEAST_LEAF,
        most: MOST_LEAF,
    },
    Count {
        name: "fanout",
        value: "COUNT",
        help: "How many children a node of the tree may have",
        usual: "16",
        least: LEAST_FAN_OUT,
        most: MOST_FAN_OUT,
    },
    Count {
        name: "cache",
        value: "LEAVES",
        help: "How many leaves are held unpacked; 0 for none",
        usual: "1024",
        least: 0,
        most: MOST_CACHE,
    },
];

/// How many threads serve connections, how many of these there are, and how many threads flush.
const SERVING: [Count; 4] = [
    Count {
        name: "workers",
        value: "COUNT",
        help: "How many threads serve connections, each many of them in turn",
        usual: "4",
        least: 1,
        most: 256,
    },
    Count {
        name: "clients",
        value: "COUNT",
        help: "How many connections there are at once: the others wait",
        usual: "10000",
        least: 1,
        most: 65_535,
    },
    Count {
        name: "flushers",
        value: "COUNT",
        help: "How many threads move changes into leaves beside the requests; 0 for none",
        usual: "1",
        least: 0,
        most: 16,
    },
    Count {
        name: "connections",
        value: "COUNT",
        help: "After how many connections the program ends; 0 for no end",
        usual: "0",
        least: 0,
        most: 65_535,
    },
];

/// What the words of the command line say.
#[derive(Drop)]
pub struct Arguments<'a> {
    pub job: Job,
    /// How large the parts of the tree may grow, and its cache.
    pub shape: TreeShape,
    /// The path of the tenant file.
    pub tenants: &'a str,
    /// Whether a second line tells more of what goes wrong.
    pub explain: bool,
}

/// A tenant file that is to be looked at.
#[derive(Clone, Copy)]
pub struct TenantFile<'a> {
    pub path: &'a str,
    /// Whether a second line tells more of its fault.
    pub explain: bool,
}

/// What the words of the command line ask for.
#[derive(Drop)]
pub enum Wish<'a> {
    /// The text of the help.
    Help(String),
    /// What these say.
    Work(Arguments<'a>),
    /// The entry of this tenant, whose password is on standard input.
    Entry(NewTenant<'a>),
    /// Whether this file is good.
    Check(TenantFile<'a>),
}

/// What the words ask for, of which the first is the program's own name.
pub fn read_arguments(alloc: Global, words: &[String]) -> Result<Wish<'_>, Failure<'static>>
    ensures ok { IfOk result AsksByRule }
    ensures err { IfErr result RefusesWords }
{
    match matched(alloc, words) {
        Ok(matches) => wish_of(alloc, &matches),
        Err(error) => refused(alloc, &error),
    }
}

fn matched(alloc: Global, words: &[String]) -> Result<ArgMatches<'_>, Error> {
    let command = Command::new(alloc, "stow")
        .about("An ordered key-value service for many tenants, spoken to in RESP2")
        .version(VERSION)
        .subcommand_required(true);
    let pipe = "Answers the requests on standard input, as one connection";
    let command = command.subcommand(task(alloc, "pipe", pipe)?)?;
    let script = "Carries out the events of a script on standard input";
    let command = command.subcommand(task(alloc, "script", script)?)?;
    let usage = "Carries out a script's events, and tells what each tenant uses then";
    let command = command.subcommand(task(alloc, "usage", usage)?)?;
    let command = command.subcommand(serve(alloc)?)?;
    let command = command.subcommand(entry::command(alloc)?)?;
    let command = command.subcommand(check(alloc)?)?;
    command.try_get_matches_from(words)
}

/// The command of a task over standard input.
fn task<'a>(alloc: Global, name: &'a str, about: &'a str) -> Result<Command<'a>, Error> {
    with_service(alloc, Command::new(alloc, name).about(about))
}

/// The command that serves connections.
fn serve<'a>(alloc: Global) -> Result<Command<'a>, Error> {
    let about = "Serves connections over TCP, in turn";
    let command = Command::new(alloc, "serve").about(about);
    let command = command.arg(listen(alloc))?;
    let command = with_counts(alloc, command, &SERVING)?;
    let notices = "Tells the start and the end in a line each on standard error";
    let command = command.arg(flag(alloc, "notices", notices))?;
    with_service(alloc, command)
}

/// The command that looks at a tenant file.
fn check<'a>(alloc: Global) -> Result<Command<'a>, Error> {
    let about = "Tells whether a tenant file is good, and how many tenants it has";
    with_file(alloc, Command::new(alloc, "check").about(about))
}

/// The command with what each takes that has a service: the tenant file, and the sizes of the tree.
fn with_service<'a>(alloc: Global, command: Command<'a>) -> Result<Command<'a>, Error> {
    let command = with_file(alloc, command)?;
    with_counts(alloc, command, &SIZES)
}

/// The command with the tenant file, and the flag that asks for more of what goes wrong.
fn with_file<'a>(alloc: Global, command: Command<'a>) -> Result<Command<'a>, Error> {
    let command = command.arg(tenants(alloc))?;
    let explain = "Tells more of what goes wrong, in a second line on standard error";
    Ok(command.arg(flag(alloc, "explain", explain))?)
}

fn with_counts<'a>(
    alloc: Global,
    command: Command<'a>,
    counts: &[Count],
) -> Result<Command<'a>, Error> {
    let mut command = command;
    for count in counts {
        command = command.arg(counted(alloc, count))?;
    }
    Ok(command)
}

fn tenants<'a>(alloc: Global) -> Arg<'a> {
    named(alloc, "tenants", "FILE", "The tenant file")
        .required(true)
        .action(ArgAction::Set)
}

fn listen<'a>(alloc: Global) -> Arg<'a> {
    let help = "The IP address and port to listen at";
    named(alloc, "listen", "ADDRESS", help).default_value("127.0.0.1:6379")
}

fn counted<'a>(alloc: Global, count: &Count) -> Arg<'a> {
    let limits = i64::from(count.least)..=i64::from(count.most);
    named(alloc, count.name, count.value, count.help)
        .value_parser(value_parser!(u32).range(limits))
        .default_value(count.usual)
}

/// An option of this name, with a value.
pub(crate) fn named<'a>(alloc: Global, name: &'a str, value: &'a str, help: &'a str) -> Arg<'a> {
    Arg::new(alloc, name)
        .long(name)
        .value_name(value)
        .help(help)
}

/// A flag of this name.
fn flag<'a>(alloc: Global, name: &'a str, help: &'a str) -> Arg<'a> {
    Arg::new(alloc, name)
        .long(name)
        .help(help)
        .action(ArgAction::SetTrue)
}

/// What was matched.
fn wish_of<'a>(alloc: Global, matches: &ArgMatches<'a>) -> Result<Wish<'a>, Failure<'static>>
    ensures ok { IfOk result AsksByRule }
    ensures err { IfErr result RefusesWords }
{
    match matches.subcommand() {
        Some(("entry", matches)) => entry::wish_of(alloc, matches),
        Some((name, matches)) => work_of(alloc, name, matches),
        None => Err(Failure::Arguments(String::new(alloc))),
    }
}

/// What was matched; each command that is matched has its file and its numbers.
fn work_of<'a>(
    alloc: Global,
    name: &str,
    matches: &ArgMatches<'a>,
) -> Result<Wish<'a>, Failure<'static>>
    ensures ok { IfOk result AsksByRule }
    ensures err { IfErr result RefusesWords }
{
    let nothing = Failure::Arguments(String::new(alloc));
    let Some(tenants) = matches.get_str("tenants") else {
        return Err(nothing);
    };
    let explain = matches.get_flag("explain");
    if name == "check" {
        let path = tenants;
        return Ok(Wish::Check(TenantFile { path, explain }));
    }
    let Some(shape) = shape_of(matches) else {
        return Err(nothing);
    };
    let job = match name {
        "serve" => Job::Serve(serving_of(matches).ok_or(nothing)??),
        "script" => Job::Input(Task::Script),
        "usage" => Job::Input(Task::Usage),
        _ => Job::Input(Task::Pipe),
    };
    Ok(Wish::Work(Arguments {
        job,
        shape,
        tenants,
        explain,
    }))
}

/// The sizes of the tree, each within its limits.
fn shape_of(matches: &ArgMatches<'_>) -> Option<TreeShape> {
    let shape = TreeShape {
        buffer: matches.get_one::<u32>("buffer")?,
        leaf: matches.get_one::<u32>("leaf")?,
        fan_out: matches.get_one::<u32>("fanout")?,
        cache: matches.get_one::<u32>("cache")?,
    };
    if shape.is_in_range() {
        Some(shape)
    } else {
        None
    }
}

/// How connections are to be served; an `Err` where the address is none.
fn serving_of(matches: &ArgMatches<'_>) -> Option<Result<Serving, Failure<'static>>>
    ensures { IfSome result (λ served. IfErr served RefusesWords) }
{
    let listen = matches.get_str("listen")?;
    let workers = matches.get_one::<u32>("workers")?;
    let clients = matches.get_one::<u32>("clients")?;
    let flushers = matches.get_one::<u32>("flushers")?;
    let connections = matches.get_one::<u32>("connections")?;
    let Ok(listen) = listen.parse() else {
        return Some(Err(Failure::BadAddress));
    };
    Some(Ok(Serving {
        listen,
        workers,
        clients,
        flushers,
        connections: u64::from(connections),
        notices: matches.get_flag("notices"),
    }))
}

/// What is told where the parser gives no command.
fn refused<'a>(alloc: Global, error: &Error) -> Result<Wish<'a>, Failure<'static>>
    ensures ok { IfOk result AsksByRule }
    ensures err { IfErr result RefusesWords }
{
    if error.kind() == ErrorKind::OutOfMemory {
        return Err(Failure::Memory);
    }
    match error.to_string(alloc) {
        Ok(text) if error.use_stderr() => Err(Failure::Arguments(text)),
        Ok(text) => Ok(Wish::Help(text)),
        Err(_) => Err(Failure::Memory),
    }
}
