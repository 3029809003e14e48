//! The command that makes a tenant's entry.
ghost use Rattle.std.specs.Prelude.{IfErr, IfOk};
ghost use Rattle.stow_command_line.specs.Words.{AsksByRule, RefusesWords};

use crate::arguments::{Wish, named};
use clap::{Arg, ArgAction, ArgMatches, Command, Error, value_parser};
use std::alloc::{AllocError, Global};
use stow_login::new_tenant::NewTenant;
use stow_login::tenants_fault::TenantsFault;
use stow_run::failure::Failure;

pub(crate) fn command<'a>(alloc: Global) -> Result<Command<'a>, Error> {
    let about = "Makes a tenant's entry of the password on standard input";
    let command = Command::new(alloc, "entry").about(about);
    let command = command.arg(name(alloc))?.arg(quota(alloc))?;
    Ok(command.arg(salt(alloc))?)
}

fn name<'a>(alloc: Global) -> Arg<'a> {
    Arg::new(alloc, "name")
        .value_name("NAME")
        .help("The tenant's name")
        .required(true)
        .action(ArgAction::Set)
}

fn quota<'a>(alloc: Global) -> Arg<'a> {
    let help = "How many bytes its rows may be charged";
    named(alloc, "quota", "BYTES", help)
        .required(true)
        .value_parser(value_parser!(i64).range(0..=i64::MAX))
}

fn salt<'a>(alloc: Global) -> Arg<'a> {
    let help = "The salt in hexadecimal digits; 16 random bytes where it is left out";
    named(alloc, "salt", "HEX", help)
}

/// What was matched; each command that is matched has its name and its quota.
pub(crate) fn wish_of<'a>(
    alloc: Global,
    matches: &ArgMatches<'a>,
) -> Result<Wish<'a>, Failure<'static>>
    ensures ok { IfOk result AsksByRule }
    ensures err { IfErr result RefusesWords }
{
    let nothing = Failure::Arguments(String::new(alloc));
    let Some(name) = matches.get_str("name") else {
        return Err(nothing);
    };
    let Some(quota) = matches.get_one::<i64>("quota") else {
        return Err(nothing);
    };
    match NewTenant::read(alloc, name, matches.get_str("salt"), quota) {
        Ok(tenant) => Ok(Wish::Entry(tenant)),
        Err(TenantsFault::OutOfMemory) => Err(Failure::Memory),
        Err(fault) => Err(Failure::Arguments(refusal(alloc, fault)?)),
    }
}

/// The fault in the form of the parser's own texts.
fn refusal(alloc: Global, fault: TenantsFault) -> Result<String, AllocError> {
    format!(in alloc; "error: {fault}\n\nFor more information, try '--help'.\n")
}
