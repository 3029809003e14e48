//! What the words of a command line ask for: each option, and what is meant where it is left out.
use crate::table::rows_of;
use std::alloc::{AllocError, Global};
use std::test::Fail;
use stow_program::stow_command_line::arguments::{Arguments, Wish, read_arguments};
use stow_run::job::{Job, Task};
use stow_run::serving::Serving;

/// The words, and the job with its own options; then the sizes of the tree, the tenant file, and whether more is told of
/// what goes wrong.
const WORDS: &str = "
pipe --tenants t => pipe 2097152 65536 16 1024 t false
script --tenants t => script 2097152 65536 16 1024 t false
usage --tenants t => usage 2097152 65536 16 1024 t false
serve --tenants t => serve 127.0.0.1:6379 4 10000 1 0 false 2097152 65536 16 1024 t false
pipe --tenants other/file --explain => pipe 2097152 65536 16 1024 other/file true
script --tenants t --buffer 4194304 => script 4194304 65536 16 1024 t false
usage --tenants t --leaf 4096 => usage 2097152 4096 16 1024 t false
pipe --tenants t --fanout 256 => pipe 2097152 65536 256 1024 t false
pipe --tenants t --cache 0 => pipe 2097152 65536 16 0 t false
serve --tenants t --listen [::1]:7000 => serve [::1]:7000 4 10000 1 0 false 2097152 65536 16 1024 t false
serve --tenants t --workers 256 => serve 127.0.0.1:6379 256 10000 1 0 false 2097152 65536 16 1024 t false
serve --tenants t --clients 65535 => serve 127.0.0.1:6379 4 65535 1 0 false 2097152 65536 16 1024 t false
serve --tenants t --flushers 0 => serve 127.0.0.1:6379 4 10000 0 0 false 2097152 65536 16 1024 t false
serve --tenants t --flushers 16 => serve 127.0.0.1:6379 4 10000 16 0 false 2097152 65536 16 1024 t false
serve --tenants t --connections 65535 => serve 127.0.0.1:6379 4 10000 1 65535 false 2097152 65536 16 1024 t false
serve --tenants t --notices => serve 127.0.0.1:6379 4 10000 1 0 true 2097152 65536 16 1024 t false
serve --tenants t --leaf 1048576 --fanout 4 --cache 65536 --explain => serve 127.0.0.1:6379 4 10000 1 0 false 2097152 1048576 4 65536 t true
";

fn spelled_serving(alloc: Global, serving: Serving) -> Result<String, AllocError> {
    let (listen, notices) = (serving.listen, serving.notices);
    let (workers, clients) = (serving.workers, serving.clients);
    let (flushers, connections) = (serving.flushers, serving.connections);
    format!(in alloc; "serve {listen} {workers} {clients} {flushers} {connections} {notices}")
}

fn spelled_job(alloc: Global, job: Job) -> Result<String, AllocError> {
    match job {
        Job::Input(Task::Pipe) => String::from_str(alloc, "pipe"),
        Job::Input(Task::Script) => String::from_str(alloc, "script"),
        Job::Input(Task::Usage) => String::from_str(alloc, "usage"),
        Job::Serve(serving) => spelled_serving(alloc, serving),
    }
}

fn spelled(alloc: Global, arguments: &Arguments<'_>) -> Result<String, AllocError> {
    let job = spelled_job(alloc, arguments.job)?;
    let (shape, tenants, explain) = (arguments.shape, arguments.tenants, arguments.explain);
    let (buffer, leaf, fan_out, cache) = (shape.buffer, shape.leaf, shape.fan_out, shape.cache);
    format!(in alloc; "{job} {buffer} {leaf} {fan_out} {cache} {tenants} {explain}")
}

/// What the words of a command line ask for, spelled, if it is a job.
fn asked(alloc: Global, line: &str) -> Result<String, AllocError> {
    let mut words = Vec::new(alloc);
    words.push(String::from_str(alloc, "stow")?)?;
    for word in line.split_whitespace() {
        words.push(String::from_str(alloc, word)?)?;
    }
    match read_arguments(alloc, words.as_slice()) {
        Ok(Wish::Work(arguments)) => spelled(alloc, &arguments),
        _ => Ok(String::new(alloc)),
    }
}

#[test]
fn words_ask_for_jobs(rt: HostRuntime) -> Result<(), Fail> {
    for row in rows_of(rt.alloc(), WORDS)?.as_slice() {
        let found = asked(rt.alloc(), row.given.as_str())?;
        assert!(rt;
            found.as_str() == row.told.as_str(),
            "{}: {found}",
            row.given
        );
    }
    Ok(())
}
