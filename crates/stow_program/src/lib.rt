//! What the program `stow` does, over any files, reader and writers.
//!
//! It reads its arguments and the tenant file that they name, and does the task that they ask for (`stow_tasks`), serves
//! connections over TCP (`serve`) or tells that the file is good (`check`); a tenant's entry needs no file. Proved of it: it is safe; input or output is said to have failed only where one of its
//! calls did; the status is that of the failure that it came to, and 0 stands for no failure, each with what had been read and
//! written by then (`specs/Outcomes.antt`); connections that were served to their end leave the lock, its seats and their
//! number as the command line asked for (`specs/Services.antt`). Not proved of it: what the file of the tenants holds. What the service answers is
//! proved in the crates below.
#![tactic(auto)]

pub mod check;
pub mod network;
pub mod program;
pub mod serve;
pub mod service;
mod tenant_file;

pub use stow_command_line;
pub use stow_command_line::stow_tree;
pub use stow_tasks;
pub use stow_tasks::stow_workers;
