//! What the program does with standard input: a pipe, a script, or what each tenant uses after a script.
//!
//! It makes a new service, and answers the bytes of one connection (`pipe`), carries a script's events out and tells what they
//! lead to (`script`), or runs them and tells what each tenant uses then (`usage`).
//! Proved of it: what it does (`service::serve`) returns; a script is read as `specs/Read.antt` says; of a reader and a writer
//! that tell their bytes, what is written are the lines of its events' results (`specs/Told.antt`), all of them where it ends
//! well; of a pipe over these, the bytes are served and answered as `serve_connection` says (`specs/Pipes.antt`); input or
//! output is said to have failed only where one of its calls did (`specs/Ends.antt`, `specs/Told.antt`).
#![tactic(auto)]

pub mod entry;
pub mod line;
pub mod new_core;
pub mod pipe;
pub mod script;
pub mod service;
pub mod usage;

pub use stow_workers;
pub use stow_workers::stow_shared;
