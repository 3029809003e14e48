//! The lines of a script: what each asks for, and bytes as a script writes them.
//!
//! Proved: a line is read as `specs/Script.antt` says, or is told to be none; `text::escape` writes the text that stands
//! for bytes, and `text::unescape` reads each text that stands for some. Of a word that a bad line stumbles on it is
//! proved that it is shown safely. It needs no thread, no socket and nothing of the service but its events' type.
#![tactic(auto)]

pub mod number;
pub mod reading;
pub mod script_line;
pub mod stumble;
pub mod text;

pub use stow_login;
