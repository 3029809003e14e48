//! A leaf of the tree in packed form, and its versions lent out of the bytes.
//!
//! `specs/Format.antt` defines the format by cases on the versions. A page has one of two formats: format 1 tells the
//! length of a value in two bytes, format 2 in four, and a page has format 2 just where one of its values is longer than
//! 65,535 bytes, so versions have one page. `specs/Faults.antt` says what is wrong with bytes that are no page: after
//! whole good fields the first field that ends too early or is out of its range, the first entry that doesn't stand above
//! the one before, bytes behind the last, or a format 2 that none of the values needs.
//!
//! `PackedRows` is the block that is written version by version, and at each moment its bytes are the page of what was
//! pushed; the first long value has the block written anew in format 2, once. `Rows` shares such a block, and so does a
//! `Page` that was made here, so `pack` and `unpack` of it move no byte; a page from elsewhere is read field by field.
//! With the laws, `unpack` gives rows exactly where the bytes are those rows' page, and else the one fault that they have.
//!
//! A call that asks for memory may be refused it at any time, so a body that always answers `AllocError`, or the fault
//! `Memory`, meets the contract of each such call: tests call each with ample memory, and with each request refused.
//! Looking up, sharing and packing take none. How many versions a look-up compares stands in no contract.
//!
//! What makes look-ups fast is a hint (`hint.rt`): a table, made with `Rows`, that tells by the hash of a key at which index its
//! newest version may stand. A look-up believes it only after a look at the versions there, and else searches, so the hint
//! stands in no contract and no type's invariant, and a wrong one costs time alone.
#![tactic(auto)]

pub mod big_endian;
pub mod entry;
pub mod format;
mod guess;
mod hashed_key;
mod hint;
mod hint_cell;
pub mod laws;
mod notes;
pub mod packed_rows;
pub mod page;
pub mod page_fault;
mod reading;
pub mod rows;

pub use stow_tree_model;
pub use stow_tree_model::stow_bytes;
