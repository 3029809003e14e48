//! One tenant's account: its quota, what it is charged, and what is counted for it.
//!
//! A version costs the bytes of its key and its value and 16 more, once, while the present rows or a live snapshot show
//! it. The charge is kept in steps: a change of a row or a drop of a snapshot makes a `Charge` of the one before, from
//! the lengths and numbers of the versions concerned and from the tenant's pins alone, and `Account::commit` takes it
//! over. That this is the charge of the store is said by `laws`: a version that a write takes away stays charged where
//! a pin is at or above its number, one that a dropped snapshot showed where the present or a pin still shows it.
//!
//! No call asks for memory. A charge so far that is above 9,223,372,036,854,775,807 takes no row more, so no sum
//! overflows: an account's own charge is never above it.
#![tactic(auto)]

pub mod account;
pub mod charge;
pub mod laws;
pub mod row_change;
pub mod shown_row;
pub mod sized_version;
