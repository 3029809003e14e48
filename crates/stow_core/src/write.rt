//! Writes of tenants.
use crate::given::Given;
use std::alloc::{Allocator, Global};
use stow_ledger::charge::Charge;
use stow_model::words::Words;

/// A write of a tenant's. Its keys are among the keys of all tenants, each of them is given the same, and the charge
/// is the tenant's afterwards. Where an append makes the value, its length is told.
#[derive(Drop)]
pub struct Write<'a, A: Allocator = Global> {
    pub keys: Words<A>,
    pub given: Given<'a>,
    pub charge: Charge,
    pub length: Option<u32>,
}
