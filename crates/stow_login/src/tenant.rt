//! A tenant of the service.
ghost use Rattle.std.specs.Prelude.{◌≤◌};
ghost use Rattle.stow_model.specs.StowBytes.Limits.{number_limit};

use std::alloc::{Allocator, Global};
use stow_model::stow_bytes::byte_string::ByteString;

/// Who may log in as whom, and how many bytes its rows may be charged.
#[derive(Drop)]
pub struct Tenant<A: Allocator = Global> {
    pub name: ByteString<A>,
    pub salt: ByteString<A>,
    /// SHA-256 of the salt followed by the password.
    pub digest: [u8; 32],
    pub quota: u64,
    ghost within: { quota ≤ number_limit },
}
