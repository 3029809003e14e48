//! The limits of the service, and of the tree below it; in clauses they are those of `specs/Limits.antt`.

/// Bytes of a key, at most.
pub const KEY_LIMIT: usize = 1024;

/// Bytes of a value, at most.
pub const VALUE_LIMIT: usize = 1_048_576;

/// Bytes of an inline request's line, before its LF, at most.
pub const LINE_LIMIT: usize = 65_536;

/// The highest write number, snapshot id, quota and count.
pub const NUMBER_LIMIT: u64 = 9_223_372_036_854_775_807;

/// Tenants, at most, whose indexes are numbered from 1.
pub const TENANT_LIMIT: u32 = 65_535;

/// Live snapshots of a tenant, at most.
pub const SNAPSHOT_LIMIT: usize = 64;

/// Leaves that the cache holds, at most.
pub const CACHE_LIMIT: u32 = 65_536;
