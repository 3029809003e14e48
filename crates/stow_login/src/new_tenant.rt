//! A tenant that is to be.
ghost use Rattle.std.specs.Prelude.{IfOk};
ghost use Rattle.stow_login.specs.NewTenants.{IsAllowed};

use crate::reading::{is_name, quota_in, salt_in};
use crate::tenants_fault::TenantsFault;
use std::alloc::Global;

/// Whose entry is asked for.
#[derive(Drop)]
pub struct NewTenant<'a> {
    /// 1 to 64 bytes of ASCII letters, digits, `-`, `_` and `.`.
    pub name: &'a str,
    /// At most 64 bytes; none where the system is to give some.
    pub salt: Option<Vec<u8>>,
    /// In bytes, less than 2^63.
    pub quota: u64,
}

impl<'a> NewTenant<'a> {
    /// A tenant by the rules of the tenant file, or the first fault; a salt is given in hexadecimal digits.
    pub fn read(
        alloc: Global,
        name: &'a str,
        salt: Option<&str>,
        quota: i64,
    ) -> Result<NewTenant<'a>, TenantsFault>
        ensures { IfOk result IsAllowed }
    {
        if !is_name(name.as_bytes()) {
            return Err(TenantsFault::BadName);
        }
        let salt = match salt {
            Some(text) => Some(salt_in(alloc, text)?.into_vec()),
            None => None,
        };
        let quota = quota_in(quota)?;
        Ok(NewTenant { name, salt, quota })
    }
}
