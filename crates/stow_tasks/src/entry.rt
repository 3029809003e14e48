//! A tenant's entry, made of its password.
ghost use Rattle.std.specs.Prelude.{◌≡◌, ◌≤◌, length, IfErr, IfOk};
ghost use Rattle.stow_login.specs.NewTenants.{IsAllowed};
ghost use Rattle.stow_login.specs.TenantFile.{salt_limit};
ghost use Rattle.stow_workers.specs.Sent.{written_of};
ghost use Rattle.stow_tasks.specs.Ends.{InputFails};
ghost use Rattle.stow_tasks.specs.Entered.{IsEntered, IsOfSource, IsSaltFor, password_of};

use crate::script::{finish, read_all};
use std::alloc::Global;
use stow_login::new_tenant::NewTenant;
use stow_login::spelling::entry_text;
use stow_run::failure::{Endpoint, Failure};
use stow_run::salt_source::SaltSource;
use stow_workers::sink::Sink;
use stow_workers::source::Source;

/// Writes the entry of a tenant whose password is what the reader gives, but for a line's end behind it.
pub fn entry<'a, S: SaltSource, R: Source, W: Sink>(
    alloc: Global,
    salts: &S,
    tenant: &NewTenant<'_>,
    input: &mut R,
    output: &mut W,
) -> Result<(), Failure<'a>>
    requires { IsAllowed tenant.now }
    ensures entered { IsEntered (S.gives salts.now) tenant.now (R.remaining input.old)
        (written_of (W.contents output.old) (W.failures output.old))
        (written_of (W.contents output.new) (W.failures output.new)) result }
    ensures input { InputFails result (R.failures input.old) (R.failures input.new) }
    ensures same_input { R.borrow input.new ≡ R.borrow input.old }
    ensures same_output { W.borrow output.new ≡ W.borrow output.old }
{
    let salt = salt_for(alloc, salts, tenant)?;
    let mut bytes = Vec::new(alloc);
    read_all(input, &mut bytes)?;
    let password = password_of(bytes.as_slice());
    let text = entry_text(alloc, tenant.name, salt.as_slice(), password, tenant.quota)?;
    finish(text.as_bytes(), output)
}

/// The salt that is asked for, or one of the source's.
fn salt_for<S: SaltSource>(
    alloc: Global,
    salts: &S,
    tenant: &NewTenant<'_>,
) -> Result<Vec<u8>, Failure<'static>>
    requires { IsAllowed tenant.now }
    ensures salt { IfOk result
        (λ salt. IsSaltFor (S.gives salts.now) tenant.now.salt salt.items) }
    ensures few { IfOk result (λ salt. length salt.items ≤ salt_limit) }
    ensures err { IfErr result IsOfSource }
{
    match &tenant.salt {
        Some(salt) => Ok(Vec::from_slice(alloc, salt.as_slice())?),
        None => {
            let salt = Endpoint::Random.check(salts.salt())?;
            Ok(Vec::from_slice(alloc, &salt)?)
        }
    }
}

/// The bytes without LF, or CR LF, at their end.
fn password_of(bytes: &[u8]) -> &[u8]
    ensures { result.now ≡ password_of bytes.now }
{
    let line = bytes.strip_suffix(b"\n").unwrap_or(bytes);
    bytes.strip_suffix(b"\r\n").unwrap_or(line)
}
