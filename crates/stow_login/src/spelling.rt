//! A tenant file's text of one tenant.
ghost use Rattle.std.specs.Prelude.{◌≡◌, ◌≤◌, ◌<◌, ◌^◌, ◌∷◌, ◌++◌, [], true, length, pos, Ok, IfOk, OnOk};
ghost use Rattle.std.specs.String.{string_bytes};
ghost use Rattle.hex.specs.Hex.{IsBytes, encode_lower};
ghost use Rattle.sha2.specs.Sha256.{sha256};
ghost use Rattle.toml.specs.Data.{string};
ghost use Rattle.toml.specs.View.{view, table_view};
ghost use Rattle.stow_model.specs.Login.{Entry};
ghost use Rattle.stow_login.specs.TenantFile.{entries_of_text, is_name, salt_limit};
ghost use Rattle.stow_login.specs.NewTenants.{entry_with, table_of, with_member};

use sha2::{Digest, Sha256};
use std::alloc::{AllocError, Global};
use toml::ser::Error;
use toml::{Table, Value};

/// The text of the tenant file of one tenant, whose digest is that of the salt and the password.
pub fn entry_text(
    alloc: Global,
    name: &str,
    salt: &[u8],
    password: &[u8],
    quota: u64,
) -> Result<String, AllocError>
    requires name { is_name name.now ≡ true }
    requires salt { length salt.now ≤ salt_limit }
    requires quota { quota < 2 ^ 63 }
    ensures { IfOk result (λ text. entries_of_text (string_bytes text)
        ≡ Ok (entry_with name.now salt.now password.now quota ∷ [])) }
{
    let digest = digest_of(salt, password);
    let table = table_of(alloc, name, salt, &digest, quota)?;
    let mut tables = Vec::new(alloc);
    tables.push(Value::Table(table))?;
    let mut file = Table::new(alloc);
    add(alloc, &mut file, "tenant", Value::Array(tables))?;
    match toml::table_to_string(alloc, &file) {
        Ok(text) => Ok(text),
        Err(Error::OutOfMemory) => Err(AllocError),
        Err(Error::DateInvalid) => unreachable!(),
    }
}

/// The table of a tenant.
fn table_of(
    alloc: Global,
    name: &str,
    salt: &[u8],
    digest: &[u8],
    quota: u64,
) -> Result<Table, AllocError>
    requires { quota < 2 ^ 63 }
    ensures { IfOk result (λ table. table_view table ≡ table_of (record {
      name = name.now;
      salt = salt.now;
      digest = digest.now;
      quota = quota;
    })) }
{
    let mut table = Table::new(alloc);
    add(alloc, &mut table, "digest", digits(alloc, digest)?)?;
    add(alloc, &mut table, "name", Value::string(alloc, name)?)?;
    add(alloc, &mut table, "quota", Value::Integer(quota as i64))?;
    add(alloc, &mut table, "salt", digits(alloc, salt)?)?;
    Ok(table)
}

/// Adds a field, or gives it another value.
fn add(alloc: Global, table: &mut Table, key: &str, value: Value) -> Result<(), AllocError>
    ensures { OnOk result (table_view table.new
        ≡ with_member key.now (view value) (table_view table.old)) }
{
    let key = String::from_str(alloc, key)?;
    table.insert(key, value)?;
    Ok(())
}

/// The bytes in hexadecimal digits.
fn digits(alloc: Global, bytes: &[u8]) -> Result<Value, AllocError>
    ensures { IfOk result (λ value. view value ≡ string (encode_lower bytes.now)) }
{
    Ok(Value::String(hex::encode(alloc, bytes)?))
}

/// SHA-256 of the salt followed by the password.
pub(crate) fn digest_of(salt: &[u8], password: &[u8]) -> [u8; 32]
    ensures digest { result ≡ sha256 (salt.now ++ password.now) }
    ensures bytes { IsBytes result }
{
    let mut hasher = Sha256::new();
    hasher.update(salt);
    hasher.update(password);
    hasher.finalize()
}
