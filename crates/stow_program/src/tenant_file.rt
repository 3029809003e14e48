//! The tenant file.
ghost use Rattle.std.specs.Prelude.{IfErr, IfOk};
ghost use Rattle.stow_program.specs.Outcomes.{AreOfText, RefusesTenants};

use std::alloc::Global;
use std::io;
use std::io::Read;
use stow_login::explaining::explain;
use stow_login::tenants::Tenants;
use stow_login::tenants_fault::TenantsFault;
use stow_run::failure::{Endpoint, Failure};
use stow_run::folder::Folder;

/// The tenants of the file of this path. A file that isn't UTF-8 is no TOML text.
pub(crate) fn read_tenants<'a, D: Folder>(
    alloc: Global,
    folder: &D,
    path: &'a str,
) -> Result<Tenants<Global>, Failure<'a>>
    ensures ok { IfOk result AreOfText }
    ensures err { IfErr result RefusesTenants }
{
    let bytes = Endpoint::File(path).check(read_file(alloc, folder, path))?;
    let Ok(text) = std::str::from_utf8(bytes.as_slice()) else {
        let reason = String::from_str(alloc, "the file is no UTF-8 text")?;
        return Err(Failure::tenants(TenantsFault::NotToml, Some(reason)));
    };
    match Tenants::read(alloc, alloc, text) {
        Ok(tenants) => Ok(tenants),
        Err(fault) => Err(Failure::tenants(fault, explain(alloc, text, fault).ok())),
    }
}

fn read_file<D: Folder>(alloc: Global, folder: &D, path: &str) -> io::Result<Vec<u8>> {
    let mut bytes = Vec::new(alloc);
    let mut file = folder.open(path)?;
    file.read_to_end(&mut bytes)?;
    Ok(bytes)
}
