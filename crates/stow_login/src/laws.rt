//! A law over the definitions, on a function that does nothing.
ghost use Rattle.stow_login.specs.TenantFile.{EntriesAreByRule};

/// The tenants of a text are 1 to 65,535, each by the file's rules, and each with a name of its own.
pub fn entries_are_by_rule()
    ensures { EntriesAreByRule }
{}
