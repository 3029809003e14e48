//! Laws over runs, on functions that do nothing.
ghost use Rattle.stow_house.specs.Runs.{TwoRuns, OneRun, TwoUsages};

/// Two runs in which a tenant is served the same requests, whatever else they hold, tell it the same and
/// leave it the same store.
pub fn two_runs()
    ensures { TwoRuns }
{
    stow_model::laws::two_runs();
}

/// Two runs in which a tenant is served the same requests, whatever else they hold, leave it the same usage.
pub fn two_usages()
    ensures { TwoUsages }
{
    two_runs();
}

/// The events, and the marks of what memory was refused to, say all: runs with the same marks tell each
/// connection the same and leave each tenant the same store.
pub fn one_run()
    ensures { OneRun }
{
    stow_model::laws::one_history();
}
