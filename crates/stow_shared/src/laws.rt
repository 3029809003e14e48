//! Laws over journals, on functions that do nothing.
ghost use Rattle.stow_shared.specs.Laws.{TwoJournals};

/// Two journals in which a tenant calls alike, whatever else they hold, tell it the same and leave it the same
/// store.
pub fn two_journals()
    ensures { TwoJournals }
{
    stow_model::laws::two_runs();
}
