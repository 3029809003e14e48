//! Ids of snapshots, as requests name them.
ghost use Rattle.std.specs.Prelude.{◌≡◌};
ghost use Rattle.stow_model.specs.Store.{number_in};

/// The number that an id is, unless it is below 0.
pub fn number_in(id: i64) -> Option<u64>
    ensures { result ≡ number_in id }
{
    if id < 0 { None } else { Some(id as u64) }
}
