//! What holds of connections that were served.
ghost use Rattle.stow_workers.specs.Laws.{OneConnection};

/// A connection that was served through a core with empty stores has a history, alone: the calls and their
/// replies are its tenants' lines and what they are told, what is to be written is its output, and each
/// tenant's store is the last of its own run. So what the isolation theorem says of histories, it says of it.
pub fn one_connection()
    ensures { OneConnection }
{}
