//! Rows without their bytes.
use stow_dropping::stow_message::place::Place;
use stow_ledger::sized_version::SizedVersion;

/// What is told of a key's row in place of its bytes.
#[derive(Clone, Copy)]
pub struct SizedRow {
    /// The row's version, if there is a row.
    pub version: Option<SizedVersion>,
    /// Where the key's next message may come to stand.
    pub place: Place,
}
