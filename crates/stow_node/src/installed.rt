//! What became of a job's result.

/// Whether a job's pages came into the tree.
#[derive(Clone, Copy, Debug, PartialEq, Eq)]
pub enum Installed {
    /// They are in the leaf's place, and the job's batch is gone from the buffer above it.
    Done,
    /// One of the causes is there for which they can't come. Nothing changed.
    Stale,
}
