//! Rows of a walk, as an account is told them.
ghost use Rattle.std.specs.Prelude.{◌≡◌, ◌-◌, IfOk, length};
ghost use Rattle.stow_tree_model.specs.Intervals.{AreKeyBytes, IsWholeKey};
ghost use Rattle.stow_tree_model.specs.Keys.{IsTenantKey};
ghost use Rattle.stow_dropping.specs.Parts.{shown_of, all_shown, HaveWholeKeys};

use std::alloc::{AllocError, Allocator};
use stow_ledger::shown_row::ShownRow;
use stow_ledger::sized_version::SizedVersion;
use stow_tree::stow_read::row_head::RowHead;

/// The rows of heads, in their order.
pub(crate) fn rows_of<A: Allocator + Copy>(
    alloc: A,
    heads: &[RowHead<A>],
) -> Result<Vec<ShownRow, A>, AllocError>
    ensures rows { IfOk result (λ rows. rows.items ≡ all_shown heads.now) }
    ensures keys { IfOk result (λ _. HaveWholeKeys heads.now) }
{
    let mut rows = Vec::new(alloc);
    for head in heads {
        rows.push(row_of(head))?;
    }
    Ok(rows)
}

/// The row of a head.
fn row_of<A: Allocator>(head: &RowHead<A>) -> ShownRow
    ensures row { result ≡ shown_of head.now }
    ensures key { IsWholeKey head.now.key }
{
    ShownRow {
        key: own_length(head.key.as_key().bytes),
        version: SizedVersion {
            number: head.number,
            length: head.length,
        },
        next: head.next,
    }
}

/// How many bytes a tenant's own key has.
fn own_length(key: &[u8]) -> u32
    requires { IsTenantKey key.now }
    ensures length { result ≡ length key.now - 4 }
    ensures bytes { AreKeyBytes key.now }
{
    (key.len() - 4) as u32
}
