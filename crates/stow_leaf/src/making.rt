//! Leaves out of merged pages.
ghost use Rattle.std.specs.Prelude.{◌≡◌, ◌≢◌, [], length, map, IfOk};
ghost use Rattle.stow_leaf.specs.LeafRows.{leaf_rows};
ghost use Rattle.stow_leaf.specs.Making.{first_key, AreFilled, leaves_from};
ghost use Rattle.stow_merge.specs.StowTreeModel.TreeMessage.{message_of};

use crate::leaf::Leaf;
use std::alloc::{AllocError, Allocator};
use stow_merge::stow_message::run::Run;
use stow_merge::stow_page::rows::Rows;
use stow_merge::stow_tree_model::message::Message;
use stow_merge::stow_tree_model::tenant_key::TenantKey;
use stow_merge::stow_tree_model::tenant_key_buf::TenantKeyBuf;

/// The messages of a run, lent.
pub fn lent_run<'b, A: Allocator + Copy>(
    alloc: A,
    run: &Run<'b, A>,
) -> Result<Vec<Message<'b>, A>, AllocError>
    ensures { IfOk result (λ lent. map message_of lent.items ≡ run.now) }
{
    let len = run.len();
    let mut lent = Vec::new(alloc);
    lent.reserve(len)?;
    for i in 0..len {
        lent.push(run.get(i))?;
    }
    Ok(lent)
}

/// The first version's key.
fn fence<A: Allocator + Copy>(alloc: A, rows: &Rows<A>) -> Result<TenantKeyBuf<A>, AllocError>
    requires { rows.now ≢ [] }
    ensures { IfOk result (λ key. key ≡ first_key rows.now) }
{
    let _known = rows.len();
    TenantKeyBuf::from_key(alloc, rows.get(0).key)
}

/// The pages as leaves, the first one's fence being `low`, and each other's the first key of its page.
pub(crate) fn leaves_from<A: Allocator + Copy>(
    alloc: A,
    low: TenantKey<'_>,
    pages: &[Rows<A>],
) -> Result<Vec<Leaf<A>, A>, AllocError>
    requires { AreFilled pages.now }
    ensures { IfOk result (λ leaves.
        map leaf_rows leaves.items ≡ leaves_from low.entry.bytes.now pages.now) }
{
    let mut leaves = Vec::new(alloc);
    for i in 0..pages.len() {
        let rows = pages[i].share()?;
        let low = if i == 0 {
            TenantKeyBuf::from_key(alloc, low)?
        } else {
            fence(alloc, &rows)?
        };
        leaves.push(Leaf { low, rows })?;
    }
    Ok(leaves)
}
