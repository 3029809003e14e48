//! How much room nodes take when children come.
ghost use Rattle.std.specs.Prelude.{◌≡◌, ◌+◌, ◌-◌, ◌≤◌, ◌^◌, [], IfOk, OnOk};
ghost use Rattle.stow_groups.specs.Groups.{groups};
ghost use Rattle.stow_node.specs.Rooms.{IsRoom, nodes_needed, levels_needed, places_needed};

use crate::room::Room;
use crate::shape::Shape;
use std::alloc::{AllocError, Allocator};
use stow_groups::sharing::groups;

/// Both together. More than memory holds is refused.
fn sum(a: usize, b: usize) -> Result<usize, AllocError>
    ensures { IfOk result (λ s. s ≡ a + b) }
{
    match a.checked_add(b) {
        Some(sum) => Ok(sum),
        None => Err(AllocError),
    }
}

/// How many new nodes there are where so many come behind a child, with nodes of these widths above it, from the lowest.
fn nodes_needed(fan_out: usize, widths: &[usize], mut came: usize) -> Result<usize, AllocError>
    requires fan_out { 1 ≤ fan_out }
    ensures { IfOk result (λ n. n ≡ nodes_needed fan_out widths.now came) }
{
    let mut nodes = 0;
    for i in 0..widths.len() {
        if came == 0 {
            return Ok(nodes);
        }
        let children = sum(widths[i], came)?;
        came = groups(fan_out, children) - 1;
        nodes = sum(nodes, came)?;
    }
    if came == 0 {
        return Ok(nodes);
    }
    sum(nodes, sum(came, 1)?)
}

/// Room for the nodes that so many children of one take, 2^32 at most, and for those that come above it, where nodes of these widths stand.
pub(crate) fn room_for<A: Allocator + Copy>(
    alloc: A,
    shape: Shape,
    children: usize,
    widths: &[usize],
) -> Result<Room<A>, AllocError>
    requires some { 1 ≤ children }
    requires fan_out { 1 ≤ shape.fan_out }
    ensures room { IfOk result (λ room. IsRoom shape ((groups shape.fan_out children - 1)
        + nodes_needed shape.fan_out widths.now (groups shape.fan_out children - 1))
        (levels_needed widths.now (groups shape.fan_out children - 1))
        (places_needed shape.fan_out (groups shape.fan_out children - 1)) room) }
    ensures came { IfOk result (λ room. room.came.items ≡ []) }
    ensures counted { OnOk result (groups shape.fan_out children ≤ 2 ^ 32) }
{
    let fan_out = shape.fan_out as usize;
    let came = groups(fan_out, children) - 1;
    if came > u32::MAX as usize {
        return Err(AllocError);
    }
    let nodes = sum(came, nodes_needed(fan_out, widths, came)?)?;
    if came == 0 {
        return Room::new(alloc, shape, nodes, 0, 0);
    }
    let levels = sum(widths.len(), came)?;
    let places = sum(fan_out, came)?;
    Room::new(alloc, shape, nodes, levels, places)
}
