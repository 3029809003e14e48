//! Laws over the definitions: functions that do nothing, and whose contracts are the laws.
ghost use Rattle.stow_tree_model.specs.Agreement.{AgreementChains, CallAgrees, PinAgrees, FewerPinsAgree, HigherBoundsAgree};
ghost use Rattle.stow_tree_model.specs.Examples.{Examples};
ghost use Rattle.stow_tree_model.specs.Intervals.{PackedInOrder, TenantInterval};
ghost use Rattle.stow_tree_model.specs.Merged.{PrunedExactly, PrunedAgrees, MergeAgrees};
ghost use Rattle.stow_tree_model.specs.Messages.{SetByOps, InOrderOnce, CallsLeaveOthers};
ghost use Rattle.stow_tree_model.specs.Operations.{OwnOperationsOnly};

/// What a key has at a number depends on its own operations up to the number.
pub fn own_operations_only()
    ensures { OwnOperationsOnly }
{}

/// A set of messages is told by its look-ups.
pub fn set_by_ops()
    ensures { SetByOps }
{}

/// A list that rises and has the operations of a set is its messages in order.
pub fn in_order_once()
    ensures { InOrderOnce }
{}

/// A call's messages leave what the keys of other tenants have.
pub fn others_stay()
    ensures { CallsLeaveOthers }
{}

/// Agreement chains.
pub fn agreement_chains()
    ensures { AgreementChains }
{}

/// Agreement stays after the same call's messages, with the number after the tenant's bound.
pub fn call_agrees()
    ensures { CallAgrees }
{}

/// Agreement stays with a new pin at the tenant's bound.
pub fn pin_agrees()
    ensures { PinAgrees }
{}

/// Agreement stays with a pin fewer.
pub fn fewer_pins_agree()
    ensures { FewerPinsAgree }
{}

/// Agreement stays where the bounds are higher.
pub fn higher_bounds_agree()
    ensures { HigherBoundsAgree }
{}

/// What a merge leaves is what stays under the pins, exactly, and in order.
pub fn pruned_exactly()
    ensures { PrunedExactly }
{}

/// What a merge leaves means the same at each pin, and from the newest on.
pub fn pruned_agrees()
    ensures { PrunedAgrees }
{}

/// A merge of a leaf below newer messages agrees.
pub fn merge_agrees()
    ensures { MergeAgrees }
{}

/// Keys stand in the order of their tenants' indexes, and those of one tenant in byte order.
pub fn packed_in_order()
    ensures { PackedInOrder }
{}

/// A tenant's keys are an interval of all keys, and no other tenant's key lies in it.
pub fn tenant_interval()
    ensures { TenantInterval }
{}

/// The definitions hold of their examples, and not of what they leave out.
pub fn examples()
    ensures { Examples }
{}
