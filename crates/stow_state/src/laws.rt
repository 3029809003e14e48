//! Laws over the definitions: functions that do nothing, and whose contracts are the laws.
ghost use Rattle.stow_state.specs.Changes.{ChangesByRows, ChangesOnce, OwnRowsMove, EarlierRowsStay, WritesAreWritten, RowsAreBelow, WritesByMessages};
ghost use Rattle.stow_state.specs.Examples.{Examples};
ghost use Rattle.stow_state.specs.Rows.{RowsByValue, OtherRowsStay, AgreeingRows, IntervalInOrder};
ghost use Rattle.stow_state.specs.Steps.{OwnStepWrites, CallIsOwnStep, OtherViewsStay, StaysSound, StepIsThere, StepsByParts, StoresLead, NumbersMove, StepsAfterMaintenance, RunsAlone, TwoSharedRuns};

/// A tenant's rows are what its keys have by the messages.
pub fn rows_by_value()
    ensures { RowsByValue }
{}

/// A call's messages leave the rows of every other tenant, at every number.
pub fn other_rows_stay()
    ensures { OtherRowsStay }
{}

/// Sets that agree show the same rows at each pin, and from the bound on.
pub fn agreeing_rows()
    ensures { AgreeingRows }
{}

/// A list that rises, with what each of the tenant's keys in an interval has, is the interval's rows in order.
pub fn interval_in_order()
    ensures { IntervalInOrder }
{}

/// There is a message for a key just where its row changes, and it makes the row.
pub fn changes_by_rows()
    ensures { ChangesByRows }
{}

/// Whatever list of a tenant's messages makes the same rows, it makes the same set.
pub fn changes_once()
    ensures { ChangesOnce }
{}

/// A call's messages move the caller's rows as its write does.
pub fn own_rows_move()
    ensures { OwnRowsMove }
{}

/// A call's messages leave the caller's rows at earlier numbers.
pub fn earlier_rows_stay()
    ensures { EarlierRowsStay }
{}

/// The write of one row is a write, and so is the removal of some.
pub fn writes_are_written()
    ensures { WritesAreWritten }
{}

/// No row is shown before the number of its write.
pub fn rows_are_below()
    ensures { RowsAreBelow }
{}

/// The messages of the write of one row are a put alone, those of the removal of rows that are there a removal for each.
pub fn writes_by_messages()
    ensures { WritesByMessages }
{}

/// A tenant's own step writes once at most.
pub fn own_step_writes()
    ensures { OwnStepWrites }
{}

/// A call is the caller's own step.
pub fn call_is_own_step()
    ensures { CallIsOwnStep }
{}

/// A step leaves every other tenant's store.
pub fn other_views_stay()
    ensures { OtherViewsStay }
{}

/// A new state is sound, and so is what a step leads to from a sound one.
pub fn stays_sound()
    ensures { StaysSound }
{}

/// From a sound state each event can be a step.
pub fn step_is_there()
    ensures { StepIsThere }
{}

/// A call is a step where the messages were added that the tenant's own step asks for, and a set that agrees is one too.
pub fn steps_by_parts()
    ensures { StepsByParts }
{}

/// What leads a tenant's store to another leaves every other tenant's, and is the step of each event that leads there.
pub fn stores_lead()
    ensures { StoresLead }
{}

/// The numbers of snapshots after one was taken, and after one was dropped.
pub fn numbers_move()
    ensures { NumbersMove }
{}

/// Messages may give way before a call too: that and the call together are the call's step.
pub fn steps_after_maintenance()
    ensures { StepsAfterMaintenance }
{}

/// In a run from a new state each tenant's store and what it is told are those of its own run, alone.
pub fn runs_alone()
    ensures { RunsAlone }
{}

/// Two runs, in which a tenant has the same quota and the same comes to its store, leave it the same and tell it the same.
pub fn two_shared_runs()
    ensures { TwoSharedRuns }
{}

/// The definitions hold of their examples, and not of what they leave out.
pub fn examples()
    ensures { Examples }
{}
