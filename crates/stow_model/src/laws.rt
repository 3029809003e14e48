//! Laws over the definitions: functions that do nothing, and whose contracts are the laws.
ghost use Rattle.stow_model.specs.Wire.{SpelledOnce, SplitsOnce, TakenAreFirst, FaultStays, FaultOnce, FaultyNotBegun};
ghost use Rattle.stow_model.specs.Examples.{Examples};
ghost use Rattle.stow_model.specs.Store.{WantOfMemoryIsTold};
ghost use Rattle.stow_model.specs.History.{ToldAlone, TwoRuns, OthersAddNothing, OneHistory};

/// No spelling of a message begins another.
pub fn spelled_once()
    ensures { SpelledOnce }
{}

/// A stream has one split into whole messages and a rest.
pub fn splits_once()
    ensures { SplitsOnce }
{}

/// The messages that were taken from a stream are the first of its split.
pub fn taken_are_first()
    ensures { TakenAreFirst }
{}

/// A fault stays, whatever comes after it.
pub fn fault_stays()
    ensures { FaultStays }
{}

/// There is one fault.
pub fn fault_once()
    ensures { FaultOnce }
{}

/// What can become no message is never waited for.
pub fn faulty_not_begun()
    ensures { FaultyNotBegun }
{}

/// What a tenant is told is what it would be told by a store of its own.
pub fn told_alone()
    ensures { ToldAlone }
{}

/// Two histories in which a tenant is served the same requests tell it the same, and leave it the same.
pub fn two_runs()
    ensures { TwoRuns }
{}

/// A step that serves another tenant, or nobody, adds nothing to a tenant's line.
pub fn others_add_nothing()
    ensures { OthersAddNothing }
{}

/// The events, with the marks of what memory was refused to, have one history.
pub fn one_history()
    ensures { OneHistory }
{}

/// A reply to a request says that memory was refused just where it was.
pub fn want_of_memory_is_told()
    ensures { WantOfMemoryIsTold }
{}

/// The definitions hold of their examples, and not of what they leave out.
pub fn examples()
    ensures { Examples }
{}
