//! Laws over the definitions: functions that do nothing, and whose contracts are the laws.
ghost use Rattle.stow_dropping.specs.Free.{DropIsFree, SecondDropIsFree, PresentDropIsFree};

/// A dropped snapshot frees nothing where each version that it shows is shown still.
pub fn drop_is_free()
    ensures { DropIsFree }
{}

/// A dropped snapshot frees nothing where another live one shows the same rows.
pub fn second_drop_is_free()
    ensures { SecondDropIsFree }
{}

/// A dropped snapshot frees nothing where the present rows are those that it shows.
pub fn present_drop_is_free()
    ensures { PresentDropIsFree }
{}
