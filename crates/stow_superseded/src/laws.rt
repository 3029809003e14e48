//! A law over the definitions: a function that does nothing, and whose contract is the law.
ghost use Rattle.stow_superseded.specs.Laws.{SupersededMeanNothing};

/// Without the messages that newer ones supersede, a key has the same at each pin, and from the newest on.
pub fn superseded_mean_nothing()
    ensures { SupersededMeanNothing }
{}
