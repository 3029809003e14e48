//! What holds of whole streams.
ghost use Rattle.stow_resp.specs.Actions.{CutsDoNotMatter};

/// How a stream is cut into pieces, and when its messages are asked for, doesn't matter: the same bytes give the
/// same messages, and leave the same bytes unread.
pub fn cuts_do_not_matter()
    ensures { CutsDoNotMatter }
{}
