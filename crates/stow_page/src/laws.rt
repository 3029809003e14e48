//! Laws over the page format: with them `unpack` gives rows exactly where the bytes are those rows' page, and else
//! the one fault that they have.
ghost use Rattle.stow_page.specs.Laws.{OneFault, PackedOnce, PageHasNoFault};

/// A page is that of one list of versions.
pub fn packed_once()
    ensures { PackedOnce }
{}

/// A page has no fault.
pub fn page_has_no_fault()
    ensures { PageHasNoFault }
{}

/// Bytes have one first fault at most.
pub fn one_fault()
    ensures { OneFault }
{}
