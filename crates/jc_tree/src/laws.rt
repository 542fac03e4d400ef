//! Laws of stores. Each function does nothing: its contract is the law.

ghost use Rattle.jc_tree.specs.Laws.{UndoLaw, KeepsChained};

/// Going back to a mark gives the tree that was marked, whatever changes were made since.
pub fn undo_gives_back()
    ensures { UndoLaw }
{}

/// Each change but that of a link leaves the lists chained, and so does a fresh element that is
/// linked behind a place.
pub fn changes_keep_lists_chained()
    ensures { KeepsChained }
{}
