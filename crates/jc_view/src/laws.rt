//! Laws of views. Each function does nothing: its contract is the law.

ghost use Rattle.jc_view.specs.Laws.{DroppedShowTheSame, ViewsConverge, PresentAreAlive, DocumentIsAPlace, ViewsHaveNumbers, NamesStayApart};

/// Empty presence sets show nothing.
pub fn dropped_show_the_same()
    ensures { DroppedShowTheSame }
{}

/// In each network that is reached from a start, replicas that have applied the same operations show the same document.
pub fn views_converge()
    ensures { ViewsConverge }
{}

/// In each network that is reached from a start, a map or a list in which something is present is alive.
pub fn present_are_alive()
    ensures { PresentAreAlive }
{}

/// At the document's own cursor the line is that of the whole document.
pub fn document_is_a_place()
    ensures { DocumentIsAPlace }
{}

/// What is shown has numbers of JSON alone.
pub fn views_have_numbers()
    ensures { ViewsHaveNumbers }
{}

/// No name of a map is shown as `!conflict`, and different names are shown differently.
pub fn names_stay_apart()
    ensures { NamesStayApart }
{}
