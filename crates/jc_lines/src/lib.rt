//! Laws of answers to programs: each is one line. Each function does nothing: its contract is the law.
#![tactic(auto)]

ghost use Rattle.jc_lines.specs.Laws.{ObjectsAreLines, ListsAreLines, RefusalsAreLines, LooksAreLines, RepliesAreLines, AnswersAreLines, RequestsHaveLines};

/// An object whose members are lines is one line.
pub fn objects_are_lines()
    ensures { ObjectsAreLines }
{}

/// A list of lines is one line.
pub fn lists_are_lines()
    ensures { ListsAreLines }
{}

/// The refusal of a text, at whichever offset, is one line, and so is one without a place.
pub fn refusals_are_lines()
    ensures { RefusalsAreLines }
{}

/// What a look shows is one line, also where that is why there is nothing to show.
pub fn looks_are_lines()
    ensures { LooksAreLines }
{}

/// The answer of a session's reply is one line.
pub fn replies_are_lines()
    ensures { RepliesAreLines }
{}

/// Each answer of `serve` is one line: to requests about a text, to the one that brought it, and to a line that asks for
/// nothing.
pub fn answers_are_lines()
    ensures { AnswersAreLines }
{}

/// What `serve` writes has as many lines as it has answered requests.
pub fn requests_have_lines()
    ensures { RequestsHaveLines }
{}
