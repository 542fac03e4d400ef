//! What programs are shown of a scenario in lists, as the texts of answers: the parts of its text, the lines of its
//! journal, and the events of the schedules that seeds give.
#![tactic(auto)]

mod events;
mod journals;
mod placing;
mod positions;
mod weaving;

pub use journals::{Details, line_behind, lines_between};
pub use placing::places;
pub use positions::count_of;
pub use weaving::woven_answer;
