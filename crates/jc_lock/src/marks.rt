//! The check with which `close` begins: whether each pass is there once.
ghost use Rattle.std.specs.Prelude.{◌≡◌, ◌↔◌, IsTrue, map, length};
ghost use Rattle.jc_lock.specs.Numbers.{EachOnce};
ghost use Rattle.jc_lock.specs.Shows.{pass_number};

use crate::kept::Kept;
use crate::lock::Pass;

/// Marks the number of each pass, and returns whether the numbers are those below the count of marks, each once.
pub(crate) fn each_is_there<K: Kept>(marks: &mut [bool], passes: &[Pass<K>]) -> bool
    ensures { IsTrue result ↔ EachOnce (length marks.old) (map pass_number passes.now) }
{
    marks.fill(false);
    for pass in passes {
        let number = usize::from(pass.number);
        if number >= marks.len() || marks[number] {
            return false;
        }
        marks[number] = true;
    }
    !marks.contains(&false)
}
