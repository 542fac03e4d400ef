//! Lists of runs: rows more at the end, and rows taken away there. Traces keep their rows so.

ghost use Rattle.std.specs.Prelude.{◌≡◌, ◌-◌, ◌≤◌, ◌++◌, IfOk, OnOk, OnErr, length, take};
ghost use Rattle.jc_rules.specs.Runs.{run_rows, rows_of_all};

use crate::rule::Rule;
use crate::run::Run;
use std::alloc::{AllocError, Global};

/// Adds the rows of a run behind those of the runs. After a refusal all is as it was.
pub(crate) fn add_run(runs: &mut Vec<Run>, run: Run) -> Result<(), AllocError>
    ensures ok { OnOk result (rows_of_all runs.new.items ≡ rows_of_all runs.old.items ++ run_rows run) }
    ensures err { OnErr result (runs.new.items ≡ runs.old.items) }
{
    let len = runs.len();
    if len > 0
        && let Some(longer) = runs[len - 1].with(run)
    {
        runs[len - 1] = longer;
        return Ok(());
    }
    runs.push(run)?;
    Ok(())
}

/// Takes away the last rows, so many. It takes no memory.
pub(crate) fn drop_rows(runs: &mut Vec<Run>, count: usize)
    requires { count ≤ length (rows_of_all runs.old.items) }
    ensures { rows_of_all runs.new.items
        ≡ take (length (rows_of_all runs.old.items) - count) (rows_of_all runs.old.items) }
{
    let mut left = count;
    while let Some(last) = runs.pop() {
        let size = last.count as usize;
        if left < size {
            runs.push(last.shorter(left as u32)).unwrap();
            return;
        }
        left -= size;
    }
}

/// Appends the rows of the run.
fn push_rows(run: &Run, rows: &mut Vec<(Rule, u64)>) -> Result<(), AllocError>
    ensures { OnOk result (rows.new.items ≡ rows.old.items ++ run_rows run.now) }
{
    for i in 0..run.count {
        rows.push((run.rule, run.depth + u64::from(i)))?;
    }
    Ok(())
}

/// The rows of the runs, in a list of their own.
pub(crate) fn rows_of(alloc: Global, runs: &[Run]) -> Result<Vec<(Rule, u64)>, AllocError>
    ensures { IfOk result (λ rows. rows.items ≡ rows_of_all runs.now) }
{
    let mut rows = Vec::new(alloc);
    for run in runs {
        push_rows(run, &mut rows)?;
    }
    Ok(rows)
}
