//! Rows of a trace that go down by one rule: the form in which traces keep them.

ghost use Rattle.std.specs.Prelude.{◌≡◌, ◌+◌, ◌-◌, ◌≤◌, IfSome};

use crate::rule::Rule;

/// Rows of one rule, each one deeper than the row before it.
#[derive(Clone, Copy)]
pub struct Run {
    pub rule: Rule,
    /// The number of rows.
    pub count: u32,
    /// The depth of the first row.
    pub depth: u64,
    ghost ends: { depth + count ≤ 18446744073709551616 },
}

impl Run {
    /// The rows with those of another run behind them, if these go on from them.
    pub(crate) fn with(self, more: Run) -> Option<Self>
        ensures { IfSome result (λ longer. (longer.rule ≡ self.rule) × (longer.depth ≡ self.depth)
            × (longer.count ≡ self.count + more.count)
            × (more.rule ≡ self.rule) × (more.depth ≡ self.depth + self.count)) }
    {
        if self.rule == more.rule
            && more.depth >= self.depth
            && more.depth - self.depth == u64::from(self.count)
        {
            return Some(Run {
                rule: self.rule,
                count: self.count.checked_add(more.count)?,
                depth: self.depth,
            });
        }
        None
    }

    /// The rows without the last ones, so many.
    pub(crate) fn shorter(self, less: u32) -> Self
        requires { less ≤ self.count }
        ensures { (result.rule ≡ self.rule) × (result.depth ≡ self.depth) × (result.count ≡ self.count - less) }
    {
        Run {
            rule: self.rule,
            count: self.count - less,
            depth: self.depth,
        }
    }
}
