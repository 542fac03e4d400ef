//! Traces: the rules of a derivation with their depths, as steps write them.

ghost use Rattle.std.specs.Prelude.{◌≡◌, ◌+◌, ◌<◌, ◌≤◌, ◌++◌, [], length, take, IfOk, OnOk, OnErr};
ghost use Rattle.jc_rules.specs.Runs.{deeper, opened, rows_of_all};
ghost use Rattle.jc_rules.specs.Trace.{pushed, one_deeper, one_higher, at_depth};

use crate::rule::Rule;
use crate::run::Run;
use crate::runs::{add_run, drop_rows, rows_of};
use std::alloc::{AllocError, Global};
use std::marker::Model;

/// The rules of a derivation in preorder, each with its depth, and the depth of the next rule.
/// The depth is never more than the number of rules.
#[derive(Drop)]
pub struct Trace {
    runs: Vec<Run>,
    /// The number of rows.
    rows: usize,
    depth: u64,
}

impl Model for Trace {
    ghost use Rattle.jc_rules.specs.Trace.{Rows, rows_code};
    ghost use Rattle.jc_rules.specs.Runs.{rows_of_all, IsTrace};

    ghost Value = { Rows };

    ghost coded = { rows_code };

    ghost view = { λ a. record { rows = rows_of_all a.runs.items; depth = a.depth } };

    ghost invariant = { λ a. IsTrace a.runs.items a.rows a.depth };
}

/// How far a trace had come, and its depth then.
#[derive(Clone, Copy, Debug, PartialEq, Eq)]
pub struct TraceMark {
    pub rows: usize,
    pub depth: u64,
}

impl Trace {
    /// Appends rows of the rule, so many, the first at the depth and each one deeper than the one before. After a
    /// refusal the trace is as it was.
    fn add(&mut self, rule: Rule, count: u32) -> Result<(), AllocError>
        ensures rows { OnOk result (self.new.rows ≡ self.old.rows ++ deeper rule self.old.depth count) }
        ensures depth { OnOk result (self.new.depth ≡ self.old.depth) }
        ensures room { OnOk result (self.new.depth + count ≤ length self.new.rows) }
        ensures err { OnErr result (self.new ≡ self.old) }
    {
        let Some(rows) = self.rows.checked_add(count as usize) else {
            return Err(AllocError);
        };
        let run = Run {
            rule,
            count,
            depth: self.depth,
        };
        add_run(&mut self.runs, run)?;
        self.rows = rows;
        Ok(())
    }

    pub fn new(alloc: Global) -> Self
        ensures { result ≡ record { rows = []; depth = 0 } }
    {
        Trace {
            runs: Vec::new(alloc),
            rows: 0,
            depth: 0,
        }
    }

    /// Appends the rule at the depth. After a refusal the trace is as it was.
    pub fn push(&mut self, rule: Rule) -> Result<(), AllocError>
        ensures ok { OnOk result (self.new ≡ pushed self.old rule) }
        ensures room { OnOk result (self.new.depth < length self.new.rows) }
        ensures err { OnErr result (self.new ≡ self.old) }
    {
        self.add(rule, 1)
    }

    /// Goes to the premises of the last rule.
    pub fn down(&mut self)
        requires { self.old.depth < length self.old.rows }
        ensures { self.new ≡ one_deeper self.old }
    {
        self.depth += 1;
    }

    /// Goes back from the premises.
    pub fn up(&mut self)
        requires { 0 < self.old.depth }
        ensures { self.new ≡ one_higher self.old }
    {
        self.depth -= 1;
    }

    /// Appends the rule and goes to its premises. After a refusal the trace is as it was.
    pub fn open(&mut self, rule: Rule) -> Result<(), AllocError>
        ensures ok { OnOk result (self.new ≡ one_deeper (pushed self.old rule)) }
        ensures err { OnErr result (self.new ≡ self.old) }
    {
        self.push(rule)?;
        self.down();
        Ok(())
    }

    /// Appends the rule so many times, each at the premises of the one before, and goes to those of the last.
    /// After a refusal the trace is as it was.
    pub fn open_times(&mut self, rule: Rule, count: u32) -> Result<(), AllocError>
        ensures ok { OnOk result (self.new ≡ opened count rule self.old) }
        ensures err { OnErr result (self.new ≡ self.old) }
    {
        self.add(rule, count)?;
        self.depth += u64::from(count);
        Ok(())
    }

    /// Goes back to an earlier depth.
    pub fn close(&mut self, depth: u64)
        requires { depth ≤ self.old.depth }
        ensures { self.new ≡ at_depth depth self.old }
    {
        self.depth = depth;
    }

    /// The depth of the next rule.
    pub fn depth(&self) -> u64
        ensures { result ≡ self.now.depth }
    {
        self.depth
    }

    /// The rules so far, each with its depth, as runs.
    pub fn runs(&self) -> &[Run]
        ensures { rows_of_all result.now ≡ self.now.rows }
    {
        self.runs.as_slice()
    }

    /// The rules so far, each with its depth, in a list of their own.
    pub fn to_rows(&self, alloc: Global) -> Result<Vec<(Rule, u64)>, AllocError>
        ensures { IfOk result (λ rows. rows.items ≡ self.now.rows) }
    {
        rows_of(alloc, self.runs.as_slice())
    }

    /// Marks the trace as it is.
    pub fn mark(&self) -> TraceMark
        ensures rows { result.rows ≡ length self.now.rows }
        ensures depth { result.depth ≡ self.now.depth }
        ensures room { self.now.depth ≤ length self.now.rows }
    {
        TraceMark {
            rows: self.rows,
            depth: self.depth,
        }
    }

    /// The same trace once more.
    pub fn copy(&self) -> Result<Self, AllocError>
        ensures { IfOk result (λ trace. trace ≡ self.now) }
    {
        let runs = self.runs.clone()?;
        let rows = self.rows;
        let depth = self.depth;
        Ok(Trace { runs, rows, depth })
    }

    /// Gives list and depth back as they were at the mark.
    pub fn cut(&mut self, mark: TraceMark)
        requires within { mark.rows ≤ length self.old.rows }
        requires room { mark.depth ≤ mark.rows }
        ensures { self.new ≡ record { rows = take mark.rows self.old.rows; depth = mark.depth } }
    {
        drop_rows(&mut self.runs, self.rows - mark.rows);
        self.rows = mark.rows;
        self.depth = mark.depth;
    }
}
