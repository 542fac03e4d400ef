//! The rows of traces, as lines of bytes.

ghost use Rattle.std.specs.Prelude.{◌≡◌, ◌++◌, ◌/◌, length, is_ok, if◌then◌else◌, decimal, IsUtf8, IfOk, OnOk};
ghost use Rattle.jc_rules.specs.RuleNames.{rule_name};
ghost use Rattle.jc_rules.specs.Runs.{run_rows, rows_of_all};
ghost use Rattle.jc_dump.specs.Bytes.{BeginsWith};
ghost use Rattle.jc_dump.specs.Lines.{row_text, trace_text};
ghost use Rattle.jc_dump.specs.Rows.{IsRowLine};

use itoa::Buffer;
use jc_rules::{Rule, Run};
use std::alloc::{AllocError, Global};

/// How many bytes the longest line has: those of a depth, a blank, the longest name, and a line feed.
const LONGEST: usize = 34;

/// The line of a row. In a long trace most rows have the rule of the row before, one level deeper or higher. So mostly
/// one digit changes.
#[derive(Drop)]
struct RowLine {
    bytes: Vec<u8>,
    rule: Rule,
    depth: u64,
    last_digit: usize,
}

impl RowLine {
    /// The line of some row.
    fn new(alloc: Global) -> Result<Self, AllocError>
        ensures { IfOk result IsRowLine }
    {
        let bytes = Vec::with_capacity(alloc, LONGEST)?;
        let mut line = RowLine {
            bytes,
            rule: Rule::Exec,
            depth: 0,
            last_digit: 0,
        };
        line.write(Rule::Exec, 0)?;
        Ok(line)
    }

    /// Appends the line of this row. A refusal leaves the bytes as they were.
    fn push(&mut self, out: &mut Vec<u8>, rule: Rule, depth: u64) -> Result<(), AllocError>
        requires { IsRowLine self.old }
        ensures line { OnOk result (IsRowLine self.new) }
        ensures bytes { out.new.items
            ≡ (if is_ok result then out.old.items ++ row_text (rule, depth) else out.old.items) }
        ensures utf8 { IsUtf8 out.old.items → IsUtf8 out.new.items }
    {
        self.show(rule, depth)?;
        out.extend_from_slice(self.bytes.as_slice())
    }

    /// Makes it the line of this row. After a refusal it is no line.
    fn show(&mut self, rule: Rule, depth: u64) -> Result<(), AllocError>
        requires { IsRowLine self.old }
        ensures { OnOk result (IsRowLine self.new × (self.new.rule ≡ rule) × (self.new.depth ≡ depth)) }
    {
        if self.rule == rule && self.depth / 10 == depth / 10 {
            self.set_last_digit(depth);
            return Ok(());
        }
        self.write(rule, depth)
    }

    /// Makes it the line of the rule at another depth, which differs in the last digit alone.
    fn set_last_digit(&mut self, depth: u64)
        requires line { IsRowLine self.old }
        requires near { self.old.depth / 10 ≡ depth / 10 }
        ensures { IsRowLine self.new × (self.new.rule ≡ self.old.rule) × (self.new.depth ≡ depth) }
    {
        self.bytes[self.last_digit] = b'0' + (depth % 10) as u8;
        self.depth = depth;
    }

    /// Makes it the line of this row, whatever it was. After a refusal it is no line.
    fn write(&mut self, rule: Rule, depth: u64) -> Result<(), AllocError>
        ensures { OnOk result (IsRowLine self.new × (self.new.rule ≡ rule) × (self.new.depth ≡ depth)) }
    {
        self.bytes.clear();
        let digits = push_row(&mut self.bytes, rule, depth)?;
        self.last_digit = digits - 1;
        self.rule = rule;
        self.depth = depth;
        Ok(())
    }
}

/// Appends the line of a row, and returns how many digits its depth has.
fn push_row(out: &mut Vec<u8>, rule: Rule, depth: u64) -> Result<usize, AllocError>
    ensures line { OnOk result (out.new.items ≡ out.old.items ++ row_text (rule, depth)) }
    ensures digits { IfOk result (λ digits. digits ≡ length (decimal depth)) }
    ensures name { OnOk result (IsUtf8 (rule_name rule)) }
{
    let mut buffer = Buffer::new();
    let digits = buffer.format(depth);
    let name = rule.name();
    out.extend_from_slice(digits.as_bytes())?;
    out.push(b' ')?;
    out.extend_from_slice(name.as_bytes())?;
    out.push(b'\n')?;
    Ok(digits.len())
}

/// Appends the lines of a run's rows. After a refusal those of some may be there.
fn push_run(out: &mut Vec<u8>, line: &mut RowLine, run: &Run) -> Result<(), AllocError>
    requires { IsRowLine line.old }
    ensures line { OnOk result (IsRowLine line.new) }
    ensures lines { OnOk result (out.new.items ≡ out.old.items ++ trace_text (run_rows run.now)) }
    ensures begins { BeginsWith out.old.items out.new.items }
    ensures utf8 { IsUtf8 out.old.items → IsUtf8 out.new.items }
{
    for i in 0..run.count {
        line.push(out, run.rule, run.depth + u64::from(i))?;
    }
    Ok(())
}

/// Appends the lines of the rows of runs. After a refusal those of some may be there.
pub(crate) fn push_rows(out: &mut Vec<u8>, runs: &[Run]) -> Result<(), AllocError>
    ensures lines { OnOk result (out.new.items ≡ out.old.items ++ trace_text (rows_of_all runs.now)) }
    ensures begins { BeginsWith out.old.items out.new.items }
    ensures utf8 { IsUtf8 out.old.items → IsUtf8 out.new.items }
{
    let mut line = RowLine::new(*out.allocator())?;
    for run in runs {
        push_run(out, &mut line, run)?;
    }
    Ok(())
}
