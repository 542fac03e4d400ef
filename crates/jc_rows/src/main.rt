//! Runs rows of examples by jc_program: standard input has the rows, and each is shown with what the program writes
//! and with its status. The file `stdout` beside `src` has what must be shown; it is written by hand.
//!
//! The first line says what the rows are. A row begins with a line `== ` and its title. Then come a line with the
//! arguments, the text of the file that they name, and, where there is standard input, a line `--` and the
//! input. The line feed before a line `--`, before the next row, or at the end belongs to neither text.
#![tactic(auto)]

ghost use Rattle.std.specs.Prelude.{None, true};

use jc_fakes::{Bytes, Taken};
use jc_io::{Failed, FromRead, ReadFault, Sink, ToWrite, read_up_to, write_all};
use jc_program::{Files, work_alone};
use std::alloc::{AllocError, Global};
use std::process::ExitCode;

/// More bytes than the rows have.
const MOST: usize = 1_000_000;

/// A row: how the program is called.
#[derive(Drop)]
struct Row<'a> {
    title: &'a str,
    words: &'a str,
    file: &'a str,
    input: &'a str,
}

/// Why the rows end early.
#[derive(Drop)]
enum Fault {
    /// A line of the rows is missing, or a row asks for threads.
    Row,
    /// A write failed, or there was no memory.
    Failed,
}

impl From<Failed> for Fault {
    fn from(_: Failed) -> Self {
        Fault::Failed
    }
}

impl From<AllocError> for Fault {
    fn from(_: AllocError) -> Self {
        Fault::Failed
    }
}

/// The text of the rows, after the first `== `.
fn rows_of(text: &str) -> Option<&str> {
    let (_, rows) = text.split_once("\n")?;
    rows.strip_prefix("== ")?.strip_suffix("\n")
}

/// The row with this text, after `== `.
fn row_of(text: &str) -> Option<Row<'_>> {
    let (title, text) = text.split_once("\n")?;
    let (words, text) = text.split_once("\n")?;
    let (file, input) = text.split_once("\n--\n").unwrap_or((text, ""));
    Some(Row {
        title,
        words,
        file,
        input,
    })
}

/// Files of which there is one, with the name `FILE`.
#[derive(Drop)]
struct OneFile<'a> {
    alloc: Global,
    text: &'a str,
}

impl Alloc for OneFile<'_> {
    type A = Global;

    fn alloc(&self) -> Global {
        self.alloc
    }
}

impl Files for OneFile<'_> {
    ghost texts = { λ _ _. None };

    ghost may_fail = { λ _ _. true };

    fn read_file(&self, alloc: Global, name: &str, most: usize) -> Result<Vec<u8>, ReadFault> {
        if name != "FILE" {
            return Err(ReadFault::Failed);
        }
        read_up_to(alloc, &mut Bytes::new(self.text.as_bytes()), most)
    }
}

/// The arguments of the line, as the program takes them.
fn words_of(alloc: Global, line: &str) -> Result<Vec<String>, AllocError> {
    let mut words = Vec::new(alloc);
    for word in line.split_whitespace() {
        words.push(String::from_str(alloc, word)?)?;
    }
    Ok(words)
}

/// Calls the program as the row says. Its standard error, if there is any, follows its output.
fn work<K: Sink>(alloc: Global, row: &Row<'_>, out: &mut K) -> Result<u8, Fault> {
    let files = OneFile {
        alloc,
        text: row.file,
    };
    let words = words_of(alloc, row.words)?;
    let mut input = Bytes::new(row.input.as_bytes());
    let mut err = Taken::new(alloc);
    let status = work_alone(&files, words.as_slice(), &mut input, out, &mut err);
    write_all(out, err.as_slice())?;
    status.ok_or(Fault::Row)
}

/// Shows a row: its title, what the program writes, and its status where that isn't 0.
fn show<K: Sink>(alloc: Global, row: &Row<'_>, out: &mut K) -> Result<(), Fault> {
    let title = format!(in alloc; "== {}\n", row.title)?;
    write_all(out, title.as_bytes())?;
    let status = work(alloc, row, out)?;
    if status != 0 {
        let line = format!(in alloc; "status {status}\n")?;
        write_all(out, line.as_bytes())?;
    }
    Ok(())
}

/// Shows the rows one by one, up to the first that can't be shown.
fn show_all<K: Sink>(alloc: Global, text: &str, out: &mut K) -> Result<(), Fault> {
    let rows = rows_of(text).ok_or(Fault::Row)?;
    for text in rows.split("\n== ") {
        let row = row_of(text).ok_or(Fault::Row)?;
        show(alloc, &row, out)?;
    }
    Ok(())
}

fn main(rt: HostRuntime) -> ExitCode {
    let mut out = ToWrite::new(rt.stdout());
    let Ok(bytes) = read_up_to(rt.alloc(), &mut FromRead::new(rt.stdin()), MOST) else {
        return ExitCode::from(4);
    };
    let Ok(text) = str::from_utf8(&bytes) else {
        return ExitCode::from(2);
    };
    if bytes.len() == MOST {
        return ExitCode::from(2);
    }
    match show_all(rt.alloc(), text, &mut out) {
        Ok(()) => ExitCode::SUCCESS,
        Err(Fault::Row) => ExitCode::from(2),
        Err(Fault::Failed) => ExitCode::from(4),
    }
}
