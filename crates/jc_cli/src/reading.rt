//! Parses the arguments: to a command with its file, or a fault. jc_program calls `order_of`.

ghost use Rattle.std.specs.Prelude.{◌≡◌, ◌≢◌, [], ◌∷◌, IfOk, IfErr, IsErr, Some, codes, map, string_bytes, option_map};
ghost use Rattle.std.specs.Option.{option_and_then};
ghost use Rattle.std.specs.Str.{bytes_eq};
ghost use Rattle.clap.specs.Words.{FailsBy, fault_of, first_of, found_of, rows_of, subcommand_of, subcommand_rows_of};
ghost use Rattle.jc_cli.specs.Program.{program};
ghost use Rattle.jc_cli.specs.declared.fault.WordsFault.TheVariants.{Memory as NoMemory};
ghost use Rattle.jc_cli.specs.Arguments.{has_flag, is_traced, has_effects, limit_in, limit_given, seed_in, seed_given, weave_by, task_in, file_in, order_in, asked_of, with_help_meant, words_order, AsksHelp, HasLimitInRange, HasText, IsFaultless, IsWordsFault};

use crate::definition::definition;
use crate::fault::{WordsFault, fault_by};
use crate::laws::faultless_words_are_orders;
use crate::order::{Order, Task, View};
use clap::{ArgMatches, Error};
use jc_rules::Text;
use jc_rules::limits::MAX_THREAD_EVENTS;
use std::alloc::{AllocError, Global};

/// A copy of the text.
fn copied(alloc: Global, text: &str) -> Result<Text, AllocError>
    ensures { IfOk result (λ copy. copy ≡ text.now) }
{
    Text::new(alloc, String::from_str(alloc, text)?)
}

/// The arguments themselves.
fn said_by<'a>(alloc: Global, words: &'a [String]) -> Result<Vec<&'a str>, AllocError>
    ensures { IfOk result (λ said. map (λ s. s.now) said.items ≡ map string_bytes words.now) }
{
    let mut said = Vec::new(alloc);
    for word in words {
        said.push(word.as_str())?;
    }
    Ok(said)
}

/// The arguments that `help` before these means.
fn asked_by<'a>(alloc: Global, rest: &'a [String]) -> Result<Vec<&'a str>, AllocError>
    ensures { IfOk result (λ said. map (λ s. s.now) said.items ≡ asked_of (map string_bytes rest.now)) }
{
    let mut asked = Vec::new(alloc);
    match rest {
        [] => {}
        [topic, ..] => {
            if topic.as_str() != "help" {
                asked.push(topic.as_str())?;
            }
        }
    }
    asked.push("--help")?;
    Ok(asked)
}

/// The arguments as they are parsed: `help` is `--help`, and `help TOPIC` is `TOPIC --help`.
#[tactic(auto, unfolding(crate::specs::Arguments::with_help_meant))]
fn meant_by<'a>(alloc: Global, words: &'a [String]) -> Result<Vec<&'a str>, AllocError>
    ensures { IfOk result (λ said. map (λ s. s.now) said.items ≡ with_help_meant (map string_bytes words.now)) }
{
    match words {
        [] => said_by(alloc, words),
        [first, rest @ ..] => {
            if first.as_str() == "help" {
                asked_by(alloc, rest)
            } else {
                said_by(alloc, words)
            }
        }
    }
}

/// What clap matches of the arguments.
fn matches_of<'a>(alloc: Global, words: &'a [&'a str]) -> Result<ArgMatches<'a>, Error>
    ensures ok { IfOk result (λ m.
        subcommand_rows_of m ≡ subcommand_of program (map (λ s. s.now) words.entry.now)) }
    ensures kinds { FailsBy (fault_of program (map (λ s. s.now) words.entry.now)) result }
{
    definition(alloc)?.try_get_matches_from(words)
}

/// Whether the option with this name, which takes no value, is given.
fn has_flag(matches: &ArgMatches<'_>, name: &str) -> bool
    ensures { result ≡ has_flag name.now (rows_of (found_of matches.now)) }
{
    match matches.get_str(name) {
        Some(text) => text == "true",
        None => false,
    }
}

/// The number of a text, where it is one from 0 to 100,000, the greatest limit of each command that has one.
fn limit_in(text: &str) -> Option<u64>
    ensures { result ≡ limit_in text.now }
{
    match text.parse::<u64>() {
        Ok(limit) if limit <= MAX_THREAD_EVENTS => Some(limit),
        _ => None,
    }
}

/// The number of a text, where it is one below 2 to the 64.
fn seed_in(text: &str) -> Option<u64>
    ensures { result ≡ seed_in text.now }
{
    match text.parse::<u64>() {
        Ok(seed) => Some(seed),
        Err(_) => None,
    }
}

/// The seed.
fn seed_of(matches: &ArgMatches<'_>) -> Option<u64>
    ensures { result ≡ seed_given (rows_of (found_of matches.now)) }
{
    match matches.get_str("seed") {
        Some(text) => seed_in(text),
        None => None,
    }
}

/// The task with this seed and this limit, where both are there.
fn weave_by(seed: Option<u64>, limit: Option<u64>) -> Option<Task>
    ensures { result ≡ weave_by seed limit }
{
    Some(Task::Weave {
        seed: seed?,
        limit: limit?,
    })
}

/// The number of events at most: in all for `view` and `weave`, by each replica for `threads`.
fn limit_of(matches: &ArgMatches<'_>) -> Option<u64>
    ensures { result ≡ limit_given (rows_of (found_of matches.now)) }
{
    match matches.get_str("limit") {
        Some(text) => limit_in(text),
        None => None,
    }
}

/// The task of the command with this name and these matches.
fn task_of(name: &str, matches: &ArgMatches<'_>) -> Option<Task>
    ensures { result ≡ task_in name.now (rows_of (found_of matches.now)) }
{
    match name {
        "check" => Some(Task::Show(View::Check)),
        "print" => Some(Task::Show(View::Print)),
        "run" => Some(Task::Show(View::Run {
            trace: has_flag(matches, "trace"),
        })),
        "view" => match limit_of(matches) {
            Some(events) => Some(Task::Show(View::Document { events })),
            None => None,
        },
        "journal" => Some(Task::Show(View::Journal {
            trace: has_flag(matches, "trace"),
            effects: has_flag(matches, "effects"),
        })),
        "debug" => Some(Task::Debug),
        "serve" => Some(Task::Serve),
        "threads" => match limit_of(matches) {
            Some(limit) => Some(Task::Threads { limit }),
            None => None,
        },
        "weave" => weave_by(seed_of(matches), limit_of(matches)),
        _ => None,
    }
}

/// The file of the command with this name and these matches. `serve` has none, and an empty name stands for it.
fn file_of<'a>(name: &str, matches: &'a ArgMatches<'_>) -> Option<&'a str>
    ensures { option_map (λ file. file.now) result ≡ file_in name.now (rows_of (found_of matches.now)) }
{
    if name == "serve" {
        return Some("");
    }
    matches.get_str("file")
}

/// The command of matches, with its file. There is none where the matches lack the command, its limit or its file.
fn order_matched(alloc: Global, matches: &ArgMatches<'_>) -> Result<Option<Order>, AllocError>
    ensures { IfOk result (λ order. order ≡ option_and_then order_in (subcommand_rows_of matches.now)) }
{
    let Some((name, inner)) = matches.subcommand() else {
        return Ok(None);
    };
    let Some(task) = task_of(name, inner) else {
        return Ok(None);
    };
    let Some(file) = file_of(name, inner) else {
        return Ok(None);
    };
    let file = copied(alloc, file)?;
    Ok(Some(Order { task, file }))
}

/// The command that the arguments after the program's name are; no arguments are `run --trace -`.
///
/// Refusals: `Help` where they ask for help or for the version, `Usage` where they are wrong, and `Memory` where there
/// was no memory.
pub fn order_of(alloc: Global, words: &[String]) -> Result<Order, WordsFault>
    // What is returned is the command that they are.
    ensures ok { IfOk result (λ order. words_order (map string_bytes words.now) ≡ Some order) }
    // Refused arguments are no command. The fault is help exactly where they ask for it, or want of memory.
    ensures err { IfErr result (IsWordsFault (map string_bytes words.now)) }
    // Arguments without a fault are refused for want of memory alone.
    ensures taken { IsFaultless (map string_bytes words.now) → IfErr result (λ fault. fault ≡ NoMemory) }
    ensures help { AsksHelp (map string_bytes words.now) → IsErr result }
    ensures text { IfErr result HasText }
    // A limit is from 0 to 100,000.
    ensures limit { IfOk result (λ order. HasLimitInRange order.task) }
    // `serve` has no file.
    ensures served { IfOk result (λ order. order.task ≡ Task.Serve → order.file ≡ []) }
{
    if words.is_empty() {
        let file = copied(alloc, "-")?;
        return Ok(Order {
            task: Task::Show(View::Run { trace: true }),
            file,
        });
    }
    let said = meant_by(alloc, words)?;
    let matches = match matches_of(alloc, &said) {
        Ok(matches) => matches,
        Err(error) => return Err(fault_by(alloc, &error)),
    };
    // For its contract alone: arguments that clap matches are a command.
    faultless_words_are_orders();
    match order_matched(alloc, &matches)? {
        Some(order) => Ok(order),
        None => unreachable!(),
    }
}
