//! The definition of the command line, by which clap parses the arguments. A command is a function here, and a line
//! of `program` in specs/Program.antt.

ghost use Rattle.std.specs.Prelude.{◌≡◌, IfOk, false};
ghost use Rattle.clap.specs.Words.{app_of, rule_of, new_app, with_rule};
ghost use Rattle.jc_cli.specs.Program.{IsLocal, file_rule, trace_rule, effects_rule, limit_rule, seed_rule, plain_app, run_app, view_app, journal_app, serve_app, threads_app, weave_app, bare, program};

use crate::help::{
    ABOUT, CHECK, DEBUG, JOURNAL, PRINT, PROGRAM, RUN, SERVE, THREADS, USAGE, VERSION, VIEW, WEAVE,
};
use clap::builder::ValueParser;
use clap::{Arg, ArgAction, Command};
use jc_rules::limits::{MAX_EVENTS, MAX_THREAD_EVENTS};
use std::alloc::{AllocError, Global};

/// The file with the scenario.
fn file<'a>(alloc: Global) -> Arg<'a>
    ensures rule { rule_of result ≡ file_rule }
    ensures local { result.global ≡ false }
{
    Arg::new(alloc, "file")
        .value_name("FILE")
        .help("The file with the scenario; - is standard input")
        .required(true)
}

/// A command whose only argument is its file.
fn plain<'a>(
    alloc: Global,
    name: &'a str,
    about: &'a str,
    example: &'a str,
) -> Result<Command<'a>, AllocError>
    ensures shape { IfOk result (λ c. app_of c ≡ plain_app name.entry.now) }
    ensures local { IfOk result IsLocal }
{
    Command::new(alloc, name)
        .about(about)
        .after_help(example)
        .arg(file(alloc))
}

fn run<'a>(alloc: Global) -> Result<Command<'a>, AllocError>
    ensures shape { IfOk result (λ c. app_of c ≡ run_app) }
    ensures local { IfOk result IsLocal }
{
    let trace = Arg::new(alloc, "trace")
        .long("trace")
        .help("Print the rules that each event used, before the states (this may be long)")
        .action(ArgAction::SetTrue);
    Command::new(alloc, "run")
        .about("Execute the schedule, and print the state of each replica")
        .after_help(RUN)
        .arg(trace)?
        .arg(file(alloc))
}

fn view<'a>(alloc: Global) -> Result<Command<'a>, AllocError>
    ensures shape { IfOk result (λ c. app_of c ≡ view_app) }
    ensures local { IfOk result IsLocal }
{
    let limit = Arg::new(alloc, "limit")
        .long("at")
        .value_name("N")
        .help("Execute the first N events of the schedule only, from 0 to 100000")
        .value_parser(ValueParser::unsigned(0, MAX_EVENTS as u64))
        .default_value("100000");
    Command::new(alloc, "view")
        .about(
            "Execute the schedule, and print the document of each replica as an application sees it",
        )
        .after_help(VIEW)
        .arg(limit)?
        .arg(file(alloc))
}

/// The option of a journal for the rules.
fn journal_trace<'a>(alloc: Global) -> Arg<'a>
    ensures rule { rule_of result ≡ trace_rule }
    ensures local { result.global ≡ false }
{
    Arg::new(alloc, "trace")
        .long("trace")
        .help("Print the rules that each event used, in its line (this may be long)")
        .action(ArgAction::SetTrue)
}

/// The option of a journal for the effects.
fn journal_effects<'a>(alloc: Global) -> Arg<'a>
    ensures rule { rule_of result ≡ effects_rule }
    ensures local { result.global ≡ false }
{
    Arg::new(alloc, "effects")
        .long("effects")
        .help("Print what each event changed in the tree of its replica, in its line")
        .action(ArgAction::SetTrue)
}

fn journal<'a>(alloc: Global) -> Result<Command<'a>, AllocError>
    ensures shape { IfOk result (λ c. app_of c ≡ journal_app) }
    ensures local { IfOk result IsLocal }
{
    Command::new(alloc, "journal")
        .about(
            "Execute the schedule, and print a line of JSON for each event, with its operation in full",
        )
        .after_help(JOURNAL)
        .arg(journal_trace(alloc))?
        .arg(journal_effects(alloc))?
        .arg(file(alloc))
}

fn serve<'a>(alloc: Global) -> Command<'a>
    ensures shape { app_of result ≡ serve_app }
    ensures local { IsLocal result }
{
    Command::new(alloc, "serve")
        .about("Answer the requests of a program, each by a line of JSON, from standard input")
        .after_help(SERVE)
}

fn threads<'a>(alloc: Global) -> Result<Command<'a>, AllocError>
    ensures shape { IfOk result (λ c. app_of c ≡ threads_app) }
    ensures local { IfOk result IsLocal }
{
    let limit = Arg::new(alloc, "limit")
        .long("limit")
        .value_name("N")
        .help("Let each replica execute N events at most, from 0 to 100000")
        .value_parser(ValueParser::unsigned(0, MAX_THREAD_EVENTS))
        .default_value("10000");
    Command::new(alloc, "threads")
        .about(
            "Run each replica in a thread of its own, and print the scenario with the schedule that they made",
        )
        .after_help(THREADS)
        .arg(limit)?
        .arg(file(alloc))
}

/// The seed of a woven schedule.
fn weave_seed<'a>(alloc: Global) -> Arg<'a>
    ensures rule { rule_of result ≡ seed_rule }
    ensures local { result.global ≡ false }
{
    Arg::new(alloc, "seed")
        .long("seed")
        .value_name("N")
        .help("Draw the schedule from this number, from 0 to 18446744073709551615")
        .value_parser(ValueParser::unsigned(0, u64::MAX))
        .default_value("0")
}

/// The limit of a woven schedule.
fn weave_limit<'a>(alloc: Global) -> Arg<'a>
    ensures rule { rule_of result ≡ limit_rule }
    ensures local { result.global ≡ false }
{
    Arg::new(alloc, "limit")
        .long("limit")
        .value_name("N")
        .help("Let the schedule have N events at most, from 0 to 100000")
        .value_parser(ValueParser::unsigned(0, MAX_EVENTS as u64))
        .default_value("10000")
}

fn weave<'a>(alloc: Global) -> Result<Command<'a>, AllocError>
    ensures shape { IfOk result (λ c. app_of c ≡ weave_app) }
    ensures local { IfOk result IsLocal }
{
    Command::new(alloc, "weave")
        .about(
            "Draw a schedule from a seed, in which each replica chooses its events, and print the scenario with it",
        )
        .after_help(WEAVE)
        .arg(weave_seed(alloc))?
        .arg(weave_limit(alloc))?
        .arg(file(alloc))
}

/// The program without its commands.
fn bare<'a>(alloc: Global) -> Result<Command<'a>, AllocError>
    ensures { IfOk result (λ c. app_of c ≡ bare) }
{
    let top = Command::new(alloc, "jsoncrdt")
        .bin_name("jsoncrdt")?
        .about(ABOUT)
        .override_usage(USAGE)
        .version(VERSION)
        .after_help(PROGRAM)
        .no_binary_name(true)
        .disable_help_subcommand(true)
        .subcommand_required(true);
    Ok(top)
}

/// The whole command line, without the program's name. Each command is made right before it is added, so that
/// there is only one to drop where there is no memory.
pub(crate) fn definition<'a>(alloc: Global) -> Result<Command<'a>, AllocError>
    ensures { IfOk result (λ c. app_of c ≡ program) }
{
    let top = bare(alloc)?;
    let check = plain(
        alloc,
        "check",
        "Tell whether a text is a scenario, and how many replicas, commands and events it has",
        CHECK,
    )?;
    let top = top.subcommand(check)?;
    let print = plain(
        alloc,
        "print",
        "Print the scenario in its canonical text",
        PRINT,
    )?;
    let top = top.subcommand(print)?;
    let run = run(alloc)?;
    let top = top.subcommand(run)?;
    let view = view(alloc)?;
    let top = top.subcommand(view)?;
    let journal = journal(alloc)?;
    let top = top.subcommand(journal)?;
    let debug = plain(
        alloc,
        "debug",
        "Debugger: step through the schedule, forwards and backwards, by lines of standard input",
        DEBUG,
    )?;
    let top = top.subcommand(debug)?;
    let serve = serve(alloc);
    let top = top.subcommand(serve)?;
    let threads = threads(alloc)?;
    let top = top.subcommand(threads)?;
    let weave = weave(alloc)?;
    top.subcommand(weave)
}
