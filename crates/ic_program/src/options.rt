ghost use Rattle.std.specs.Prelude.{◌≡◌, IfErr, IfOk, map, false};
ghost use Rattle.clap.specs.Words.{IsPlain, IsPlainArg, app_of, kind_of, rule_of};
ghost use Rattle.clap.specs.declared.builder.command.Command.TheViews.{out-Command};
ghost use Rattle.ic_program.specs.CommandLine.{Choose, IsFaultOf, budget_rule, echo_rule, explain_rule, files_in, files_rule, flag_rule, icbench, interactive_rule, scripted, stop_rule, workers_rule};
ghost use Rattle.ic_program.specs.Runs.{mode_of};

use crate::help::{ABOUT, LESSON, USE, VERSION};
use clap::{Arg, ArgAction, Command, Error, value_parser};
use ic_session::{MAX_BUDGET, MAX_WORKERS, Mode, Prompts};
use std::alloc::{AllocError, Global};
use std::convert::AsStr;

/// What the command line chooses.
#[derive(Clone, Copy, Debug, PartialEq, Eq)]
pub struct Options {
    /// The workers of a `reduce`.
    pub workers: u8,
    /// The events that a `reduce` may fire.
    pub budget: u32,
    /// Whether the session explains itself.
    pub explains: bool,
    /// Whether the session ends at the first refused command.
    pub stops: bool,
    /// Whether each command stands before its answer.
    pub echoes: bool,
    /// Whether the session is one at a terminal, which explains itself and asks for each line.
    pub interactive: bool,
}

impl Options {
    /// How the session is run. One at a terminal explains itself, too, and goes on after a net that was refused.
    pub fn mode(self) -> Mode
        ensures { result ≡ mode_of self }
    {
        Mode {
            workers: self.workers,
            budget: self.budget,
            explains: self.explains || self.interactive,
            stops: self.stops,
            echoes: self.echoes,
            retries: self.interactive,
        }
    }

    /// What the session asks for by prompts, when so many lines were read ahead.
    pub fn prompts(self, ahead: u64) -> Prompts {
        if self.interactive {
            Prompts::After(ahead)
        } else {
            Prompts::Silent
        }
    }
}

/// What a command line asks for: how a session is run, and from which files it is read, one after the other. Without files it
/// is read from the standard input.
#[derive(Drop)]
pub struct Asked<'a> {
    pub options: Options,
    pub files: Vec<&'a str>,
}

/// Reads the words of a command line. The first one names the program.
pub fn read_options<'a, S: AsStr>(alloc: Global, words: &'a [S]) -> Result<Asked<'a>, Error>
    ensures chosen { IfOk result (λ asked. Choose (map S.text words.now) asked.options) }
    ensures files { IfOk result (λ asked. map (λ file. file.now) asked.files.items ≡ files_in (map S.text words.now)) }
    ensures fault { IfErr result (λ error. IsFaultOf (map S.text words.now) (kind_of error)) }
{
    let matches = command(alloc)?.try_get_matches_from(words)?;
    let workers = matches.get_one::<u8>("workers");
    let budget = matches.get_one::<u32>("budget");
    let options = Options {
        workers: workers.unwrap_or(1),
        budget: budget.unwrap_or(MAX_BUDGET),
        explains: matches.get_flag("explain"),
        stops: matches.get_flag("stop"),
        echoes: matches.get_flag("echo"),
        interactive: matches.get_flag("interactive"),
    };
    let files = Vec::from_slice(alloc, matches.get_strs("files").unwrap_or(&[]))?;
    Ok(Asked { options, files })
}

/// The command line.
fn command<'a>(alloc: Global) -> Result<Command<'a>, AllocError>
    ensures shape { IfOk result (λ command. app_of command ≡ icbench) }
    ensures plain { IfOk result (λ command. IsPlain command) }
    ensures local { IfOk result (λ command. (out-Command command).has_globals ≡ false) }
{
    scripted_command(alloc)?
        .arg(stop_argument(alloc))?
        .arg(echo_argument(alloc))?
        .arg(interactive_argument(alloc))?
        .arg(files_argument(alloc))
}

/// The command line of a session that is read from the standard input, but not at a terminal.
fn scripted_command<'a>(alloc: Global) -> Result<Command<'a>, AllocError>
    ensures shape { IfOk result (λ command. app_of command ≡ scripted) }
    ensures plain { IfOk result (λ command. IsPlain command) }
    ensures local { IfOk result (λ command. (out-Command command).has_globals ≡ false) }
{
    Command::new(alloc, "icbench")
        .version(VERSION)
        .about(ABOUT)
        .override_usage(USE)
        .after_help(LESSON)
        .arg(workers_argument(alloc))?
        .arg(budget_argument(alloc))?
        .arg(explain_argument(alloc))
}

/// The option that says how many worker threads there are.
fn workers_argument<'a>(alloc: Global) -> Arg<'a>
    ensures rule { rule_of result ≡ workers_rule }
    ensures plain { IsPlainArg result × (result.global ≡ false) }
{
    Arg::new(alloc, "workers")
        .long("workers")
        .value_name("1..64")
        .value_parser(value_parser!(u8).range(1..=i64::from(MAX_WORKERS)))
        .action(ArgAction::Set)
        .help("workers of a reduce, each on a thread of its own [default: 1]")
}

/// The option that says how much a `reduce` may fire.
fn budget_argument<'a>(alloc: Global) -> Arg<'a>
    ensures rule { rule_of result ≡ budget_rule }
    ensures plain { IsPlainArg result × (result.global ≡ false) }
{
    Arg::new(alloc, "budget")
        .long("budget")
        .value_name("0..1048576")
        .value_parser(value_parser!(u32).range(0..=i64::from(MAX_BUDGET)))
        .action(ArgAction::Set)
        .help("the most events that a reduce fires [default: 1048576]")
}

/// An option without a value.
fn flag<'a>(alloc: Global, name: &'a str, help: &'a str) -> Arg<'a>
    ensures rule { rule_of result ≡ flag_rule name.now }
    ensures plain { IsPlainArg result × (result.global ≡ false) }
{
    Arg::new(alloc, name)
        .long(name)
        .action(ArgAction::SetTrue)
        .help(help)
}

/// The option that says that the session explains itself.
fn explain_argument<'a>(alloc: Global) -> Arg<'a>
    ensures rule { rule_of result ≡ explain_rule }
    ensures plain { IsPlainArg result × (result.global ≡ false) }
{
    flag(
        alloc,
        "explain",
        "answers questions, too, and says on standard error why something is refused",
    )
}

/// The option that says that the session ends at the first refused command.
fn stop_argument<'a>(alloc: Global) -> Arg<'a>
    ensures rule { rule_of result ≡ stop_rule }
    ensures plain { IsPlainArg result × (result.global ≡ false) }
{
    flag(
        alloc,
        "stop",
        "ends at the first refused command, with status 5",
    )
}

/// The option that says that each command stands before its answer.
fn echo_argument<'a>(alloc: Global) -> Arg<'a>
    ensures rule { rule_of result ≡ echo_rule }
    ensures plain { IsPlainArg result × (result.global ≡ false) }
{
    flag(alloc, "echo", "writes each command before its answer")
}

/// The option that says that the session is one at a terminal.
fn interactive_argument<'a>(alloc: Global) -> Arg<'a>
    ensures rule { rule_of result ≡ interactive_rule }
    ensures plain { IsPlainArg result × (result.global ≡ false) }
{
    let asks =
        "explains, too, and asks for each line on standard error; after a refused net another may come";
    flag(alloc, "interactive", asks).short('i')
}

/// The files that a session is read from.
fn files_argument<'a>(alloc: Global) -> Arg<'a>
    ensures rule { rule_of result ≡ files_rule }
    ensures plain { IsPlainArg result × (result.global ≡ false) }
{
    Arg::new(alloc, "files")
        .value_name("FILE")
        .action(ArgAction::Append)
        .help("files of the session, one after the other; - or no file is the standard input")
}
