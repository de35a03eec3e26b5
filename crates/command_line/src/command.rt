//! The command line.

ghost use Rattle.std.specs.Prelude.{◌≡◌, [], false, IfOk, codes, unwrap_or};
ghost use Rattle.clap.specs.Words.{App, app_of, found_of, first_value, new_app, one_text, rule_of, with_rule, with_subcommand};
ghost use Rattle.command_line.specs.CommandLine.{HasFlag, HasLimits, HasNumber, HasNumberIfSaid, HasRunSizes, HasSetting, HasSizes};
ghost use Rattle.command_line.specs.Program.{MakesApp, check_app, copy_app, create_app, dump_app, needed_rule, play_app, program_line, run_app, start_app, with_flag, with_copy_sizes, with_index_sizes, with_needed_sizes, with_size, number_rule, word_rule};

use crate::copying::{CopySetting, CopySizes};
use crate::engine::Setting;
use crate::help::{COPIES, FAULTS, JOBS, REPORT, SCRIPT};
use crate::running::RunSetting;
use clap::{Arg, ArgAction, ArgMatches, Command, value_parser};
use index_model::Limits;
use std::alloc::{AllocError, Global};
use text_forms::VERSION;

// What the sizes of an index are, and what a unique one is.
const ITEMS: &str = "Items that a page holds at most: 4 to 50";

const PAGES: &str = "Blocks of the index: 8 to 65536";

const LOG: &str = "Bytes of the log: 65536 to 16777216, a multiple of 4096";

const UNIQUE: &str =
    "No two entries share a key: an insert of a key that is there is refused with 21";

const PROGRESS: &str = "Tell on standard error how far it is";

const WORKERS: &str = "Threads, each with a session: 1 to 64";

const FRAMES: &str = "Pages that are held in memory: 16 to 1024";

// A command, or no memory for it. Each step takes and gives one, so that only the step itself may leave at
// two places: a `?` costs the prover seconds at each place where a command is held.
type Made<'a> = Result<Command<'a>, AllocError>;

/// The whole command line.
pub fn program<'a>(alloc: Global) -> Result<Command<'a>, AllocError>
    ensures { IfOk result (λ command. app_of command ≡ program_line) }
{
    let made = start(alloc);
    let made = with_command(made, play(alloc));
    let made = with_command(made, run(alloc));
    let made = with_command(made, create(alloc));
    let made = with_command(made, copy(alloc));
    let made = with_command(made, check(alloc));
    with_command(made, dump(alloc))
}

// The program itself, of which a command is needed.
fn start<'a>(alloc: Global) -> Made<'a>
    ensures { MakesApp result start_app }
{
    let command = Command::new(alloc, "btidx")
        .about("A B-link tree index that survives crashes.")
        .version(VERSION)
        .subcommand_required(true)
        .arg_required_else_help(true)
        .disable_help_subcommand(true)
        .after_help(FAULTS);
    Ok(command)
}

fn play<'a>(alloc: Global) -> Made<'a>
    ensures { MakesApp result play_app }
{
    let about = "Run a script from standard input over an index in memory";
    let made = with_limits(alloc, explained(alloc, "play", about, SCRIPT));
    let made = with_size(alloc, made, "frames", "16", FRAMES);
    with_size(alloc, made, "sessions", "8", "Sessions: 1 to 64")
}

// The sizes of an index, each with what it is if none is given, and whether it is unique.
fn with_limits<'a>(alloc: Global, made: Made<'a>) -> Made<'a>
    ensures { (app : App) → MakesApp made.entry app → MakesApp result (with_index_sizes app) }
{
    let made = with_size(alloc, made, "items", "4", ITEMS);
    let made = with_size(alloc, made, "pages", "64", PAGES);
    let made = with_size(alloc, made, "log", "1048576", LOG);
    with_flag(alloc, made, "unique", UNIQUE)
}

fn create<'a>(alloc: Global) -> Made<'a>
    ensures { MakesApp result create_app }
{
    let made = with_file(
        alloc,
        named(alloc, "create", "Make an empty index in a new file"),
    );
    let made = with_flag(alloc, made, "progress", PROGRESS);
    with_needed_limits(alloc, made)
}

// The sizes of a new index, each of which is needed, and whether it is unique.
fn with_needed_limits<'a>(alloc: Global, made: Made<'a>) -> Made<'a>
    ensures { (app : App) → MakesApp made.entry app → MakesApp result (with_needed_sizes app) }
{
    let made = with_needed_size(alloc, made, "items", ITEMS);
    let made = with_needed_size(alloc, made, "pages", PAGES);
    let made = with_needed_size(alloc, made, "log", LOG);
    with_flag(alloc, made, "unique", UNIQUE)
}

fn copy<'a>(alloc: Global) -> Made<'a>
    ensures { MakesApp result copy_app }
{
    let about = "Make an index anew in a new file, with the entries of another";
    let made = with_file(alloc, explained(alloc, "copy", about, COPIES));
    let made = with_word(alloc, made, "new", "NEW", "The file of the new index");
    let made = with_flag(alloc, made, "progress", PROGRESS);
    with_sizes_if_said(alloc, made)
}

// The sizes of a copy, and whether it is unique.
fn with_sizes_if_said<'a>(alloc: Global, made: Made<'a>) -> Made<'a>
    ensures { (app : App) → MakesApp made.entry app → MakesApp result (with_copy_sizes app) }
{
    let made = with_size_if_said(alloc, made, "items", ITEMS);
    let made = with_size_if_said(alloc, made, "pages", PAGES);
    let made = with_size_if_said(alloc, made, "log", LOG);
    with_flag(alloc, made, "unique", UNIQUE)
}

fn check<'a>(alloc: Global) -> Made<'a>
    ensures { MakesApp result check_app }
{
    let about = "Look for damage in the index in a file";
    let made = with_file(alloc, explained(alloc, "check", about, REPORT));
    let made = with_flag(alloc, made, "parents", "Compare parents and children too");
    let made = with_flag(alloc, made, "one-thread", "Judge the pages in one thread");
    with_flag(alloc, made, "progress", PROGRESS)
}

fn run<'a>(alloc: Global) -> Made<'a>
    ensures { MakesApp result run_app }
{
    let about = "Run the jobs of a file over the index in a file, with threads";
    let made = with_file(alloc, explained(alloc, "run", about, JOBS));
    let made = with_word(alloc, made, "jobs", "JOBS", "The file of the jobs");
    let made = with_flag(alloc, made, "progress", PROGRESS);
    let made = with_size(alloc, made, "workers", "1", WORKERS);
    with_size(alloc, made, "frames", "64", FRAMES)
}

fn dump<'a>(alloc: Global) -> Made<'a>
    ensures { MakesApp result dump_app }
{
    let about = "Print each page of the index in a file, with its items";
    with_file(alloc, named(alloc, "dump", about))
}

// A command of this name.
fn named<'a>(alloc: Global, name: &'a str, about: &'a str) -> Made<'a>
    ensures { MakesApp result (new_app name.entry.now) }
{
    Ok(Command::new(alloc, name).about(about))
}

// ... with more help behind its arguments.
fn explained<'a>(alloc: Global, name: &'a str, about: &'a str, more: &'a str) -> Made<'a>
    ensures { MakesApp result (new_app name.entry.now) }
{
    Ok(Command::new(alloc, name).about(about).after_help(more))
}

// One command more.
fn with_command<'a>(made: Made<'a>, added: Made<'a>) -> Made<'a>
    ensures { (app more : App) → MakesApp made.entry app → MakesApp added.entry more
        → MakesApp result (with_subcommand app more.top) }
{
    let added = added?;
    made?.subcommand(added)
}

// The file of the index.
fn with_file<'a>(alloc: Global, made: Made<'a>) -> Made<'a>
    ensures { (app : App) → MakesApp made.entry app
        → MakesApp result (with_rule app (word_rule (codes "path"))) }
{
    with_word(alloc, made, "path", "PATH", "The file of the index")
}

// A word that is needed.
fn with_word<'a>(
    alloc: Global,
    made: Made<'a>,
    name: &'a str,
    shown: &'a str,
    help: &'a str,
) -> Made<'a>
    ensures { (app : App) → MakesApp made.entry app
        → MakesApp result (with_rule app (word_rule name.entry.now)) }
{
    let arg = Arg::new(alloc, name)
        .value_name(shown)
        .required(true)
        .help(help);
    with(made, arg)
}

// `--NAME`.
fn with_flag<'a>(alloc: Global, made: Made<'a>, name: &'a str, help: &'a str) -> Made<'a>
    ensures { (app : App) → MakesApp made.entry app
        → MakesApp result (with_flag name.entry.now app) }
{
    let arg = Arg::new(alloc, name)
        .long(name)
        .action(ArgAction::SetTrue)
        .help(help);
    with(made, arg)
}

// `--NAME N`, which is needed.
fn with_needed_size<'a>(alloc: Global, made: Made<'a>, name: &'a str, help: &'a str) -> Made<'a>
    ensures { (app : App) → MakesApp made.entry app
        → MakesApp result (with_rule app (needed_rule name.entry.now)) }
{
    let arg = Arg::new(alloc, name)
        .long(name)
        .value_name("N")
        .value_parser(value_parser!(u32))
        .required(true)
        .help(help);
    with(made, arg)
}

// `--NAME N`, which may be left out.
fn with_size_if_said<'a>(alloc: Global, made: Made<'a>, name: &'a str, help: &'a str) -> Made<'a>
    ensures { (app : App) → MakesApp made.entry app
        → MakesApp result (with_rule app (number_rule name.entry.now)) }
{
    let arg = Arg::new(alloc, name)
        .long(name)
        .value_name("N")
        .value_parser(value_parser!(u32))
        .help(help);
    with(made, arg)
}

// `--NAME N`, which is this if none is given.
fn with_size<'a>(
    alloc: Global,
    made: Made<'a>,
    name: &'a str,
    value: &'a str,
    help: &'a str,
) -> Made<'a>
    ensures { (app : App) → MakesApp made.entry app
        → MakesApp result (with_size name.entry.now value.entry.now app) }
{
    let arg = Arg::new(alloc, name)
        .long(name)
        .value_name("N")
        .value_parser(value_parser!(u32))
        .default_value(value)
        .help(help);
    with(made, arg)
}

// One argument more, of this command alone.
fn with<'a>(made: Made<'a>, arg: Arg<'a>) -> Made<'a>
    requires { arg.global ≡ false }
    ensures { (app : App) → MakesApp made.entry app
        → MakesApp result (with_rule app (rule_of arg.entry)) }
{
    made?.arg(arg)
}

/// The sizes on a command line of `play`.
pub fn setting(matches: &ArgMatches<'_>) -> Setting
    ensures { HasSetting (one_text (found_of matches.now)) result }
{
    Setting {
        limits: limits(matches),
        frames: number(matches, "frames"),
        sessions: number(matches, "sessions"),
    }
}

/// The sizes of an index on a command line of `create` or `play`, and whether it is unique.
pub fn limits(matches: &ArgMatches<'_>) -> Limits
    ensures { HasLimits (one_text (found_of matches.now)) result }
{
    Limits {
        items: number(matches, "items"),
        pages: number(matches, "pages"),
        log_bytes: number(matches, "log"),
        unique: matches.get_flag("unique"),
    }
}

/// What a command line of `run` asks for.
pub fn run_setting<'a>(matches: &ArgMatches<'a>) -> RunSetting<'a>
    ensures path { result.path.now
        ≡ unwrap_or (first_value (found_of matches.now) (codes "path")) [] }
    ensures jobs { result.jobs.now
        ≡ unwrap_or (first_value (found_of matches.now) (codes "jobs")) [] }
    ensures sizes { HasRunSizes (one_text (found_of matches.now)) result.workers result.frames }
{
    RunSetting {
        path: path(matches),
        jobs: matches.get_str("jobs").unwrap_or(""),
        workers: number(matches, "workers"),
        frames: number(matches, "frames"),
        progress: has_progress(matches),
    }
}

/// What a command line of `copy` asks for.
pub fn copy_setting<'a>(matches: &ArgMatches<'a>) -> CopySetting<'a>
    ensures { HasSizes (one_text (found_of matches.now)) result.sizes }
{
    let is_unique = matches.get_flag("unique");
    CopySetting {
        path: path(matches),
        new: matches.get_str("new").unwrap_or(""),
        sizes: CopySizes {
            items: number_if_said(matches, "items"),
            pages: number_if_said(matches, "pages"),
            log_bytes: number_if_said(matches, "log"),
            unique: is_unique,
        },
    }
}

/// The file of the index on a command line of `create`, `copy`, `check`, `dump` or `run`.
pub fn path<'a>(matches: &ArgMatches<'a>) -> &'a str
    ensures { result.now ≡ unwrap_or (first_value (found_of matches.now) (codes "path")) [] }
{
    matches.get_str("path").unwrap_or("")
}

/// Whether a command line of `check` asks for parents and children too.
pub fn has_parents(matches: &ArgMatches<'_>) -> bool
    ensures { HasFlag (one_text (found_of matches.now) (codes "parents")) result }
{
    matches.get_flag("parents")
}

/// Whether a command line of `create`, `copy`, `check` or `run` asks to be told how far it is.
pub fn has_progress(matches: &ArgMatches<'_>) -> bool {
    matches.get_flag("progress")
}

/// Whether a command line of `check` asks for one thread.
pub fn has_one_thread(matches: &ArgMatches<'_>) -> bool
    ensures { HasFlag (one_text (found_of matches.now) (codes "one-thread")) result }
{
    matches.get_flag("one-thread")
}

fn number(matches: &ArgMatches<'_>, name: &str) -> u32
    ensures { HasNumber (one_text (found_of matches.now) name.now) result }
{
    matches.get_one::<u32>(name).unwrap_or(0)
}

fn number_if_said(matches: &ArgMatches<'_>, name: &str) -> Option<u32>
    ensures { HasNumberIfSaid (one_text (found_of matches.now) name.now) result }
{
    matches.get_one::<u32>(name)
}
