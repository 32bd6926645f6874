ghost use Rattle.std.specs.Prelude.{◌≡◌, Some, None, codes, IfOk, IfErr, false};
ghost use Rattle.clap.specs.Words.{app_of, found_of, first_value, rule_of, rows_of};
ghost use Rattle.clap.specs.declared.builder.ValueParser.TheVariants.{Names};
ghost use Rattle.gist.specs.Spelling.{IsCommand};
ghost use Rattle.gist.specs.CommandLine.{AreClassNames, IsGistLine, IsStormCommand, LimitsRead, OptionsRead, SettingsRead, option_rule, number_of_32_bits, store_command, class_named, texts_of, AreWellFormed, GivesSettings, LacksMemory, RefusesUnlessMemory};

use crate::help::{
    ABOUT, DELETES_HELP, FAN_HELP, FIRST_SESSION, INSERTS_HELP, LEAST_HELP, LOOKERS_HELP,
    PUMPS_HELP, READERS_HELP, REPLAY_ABOUT, REPLAY_GUIDE, ROOM_HELP, SEED_HELP, SERVE_ABOUT,
    SERVE_GUIDE, STORM_ABOUT, STORM_GUIDE, SUBSCRIBERS_HELP, SWEEPS_HELP, VERSION, WRITERS_HELP,
};
use crate::options::{Class, Settings, StoreOptions};
use clap::{Arg, ArgMatches, Command, Error, value_parser};
use std::alloc::{AllocError, Global};
use storm::StormSize;

/// The names of the classes on the command line.
static CLASSES: [&str; 3] = ["interval", "box", "set"];

fn class_names<'a>() -> &'a [&'a str]
    ensures { AreClassNames result }
{
    CLASSES.as_slice()
}

const DEFAULT_FAN: u32 = 8;

const DEFAULT_LEAST: u32 = 3;

/// The size of a storm, if no option changes it.
const DEFAULT_STORM: StormSize = StormSize {
    writers: 4,
    inserts: 250,
    deletes: 0,
    readers: 2,
    lookers: 0,
    subscribers: 0,
    room: 2,
    pumps: 2,
    sweeps: 0,
    seed: 1,
};

/// An option that takes a number of 32 bits.
fn number_arg<'a>(alloc: Global, name: &'a str, value: &'a str, help: &'a str) -> Arg<'a>
    ensures rule { rule_of result ≡ option_rule name.entry.now number_of_32_bits }
    ensures local { result.global ≡ false }
{
    Arg::new(alloc, name)
        .long(name)
        .value_name(value)
        .value_parser(value_parser!(u32))
        .help(help)
}

/// The option that names a class.
fn class_arg<'a>(alloc: Global, classes: &'a [&'a str]) -> Arg<'a>
    ensures rule { rule_of result ≡ option_rule (codes "class") (Names classes.entry) }
    ensures local { result.global ≡ false }
{
    Arg::new(alloc, "class")
        .long("class")
        .value_name("CLASS")
        .value_parser(classes)
        .help("What keys are")
}

/// A command with the options that say how rows are kept.
fn store_command<'a>(
    alloc: Global,
    name: &'a str,
    classes: &'a [&'a str],
) -> Result<Command<'a>, AllocError>
    ensures { IfOk result (λ c. app_of c ≡ store_command classes.entry name.entry.now) }
{
    Command::new(alloc, name)
        .arg(class_arg(alloc, classes))?
        .arg(number_arg(alloc, "fan", "M", FAN_HELP))?
        .arg(number_arg(alloc, "least", "m", LEAST_HELP))
}

/// The command that lets many clients work at once.
fn storm_command<'a>(alloc: Global) -> Result<Command<'a>, AllocError>
    ensures { IfOk result (λ c. IsStormCommand (app_of c)) }
{
    Command::new(alloc, "storm")
        .arg(number_arg(alloc, "writers", "W", WRITERS_HELP))?
        .arg(number_arg(alloc, "inserts", "I", INSERTS_HELP))?
        .arg(number_arg(alloc, "deletes", "D", DELETES_HELP))?
        .arg(number_arg(alloc, "readers", "R", READERS_HELP))?
        .arg(number_arg(alloc, "lookers", "L", LOOKERS_HELP))?
        .arg(number_arg(alloc, "subscribers", "N", SUBSCRIBERS_HELP))?
        .arg(number_arg(alloc, "room", "S", ROOM_HELP))?
        .arg(number_arg(alloc, "pumps", "P", PUMPS_HELP))?
        .arg(number_arg(alloc, "sweeps", "K", SWEEPS_HELP))?
        .arg(number_arg(alloc, "seed", "X", SEED_HELP))
}

/// The program's command line.
fn command_line<'a>(alloc: Global) -> Result<Command<'a>, AllocError>
    ensures { IfOk result (λ c. IsGistLine (app_of c)) }
{
    let classes = class_names();
    let serve = store_command(alloc, "serve", classes)?
        .about(SERVE_ABOUT)
        .after_help(SERVE_GUIDE);
    let replay = store_command(alloc, "replay", classes)?
        .about(REPLAY_ABOUT)
        .after_help(REPLAY_GUIDE);
    let storm = storm_command(alloc)?
        .about(STORM_ABOUT)
        .after_help(STORM_GUIDE);
    Command::new(alloc, "gist")
        .version(VERSION)
        .about(ABOUT)
        .after_help(FIRST_SESSION)
        .subcommand_required(true)
        .disable_help_subcommand(true)
        .subcommand(serve)?
        .subcommand(replay)?
        .subcommand(storm)
}

/// The class that an option names, by default intervals.
fn class_of(options: &ArgMatches<'_>) -> Class
    ensures { result ≡ class_named (first_value (found_of options.now) (codes "class")) }
{
    match options.get_str("class") {
        Some("box") => Class::Box,
        Some("set") => Class::Set,
        _ => Class::Interval,
    }
}

/// The options of a store, each with its default.
fn store_options(options: &ArgMatches<'_>) -> StoreOptions
    ensures { OptionsRead (rows_of (found_of options.now)) result }
{
    StoreOptions {
        class: class_of(options),
        fan: options.get_one::<u32>("fan").unwrap_or(DEFAULT_FAN),
        least: options.get_one::<u32>("least").unwrap_or(DEFAULT_LEAST),
    }
}

/// The options of a storm, each with its default.
fn storm_limits(options: &ArgMatches<'_>) -> StormSize
    ensures { LimitsRead (rows_of (found_of options.now)) result }
{
    let usual = DEFAULT_STORM;
    StormSize {
        writers: options.get_one::<u32>("writers").unwrap_or(usual.writers),
        inserts: options.get_one::<u32>("inserts").unwrap_or(usual.inserts),
        deletes: options.get_one::<u32>("deletes").unwrap_or(usual.deletes),
        readers: options.get_one::<u32>("readers").unwrap_or(usual.readers),
        lookers: options.get_one::<u32>("lookers").unwrap_or(usual.lookers),
        subscribers: options
            .get_one::<u32>("subscribers")
            .unwrap_or(usual.subscribers),
        room: options.get_one::<u32>("room").unwrap_or(usual.room),
        pumps: options.get_one::<u32>("pumps").unwrap_or(usual.pumps),
        sweeps: options.get_one::<u32>("sweeps").unwrap_or(usual.sweeps),
        seed: options.get_one::<u32>("seed").unwrap_or(usual.seed),
    }
}

/// What a command with these options asks for.
fn settings_of(command: &str, options: &ArgMatches<'_>) -> Settings
    requires { IsCommand command.now }
    ensures { SettingsRead command.now (rows_of (found_of options.now)) result }
{
    match command {
        "serve" => Settings::Serve(store_options(options)),
        "replay" => Settings::Replay(store_options(options)),
        "storm" => Settings::Storm(storm_limits(options)),
        _ => unreachable!(),
    }
}

/// Parses the command line. The first word is the program's name.
///
/// # Errors
/// `DisplayHelp` or `DisplayVersion` if help or the version is asked for, `OutOfMemory`, and otherwise why the words
/// are refused. `Display` gives the text for the user.
pub fn settings<'a>(alloc: Global, words: &'a [&'a str]) -> Result<Settings, Error>
    ensures given { IfOk result (GivesSettings (texts_of words.now)) }
    ensures taken { AreWellFormed (texts_of words.now) → IfErr result LacksMemory }
    ensures refused { IfErr result (RefusesUnlessMemory (texts_of words.now)) }
{
    let matches = command_line(alloc)?.try_get_matches_from(words)?;
    match matches.subcommand() {
        Some((command, options)) => Ok(settings_of(command, options)),
        None => unreachable!(),
    }
}
