ghost use Rattle.std.specs.Prelude.{◌≡◌, ◌≢◌, ◌↔◌, ◌⊎◌, ◌<◌, Ok};
ghost use Rattle.store.specs.States.{new_store};
ghost use Rattle.change_list.specs.Configs.{IsWithinLimits};
ghost use Rattle.world.specs.States.{new_state as new_world};
ghost use Rattle.front.specs.Conversations.{Kept, exchange};
ghost use Rattle.clap.specs.Words.{kind_of};
ghost use Rattle.clap.specs.declared.error.ErrorKind.{ErrorKind};
ghost use Rattle.storm.specs.Sizes.{IsStorm};
ghost use Rattle.gist.specs.Storms.{TellsStorm, Outputs, client_line, client_lines, count_line, storm_text};
ghost use Rattle.gist.specs.CommandLine.{texts_of, AreWellFormed, NameNothing, AreRefused, AsksForText, IsOfWords, WantText};
ghost use Rattle.gist.specs.Served.{limits_of, AnsweredOver, EventsAnsweredOver, ServesOptions, Replays, Does, DoesAsked, IfWell, HaveBadLimits, AreOutOfLimits, RefusesLimits, NameBadLimits, AreUnfit};

use crate::options::{Class, ExitStatus, Role, Settings, StoreOptions};
use crate::words::settings;
use arrayvec::ArrayVec;
use box_class::Boxes;
use change_list::Config;
use clap::Error;
use clap::error::ErrorKind;
use front::session;
use history::BlankHistory;
use interval_class::Intervals;
use key_class::limits::{MAX_COMMITS, MAX_PAGES};
use key_class::{Fault, Refusal};
use mailbox::Tray;
use query_text::{ClassText, append, append_number};
use set_class::Sets;
use std::alloc::Global;
use std::io::{self, Read, Write};
use std::marker::Brand;
use std::rt::Clock;
use std::sync::Wait;
use std::sync::ledger::Blank;
use std::thread::Threads;
use store::Store;
use storm::{Outcome, StormSize, Verdict, run_storm};
use world::World;

/// The options' limits of a page's entries, and the greatest numbers of pages and commits.
fn config_of(options: StoreOptions) -> Config
    ensures { result ≡ limits_of options }
{
    Config {
        fan: options.fan,
        least: options.least,
        pages: MAX_PAGES,
        commits: MAX_COMMITS,
    }
}

/// Serves a session over a new store, until the reader's bytes end.
///
/// # Errors
/// `Refused` with `BadConfig` if a limit is out of range: then nothing was read. Else those of `session`.
fn serve_store<C: ClassText, R: Read, W: Write>(
    alloc: Global,
    config: Config,
    reader: &mut R,
    writer: &mut W,
) -> Result<(), Fault>
    ensures answered { result ≡ Ok tt → AnsweredOver C.texts C.rules (new_store config)
        (exchange R.remaining reader.old reader.new W.contents writer.old writer.new) }
    ensures within { result ≡ Ok tt → IsWithinLimits config }
    ensures bad { RefusesLimits result ↔ (¬ IsWithinLimits config) }
    ensures unread { ¬ IsWithinLimits config → Kept reader.old reader.new writer.old writer.new }
{
    let mut store = match Store::<C>::new(alloc, config) {
        Ok(store) => store,
        Err(Refusal::OutOfMemory) => return Err(Fault::OutOfMemory),
        Err(why) => return Err(Fault::Refused(why)),
    };
    session(alloc, reader, writer, &mut store)
}

/// Serves a session over a new store of the class that the options name.
fn serve<R: Read, W: Write>(
    alloc: Global,
    options: StoreOptions,
    reader: &mut R,
    writer: &mut W,
) -> Result<(), Fault>
    ensures ok { result ≡ Ok tt → ServesOptions options
        (exchange R.remaining reader.old reader.new W.contents writer.old writer.new) }
    ensures bad { RefusesLimits result ↔ HaveBadLimits options }
    ensures unread { HaveBadLimits options → Kept reader.old reader.new writer.old writer.new }
{
    let config = config_of(options);
    match options.class {
        Class::Interval => serve_store::<Intervals, R, W>(alloc, config, reader, writer),
        Class::Box => serve_store::<Boxes, R, W>(alloc, config, reader, writer),
        Class::Set => serve_store::<Sets, R, W>(alloc, config, reader, writer),
    }
}

/// Carries out the events of the reader's lines on a new world, until the reader's bytes end.
///
/// # Errors
/// `Refused` with `BadConfig` if a limit is out of range: then nothing was read. Else those of `front::replay`.
fn replay_world<C: ClassText, R: Read, W: Write>(
    alloc: Global,
    config: Config,
    reader: &mut R,
    writer: &mut W,
) -> Result<(), Fault>
    ensures ok { result ≡ Ok tt → EventsAnsweredOver C.texts C.rules (new_world config)
        (exchange R.remaining reader.old reader.new W.contents writer.old writer.new) }
    ensures within { result ≡ Ok tt → IsWithinLimits config }
    ensures bad { RefusesLimits result ↔ (¬ IsWithinLimits config) }
    ensures unread { ¬ IsWithinLimits config → Kept reader.old reader.new writer.old writer.new }
{
    let mut world = match World::<C, Tray<C::Key>>::new(alloc, config) {
        Ok(world) => world,
        Err(Refusal::OutOfMemory) => return Err(Fault::OutOfMemory),
        Err(why) => return Err(Fault::Refused(why)),
    };
    front::replay(alloc, reader, writer, &mut world)
}

/// Carries out the events on a new world of the class that the options name.
fn replay<R: Read, W: Write>(
    alloc: Global,
    options: StoreOptions,
    reader: &mut R,
    writer: &mut W,
) -> Result<(), Fault>
    ensures ok { result ≡ Ok tt → Replays options
        (exchange R.remaining reader.old reader.new W.contents writer.old writer.new) }
    ensures bad { RefusesLimits result ↔ HaveBadLimits options }
    ensures unread { HaveBadLimits options → Kept reader.old reader.new writer.old writer.new }
{
    let config = config_of(options);
    match options.class {
        Class::Interval => replay_world::<Intervals, R, W>(alloc, config, reader, writer),
        Class::Box => replay_world::<Boxes, R, W>(alloc, config, reader, writer),
        Class::Set => replay_world::<Sets, R, W>(alloc, config, reader, writer),
    }
}

/// Writes the line of a reader, a looker or a subscriber.
fn tell_client<W: Write>(
    writer: &mut W,
    role: Role,
    commits: u64,
    number: u64,
    verdict: Verdict,
) -> io::Result<()>
    ensures { Outputs W.contents writer.old writer.new
        (client_line role commits number verdict) result }
{
    let mut line = ArrayVec::<u8, 64>::new();
    match role {
        Role::Reader => append(&mut line, b"reader "),
        Role::Looker => append(&mut line, b"looker "),
        Role::Subscriber => append(&mut line, b"subscriber "),
    }
    append_number(&mut line, number);
    match (verdict, role) {
        (Verdict::Whole, _) => {
            append(&mut line, b" whole at ");
            append_number(&mut line, commits);
        }
        (Verdict::NotWhole, _) => append(&mut line, b" not whole"),
        (Verdict::Missing, Role::Looker) => append(&mut line, b" no snapshot"),
        (Verdict::Missing, _) => append(&mut line, b" no receipt"),
    }
    append(&mut line, b"\n");
    writer.write_all(line.as_slice())
}

/// Writes a line for each client of a role.
fn tell_clients<W: Write>(
    writer: &mut W,
    role: Role,
    commits: u64,
    verdicts: &[Verdict],
) -> io::Result<()>
    ensures { Outputs W.contents writer.old writer.new
        (client_lines role commits 0 verdicts.now) result }
{
    for place in 0..verdicts.len() {
        tell_client(writer, role, commits, place as u64 + 1, verdicts[place])?;
    }
    Ok(())
}

/// Writes the line with the number of commits.
fn tell_count<W: Write>(writer: &mut W, commits: u64) -> io::Result<()>
    ensures { Outputs W.contents writer.old writer.new (count_line commits) result }
{
    let mut line = ArrayVec::<u8, 64>::new();
    append(&mut line, b"commits ");
    append_number(&mut line, commits);
    append(&mut line, b"\n");
    writer.write_all(line.as_slice())
}

/// Writes the number of commits, and how each reader, each looker and each subscriber fared.
fn tell_storm<W: Write>(writer: &mut W, outcome: &Outcome) -> io::Result<()>
    ensures { Outputs W.contents writer.old writer.new (storm_text outcome.now) result }
{
    let commits = outcome.commits;
    tell_count(writer, commits)?;
    tell_clients(writer, Role::Reader, commits, outcome.readers.as_slice())?;
    tell_clients(writer, Role::Looker, commits, outcome.lookers.as_slice())?;
    let subscribers = outcome.subscribers.as_slice();
    tell_clients(writer, Role::Subscriber, commits, subscribers)
}

/// Lets the clients of a storm work at once, and tells how each reader, each looker and each subscriber fared.
///
/// # Errors
/// `Refused` with `BadConfig` if a number is out of range, or with `OutOfMemory`; else `Write`.
fn storm<W: Write, T: Threads + Wait + Clock + Sync>(
    rt: &T,
    alloc: Global,
    limits: StormSize,
    writer: &mut W,
) -> Result<ExitStatus, Fault>
    ensures ok { IfWell result (TellsStorm (W.contents writer.old) (W.contents writer.new) limits) }
    ensures bad { RefusesLimits result ↔ (¬ IsStorm limits) }
    ensures unwritten { ¬ IsStorm limits → writer.new ≡ writer.old }
{
    if !limits.is_within() {
        return Err(Fault::Refused(Refusal::BadConfig));
    }
    let blank = Blank::new(limits.seats() as u64);
    let Ok(outcome) = run_storm::<Brand, T>(rt, alloc, blank, BlankHistory::new(), limits) else {
        return Err(Fault::OutOfMemory);
    };
    let Ok(()) = tell_storm(writer, &outcome) else {
        return Err(Fault::Write);
    };
    if outcome.is_whole(limits) {
        Ok(ExitStatus::Well)
    } else {
        Ok(ExitStatus::StormFailed)
    }
}

/// Does what the settings say.
fn run<T: Threads + Wait + Clock + Sync, R: Read, W: Write>(
    rt: &T,
    alloc: Global,
    settings: Settings,
    reader: &mut R,
    writer: &mut W,
) -> Result<ExitStatus, Fault>
    ensures ok { IfWell result (Does settings
        (exchange R.remaining reader.old reader.new W.contents writer.old writer.new)) }
    ensures bad { RefusesLimits result ↔ AreOutOfLimits settings }
    ensures unread { AreOutOfLimits settings → Kept reader.old reader.new writer.old writer.new }
{
    match settings {
        Settings::Serve(options) => serve(alloc, options, reader, writer)?,
        Settings::Replay(options) => replay(alloc, options, reader, writer)?,
        Settings::Storm(limits) => return storm(rt, alloc, limits, writer),
    }
    Ok(ExitStatus::Well)
}

/// Writes why there are no settings, or the help or version that was asked for, and gives the status.
fn show<W: Write, E: Write>(error: &Error, writer: &mut W, errors: &mut E) -> u8
    ensures well { result ≡ 0 → AsksForText error.now × (errors.new ≡ errors.old) }
    ensures wrong { (result ≡ 2) ↔ IsOfWords error.now }
    ensures memory { kind_of error.now ≡ ErrorKind.OutOfMemory → result ≡ 1 }
    ensures quiet { ¬ AsksForText error.now → writer.new ≡ writer.old }
    ensures status { result < 3 }
{
    match error.kind() {
        ErrorKind::DisplayHelp | ErrorKind::DisplayVersion => match write!(writer, "{error}") {
            Ok(()) => 0,
            Err(_) => fail(Fault::Write, errors),
        },
        ErrorKind::OutOfMemory => fail(Fault::OutOfMemory, errors),
        _ => {
            let _ = write!(errors, "{error}");
            2
        }
    }
}

/// Writes the line of a fault, and gives the status.
fn fail<E: Write>(fault: Fault, errors: &mut E) -> u8
    ensures { result ≡ 1 }
{
    let _ = writeln!(errors, "gist: {fault}");
    1
}

/// Does what the command line asks, and gives the program's exit status: 0 if all went well, 1 after a fault, which
/// is told on a line of `errors`, and 2 if the command line is refused.
pub fn command<T: Threads + Wait + Clock + Sync, R: Read, W: Write, E: Write>(
    rt: &T,
    alloc: Global,
    words: &[&str],
    reader: &mut R,
    writer: &mut W,
    errors: &mut E,
) -> u8
    ensures served { result ≡ 0 → (WantText (texts_of words.now) × (reader.new ≡ reader.old))
        ⊎ DoesAsked words.now
        (exchange R.remaining reader.old reader.new W.contents writer.old writer.new) }
    ensures taken { AreWellFormed (texts_of words.now) → result ≢ 2 }
    ensures quiet { result ≡ 0 → errors.new ≡ errors.old }
    ensures wrong_words { result ≡ 2 → AreRefused (texts_of words.now) }
    ensures unread { result ≡ 2 → Kept reader.old reader.new writer.old writer.new }
    ensures refused_words { NameNothing (texts_of words.now) → (result ≡ 2) ⊎ (result ≡ 1) }
    ensures bad_limits { NameBadLimits (texts_of words.now) → result ≡ 1 }
    ensures unserved { AreUnfit words.now → Kept reader.old reader.new writer.old writer.new }
    ensures status { result < 3 }
{
    let settings = match settings(alloc, words) {
        Ok(settings) => settings,
        Err(error) => return show(&error, writer, errors),
    };
    match run(rt, alloc, settings, reader, writer) {
        Ok(ExitStatus::Well) => 0,
        Ok(ExitStatus::StormFailed) => {
            let _ = writeln!(errors, "gist: storm failed");
            1
        }
        Err(fault) => fail(fault, errors),
    }
}
