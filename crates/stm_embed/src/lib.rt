//! The console in the process of a program that isn't Rattle's, as functions for C.
//!
//! `stmdesk_new`, `stmdesk_new_seeded`, `stmdesk_feed` and `stmdesk_free` are those of a desk. `stmdesk_check` judges a history,
//! `stmdesk_explore` and `stmdesk_explore_with_diagnostics` explore a script without one, and `stmdesk_version` has the version. docs/EMBEDDING.md says how they are called, and
//! include/stmdesk.h declares them.
//!
//! `feeding` has the console with the answers that were not fetched, and `handle` the pointer by which C holds it. `checking` has
//! the check of a history, `exploring` the exploration of a script, `status` what a call returns, `seed` the seed of names that C
//! chooses, and `version` the version. No thread is started: a static library may start none.
//!
//! What a reader has to believe is in specs/: `Feeding` has what a console keeps, in the words of `stm_run/specs/Console`, `Checking` what
//! a check found, `Exploring` how an exploration ended and what is said of it, and `ForC` what C gets of a call.
#![tactic(auto)]

mod checking;
mod exploring;
mod feeding;
mod handle;
mod seed;
mod status;
mod version;

ghost use Rattle.std.specs.Prelude.{◌≡◌, ◌≢◌, ℕ, List, [], ◌∷◌, ◌++◌, true, false, length, IfOk, IsSomeAnd, IsTrue, OnErr};
ghost use Rattle.stm_command_line.specs.declared.version.TheConstants.{VERSION};
ghost use Rattle.stm_embed.specs.Exploring.{AreDiagnosticsOf, IsExplored, diagnosed_text, explore_options};
ghost use Rattle.stm_embed.specs.Feeding.{HasOnly, IsNew};
ghost use Rattle.stm_embed.specs.ForC.{EndsFeeding, Feeds, GivesCheck, GivesExploration, GivesNothing};
ghost use Rattle.stm_embed.specs.Status.{no_memory};

use checking::{Checked, judge};
use exploring::{Ended, Explored, Wanted};
use feeding::{Embedded, Fed};
use handle::{Handle, Room};
use seed::CallersSeed;
use status::NO_MEMORY;
use std::alloc::Global;
use stm_desk::Desk;
use stm_options::ExploreOptions;
use stm_run::limit::EventLimit;
use stm_store::Seed;
use stm_terms::NoMemory;
use version::{VERSION_TEXT, VersionText};

/// Makes a console of no variables, whose names will be looked up under the seed, and puts its handle into the room.
fn make(alloc: Global, seed: Seed, max_events: u32, desk: &mut Room) -> bool
    ensures made { IsTrue result → IsSomeAnd desk.new.embedded (IsNew max_events) }
    ensures unchanged { result ≡ false → desk.new ≡ desk.old }
{
    let limit = EventLimit::new(max_events.min(Desk::MAX_EVENTS));
    match Box::new(alloc, Embedded::new(alloc, seed, limit)) {
        Ok(made) => {
            *desk = Room::of(made);
            true
        }
        Err(_) => false,
    }
}

/// Makes a console of no variables, whose desk will take `max_events` events, at most 1,048,576; writes a pointer to it, and returns
/// whether there was memory for it. Names of variables will be looked up under the seed that is always the same.
#[unsafe(no_mangle)]
pub extern "C" fn stmdesk_new(alloc: Global, max_events: u32, desk: &mut Room) -> bool
    // The pointer is to a new console.
    ensures made { IsTrue result → IsSomeAnd desk.new.embedded (IsNew max_events) }
    // Or the variable is as it was.
    ensures unchanged { result ≡ false → desk.new ≡ desk.old }
{
    make(alloc, Seed::fixed(), max_events, desk)
}

/// Does what `stmdesk_new` does, under a seed that the caller chooses.
#[unsafe(no_mangle)]
pub extern "C" fn stmdesk_new_seeded(
    alloc: Global,
    max_events: u32,
    seed: &CallersSeed,
    desk: &mut Room,
) -> bool
    // The pointer is to a new console.
    ensures made { IsTrue result → IsSomeAnd desk.new.embedded (IsNew max_events) }
    // Or the variable is as it was.
    ensures unchanged { result ≡ false → desk.new ≡ desk.old }
{
    make(alloc, Seed::random(seed), max_events, desk)
}

/// Answers lines, each ended by a line feed, and gives as much as there is room for of the answers that wait, the oldest first.
/// With no lines it only gives. Bytes after the last line feed are not taken.
#[unsafe(no_mangle)]
pub extern "C" fn stmdesk_feed(
    alloc: Global,
    desk: &mut Handle,
    lines: &[u8],
    out: &mut [u8],
    fed: &mut Fed,
) -> u32
    // Whole lines were taken from the front, and answers given.
    ensures fed { Feeds desk.old.embedded desk.new.embedded lines.now
        (length out.old) out.new fed.new }
    // The status says how far.
    ensures status { EndsFeeding desk.old.embedded desk.new.embedded lines.now
        fed.new.taken result }
{
    let embedded = desk.lend();
    let done = embedded.take_lines(alloc, lines);
    fed.taken = done.count;
    fed.given = embedded.give(out);
    fed.waiting = embedded.waiting();
    done.status(lines)
}

/// Explores a script, and puts a console into the room whose answers that wait are what is written of it, with the diagnostics or without
/// them. Returns how the exploration ended, and how many bytes come before the diagnostics.
fn explore(
    alloc: Global,
    script: &[u8],
    options: ExploreOptions,
    diagnosed: bool,
    text: &mut Room,
) -> Result<(Ended, usize), NoMemory>
    ensures done { IfOk result (λ r. (found : List ℕ) × (diagnostics : List ℕ)
        × IsExplored script.now options r.0 found × AreDiagnosticsOf script.now options r.0 diagnostics
        × (r.1 ≡ length found)
        × IsSomeAnd text.new.embedded (λ e. HasOnly (diagnosed_text diagnosed found diagnostics) e)) }
    ensures same { OnErr result (text.new ≡ text.old) }
{
    let mut answer = Embedded::new(alloc, Seed::fixed(), EventLimit::new(0));
    let (ended, length) = answer.explore(alloc, script, options, diagnosed)?;
    *text = Room::of(Box::new(alloc, answer)?);
    Ok((ended, length))
}

/// Does the same, writes how many bytes come before the diagnostics and which line is invalid, and returns the status.
fn explore_for_c(
    alloc: Global,
    script: &[u8],
    options: &Wanted,
    diagnosed: bool,
    text: &mut Room,
    explored: &mut Explored,
) -> u32
    ensures found { result ≢ no_memory → GivesExploration script.now (explore_options options.now)
        diagnosed result explored.new text.new.embedded }
    ensures left { result ≡ no_memory → GivesNothing text.old text.new explored.new }
{
    match explore(alloc, script, options.options(), diagnosed, text) {
        Ok((ended, length)) => {
            explored.length = length;
            explored.line = ended.line();
            ended.status()
        }
        Err(_) => {
            explored.length = 0;
            explored.line = 0;
            NO_MEMORY
        }
    }
}

/// Explores every order of the steps of a script's clients; writes a pointer to a console that has no variables, takes no event, and has
/// what is written of the exploration as answers that wait, and how many bytes these are. If memory runs out there is none.
#[unsafe(no_mangle)]
pub extern "C" fn stmdesk_explore(
    alloc: Global,
    script: &[u8],
    options: &Wanted,
    text: &mut Room,
    explored: &mut Explored,
) -> u32
    // What the status and the line say was found of the script, and the text is what is written of that.
    ensures found { result ≢ no_memory → GivesExploration script.now (explore_options options.now)
        false result explored.new text.new.embedded }
    // If memory ran out, the variable for the text is as it was.
    ensures left { result ≡ no_memory → GivesNothing text.old text.new explored.new }
{
    explore_for_c(alloc, script, options, false, text, explored)
}

/// Does what `stmdesk_explore` does; and after what is written of the exploration come its diagnostics, the lines that the program writes
/// on standard error: what may be a mistake in a script that is right, why a script is invalid, or why no history is written.
#[unsafe(no_mangle)]
pub extern "C" fn stmdesk_explore_with_diagnostics(
    alloc: Global,
    script: &[u8],
    options: &Wanted,
    text: &mut Room,
    explored: &mut Explored,
) -> u32
    // What the status and the line say was found of the script, and the text is what is written of that, and then the diagnostics.
    ensures found { result ≢ no_memory → GivesExploration script.now (explore_options options.now)
        true result explored.new text.new.embedded }
    // If memory ran out, the variable for the text is as it was.
    ensures left { result ≡ no_memory → GivesNothing text.old text.new explored.new }
{
    explore_for_c(alloc, script, options, true, text, explored)
}

/// Judges the bytes of a history, and writes its numbers, or the line of its first fault. If memory runs out the status says so, and all
/// numbers are 0. Names of variables are looked up under the seed.
#[unsafe(no_mangle)]
pub extern "C" fn stmdesk_check(
    alloc: Global,
    history: &[u8],
    seed: &CallersSeed,
    checked: &mut Checked,
) -> u32
    // What the status and the numbers say was found of the bytes, unless memory ran out.
    ensures { GivesCheck history.now result checked.new }
{
    let found = judge(alloc, Seed::random(seed), history);
    *checked = found.numbers();
    found.status()
}

/// Writes a reference to the version, which a byte 0 ends.
#[unsafe(no_mangle)]
pub extern "C" fn stmdesk_version(version: &mut &'static VersionText)
    ensures { version.new.now.bytes ≡ VERSION.now ++ 0 ∷ [] }
{
    *version = &VERSION_TEXT;
}

/// Drops a desk.
#[unsafe(no_mangle)]
pub extern "C" fn stmdesk_free(desk: Handle) {
    drop(desk.into_box());
}
