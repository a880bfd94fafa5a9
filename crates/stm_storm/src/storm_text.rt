//! The lines that a storm writes.

ghost use Rattle.std.specs.Prelude.{◌≡◌, ◌++◌, string_bytes, OnOk};
ghost use Rattle.stm_storm.specs.StormEnd.{end_text};
ghost use Rattle.stm_storm.specs.StormText.{client_line, client_lines, events_line};

use crate::replaying::Replay;
use stm_pool::Counts;
use stm_terms::NoMemory;

/// Appends the line of a client.
#[tactic(auto, unfolding(crate::specs::StormText::client_line))]
fn write_client_line(client: usize, counts: Counts, out: &mut String) -> Result<(), NoMemory>
    ensures { OnOk result
        (string_bytes out.new ≡ string_bytes out.old ++ client_line client counts) }
{
    let Counts {
        submitted,
        finished,
        cancelled,
        refused,
        missed,
    } = counts;
    write!(
        out,
        "client {client} submitted {submitted} finished {finished}"
    )?;
    write!(
        out,
        " cancelled {cancelled} refused {refused} missed {missed}\n"
    )?;
    Ok(())
}

/// Appends the lines of the clients.
fn write_client_lines(counts: &[Counts], out: &mut String) -> Result<(), NoMemory>
    ensures { OnOk result
        (string_bytes out.new ≡ string_bytes out.old ++ client_lines 0 counts.now) }
{
    for (client, counts) in counts.iter().enumerate() {
        write_client_line(client, *counts, out)?;
    }
    Ok(())
}

/// Appends how many events there are.
#[tactic(auto, unfolding(crate::specs::StormText::events_line))]
fn write_events_line(events: u32, out: &mut String) -> Result<(), NoMemory>
    ensures { OnOk result (string_bytes out.new ≡ string_bytes out.old ++ events_line events) }
{
    write!(out, "events {events}\n")
}

/// Appends what the clients did, how many events there are, and what the replay found.
pub(crate) fn write_end(counts: &[Counts], replay: Replay, out: &mut String) -> Result<(), NoMemory>
    ensures { OnOk result
        (string_bytes out.new ≡ string_bytes out.old ++ end_text counts.now replay) }
{
    write_client_lines(counts, out)?;
    match replay {
        Replay::NotClosed => out.push_str("replay failed\n"),
        Replay::NotLegal(events) => {
            write_events_line(events, out)?;
            out.push_str("replay failed\n")
        }
        Replay::Legal(events) => {
            write_events_line(events, out)?;
            out.push_str("replay ok\n")
        }
    }
}
