//! Calls of an index of the variables that tickets watch.

use crate::desk_calls::say_tickets;
use crate::store::pairs;
use crate::words::{first_word, number, say};
use std::alloc::{AllocError, Global};
use stm_watch::Watch;

/// Prints the tickets that watch any of the variables.
fn say_watchers(
    watch: &Watch,
    alloc: Global,
    words: &str,
    out: &mut String,
) -> Result<(), AllocError> {
    let mut variables = Vec::new(alloc);
    for word in words.split_whitespace() {
        variables.push(number(word))?;
    }
    out.push_str("tickets")?;
    say_tickets(watch.watchers(&variables)?.as_slice(), out)
}

/// Makes a call on the index.
pub fn answer(
    watch: &mut Watch,
    alloc: Global,
    text: &str,
    out: &mut String,
) -> Result<(), AllocError> {
    let (call, rest) = first_word(text);
    let (ticket, variables) = first_word(rest);
    match call {
        "add" => watch.add(number(ticket), &pairs(alloc, variables)?)?,
        "remove" => watch.remove(number(ticket), &pairs(alloc, variables)?),
        "find" => return say_watchers(watch, alloc, rest, out),
        _ => return say("no such call", out),
    }
    say("done", out)
}
