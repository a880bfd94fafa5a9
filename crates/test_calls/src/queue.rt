//! Calls of a queue of tickets.

ghost use Rattle.std.specs.Prelude.{◌≡◌, ◌<◌, false};

use crate::words::{first_word, number, say, say_number, say_whether};
use std::alloc::AllocError;
use stm_queue::Pending;

/// Queues a ticket, if it is in no list and there is room.
fn add(queue: &mut Pending, ticket: u32, out: &mut String) -> Result<(), AllocError> {
    if queue.has(ticket) || !queue.has_room(1) {
        return say("refused", out);
    }
    queue.add(ticket);
    say("done", out)
}

/// Makes a call on the queue.
pub fn answer(queue: &mut Pending, text: &str, out: &mut String) -> Result<(), AllocError> {
    let (call, rest) = first_word(text);
    let n = number(rest);
    match call {
        "room" => {
            queue.make_room(n as usize)?;
            say("done", out)
        }
        "add" => add(queue, n, out),
        "take" => say_number(queue.take_first(), out),
        "hand_back" => say_whether(queue.hand_back(n), out),
        "remove" => say_whether(queue.remove(n), out),
        _ => say("no such call", out),
    }
}
