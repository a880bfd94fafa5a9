//! What each client carries.

ghost use Rattle.std.specs.Prelude.{◌≡◌, ◌+◌, IsTrue, ◌↔◌, false, length};
ghost use Rattle.std.specs.Option.{option_copied};
ghost use Rattle.stm_pool.specs.Own.{own_of, events_in_passes};
ghost use Rattle.stm_pool.specs.Closing.{pass_of, HasAll, LacksOne};

use std::marker::Model;
use std::sync::ledger::{Book, Ledger, Share};
use stm_events::Event;

/// A client's number, its share of the count of all events, its own accepted events, and the
/// greatest number of events that it has seen. Contracts see all but the share.
///
/// Its type keeps that the share counts as many events as the list has, and that all of them are
/// the client's.
#[derive(Drop)]
pub struct Pass<L: Ledger> {
    pub(crate) client: u32,
    pub(crate) share: Share<L>,
    pub(crate) own: Vec<Event>,
    pub(crate) seen: u32,
}

impl<L: Ledger> Model for Pass<L> {
    ghost use Rattle.std.specs.Prelude.{◌≡◌, ◌<◌, true, length};
    ghost use Rattle.std.specs.Coded.{codes};
    ghost use Rattle.stm_terms.specs.TreeEncoding.{act_code};
    ghost use Rattle.stm_terms.specs.Limits.{max_clients};
    ghost use Rattle.stm_pool.specs.Own.{Known, are_of};

    ghost Value = { Known };

    ghost coded = { Prim.hlevel (codes, act_code) };

    ghost view = { λ p. record { client = p.client; own = p.own.items; seen = p.seen } };

    ghost invariant = { λ p. (p.share.parts ≡ 1) × (p.share.amount ≡ length p.own.items)
        × (are_of p.client p.own.items ≡ true) × (p.client < max_clients) };
}

/// Whether the client's events in a history are these.
pub fn is_own(client: u32, history: &[Event], own: &[Event]) -> bool
    ensures { IsTrue result ↔ (own_of client history.now ≡ own.now) }
{
    let mut left = own;
    for event in history {
        if event.client == client {
            match left {
                [first, more @ ..] => {
                    if !event.same(first) {
                        return false;
                    }
                    left = more;
                }
                [] => return false,
            }
        }
    }
    left.is_empty()
}

/// The client's pass, the first one if it has several.
pub(crate) fn find_pass<L: Ledger>(passes: &[Pass<L>], client: u32) -> Option<&Pass<L>>
    ensures { option_copied result ≡ pass_of client passes.now }
{
    for pass in passes {
        if pass.client == client {
            return Some(pass);
        }
    }
    None
}

/// Whether these are not the passes of `count` clients, in any order.
pub(crate) fn lacks_one<L: Ledger>(passes: &[Pass<L>], count: u32) -> bool
    ensures lacks { IsTrue result → LacksOne count passes.now }
    ensures all { result ≡ false → HasAll count passes.now }
{
    if passes.len() != count as usize {
        return true;
    }
    for client in 0..count {
        if find_pass(passes, client).is_none() {
            return true;
        }
    }
    false
}

/// Adds all shares up, beside one that is given. Nothing changes: each pass lends its share and has
/// it back.
#[cycle(audit)]
pub(crate) fn audit_passes<L: Ledger>(
    book: &mut Book<L>,
    all: &mut Share<L>,
    passes: &mut [Pass<L>],
)
    requires { all.old.parts ≡ 0 → all.old.amount ≡ 0 }
    ensures total { book.new.total ≡ book.old.total }
    ensures parts { all.new.parts ≡ all.old.parts }
    ensures amount { all.new.amount ≡ all.old.amount }
    ensures passes { passes.new ≡ passes.old }
    ensures whole { all.old.parts + length passes.old ≡ L.parts
        → all.old.amount + events_in_passes passes.old ≡ book.old.total }
{
    if passes.is_empty() {
        book.audit(all);
    } else {
        let (here, rest) = passes.split_at_mut(1);
        audit_first(book, all, &mut here[0], rest);
    }
}

/// Adds the shares of a first pass and of the others up, beside one that is given.
#[cycle(audit)]
fn audit_first<L: Ledger>(
    book: &mut Book<L>,
    all: &mut Share<L>,
    first: &mut Pass<L>,
    rest: &mut [Pass<L>],
)
    requires { all.old.parts ≡ 0 → all.old.amount ≡ 0 }
    ensures total { book.new.total ≡ book.old.total }
    ensures parts { all.new.parts ≡ all.old.parts }
    ensures amount { all.new.amount ≡ all.old.amount }
    ensures first { first.new ≡ first.old }
    ensures rest { rest.new ≡ rest.old }
    ensures whole { all.old.parts + 1 + length rest.old ≡ L.parts
        → all.old.amount + length first.old.own + events_in_passes rest.old ≡ book.old.total }
{
    let events = first.own.len() as u64;
    first.share.give(all, 1, events);
    audit_passes(book, all, rest);
    all.give(&mut first.share, 1, events);
}
