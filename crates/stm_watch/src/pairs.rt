//! The pairs of the table, one by one.

ghost use Rattle.std.specs.Prelude.{◌≡◌, ℕ, ◌&&◌, ◌||◌, ◌++◌, not, nat_eq, IfOk, OnOk, OnErr};
ghost use Rattle.std.specs.List.{list_any};
ghost use Rattle.stm_watch.specs.Pairs.{is_read};
ghost use Rattle.stm_queue.specs.SortedTickets.{IsRising};
ghost use Rattle.stm_watch.specs.Tabled.{holds, tickets_of};

use crate::table::{
    Table, add_at, has_at, is_place, place_of, push_at, put, reach, remove_at, take_at,
};
use crate::watchers::Watchers;
use std::alloc::Global;
use stm_terms::{NoMemory, Value};

/// Whether the table has the pair.
fn has_pair(table: &Table, variable: u32, ticket: u32) -> bool
    ensures { result ≡ holds table.now variable ticket }
{
    let place = place_of(&table.places, variable);
    has_at(&table.slots, place, variable, ticket)
}

/// Adds a pair, unless the table has it.
pub(crate) fn add_pair(
    table: &mut Table,
    alloc: Global,
    variable: u32,
    ticket: u32,
) -> Result<(), NoMemory>
    ensures ok { OnOk result ((v t : ℕ) →
        holds table.new v t
        ≡ (holds table.old v t || (nat_eq v variable && nat_eq t ticket))) }
    ensures err { OnErr result ((v t : ℕ) → holds table.new v t ≡ holds table.old v t) }
{
    let place = place_of(&table.places, variable);
    if is_place(&table.slots, place, variable) {
        return add_at(&mut table.slots, alloc, place, variable, ticket);
    }
    reach(&mut table.places, variable)?;
    let (place, free) = put(&mut table.slots, table.free, variable, ticket)?;
    table.places[variable as usize] = place;
    table.free = free;
    Ok(())
}

/// Removes a pair, if the table has it.
fn remove_pair(table: &mut Table, variable: u32, ticket: u32)
    ensures { (v t : ℕ) →
        holds table.new v t
        ≡ (holds table.old v t && not (nat_eq v variable && nat_eq t ticket)) }
{
    let place = place_of(&table.places, variable);
    if remove_at(&mut table.slots, place, variable, ticket, table.free) {
        table.free = place;
    }
}

/// Removes all pairs of a variable, and returns their tickets.
pub(crate) fn take_pairs(table: &mut Table, variable: u32) -> Watchers
    ensures was { result ≡ tickets_of table.old variable }
    ensures gone { (v t : ℕ) →
        holds table.new v t ≡ (holds table.old v t && not (nat_eq v variable)) }
{
    let place = place_of(&table.places, variable);
    let watchers = take_at(&mut table.slots, place, variable, table.free);
    if !watchers.is_empty() {
        table.free = place;
    }
    watchers
}

/// Removes all pairs of some variables.
pub(crate) fn clear_all(table: &mut Table, variables: &[u32])
    ensures { (v t : ℕ) →
        holds table.new v t ≡ (holds table.old v t && not (list_any (nat_eq v) variables.now)) }
{
    for variable in variables {
        let _ = take_pairs(table, *variable);
    }
}

/// The variables read that the ticket doesn't watch yet.
pub(crate) fn unwatched(
    alloc: Global,
    table: &Table,
    ticket: u32,
    reads: &[(u32, Value)],
) -> Result<Vec<u32>, NoMemory>
    ensures { IfOk result (λ vs. (v : ℕ) →
        list_any (nat_eq v) vs.items
        ≡ (is_read reads.now v && not (holds table.now v ticket))) }
{
    let mut fresh = Vec::new(alloc);
    for (variable, _) in reads {
        if !has_pair(table, *variable, ticket) {
            fresh.push(*variable)?;
        }
    }
    Ok(fresh)
}

/// Pairs each variable with the ticket. After an error the table may have some of the pairs.
pub(crate) fn add_all(
    table: &mut Table,
    alloc: Global,
    ticket: u32,
    variables: &[u32],
) -> Result<(), NoMemory>
    ensures ok { OnOk result ((v t : ℕ) →
        holds table.new v t
        ≡ (holds table.old v t || (nat_eq t ticket && list_any (nat_eq v) variables.now))) }
    ensures err { OnErr result ((v t : ℕ) →
        (holds table.new v t && not (nat_eq t ticket && list_any (nat_eq v) variables.now))
        ≡ (holds table.old v t
        && not (nat_eq t ticket && list_any (nat_eq v) variables.now))) }
{
    for variable in variables {
        add_pair(table, alloc, *variable, ticket)?;
    }
    Ok(())
}

/// Removes the pair of each variable with the ticket.
pub(crate) fn remove_all(table: &mut Table, ticket: u32, variables: &[u32])
    ensures { (v t : ℕ) →
        holds table.new v t
        ≡ (holds table.old v t
        && not (nat_eq t ticket && list_any (nat_eq v) variables.now)) }
{
    for variable in variables {
        remove_pair(table, *variable, ticket);
    }
}

/// Removes the pair of each variable read with the ticket.
pub(crate) fn remove_reads(table: &mut Table, ticket: u32, reads: &[(u32, Value)])
    ensures { (v t : ℕ) →
        holds table.new v t
        ≡ (holds table.old v t && not (nat_eq t ticket && is_read reads.now v)) }
{
    for (variable, _) in reads {
        remove_pair(table, *variable, ticket);
    }
}

/// Adds the tickets that are paired with some of the variables, in any order, some of them several times.
pub(crate) fn push_watchers(
    table: &Table,
    variables: &[u32],
    tickets: &mut Vec<u32>,
) -> Result<(), NoMemory>
    ensures { OnOk result ((t : ℕ) →
        list_any (nat_eq t) tickets.new.items
        ≡ (list_any (nat_eq t) tickets.old.items
        || list_any (λ v. holds table.now v t) variables.now)) }
{
    for variable in variables {
        push_watchers_of(table, *variable, tickets)?;
    }
    Ok(())
}

/// Adds the tickets that are paired with one variable, in ascending order.
pub(crate) fn push_watchers_of(
    table: &Table,
    variable: u32,
    tickets: &mut Vec<u32>,
) -> Result<(), NoMemory>
    ensures pushed { OnOk result (tickets.new.items ≡ tickets.old.items ++ tickets_of table.now variable) }
    ensures rising { IsRising (tickets_of table.now variable) }
{
    let place = place_of(&table.places, variable);
    push_at(&table.slots, place, variable, tickets)
}
