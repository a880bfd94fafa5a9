//! The index from variables to the tickets that watch them.

ghost use Rattle.std.specs.Prelude.{◌≡◌, ◌∷◌, [], IfOk, OnOk, OnErr};
ghost use Rattle.std.specs.FinSet as set;
ghost use Rattle.stm_watch.specs.Pairs.{WithReads, WithoutReads, WithoutVariables, AreWatchers};

use crate::pairs::{
    add_all, add_pair, clear_all, push_watchers, push_watchers_of, remove_all, remove_reads,
    take_pairs, unwatched,
};
use crate::table::Table;
use std::alloc::Global;
use std::marker::Model;
use stm_terms::{NoMemory, Value};

/// A set of pairs of a variable and a ticket that watches it.
#[derive(Drop)]
pub struct Watch {
    alloc: Global,
    table: Table,
}

impl Model for Watch {
    ghost use Rattle.std.specs.Coded.{coded_ℕ, coded×};
    ghost use Rattle.stm_watch.specs.Pairs.{Pairs};
    ghost use Rattle.stm_watch.specs.Tabled.{pairs_of};
    ghost use Rattle.std.specs.FinSet as set;

    ghost Value = { Pairs };

    ghost coded = { set.code (coded× coded_ℕ coded_ℕ) };

    ghost view = { λ w. set.from_list (pairs_of w.table) };
}

impl Watch {
    /// No ticket watches a variable.
    pub fn empty(alloc: Global) -> Watch
        ensures { result ≡ set.empty }
    {
        Watch {
            alloc,
            table: Table {
                places: Vec::new(alloc),
                slots: Vec::new(alloc),
                free: 0,
            },
        }
    }

    /// The ticket watches each variable read. Pairs that are there already stay.
    pub fn add(&mut self, ticket: u32, reads: &[(u32, Value)]) -> Result<(), NoMemory>
        ensures done { OnOk result (WithReads self.old ticket reads.now self.new) }
        ensures unchanged { OnErr result (self.new ≡ self.old) }
    {
        match reads {
            [(variable, _)] => add_pair(&mut self.table, self.alloc, *variable, ticket),
            _ => self.add_several(ticket, reads),
        }
    }

    /// The ticket watches each of any number of variables. Those that it doesn't watch yet are listed before the first is added.
    fn add_several(&mut self, ticket: u32, reads: &[(u32, Value)]) -> Result<(), NoMemory>
        ensures ok { OnOk result (WithReads self.old ticket reads.now self.new) }
        ensures err { OnErr result (self.new ≡ self.old) }
    {
        let fresh = unwatched(self.alloc, &self.table, ticket, reads)?;
        match add_all(&mut self.table, self.alloc, ticket, &fresh) {
            Ok(()) => Ok(()),
            Err(refused) => {
                remove_all(&mut self.table, ticket, &fresh);
                Err(refused)
            }
        }
    }

    /// The ticket no longer watches the variables read. Takes no memory.
    pub fn remove(&mut self, ticket: u32, reads: &[(u32, Value)])
        ensures { WithoutReads self.old ticket reads.now self.new }
    {
        remove_reads(&mut self.table, ticket, reads);
    }

    /// The tickets that watch any of these variables, in ascending order, each once.
    pub fn watchers(&self, variables: &[u32]) -> Result<Vec<u32>, NoMemory>
        ensures { IfOk result (λ ts. AreWatchers self.now variables.now ts.items) }
    {
        match variables {
            [variable] => self.watchers_of(*variable),
            _ => self.watchers_of_several(variables),
        }
    }

    /// The tickets that watch one variable, which are kept in ascending order.
    fn watchers_of(&self, variable: u32) -> Result<Vec<u32>, NoMemory>
        ensures { IfOk result (λ ts. AreWatchers self.now (variable ∷ []) ts.items) }
    {
        let mut tickets = Vec::new(self.alloc);
        push_watchers_of(&self.table, variable, &mut tickets)?;
        Ok(tickets)
    }

    /// The tickets that watch any of these variables, however many there are.
    fn watchers_of_several(&self, variables: &[u32]) -> Result<Vec<u32>, NoMemory>
        ensures { IfOk result (λ ts. AreWatchers self.now variables.now ts.items) }
    {
        let mut tickets = Vec::new(self.alloc);
        push_watchers(&self.table, variables, &mut tickets)?;
        tickets.sort_unstable();
        tickets.dedup();
        Ok(tickets)
    }

    /// Removes all pairs of these variables. Returns the tickets that watched any of them, in ascending order, each once. Those of a
    /// single variable are moved and not copied.
    pub fn take(&mut self, variables: &[u32]) -> Result<Vec<u32>, NoMemory>
        ensures done { IfOk result (λ ts. AreWatchers self.old variables.now ts.items
            × WithoutVariables self.old variables.now self.new) }
        ensures unchanged { OnErr result (self.new ≡ self.old) }
    {
        match variables {
            [variable] => self.take_of(*variable),
            _ => self.take_of_several(variables),
        }
    }

    /// Removes all pairs of one variable, and returns the tickets that watched it.
    fn take_of(&mut self, variable: u32) -> Result<Vec<u32>, NoMemory>
        ensures done { IfOk result (λ ts. AreWatchers self.old (variable ∷ []) ts.items
            × WithoutVariables self.old (variable ∷ []) self.new) }
        ensures unchanged { OnErr result (self.new ≡ self.old) }
    {
        let room = Vec::with_capacity(self.alloc, 1)?;
        Ok(take_pairs(&mut self.table, variable).into_vec(room))
    }

    /// Removes all pairs of these variables, however many there are, and returns the tickets that watched any.
    fn take_of_several(&mut self, variables: &[u32]) -> Result<Vec<u32>, NoMemory>
        ensures done { IfOk result (λ ts. AreWatchers self.old variables.now ts.items
            × WithoutVariables self.old variables.now self.new) }
        ensures unchanged { OnErr result (self.new ≡ self.old) }
    {
        let tickets = self.watchers_of_several(variables)?;
        clear_all(&mut self.table, variables);
        Ok(tickets)
    }
}
