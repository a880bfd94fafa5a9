//! The names that blocks may use.

ghost use Rattle.std.specs.Prelude.{◌≡◌, ◌≢◌, ◌↔◌, ℕ, ◌<◌, ◌≤◌, ◌++◌, ◌∷◌, [], length, IsTrue, IfOk, IfSome, OnOk, OnErr, option_map, slice_get, Some, None};
ghost use Rattle.stm_terms.specs.Limits.{most_refs};
ghost use Rattle.stm_terms.specs.Names.{is_name_text};
ghost use Rattle.stm_store.specs.Naming.{Named, named_in_table, known_kinds, number_named, variable_named, name_numbered, is_gapless, is_of_known, may_hold_known, MayHaveType, NumbersAreBelow, AreKnown};

use crate::seed::Seed;
use crate::table::Table;
use crate::types::{plain_type, refers_to};
use indexmap::IndexMap;
use std::alloc::Global;
use std::marker::Model;
use stm_terms::NoMemory;
use stm_terms::kinds::{Base, Ty};
use stm_terms::values::{Ref, Value};

/// The names that blocks may use, each with the number and the type of its variable, in the order of their declaration.
///
/// The names of a table come first. A variable that is declared later has the next number of the store, which isn't its place here if
/// blocks made variables before.
#[derive(Drop)]
pub struct Names {
    entries: IndexMap<String, (u32, Ty), Seed>,
}

impl Model for Names {
    ghost use Rattle.std.specs.Prelude.{List, map};
    ghost use Rattle.stm_store.specs.Naming.{Named, AreKnown};
    ghost use Rattle.stm_store.specs.NameEntries.{named_of};

    ghost Value = { List Named };

    ghost view = { λ n. map named_of n.entries.entries };

    ghost invariant = { λ n. AreKnown (map named_of n.entries.entries) };
}

impl Names {
    /// No names; they are looked up under the seed.
    pub fn with_seed(alloc: Global, seed: Seed) -> Names
        ensures { result ≡ [] }
    {
        Names {
            entries: IndexMap::with_hasher(alloc, seed),
        }
    }

    /// The names of the variables of a table, under the same seed.
    pub fn of_table(alloc: Global, table: &Table) -> Result<Names, NoMemory>
        ensures { IfOk result (λ n. n ≡ named_in_table table.now) }
    {
        let mut names = Names::with_seed(alloc, table.seed());
        for id in 0..table.len() {
            names.add(table.name(id as u32), id as u32, table.kind(id as u32))?;
        }
        Ok(names)
    }

    /// A second list of the same names, under the same seed. It takes memory from the allocator of the first.
    pub fn copy(&self, _alloc: Global) -> Result<Names, NoMemory>
        ensures { IfOk result (λ n. n ≡ self.now) }
    {
        let entries = self.entries.clone()?;
        Ok(Names { entries })
    }

    /// How many names there are. The other clause holds of all names.
    pub fn len(&self) -> usize
        ensures len { result ≡ length self.now }
        ensures known { AreKnown self.now }
    {
        self.entries.len()
    }

    /// The variable of a name: its number, and the type of its cell.
    pub fn find(&self, name: &str) -> Option<(u32, Ty)>
        ensures number { option_map (λ v. v.0) result ≡ number_named name.now self.now }
        ensures found { result ≡ variable_named name.now self.now }
        ensures few { IfSome result (λ v. v.1.refs ≤ most_refs) }
    {
        match self.entries.get(name) {
            Some(variable) => Some(*variable),
            None => None,
        }
    }

    /// The number of the variable at a place.
    fn number_at(&self, place: usize) -> u32
        requires { place < length self.now }
        ensures { option_map (λ d. d.number) (slice_get self.now place) ≡ Some result }
    {
        match self.entries.get_index(place) {
            Some((_, variable)) => variable.0,
            None => unreachable!(),
        }
    }

    /// The type of the variable at a place.
    fn kind_at(&self, place: usize) -> Ty
        requires { place < length self.now }
        ensures { option_map (λ d. d.kind) (slice_get self.now place) ≡ Some result }
    {
        match self.entries.get_index(place) {
            Some((_, variable)) => variable.1,
            None => unreachable!(),
        }
    }

    /// The name at a place.
    fn name_at(&self, place: usize) -> &str
        requires { place < length self.now }
        ensures { option_map (λ d. d.name) (slice_get self.now place) ≡ Some result.now }
    {
        match self.entries.get_index(place) {
            Some((name, _)) => name.as_str(),
            None => unreachable!(),
        }
    }

    /// The place of the variable of a number, if it has a name. It is found by halves, since the numbers ascend.
    fn place_of(&self, number: u32) -> Option<usize>
        ensures within { IfSome result (λ p. p < length self.now) }
        ensures there { IfSome result (λ p. option_map (λ d. d.number) (slice_get self.now p) ≡ Some number) }
        ensures known { AreKnown self.now }
        ensures nowhere { result ≡ None → (i : ℕ) (d : Named) → slice_get self.now i ≡ Some d → d.number ≢ number }
    {
        let mut low = 0;
        let mut high = self.len();
        while low < high {
            let middle = low + (high - low) / 2;
            let there = self.number_at(middle);
            if there == number {
                return Some(middle);
            }
            if there < number {
                low = middle + 1;
            } else {
                high = middle;
            }
        }
        None
    }

    /// The type of the variable of a number, if it has a name.
    fn kind_of(&self, number: u32) -> Option<Ty>
        ensures { result ≡ known_kinds self.now number }
    {
        match self.place_of(number) {
            Some(place) => Some(self.kind_at(place)),
            None => None,
        }
    }

    /// The name of the variable of a number.
    pub fn name_of(&self, number: u32) -> Option<&str>
        ensures { option_map (λ n. n.now) result ≡ name_numbered number self.now }
    {
        match self.place_of(number) {
            Some(place) => Some(self.name_at(place)),
            None => None,
        }
    }

    /// Whether the variables with names are the first ones: none without a name comes before one with a name.
    pub fn is_gapless(&self) -> bool
        ensures { result ≡ is_gapless self.now }
    {
        for place in 0..self.len() {
            if self.number_at(place) as usize != place {
                return false;
            }
        }
        true
    }

    /// Whether a variable of the type may be declared with some value.
    pub fn may_have_type(&self, kind: Ty) -> bool
        ensures { IsTrue result ↔ MayHaveType self.now kind }
    {
        if kind.refs == 0 {
            return true;
        }
        if kind.refs > Ty::MOST_REFS {
            return false;
        }
        for place in 0..self.len() {
            if refers_to(self.kind_at(place), kind) {
                return true;
            }
        }
        false
    }

    /// Whether a variable of the type may be declared with the value.
    pub fn may_hold(&self, kind: Ty, value: Value) -> bool
        ensures { result ≡ may_hold_known self.now kind value }
    {
        kind.refs <= Ty::MOST_REFS && self.is_of(value, kind)
    }

    /// Whether the value is of the type: a reference must be to a variable that has a name.
    pub fn is_of(&self, value: Value, kind: Ty) -> bool
        ensures { result ≡ is_of_known self.now value kind }
    {
        match value {
            Value::Int(_) => plain_type(Base::Int) == kind,
            Value::Bool(_) => plain_type(Base::Bool) == kind,
            Value::Unit => plain_type(Base::Unit) == kind,
            Value::Var(Ref::Old(id)) => match self.kind_of(id) {
                Some(inner) => refers_to(inner, kind),
                None => false,
            },
            Value::Var(Ref::New(_)) => false,
        }
    }

    /// Adds the name of a variable whose number is above all others.
    pub fn add(&mut self, name: &str, number: u32, kind: Ty) -> Result<(), NoMemory>
        requires name { IsTrue (is_name_text name.now) }
        requires fresh { number_named name.now self.now ≡ None }
        requires above { NumbersAreBelow number self.now }
        requires held { MayHaveType self.now kind }
        ensures done { OnOk result (self.new ≡ self.old
            ++ record { name = name.now; number = number; kind = kind } ∷ []) }
        ensures unchanged { OnErr result (self.new ≡ self.old) }
    {
        let key = String::from_str(*self.entries.allocator(), name)?;
        let Ok(_before) = self.entries.insert(key, (number, kind)) else {
            return Err(NoMemory);
        };
        Ok(())
    }
}
