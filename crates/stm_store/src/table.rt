//! The table of the declared variables.

ghost use Rattle.std.specs.Prelude.{◌≡◌, ◌<◌, ◌++◌, ◌∷◌, [], Some, length, IsTrue, IfOk, IfSome, OnErr, slice_get, option_map};
ghost use Rattle.stm_terms.specs.Names.{is_name_text};
ghost use Rattle.stm_terms.specs.UnlessNoMemory.{RefusedAs};
ghost use Rattle.stm_store.specs.declared.table.DeclareError.{DeclareError};
ghost use Rattle.stm_store.specs.Cells.{kinds_of};
ghost use Rattle.stm_store.specs.Tables.{Declared, declared_cells, number_of, is_of, may_hold, declare_refusal, IsTable};

use crate::seed::Seed;
use crate::types::{plain_type, refers_to};
use indexmap::IndexMap;
use std::alloc::{AllocError, Global};
use std::marker::Model;
use stm_terms::NoMemory;
use stm_terms::kinds::{Base, Ty};
use stm_terms::values::{Ref, Value};
use thiserror::Error;

/// Why a variable can't be declared. The first that holds is reported.
#[derive(Clone, Copy, Debug, PartialEq, Eq, Error)]
pub enum DeclareError {
    /// The name is declared.
    #[error("the name is declared already")]
    Twice,
    /// The type has more than 8 `TVar`, or the value isn't of it: a reference must name a variable that is declared.
    #[error("the value is not of the type")]
    TypeOfValue,
    /// There are `Table::LIMIT` variables.
    #[error("the table is full")]
    TableFull,
    #[error("out of memory")]
    NoMemory,
}

impl From<AllocError> for DeclareError {
    ghost use Rattle.std.specs.Prelude.{◌≡◌};
    ghost use Rattle.stm_store.specs.declared.table.DeclareError.{DeclareError};

    ghost from_gives = { λ _ e. e ≡ DeclareError.NoMemory };

    fn from(_refusal: AllocError) -> DeclareError {
        DeclareError::NoMemory
    }
}

/// The declared variables in the order of their declaration, each with its name, its type and its first value.
#[derive(Drop)]
pub struct Table {
    entries: IndexMap<String, (Ty, Value), Seed>,
}

impl Model for Table {
    ghost use Rattle.std.specs.Prelude.{List, map};
    ghost use Rattle.stm_store.specs.Tables.{Declared, IsTable};
    ghost use Rattle.stm_store.specs.Entries.{declared_of};

    ghost Value = { List Declared };

    ghost view = { λ t. map declared_of t.entries.entries };

    ghost invariant = { λ t. IsTable (map declared_of t.entries.entries) };
}

impl Table {
    /// How many variables a table, and a store, may have.
    pub const LIMIT: usize = 1_000_000;

    /// A table of no variables, under the fixed seed.
    pub fn empty(alloc: Global) -> Table
        ensures { result ≡ [] }
    {
        Table::with_seed(alloc, Seed::fixed())
    }

    /// A table of no variables, whose names are looked up under the seed.
    pub fn with_seed(alloc: Global, seed: Seed) -> Table
        ensures { result ≡ [] }
    {
        Table {
            entries: IndexMap::with_hasher(alloc, seed),
        }
    }

    /// A second table of the same variables, under the same seed. It takes memory from the allocator of the first.
    pub fn copy(&self, _alloc: Global) -> Result<Table, NoMemory>
        ensures { IfOk result (λ t. t ≡ self.now) }
    {
        let entries = self.entries.clone()?;
        Ok(Table { entries })
    }

    /// The seed under which its names are looked up.
    pub(crate) fn seed(&self) -> Seed {
        *self.entries.hasher()
    }

    /// How many variables there are. The other clause holds of every table.
    pub fn len(&self) -> usize
        ensures len { result ≡ length self.now }
        ensures table { IsTable self.now }
    {
        self.entries.len()
    }

    /// The number of the variable of a name: how many were declared before it.
    pub fn find(&self, name: &str) -> Option<u32>
        ensures number { result ≡ number_of name.now self.now }
        ensures within { IfSome result (λ i. i < length self.now) }
    {
        let number = self.entries.get_index_of(name)?;
        Some(number as u32)
    }

    /// The name of a variable.
    pub fn name(&self, id: u32) -> &str
        requires { id < length self.now }
        ensures { option_map (λ d. d.name) (slice_get self.now id) ≡ Some result.now }
    {
        match self.entries.get_index(id as usize) {
            Some((name, _)) => name.as_str(),
            None => unreachable!(),
        }
    }

    /// The type of a variable.
    pub fn kind(&self, id: u32) -> Ty
        requires { id < length self.now }
        ensures { option_map (λ d. d.kind) (slice_get self.now id) ≡ Some result }
    {
        match self.entries.get_index(id as usize) {
            Some((_, cell)) => cell.0,
            None => unreachable!(),
        }
    }

    /// The first value of a variable.
    pub fn value(&self, id: u32) -> Value
        requires { id < length self.now }
        ensures { option_map (λ d. d.value) (slice_get self.now id) ≡ Some result }
    {
        match self.entries.get_index(id as usize) {
            Some((_, cell)) => cell.1,
            None => unreachable!(),
        }
    }

    /// The type of a variable, if it exists.
    fn kind_at(&self, id: u32) -> Option<Ty>
        ensures { result ≡ kinds_of (declared_cells self.now) id }
    {
        if (id as usize) < self.len() {
            Some(self.kind(id))
        } else {
            None
        }
    }

    /// Whether a variable of the type may be declared with the value.
    fn may_hold(&self, kind: Ty, value: Value) -> bool
        ensures { result ≡ may_hold (declared_cells self.now) kind value }
    {
        kind.refs <= Ty::MOST_REFS && self.is_of(value, kind)
    }

    /// Whether the value is of the type.
    pub fn is_of(&self, value: Value, kind: Ty) -> bool
        ensures { result ≡ is_of (declared_cells self.now) value kind }
    {
        match value {
            Value::Int(_) => plain_type(Base::Int) == kind,
            Value::Bool(_) => plain_type(Base::Bool) == kind,
            Value::Unit => plain_type(Base::Unit) == kind,
            Value::Var(Ref::Old(id)) => match self.kind_at(id) {
                Some(inner) => refers_to(inner, kind),
                None => false,
            },
            Value::Var(Ref::New(_)) => false,
        }
    }

    /// Declares a variable after the others and returns its number. The caller knows that the name is one.
    pub fn declare(&mut self, name: &str, kind: Ty, value: Value) -> Result<u32, DeclareError>
        requires { IsTrue (is_name_text name.now) }
        ensures done { IfOk result (λ id. (id ≡ length self.old)
            × (self.new ≡ self.old
            ++ record { name = name.now; kind = kind; value = value } ∷ [])) }
        ensures unchanged { OnErr result (self.new ≡ self.old) }
        ensures refused { RefusedAs DeclareError.NoMemory (declare_refusal self.old name.now kind value) result }
    {
        if self.find(name).is_some() {
            return Err(DeclareError::Twice);
        }
        if !self.may_hold(kind, value) {
            return Err(DeclareError::TypeOfValue);
        }
        let number = self.len();
        if number >= Table::LIMIT {
            return Err(DeclareError::TableFull);
        }
        let key = String::from_str(*self.entries.allocator(), name)?;
        let Ok(_before) = self.entries.insert(key, (kind, value)) else {
            return Err(DeclareError::NoMemory);
        };
        Ok(number as u32)
    }
}
