//! The variables of a script.

ghost use Rattle.std.specs.Prelude.{◌≡◌, ◌<◌, ◌-◌, ◌⊎◌, [], length, take, OnErr, OnOk};
ghost use Rattle.stm_source.specs.DeclaredVariable.{variable_of};
ghost use Rattle.stm_store.specs.Naming.{named_in_table};
ghost use Rattle.stm_script.specs.ScriptReading.{DeclaresNext};

use std::alloc::Global;
use std::marker::Model;
use stm_source::Refusal;
use stm_source::declaring::declare;
use stm_store::{DeclareError, Names, Seed, Table};
use stm_terms::NoMemory;

/// The declared variables of a script. Each has its name from its declaration on, so that no line that names variables has to
/// collect the names first.
#[derive(Drop)]
pub struct Variables {
    table: Table,
    names: Names,
}

impl Model for Variables {
    ghost use Rattle.std.specs.Prelude.{◌≡◌, List};
    ghost use Rattle.stm_store.specs.Naming.{named_in_table};
    ghost use Rattle.stm_store.specs.Tables.{Declared};

    ghost Value = { List Declared };

    ghost view = { λ v. v.table };

    ghost invariant = { λ v. v.names ≡ named_in_table v.table };
}

/// Adds the name of the last variable of a table to those of the others.
fn add_last(names: &mut Names, table: &Table) -> Result<(), NoMemory>
    requires some { 0 < length table.now }
    requires others { names.old ≡ named_in_table (take (length table.now - 1) table.now) }
    ensures { OnOk result (names.new ≡ named_in_table table.now) }
{
    let number = (table.len() - 1) as u32;
    names.add(table.name(number), number, table.kind(number))
}

impl Variables {
    /// No variables, whose names are looked up under the seed.
    pub fn with_seed(alloc: Global, seed: Seed) -> Variables
        ensures { result ≡ [] }
    {
        Variables {
            table: Table::with_seed(alloc, seed),
            names: Names::with_seed(alloc, seed),
        }
    }

    /// The table of the variables.
    pub fn table(&self) -> &Table
        ensures { result.now ≡ self.now }
    {
        &self.table
    }

    /// The names of the variables.
    pub fn names(&self) -> &Names
        ensures { result.now ≡ named_in_table self.now }
    {
        &self.names
    }

    /// The table of the variables, without their names.
    pub fn into_table(self) -> Table
        ensures { result ≡ self }
    {
        self.table
    }

    /// Declares the variable of a text after the others. Without memory for its name no variable is left.
    pub fn declare(&mut self, alloc: Global, text: &str) -> Result<(), Refusal>
        ensures next { DeclaresNext self.old result self.new (variable_of self.old text.now) }
        // None is left only if memory ran out: `next` says so.
        ensures left { OnErr result ((self.new ≡ self.old) ⊎ (self.new ≡ [])) }
    {
        let Variables { table, names } = self;
        match declare(alloc, table, text) {
            Ok(_) => {}
            Err(refusal) => return Err(refusal),
        }
        match add_last(names, table) {
            Ok(()) => Ok(()),
            Err(_) => {
                *table = Table::empty(alloc);
                *names = Names::with_seed(alloc, Seed::fixed());
                Err(Refusal::Declaring(DeclareError::NoMemory))
            }
        }
    }
}
