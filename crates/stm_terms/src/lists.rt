//! Small lists that contracts see as plain lists, so that values which hold them are equal where their items are.

ghost use Rattle.std.specs.Prelude.{◌≡◌, IfOk};

use crate::NoMemory;
use crate::kinds::Ty;
use crate::values::Value;
use std::alloc::Global;
use std::marker::Model;

/// A list of plain items.
#[derive(Drop)]
pub struct PlainList<T: Copy> {
    list: Vec<T>,
}

impl<T: Copy> Model for PlainList<T> {
    ghost use Rattle.std.specs.Prelude.{List};

    ghost Value = { List T };

    ghost view = { λ l. l.list.items };
}

impl<T: Copy> PlainList<T> {
    /// Takes the list as it is.
    pub fn from_vec(list: Vec<T>) -> PlainList<T>
        ensures { result ≡ list.items }
    {
        PlainList { list }
    }

    /// The items, in their order.
    pub fn as_slice(&self) -> &[T]
        ensures { result.now ≡ self.now }
    {
        self.list.as_slice()
    }

    /// The list that was taken.
    pub fn into_vec(self) -> Vec<T>
        ensures { result.items ≡ self }
    {
        self.list
    }

    /// A second list of the same items.
    pub fn copy(&self, alloc: Global) -> Result<PlainList<T>, NoMemory>
        ensures { IfOk result (λ l. l ≡ self.now) }
    {
        let list = Vec::from_slice(alloc, &self.list)?;
        Ok(PlainList { list })
    }
}

/// The variables that a block writes, with the values that it writes. A verdict of the evaluator lists them in ascending order.
pub type Writes = PlainList<(u32, Value)>;

/// The cells that a block makes, each with its type and its value, in the order in which they were made.
pub type News = PlainList<(Ty, Value)>;
