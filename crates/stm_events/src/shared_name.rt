//! Names that many may hold.

ghost use Rattle.std.specs.Prelude.{◌≡◌, ◌↔◌, [], IfOk, IsTrue, string_bytes};

use std::alloc::Global;
use std::marker::Model;
use std::sync::Arc;
use stm_terms::NoMemory;

/// A name that many may hold: it is in memory once, and an empty one takes none. Contracts see its text.
#[derive(Drop)]
pub struct SharedName {
    // None is the empty text.
    text: Option<Arc<String, Global>>,
}

impl Model for SharedName {
    ghost use Rattle.std.specs.Prelude.{List, ℕ};
    ghost use Rattle.stm_events.specs.Sharing.{name_in};

    ghost Value = { List ℕ };

    ghost view = { λ n. name_in n.text };
}

fn same_text(one: &str, other: &str) -> bool
    ensures { IsTrue result ↔ (one.now ≡ other.now) }
{
    one == other
}

impl SharedName {
    /// The empty text.
    pub fn none() -> SharedName
        ensures { result ≡ [] }
    {
        SharedName { text: None }
    }

    /// Puts a name where many may hold it.
    pub fn new(alloc: Global, text: String) -> Result<SharedName, NoMemory>
        ensures { IfOk result (λ n. n ≡ string_bytes text) }
    {
        if text.is_empty() {
            return Ok(SharedName { text: None });
        }
        Ok(SharedName {
            text: Some(Arc::new(alloc, text)?),
        })
    }

    /// One more hold on the same name.
    pub fn share(&self) -> Result<SharedName, NoMemory>
        ensures { IfOk result (λ n. n ≡ self.now) }
    {
        match &self.text {
            None => Ok(SharedName { text: None }),
            Some(text) => Ok(SharedName {
                text: Some(Arc::try_clone(text)?),
            }),
        }
    }

    /// The name.
    pub fn as_str(&self) -> &str
        ensures { result.now ≡ self.now }
    {
        match &self.text {
            None => "",
            Some(text) => (**text).as_str(),
        }
    }

    /// Whether two names are one.
    pub fn same(&self, other: &SharedName) -> bool
        ensures { IsTrue result ↔ (self.now ≡ other.now) }
    {
        same_text(self.as_str(), other.as_str())
    }
}
