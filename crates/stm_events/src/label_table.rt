//! The labels of waiting blocks, as they are kept.

ghost use Rattle.std.specs.Prelude.{◌≡◌, [], IfOk, OnOk, OnErr, unwrap_or};
ghost use Rattle.std.specs.Option.{option_copied};
ghost use Rattle.stm_events.specs.Labels.{AreSameLabels, label_of, without_label, labelled};

use crate::shared_name::SharedName;
use std::alloc::Global;
use std::collections::HashMap;
use std::marker::Model;
use stm_terms::NoMemory;

/// Of some waiting blocks the label, by their tickets. Contracts see a list, whose order says nothing. Each call takes constant time.
#[derive(Drop)]
pub struct LabelTable {
    labels: HashMap<u32, SharedName>,
}

impl Model for LabelTable {
    ghost use Rattle.std.specs.Coded.{codes};
    ghost use Rattle.stm_events.specs.Labels.{Labels};

    ghost Value = { Labels };

    ghost coded = { Prim.hlevel (codes) };

    ghost view = { λ t. t.labels.entries };
}

impl LabelTable {
    /// No label.
    pub fn empty(alloc: Global) -> LabelTable
        ensures { result ≡ [] }
    {
        LabelTable {
            labels: HashMap::new(alloc),
        }
    }

    /// The label of a ticket, if it has one.
    fn find(&self, ticket: u32) -> Option<&SharedName>
        ensures { unwrap_or (option_copied result) [] ≡ label_of ticket self.now }
    {
        self.labels.get(&ticket)
    }

    /// The label of a ticket; the empty text if it has none.
    pub fn label_of(&self, ticket: u32) -> &str
        ensures { result.now ≡ label_of ticket self.now }
    {
        match self.find(ticket) {
            Some(label) => label.as_str(),
            None => "",
        }
    }

    /// The label of a ticket, as many may hold it.
    pub fn shared(&self, ticket: u32) -> Result<SharedName, NoMemory>
        ensures { IfOk result (λ n. n ≡ label_of ticket self.now) }
    {
        match self.find(ticket) {
            Some(label) => label.share(),
            None => Ok(SharedName::none()),
        }
    }

    /// The label of a ticket goes, if it has one.
    pub fn remove(&mut self, ticket: u32)
        ensures { AreSameLabels self.new (without_label ticket self.old) }
    {
        self.labels.remove(&ticket);
    }

    /// The ticket gets a label, in place of the one that it had; an empty one takes it away.
    pub fn set(&mut self, ticket: u32, label: SharedName) -> Result<(), NoMemory>
        ensures done { OnOk result (AreSameLabels self.new (labelled ticket label self.old)) }
        ensures unchanged { OnErr result (self.new ≡ self.old) }
    {
        if label.as_str().is_empty() {
            self.remove(ticket);
            return Ok(());
        }
        let Ok(_before) = self.labels.insert(ticket, label) else {
            return Err(NoMemory);
        };
        Ok(())
    }
}
