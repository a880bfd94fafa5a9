//! The section of a script that is being read.

ghost use Rattle.std.specs.Prelude.{◌≡◌, ◌++◌, ◌∷◌, [], ◌+◌, length, OnOk};

use crate::section::{Section, Task};
use std::alloc::Global;
use std::marker::Model;
use stm_check::SharedBlock;
use stm_terms::NoMemory;

/// The tasks so far, and how many of them are submissions.
#[derive(Drop)]
pub struct BegunSection {
    tasks: Vec<Task>,
    submissions: usize,
}

impl Model for BegunSection {
    ghost use Rattle.std.specs.Prelude.{◌≤◌, length};
    ghost use Rattle.std.specs.Coded.{codes};
    ghost use Rattle.stm_terms.specs.TreeEncoding.{act_code};
    ghost use Rattle.stm_script.specs.StormScript.{Begun};

    ghost Value = { Begun };

    ghost coded = { Prim.hlevel (codes, act_code) };

    ghost view = { λ s. record { tasks = s.tasks.items; submissions = s.submissions } };

    ghost invariant = { λ s. s.submissions ≤ length s.tasks.items };
}

impl BegunSection {
    /// A section without a task.
    pub fn new(alloc: Global) -> BegunSection
        ensures { result ≡ record { tasks = []; submissions = 0 } }
    {
        BegunSection {
            tasks: Vec::new(alloc),
            submissions: 0,
        }
    }

    /// How many submissions there are.
    pub fn submissions(&self) -> usize
        ensures { result ≡ self.now.submissions }
    {
        self.submissions
    }

    /// How many tasks there are.
    pub fn tasks(&self) -> usize
        ensures { result ≡ length self.now.tasks }
    {
        self.tasks.len()
    }

    /// The tasks.
    pub fn as_slice(&self) -> &[Task]
        ensures { result.now ≡ self.now.tasks }
    {
        self.tasks.as_slice()
    }

    /// One task more, which is no submission.
    pub fn push(&mut self, task: Task) -> Result<(), NoMemory>
        ensures { OnOk result
            (self.new ≡ record self.old { tasks = self.old.tasks ++ task ∷ [] }) }
    {
        match self.tasks.push(task) {
            Ok(()) => Ok(()),
            Err(_) => Err(NoMemory),
        }
    }

    /// One submission more.
    pub fn push_submission(&mut self, block: SharedBlock) -> Result<(), NoMemory>
        ensures { OnOk result (self.new ≡ record {
          tasks = self.old.tasks ++ Task.Submit block ∷ [];
          submissions = self.old.submissions + 1;
        }) }
    {
        match self.tasks.push(Task::Submit(block)) {
            Ok(()) => {
                self.submissions += 1;
                Ok(())
            }
            Err(_) => Err(NoMemory),
        }
    }

    /// The section, which has ended.
    pub fn into_section(self) -> Section
        ensures { result.tasks.items ≡ self.tasks }
    {
        Section { tasks: self.tasks }
    }
}
