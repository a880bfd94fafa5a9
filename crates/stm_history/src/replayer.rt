//! What goes through a history: the machine that the events so far lead to, and a list of them if it is to keep one.

ghost use Rattle.std.specs.Prelude.{◌≡◌, ◌≢◌, ◌≤◌, ℕ, List, [], None, Some, IfOk, IfSome, IsErrOf, is_some};
ghost use Rattle.stm_events.specs.declared.event.Event.{Event};
ghost use Rattle.stm_event_lines.specs.Fits.{FitsNames};
ghost use Rattle.stm_event_lines.specs.Lines.{event_line};
ghost use Rattle.stm_machine.specs.Checkpoints.{max_next};
ghost use Rattle.stm_machine.specs.Machine.{IsAt};
ghost use Rattle.stm_history_text.specs.Starts.{Start, first_state, names_after};

use crate::fault::Legal;
use std::alloc::Global;
use stm_event_lines::formats::staleness_rule;
use stm_event_lines::read::{LineError, read_event};
use stm_events::event::Event as OneEvent;
use stm_machine::checkpoint::Checkpoint;
use stm_machine::machine::Machine;
use stm_source::BlockCache;
use stm_store::{Frozen, Names, Table};
use stm_terms::NoMemory;

/// The machine that the events of a history so far lead to, how many they are, and an unchanging copy of the present store, if
/// one was made after the last finish; the events themselves, if they are kept; and blocks whose texts came again.
pub(crate) struct Replayer {
    pub machine: Machine,
    pub events: u32,
    pub copy: Option<Frozen>,
    pub kept: Option<Vec<OneEvent>>,
    pub blocks: BlockCache,
}

// Written out, and not derived, so that the proof of each owner calls it once.
impl Drop for Replayer {
    fn drop(self) {
        let Replayer {
            machine: _,
            events: _,
            copy: _,
            kept: _,
            blocks: _,
        } = self;
    }
}

/// No events yet, if events are to be kept.
fn none_kept(alloc: Global, keep: bool) -> Option<Vec<OneEvent>>
    ensures keeps { is_some result ≡ keep }
    ensures none { IfSome result (λ events. events.items ≡ []) }
{
    if keep { Some(Vec::new(alloc)) } else { None }
}

impl Replayer {
    ghost use Rattle.stm_store.specs.Tables.{Declared};
    ghost use Rattle.stm_history.specs.Following.{Follows};
    ghost use Rattle.stm_history.specs.Judgement.{numbers_from};

    /// A machine at the start of a history, and no event. The caller says whether events are to be kept.
    fn begin(alloc: Global, machine: Machine, keep: bool) -> Result<Replayer, NoMemory>
        ensures follows { IfOk result (λ r. (S : Start) → IsAt machine (first_state S)
            → (first_state S).next ≤ max_next → Follows S [] r) }
        ensures keeps { IfOk result (λ r. is_some r.kept ≡ keep) }
    {
        let blocks = BlockCache::new(alloc, machine.names())?;
        Ok(Replayer {
            machine,
            events: 0,
            copy: None,
            kept: none_kept(alloc, keep),
            blocks,
        })
    }

    /// The variables of a table, in a format, and no event. The caller says whether events are to be kept.
    pub(crate) fn open(
        alloc: Global,
        format: u32,
        table: &Table,
        keep: bool,
    ) -> Result<Replayer, NoMemory>
        ensures follows { IfOk result (λ r.
            Follows (record { format = format; table = table.now; checkpoint = None }) [] r) }
        ensures keeps { IfOk result (λ r. is_some r.kept ≡ keep) }
    {
        let machine = Machine::open(alloc, staleness_rule(format), table)?;
        Replayer::begin(alloc, machine, keep)
    }

    /// A checkpoint, and no event, in any format of checkpoints. The caller says whether events are to be kept.
    pub(crate) fn open_from(
        alloc: Global,
        checkpoint: &Checkpoint,
        keep: bool,
    ) -> Result<Replayer, NoMemory>
        ensures follows { IfOk result (λ r. (F : ℕ) (T : List Declared)
            → Follows (record { format = F; table = T; checkpoint = Some checkpoint.now }) [] r) }
        ensures keeps { IfOk result (λ r. is_some r.kept ≡ keep) }
    {
        // The next ticket is known to be low by this.
        let _next = checkpoint.next();
        let machine = Machine::from_checkpoint(alloc, checkpoint)?;
        Replayer::begin(alloc, machine, keep)
    }

    /// The names of variables after the history so far.
    pub(crate) fn names(&self) -> &Names
        ensures { (S : Start) (H : List Event) → Follows S H self.now → result.now ≡ names_after S H }
    {
        self.machine.names()
    }

    /// Reads an event's line over the present names. A block whose text comes again is shared.
    pub(crate) fn read(&mut self, alloc: Global, line: &[u8]) -> Result<OneEvent, LineError>
        requires { (S : Start) × (H : List Event) × Follows S H self.old }
        ensures follows { (S : Start) (H : List Event)
            → Follows S H self.old → Follows S H self.new }
        ensures keeps { is_some self.new.kept ≡ is_some self.old.kept }
        ensures ok { IfOk result (λ e. event_line e ≡ line.now) }
        ensures fits { IfOk result (λ e. (S : Start) (H : List Event)
            → Follows S H self.old → FitsNames (names_after S H) e) }
        ensures bad { IsErrOf result LineError.Bad → (S : Start) (H : List Event)
            → Follows S H self.old → (e : Event) → FitsNames (names_after S H) e
            → event_line e ≢ line.now }
    {
        read_event(alloc, self.machine.names(), line, &mut self.blocks)
    }

    /// The numbers of the history so far.
    pub(crate) fn numbers(&self) -> Legal
        requires { (S : Start) × (H : List Event) × Follows S H self.now }
        ensures { (S : Start) (H : List Event) → Follows S H self.now → result ≡ numbers_from S H }
    {
        Legal {
            events: self.events,
            waiting: self.machine.waiting() as u32,
            cells: self.machine.store().len() as u32,
        }
    }

    /// The machine, and the events if they are kept.
    pub(crate) fn into_parts(self) -> (Machine, Option<Vec<OneEvent>>)
        ensures machine { result.0 ≡ self.machine }
        ensures kept { result.1 ≡ self.kept }
    {
        let Replayer {
            machine,
            events: _,
            copy: _,
            kept,
            blocks: _,
        } = self;
        (machine, kept)
    }
}
