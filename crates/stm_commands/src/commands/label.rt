//! `label`: what a waiting block is called.

ghost use Rattle.std.specs.Prelude.{◌≡◌, true, option_map, IfSome};
ghost use Rattle.std.specs.Option.{option_copied};
ghost use Rattle.stm_events.specs.Labels.{is_label as is_label_text};
ghost use Rattle.stm_event_lines.specs.CheckpointFields.{label_in};
ghost use Rattle.stm_desk.specs.Refusals.{label_refusal};
ghost use Rattle.stm_commands.specs.Labelling.{label_text, labelled_line, label_argument, labelling as labelling_in, label_ticket_step, label_step};
ghost use Rattle.stm_commands.specs.OpenDesk.{on_desk};
ghost use Rattle.stm_commands.specs.Printing.{Prints, TakesStep};

use crate::open_desk::OpenDesk;
use crate::refusals::{refuse_argument, refuse_label};
use std::str;
use stm_events::label::is_label;
use stm_lines::arguments::number_of;
use stm_lines::judging::first_word;
use stm_terms::NoMemory;

/// Appends a label; none is `-`.
pub(crate) fn write_label(label: &str, out: &mut String) -> Result<(), NoMemory>
    ensures { Prints result out.old out.new (label_text label.now) }
{
    if label.is_empty() {
        out.push_str("-")
    } else {
        out.push_str(label)
    }
}

#[tactic(auto, unfolding(crate::specs::Labelling::labelled_line))]
fn write_labelled(ticket: u32, label: &str, out: &mut String) -> Result<(), NoMemory>
    ensures { Prints result out.old out.new (labelled_line ticket label.now) }
{
    write!(out, "labelled {ticket} ")?;
    write_label(label, out)?;
    out.push_str("\n")
}

/// The bytes as a label, if they are one.
fn label_of_bytes(bytes: &[u8]) -> Option<&str>
    ensures text { option_copied result ≡ label_in bytes.now }
    ensures label { IfSome result (λ l. is_label_text l.now ≡ true) }
{
    match str::from_utf8(bytes) {
        Ok(text) => { if is_label(text) { Some(text) } else { None } }
        Err(_) => None,
    }
}

/// The first word of a text, which nothing follows, if it is a label.
#[tactic(auto, unfolding(crate::specs::Labelling::label_argument))]
fn label_argument(text: &[u8]) -> Option<&str>
    ensures text { option_copied result ≡ label_argument text.now }
    ensures label { IfSome result (λ l. is_label_text l.now ≡ true) }
{
    let (word, rest) = first_word(text);
    if !rest.is_empty() {
        return None;
    }
    label_of_bytes(word)
}

/// A ticket and a label.
#[tactic(auto, unfolding(crate::specs::Labelling::labelling))]
fn labelling(text: &[u8]) -> Option<(u32, &str)>
    ensures both { option_map (λ l. (l.0, l.1.now)) result ≡ labelling_in text.now }
    ensures label { IfSome result (λ l. is_label_text l.1.now ≡ true) }
{
    let (ticket, rest) = first_word(text);
    match number_of(ticket) {
        Some(ticket) => match label_argument(rest) {
            Some(label) => Some((ticket, label)),
            None => None,
        },
        None => None,
    }
}

impl OpenDesk {
    /// Labels the block under a ticket. The caller knows that the text is a label.
    fn label(&mut self, ticket: u32, label: &str, out: &mut String) -> Result<(), NoMemory>
        requires { is_label_text label.now ≡ true }
        ensures { TakesStep result self.new out.old out.new
            (on_desk self.old (label_ticket_step self.old.desk ticket label.now (label_refusal self.old.desk ticket))) }
    {
        let answer = self.desk.label(0, ticket, label);
        // The history is known to be legal by this.
        let _events = self.desk.history();
        match answer {
            Ok(()) => write_labelled(ticket, label, out),
            Err(refusal) => refuse_label(refusal, out),
        }
    }

    /// Answers `label`: a waiting block gets a label, or has none any more.
    #[tactic(auto, unfolding(crate::specs::Labelling::label_step))]
    pub fn answer_label(&mut self, argument: &str, out: &mut String) -> Result<(), NoMemory>
        ensures { TakesStep result self.new out.old out.new (label_step self.old argument.now) }
    {
        match labelling(argument.as_bytes()) {
            Some((ticket, label)) => self.label(ticket, label, out),
            None => refuse_argument(out),
        }
    }
}
