//! How each call changes the list of tickets, as laws of the definitions: the body of each function is empty.

ghost use Rattle.stm_queue.specs.Laws.{AddedAreThere, RemovedAreGone, MarksKeepTickets, SendingKeepsTickets, RecallKeepsTickets, QueuedAreThere};

/// A ticket that is added is in the list, one that is removed isn't, and each other one is in the list exactly if it was before.
pub fn tickets_come_and_go()
    ensures added { AddedAreThere }
    ensures removed { RemovedAreGone }
{}

/// `take_first`, `hand_back` and `recall` change which tickets are out, and not which are in the list.
pub fn moves_keep_tickets()
    ensures marked { MarksKeepTickets }
    ensures sent { SendingKeepsTickets }
    ensures recalled { RecallKeepsTickets }
{}

/// Each queued ticket is in the list.
pub fn queued_are_there()
    ensures { QueuedAreThere }
{}
