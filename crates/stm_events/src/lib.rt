//! The events of a desk and what they mean.
//!
//! What a reader has to believe is here. The slow desk is in `specs/SlowDesk`: which events it allows, and how each acts. It runs
//! blocks from scratch and keeps no reads, no verdicts and no index. `specs/SlowSettle` says what settling does on it and
//! `specs/Rounds` the same in rounds, `specs/Ready` which blocks could finish now, `specs/Refusals` why each call is refused,
//! `specs/Headline` which blocks are marked stale and what the verdicts of the others are worth, and `specs/Laws` what else
//! holds after every legal history (`laws`).
//! `specs/Labels` says which labels waiting blocks have, `specs/KeptCauses` how a checkpoint keeps why blocks are stale.
//!
//! `event` has the events, over `shared_verdict`, `shared_name` and `tickets`, which many may hold; `same` returns whether two are equal.
//! `errors` has why calls are refused, `status` how a block stands, `staleness` the rules by which blocks become stale, `delivery` what
//! a last delivery brought, `label` and `label_table` the labels, `kept_cause` the causes that a checkpoint keeps, and `laws` the laws.
#![tactic(auto)]

pub mod delivery;
pub mod errors;
pub mod event;
pub mod kept_cause;
pub mod label;
pub mod label_table;
pub mod laws;
pub mod same;
pub mod shared_name;
pub mod shared_verdict;
pub mod staleness;
pub mod status;
pub mod tickets;

pub use delivery::Delivery;
pub use errors::{
    CancelError, DeliverError, FinishError, LabelError, LateDeclareError, SubmitError,
};
pub use event::{Event, What};
pub use kept_cause::{CauseTable, KeptCause};
pub use label::{LONGEST_LABEL, is_label};
pub use label_table::LabelTable;
pub use shared_name::SharedName;
pub use shared_verdict::SharedVerdict;
pub use staleness::StalenessRule;
pub use status::Status;
pub use tickets::Tickets;
