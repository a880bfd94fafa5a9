//! Which variables make blocks stale.

/// Which variables of a block that finishes make their readers stale: those that it wrote, or those whose values it changed.
///
/// A desk goes by `Changed`. Histories of the first formats were made by `Written`.
#[derive(Clone, Copy)]
pub enum StalenessRule {
    Written,
    Changed,
}
