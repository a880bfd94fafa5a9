//! What is synced before a batch is acknowledged.

/// What is synced before a batch is acknowledged, and so what a crash may leave.
#[derive(Clone, Copy)]
pub enum SyncMode {
    /// Three syncs a batch. A crash leaves all of a batch or nothing of it, whatever bytes a write that is cut short leaves in
    /// its range.
    Full,
    /// Two syncs a batch, and three if the file ends where a sector does. A crash leaves all of a batch or nothing of it, as with `Full`,
    /// if after the end of a file the rest of its last sector is zeros on the disk.
    Sector,
    /// One sync a batch. If the device fills with zeros, a crash leaves a front of a batch, of whole lines; else it leaves at
    /// least all that was acknowledged.
    Append,
    /// No sync. The system writes when it likes, and a crash of the system may leave anything. As long as the system lives,
    /// the file has all that was acknowledged.
    Never,
}
