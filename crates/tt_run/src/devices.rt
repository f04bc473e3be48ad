//! The devices of a run: where its script and its attributes come from, where the replies go, and the three volumes.

/// The six devices of a run. It has them as one value, so that what is said of a run speaks of them before and after.
#[derive(Drop)]
pub struct Devices<S, A, K, L, C, B> {
    /// The script, as a source.
    pub script: S,
    /// The text of the attributes, as a source.
    pub attributes: A,
    /// Where the replies are written.
    pub sink: K,
    /// The volume of the log files.
    pub logs: L,
    /// The volume of the checkpoint files.
    pub images: C,
    /// The volume of the backup sets.
    pub backups: B,
}
