/// The version of a scenario's format.
#[derive(Clone, Copy)]
pub(crate) enum Version {
    /// Frames that are pending at the beginning of the run, and injected bit errors.
    One,
    /// Frames with the times at which they are offered.
    Two,
}
