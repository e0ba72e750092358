use can_frame::Frame;

/// A frame in the log of a port.
#[derive(Clone, Copy, Debug, PartialEq, Eq)]
pub struct Entry {
    /// The frame.
    pub frame: Frame,
    /// True if the port sent the frame, false if it received it.
    pub sent: bool,
}
