use can_frame::Frame;

/// Whether a whole frame may pass a controller in one step. (Bosch CAN 2.0 part B, sections 3.2.5 and 8)
#[derive(Clone, Copy, Debug, PartialEq, Eq)]
pub enum Poised {
    /// It may not, or this is not known.
    Not,
    /// It may, and the controller receives it.
    ToReceive,
    /// It may, and the controller itself starts with this frame.
    ToSend(Frame),
}
