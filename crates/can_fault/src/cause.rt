/// An event that changes an error counter of a node: TEC, the transmit error counter, or REC, the
/// receive error counter. (Bosch CAN 2.0 part B, section 8) Nothing changes them while the node is
/// bus off.
#[derive(Clone, Copy, Debug, PartialEq, Eq)]
pub enum Cause {
    /// A receiver detects an error, other than that of [`Cause::ReceiverFlagBit`]: REC increases by
    /// 1. (section 8)
    ReceiverError,
    /// A receiver has a bit error while it sends an active error flag or an overload flag: REC
    /// increases by 8. (section 8)
    ReceiverFlagBit,
    /// A receiver sees a dominant level as the first bit after its error flag: REC increases by 8.
    /// (section 8)
    ReceiverFirstDominant,
    /// A receiver sees eight dominant levels in a row after a flag, or eight more: REC increases by
    /// 8. (section 8)
    ReceiverDominantRun,
    /// A transmitter detects an error, and sends an error flag: TEC increases by 8. (section 8)
    SenderError,
    /// A transmitter has a bit error while it sends an active error flag or an overload flag: TEC
    /// increases by 8. (section 8)
    SenderFlagBit,
    /// A transmitter sees eight dominant levels in a row after a flag, or eight more: TEC increases
    /// by 8. (section 8)
    SenderDominantRun,
    /// An error passive transmitter got no acknowledgment, which alone is not counted, and sees the
    /// first dominant level in its passive error flag: TEC increases by 8. (section 8)
    PassiveUnacknowledged,
    /// A frame has been transmitted: TEC decreases by 1, and 0 stays. (section 8)
    FrameSent,
    /// A frame has been received and acknowledged: REC decreases by 1, and 0 stays; a REC above 127
    /// becomes 127. (section 8)
    FrameReceived,
}
