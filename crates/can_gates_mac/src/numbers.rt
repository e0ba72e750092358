//! The numbers of phases, causes and events. (`specs/Numbers.antt`)

pub(crate) const IDLE: u8 = 0;

pub(crate) const JOINING: u8 = 1;

pub(crate) const STUFFED_PART: u8 = 2;

pub(crate) const CRC_DELIMITER: u8 = 3;

pub(crate) const ACK_SLOT: u8 = 4;

pub(crate) const ACK_DELIMITER: u8 = 5;

pub(crate) const END_OF_FRAME: u8 = 6;

pub(crate) const PASSIVE_FLAG: u8 = 8;

pub(crate) const ERROR_FLAG: u8 = 7;

pub(crate) const OVERLOAD_FLAG: u8 = 9;

pub(crate) const AFTER_FLAG: u8 = 10;

pub(crate) const DELIMITER: u8 = 11;

pub(crate) const INTERMISSION: u8 = 12;

pub(crate) const SUSPEND: u8 = 13;

pub(crate) const BUS_OFF: u8 = 14;

/// No counter changes.
pub(crate) const UNCOUNTED: u8 = 0;
/// REC rises by 8.
pub(crate) const RECEIVER_BY_8: u8 = 2;
/// TEC rises by 8.
pub(crate) const SENDER_BY_8: u8 = 3;
/// A frame has been sent.
pub(crate) const FRAME_SENT: u8 = 4;
/// A frame has been received.
pub(crate) const FRAME_RECEIVED: u8 = 5;

/// There is no event.
pub(crate) const UNTOLD: u8 = 0;

pub(crate) const SENT: u8 = 1;

pub(crate) const RECEIVED: u8 = 2;

pub(crate) const LOST: u8 = 3;

pub(crate) const BIT_ERROR: u8 = 4;

pub(crate) const STUFF_ERROR: u8 = 5;

pub(crate) const CRC_ERROR: u8 = 6;

pub(crate) const FORM_ERROR: u8 = 7;

pub(crate) const ACK_ERROR: u8 = 8;

pub(crate) const OVERLOAD: u8 = 9;

pub(crate) const WENT_OFF: u8 = 10;
