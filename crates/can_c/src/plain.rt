ghost use Rattle.std.specs.Prelude.{◌≡◌, ◌≢◌, ◌<◌, ◌≤◌, ◌-◌, ◌++◌, ◌==◌, false, length, replicate, take, IfErr, IfOk, IfSome, IsNone};
ghost use Rattle.can_frame.specs.Ident.{ident_count};
ghost use Rattle.can_frame.specs.Parts.{byte_count};
ghost use Rattle.can_c.specs.PlainFrames.{frame_of_plain, ident_of_plain, plain_frame, plain_heard, refusal};

use crate::status::Status;
use can_code::Heard;
use can_frame::{Frame, Id};

/// A frame as plain fields. Any content is allowed; a call refuses what is no frame. (Bosch CAN 2.0 part B, section
/// 3.2.1)
#[repr(C)]
#[derive(Clone, Copy, Debug)]
pub struct PlainFrame {
    /// 0 to 2^11 - 1; 0 to 2^29 - 1 if it is extended.
    pub identifier: u32,
    /// 1 if the identifier has 29 bits, otherwise 0.
    pub extended: u8,
    /// 1 for a remote frame, otherwise 0.
    pub remote: u8,
    /// The data length code, 0 to 15.
    pub dlc: u8,
    /// The data bytes. A data frame has the first min(DLC, 8) of them, a remote frame none; the others are not read,
    /// and returned as 0.
    pub bytes: [u8; 8],
}

/// A frame as received, as plain fields, with the bits for which a receiver accepts either level, each 0 for dominant
/// or 1 for recessive. (Bosch CAN 2.0 part B, sections 3.2.1 and 5)
#[repr(C)]
#[derive(Clone, Copy, Debug)]
pub struct PlainHeard {
    /// The frame.
    pub frame: PlainFrame,
    /// 1 if the ACK slot is dominant, otherwise 0.
    pub acknowledged: u8,
    /// The SRR bit; recessive in a standard frame, which has none.
    pub srr: u8,
    /// The reserved bit r1; dominant in a standard frame, which has none.
    pub r1: u8,
    /// The reserved bit r0.
    pub r0: u8,
    /// The last bit of the end of frame.
    pub last: u8,
}

impl PlainFrame {
    /// Returns the frame of these fields, or the first reason why there is none.
    pub fn frame(&self) -> Result<Frame, Status>
        ensures refused { IfErr result (λ why. refusal self.now ≡ Some why) }
        ensures named { IfErr result (λ why. why ≢ Status.Done) }
        ensures none { IfOk result (λ f. refusal self.now ≡ None) }
        ensures frame { IfOk result (λ f. f ≡ frame_of_plain self.now) }
    {
        if self.extended > 1 {
            return Err(Status::BadFlag);
        }
        if self.remote > 1 {
            return Err(Status::BadFlag);
        }
        let Some(id) = self.id() else {
            return Err(Status::BadIdentifier);
        };
        match self.frame_of(id) {
            Some(frame) => Ok(frame),
            None => Err(Status::BadDlc),
        }
    }

    /// The frame with this identifier, if the DLC is at most 15.
    fn frame_of(&self, id: Id) -> Option<Frame>
        ensures none { IsNone result → 15 < self.now.dlc }
        ensures within { IfSome result (λ f. self.now.dlc ≤ 15) }
        ensures frame { IfSome result (λ f. f ≡ record { id = id; remote = self.now.remote == 1; dlc = self.now.dlc; bytes = take (byte_count (self.now.remote == 1) self.now.dlc) self.now.bytes }) }
    {
        if self.remote == 1 {
            return Frame::remote(id, self.dlc).ok();
        }
        Frame::data(id, self.dlc, self.used_bytes()).ok()
    }

    /// The identifier, if it is in the range of its kind.
    fn id(&self) -> Option<Id>
        requires { self.now.extended < 2 }
        ensures none { IsNone result → ident_count (self.now.extended == 1) ≤ self.now.identifier }
        ensures within { IfSome result (λ id. self.now.identifier < ident_count (self.now.extended == 1)) }
        ensures id { IfSome result (λ id. id ≡ ident_of_plain self.now) }
    {
        if self.extended == 1 {
            return Id::extended(self.identifier);
        }
        if self.identifier < 0x800 {
            return Id::standard(self.identifier as u16);
        }
        None
    }

    /// The data bytes of a data frame with this DLC.
    fn used_bytes(&self) -> &[u8]
        ensures { result.now ≡ take (byte_count false self.now.dlc) self.now.bytes }
    {
        &self.bytes[..usize::from(self.dlc).min(8)]
    }

    /// Returns the plain fields of a frame.
    #[tactic(auto, using(crate::proofs::FrameLemmas::few_bytes))]
    pub fn of(frame: &Frame) -> PlainFrame
        ensures { result ≡ plain_frame frame.now }
    {
        PlainFrame {
            identifier: frame.id().raw(),
            extended: u8::from(frame.is_extended()),
            remote: u8::from(frame.is_remote()),
            dlc: frame.dlc(),
            bytes: padded(frame.bytes()),
        }
    }
}

impl PlainHeard {
    /// Returns the plain fields of a frame as received.
    pub fn of(heard: &Heard) -> PlainHeard
        ensures { result ≡ plain_heard heard.now }
    {
        PlainHeard {
            frame: PlainFrame::of(&heard.frame()),
            acknowledged: u8::from(heard.acked()),
            srr: heard.srr().code(),
            r1: heard.r1().code(),
            r0: heard.r0().code(),
            last: heard.last().code(),
        }
    }
}

/// These bytes, padded with zeros.
fn padded(bytes: &[u8]) -> [u8; 8]
    requires { length bytes.now ≤ 8 }
    ensures { result ≡ bytes.now ++ replicate (8 - length bytes.now) 0 }
{
    let mut data = [0; 8];
    data[..bytes.len()].copy_from_slice(bytes);
    data
}
