ghost use Rattle.std.specs.Prelude.{◌≡◌, ◌≢◌, ◌<◌, ◌≤◌, ◌↔◌, ◌-◌, ◌*◌, ◌^◌, ◌++◌, [], drop, min, length, replicate, IfOk, IsErrOf, IsOk, IsTrue, true, false, ℕ, slice_index, take};
ghost use Rattle.std.proofs.Common.{rules};
ghost use Rattle.std.specs.Int.{to_be_bytes, w64};
ghost use Rattle.std.specs.Cmp.Rules.{comparing};
ghost use Rattle.can_frame.specs.Parts.{byte_count, IsFrame, same_parts};

use crate::id::Id;
use std::marker::Model;
use thiserror::Error;

/// Why no frame was made.
#[derive(Clone, Copy, Debug, PartialEq, Eq, Error)]
pub enum FrameFault {
    /// The DLC is above 15.
    #[error("the data length code is above 15")]
    DlcAbove15,
    /// The number of data bytes is not the lesser of the DLC and 8.
    #[error("the number of data bytes is not that of the data length code")]
    WrongByteCount,
}

/// A data frame or a remote frame, with a standard or an extended identifier (Bosch CAN 2.0 part B, section 3.1). Two
/// frames are equal exactly if all their getters agree.
#[derive(Clone, Copy, Debug)]
pub struct Frame {
    id: Id,
    remote: bool,
    dlc: u8,
    store: [u8; 8],
}

impl Model for Frame {
    ghost use Rattle.std.specs.Prelude.{◌≡◌, ◌<◌, ◌-◌, ◌++◌, length, take, drop, replicate};
    ghost use Rattle.std.proofs.Common.{ap};
    ghost use Rattle.can_frame.specs.Parts.{Parts, byte_count};
    ghost use Rattle.can_frame.specs.Stored.{stored_again, byte_count_le};

    ghost Value = { Parts };

    ghost view = { λ a. record { id = a.id; remote = a.remote; dlc = a.dlc; bytes = take (byte_count a.remote a.dlc) a.store } };

    ghost invariant = { λ a. (a.dlc < 16) × (length a.store ≡ 8) × (drop (byte_count a.remote a.dlc) a.store ≡ replicate (8 - byte_count a.remote a.dlc) 0) };

    ghost inverse = { λ v. record { id = v.id; remote = v.remote; dlc = v.dlc; store = v.bytes ++ replicate (8 - length v.bytes) 0 } };

    ghost inverse_ok = { λ a h. ap (λ bytes. record { id = a.id; remote = a.remote; dlc = a.dlc; store = bytes }) (stored_again (byte_count a.remote a.dlc) a.store (byte_count_le a.remote a.dlc) h.1 h.2) };
}

impl PartialEq for Frame {
    ghost eq = { same_parts };

    ghost laws = { Prim.search (comparing, rules) depth 9 };

    fn eq(&self, other: &Frame) -> bool
        ensures test { result ≡ same_parts self.now other.now }
        ensures equal { IsTrue result ↔ (self.now ≡ other.now) }
    {
        self.id == other.id
            && self.remote == other.remote
            && self.dlc == other.dlc
            && self.bytes() == other.bytes()
    }
}

impl Eq for Frame {
    ghost laws = { Prim.search (comparing, rules) depth 9 };
}

impl Frame {
    /// Returns the data frame with this identifier, DLC and data bytes. A DLC of 9 to 15 is kept as it is, and means
    /// eight bytes. The DLC is tested before the number of bytes. (Bosch CAN 2.0 part B, section 3.2.1)
    pub fn data(id: Id, dlc: u8, bytes: &[u8]) -> Result<Frame, FrameFault>
        ensures dlc_above_15 { IsErrOf result FrameFault.DlcAbove15 ↔ (15 < dlc) }
        ensures wrong_byte_count { IsErrOf result FrameFault.WrongByteCount ↔ ((dlc ≤ 15) × (length bytes.now ≢ min dlc 8)) }
        ensures made { IsOk result ↔ ((dlc ≤ 15) × (length bytes.now ≡ min dlc 8)) }
        ensures parts { IfOk result (λ f. f ≡ record { id = id; remote = false; dlc = dlc; bytes = bytes.now }) }
    {
        let count = bytes.len();
        if dlc > 15 {
            return Err(FrameFault::DlcAbove15);
        }
        if count != usize::from(dlc).min(8) {
            return Err(FrameFault::WrongByteCount);
        }
        let mut store = [0; 8];
        store[..count].copy_from_slice(bytes);
        Ok(Frame {
            id,
            remote: false,
            dlc,
            store,
        })
    }

    /// Returns the data frame whose data bytes are the lowest bytes of a number, the highest of them first. It is the
    /// frame that [`data`](Frame::data) makes of these bytes. (Bosch CAN 2.0 part B, section 3.2.1)
    pub fn data_of_number(id: Id, dlc: u8, number: u64) -> Frame
        requires range { dlc < 16 }
        requires small { number < 2 ^ (8 * min dlc 8) }
        ensures { result ≡ record { id = id; remote = false; dlc = dlc; bytes = drop (8 - min dlc 8) (to_be_bytes w64 number) } }
    {
        // two shifts, since the whole shift may be by 64 bits
        let half = 4 * (8 - dlc.min(8));
        Frame {
            id,
            remote: false,
            dlc,
            store: ((number << half) << half).to_be_bytes(),
        }
    }

    /// Returns the remote frame with this identifier and DLC. It has no data bytes, whatever its DLC.
    pub fn remote(id: Id, dlc: u8) -> Result<Frame, FrameFault>
        ensures dlc_above_15 { IsErrOf result FrameFault.DlcAbove15 ↔ (15 < dlc) }
        ensures made { IsOk result ↔ (dlc ≤ 15) }
        ensures parts { IfOk result (λ f. f ≡ record { id = id; remote = true; dlc = dlc; bytes = [] }) }
    {
        if dlc > 15 {
            return Err(FrameFault::DlcAbove15);
        }
        Ok(Frame {
            id,
            remote: true,
            dlc,
            store: [0; 8],
        })
    }

    /// The identifier.
    pub fn id(&self) -> Id
        ensures { result ≡ self.now.id }
    {
        self.id
    }

    /// Whether the identifier has 29 bits.
    pub fn is_extended(&self) -> bool
        ensures { result ≡ self.now.id.extended }
    {
        self.id.is_extended()
    }

    /// Whether this is a remote frame.
    pub fn is_remote(&self) -> bool
        ensures { result ≡ self.now.remote }
    {
        self.remote
    }

    /// The DLC as given, 0 to 15.
    pub fn dlc(&self) -> u8
        ensures value { result ≡ self.now.dlc }
        ensures range { result < 16 }
    {
        self.dlc
    }

    /// The data bytes. A remote frame has none; a data frame has the lesser of the DLC and 8.
    pub fn bytes(&self) -> &[u8]
        ensures value { result.now ≡ self.now.bytes }
        ensures whole { IsFrame self.now }
    {
        let count = if self.remote {
            0
        } else {
            usize::from(self.dlc).min(8)
        };
        // gives callers the range of the identifier
        let _ = self.id.raw();
        front(&self.store, count)
    }

    /// The data bytes, followed by zeros to eight bytes.
    pub fn octets(&self) -> [u8; 8]
        ensures { result ≡ self.now.bytes ++ replicate (8 - length self.now.bytes) 0 }
    {
        self.store
    }
}

/// The first bytes of the store.
fn front(store: &[u8], count: usize) -> &[u8]
    requires { count ≤ length store.now }
    ensures value { result.now ≡ take count store.now }
    ensures small { (k : ℕ) → slice_index result.now k < 256 }
{
    &store[..count]
}
