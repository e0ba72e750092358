//! The ends of moves: the leaves of can_mac/specs/Moves.antt. (Bosch CAN 2.0 part B, sections 3.2 and 8)
ghost use Rattle.std.specs.Prelude.{◌≡◌, ◌+◌, ◌-◌, ◌<◌, ◌≤◌, ℕ, Bool, true, false, nat_lt, if◌then◌else◌, Option, Some, None};
ghost use Rattle.can_frame.specs.Levels.{is_recessive};
ghost use Rattle.can_fault.specs.declared.cause.Cause.{Cause};
ghost use Rattle.can_terms.specs.declared.event.ErrorKind.{ErrorKind};
ghost use Rattle.can_mac.specs.declared.phase.Role.{Role};
ghost use Rattle.can_mac.specs.declared.phase.Role.TheVariants.{Receiver};
ghost use Rattle.can_mac.specs.declared.phase.Phase.TheVariants.{Idle};
ghost use Rattle.can_terms.specs.Codes.{error_code};
ghost use Rattle.can_mac.specs.Moves.{begins_frame, errs_by, errs, errs_in_flag, form_kind, overload, goes};
ghost use Rattle.can_gates.specs.Circuit.{value};
ghost use Rattle.can_gates_mac.specs.Nibbles.{nibble};
ghost use Rattle.can_gates_mac.specs.Numbers.{numbers, is_sender, cause_number};
ghost use Rattle.can_gates_mac.specs.Shown.{shown};
ghost use Rattle.can_gates_mac.specs.Sensed.{WhereSensed, going, run_with};

use crate::nibble::Nibble;
use crate::numbers::{
    ACK_ERROR, AFTER_FLAG, BIT_ERROR, IDLE, LOST, OVERLOAD, OVERLOAD_FLAG, PASSIVE_FLAG,
    STUFFED_PART, UNCOUNTED, UNTOLD,
};
use crate::senses::Senses;
use crate::wires::Wires;
use can_gates::{FALSE, Literal, TRUE};

impl Senses {
    /// Another phase or place, with this cause and event.
    pub(crate) fn goes(&self, phase: u8, place: Nibble, cause: u8, event: u8) -> Wires
        requires phase { phase < 16 }
        requires cause { cause < 16 }
        requires event { event < 16 }
        ensures { WhereSensed self.now (λ v s p x. (n : ℕ) → nibble v place ≡ n → shown v result ≡ going s phase n cause event) }
    {
        Wires {
            phase: Nibble::of(phase),
            place,
            last: FALSE,
            unacknowledged: FALSE,
            first: FALSE,
            sender: self.sender,
            pending: self.pending,
            used: self.used,
            cause: Nibble::of(cause),
            event: Nibble::of(event),
        }
    }

    /// An error of a transmitter or a receiver: an error flag starts.
    pub(crate) fn errs_by(&self, sender: Literal, cause: Nibble, kind: Nibble) -> Wires
        ensures { WhereSensed self.now (λ v s p x. (role : Role) (c : Option Cause) (e : ErrorKind) → value v sender ≡ is_sender role → nibble v cause ≡ cause_number c → nibble v kind ≡ error_code e → shown v result ≡ numbers (errs_by c false (record s { role = role }) e)) }
    {
        Wires {
            phase: flag_of(self.passive),
            place: Nibble::of(0),
            last: self.passive,
            unacknowledged: FALSE,
            first: FALSE,
            sender,
            pending: self.pending,
            used: self.used,
            cause,
            event: kind,
        }
    }

    /// An error in a frame or in a delimiter.
    pub(crate) fn errs(&self, kind: Nibble) -> Wires
        ensures { WhereSensed self.now (λ v s p x. (e : ErrorKind) → nibble v kind ≡ error_code e → shown v result ≡ numbers (errs s e)) }
    {
        self.errs_by(self.sender, error_cause_of(self.sender), kind)
    }

    /// An error of fixed form in a frame.
    pub(crate) fn errs_in_form(&self) -> Wires
        ensures { WhereSensed self.now (λ v s p x. shown v result ≡ numbers (errs s (form_kind s.role))) }
    {
        self.errs(form_kind_of(self.sender))
    }

    /// A bit error in an own active error flag or overload flag.
    pub(crate) fn errs_in_flag(&self) -> Wires
        ensures { WhereSensed self.now (λ v s p x. shown v result ≡ numbers (errs_in_flag s)) }
    {
        let cause = flag_bit_cause_of(self.sender);
        self.errs_by(self.sender, cause, Nibble::of(BIT_ERROR))
    }

    /// A frame starts.
    pub(crate) fn begins_frame(&self, sender: Literal) -> Wires
        ensures { WhereSensed self.now (λ v s p x. (role : Role) → value v sender ≡ is_sender role → shown v result ≡ numbers (begins_frame s role)) }
    {
        Wires {
            phase: Nibble::of(STUFFED_PART),
            place: Nibble::of(0),
            last: FALSE,
            unacknowledged: FALSE,
            first: FALSE,
            sender,
            pending: self.pending,
            used: Nibble::of(0),
            cause: Nibble::of(UNCOUNTED),
            event: Nibble::of(UNTOLD),
        }
    }

    /// An overload flag of the controller's own starts.
    pub(crate) fn own_overload(&self) -> Wires
        ensures { WhereSensed self.now (λ v s p x. nat_lt s.overloads.used 2 ≡ true → shown v result ≡ numbers (record (overload s) { overloads = record { pending = s.overloads.pending - 1; used = s.overloads.used + 1 } })) }
    {
        Wires {
            phase: Nibble::of(OVERLOAD_FLAG),
            place: Nibble::of(0),
            last: FALSE,
            unacknowledged: FALSE,
            first: FALSE,
            sender: self.sender,
            pending: fewer_than(self.pending),
            used: more_than(self.used),
            cause: Nibble::of(UNCOUNTED),
            event: Nibble::of(OVERLOAD),
        }
    }

    /// No frame is on the bus, and the controller may send.
    pub(crate) fn rests(&self) -> Wires
        ensures { WhereSensed self.now (λ v s p x. shown v result ≡ numbers (goes (record s { role = Receiver }) Idle)) }
    {
        Wires {
            phase: Nibble::of(IDLE),
            place: Nibble::of(0),
            last: FALSE,
            unacknowledged: FALSE,
            first: FALSE,
            sender: FALSE,
            pending: self.pending,
            used: self.used,
            cause: Nibble::of(UNCOUNTED),
            event: Nibble::of(UNTOLD),
        }
    }

    /// An error passive transmitter has no acknowledgment.
    pub(crate) fn lacks_acknowledgement(&self) -> Wires
        ensures { WhereSensed self.now (λ v s p x. shown v result ≡ record (going s 8 0 0 8) { last = true; unacknowledged = true }) }
    {
        Wires {
            phase: Nibble::of(PASSIVE_FLAG),
            place: Nibble::of(0),
            last: TRUE,
            unacknowledged: TRUE,
            first: FALSE,
            sender: self.sender,
            pending: self.pending,
            used: self.used,
            cause: Nibble::of(UNCOUNTED),
            event: Nibble::of(ACK_ERROR),
        }
    }

    /// An error flag has ended.
    pub(crate) fn ends_error_flag(&self, cause: u8) -> Wires
        requires { cause < 16 }
        ensures { WhereSensed self.now (λ v s p x. shown v result ≡ record (going s 10 0 cause 0) { first = true }) }
    {
        Wires {
            phase: Nibble::of(AFTER_FLAG),
            place: Nibble::of(0),
            last: FALSE,
            unacknowledged: FALSE,
            first: TRUE,
            sender: self.sender,
            pending: self.pending,
            used: self.used,
            cause: Nibble::of(cause),
            event: Nibble::of(UNTOLD),
        }
    }

    /// A passive error flag continues.
    pub(crate) fn stays_in_passive_flag(&self, unacknowledged: Literal, cause: u8) -> Wires
        requires { cause < 16 }
        ensures { WhereSensed self.now (λ v s p x. (u : Bool) → value v unacknowledged ≡ u → shown v result ≡ record (going s 8 (run_with p x) cause 0) { last = is_recessive x; unacknowledged = u }) }
    {
        Wires {
            phase: Nibble::of(PASSIVE_FLAG),
            place: self.run,
            last: self.recessive,
            unacknowledged,
            first: FALSE,
            sender: self.sender,
            pending: self.pending,
            used: self.used,
            cause: Nibble::of(cause),
            event: Nibble::of(UNTOLD),
        }
    }

    /// Arbitration is lost.
    pub(crate) fn loses(&self, phase: u8) -> Wires
        requires { phase < 16 }
        ensures { WhereSensed self.now (λ v s p x. shown v result ≡ record (going s phase 0 0 3) { sender = false }) }
    {
        Wires {
            phase: Nibble::of(phase),
            place: Nibble::of(0),
            last: FALSE,
            unacknowledged: FALSE,
            first: FALSE,
            sender: FALSE,
            pending: self.pending,
            used: self.used,
            cause: Nibble::of(UNCOUNTED),
            event: Nibble::of(LOST),
        }
    }
}

/// One less than a number of at most two; 0 stays 0.
fn fewer_than(pending: Nibble) -> Nibble
    ensures { (v : ℕ → Bool) → v 0 ≡ false → nibble v pending ≤ 2 → nibble v result ≡ nibble v pending - 1 }
{
    Nibble {
        ones: pending.twos,
        twos: FALSE,
        fours: FALSE,
        eights: FALSE,
    }
}

/// One more than a number of at most one.
fn more_than(used: Nibble) -> Nibble
    ensures { (v : ℕ → Bool) → v 0 ≡ false → nat_lt (nibble v used) 2 ≡ true → nibble v result ≡ nibble v used + 1 }
{
    Nibble {
        ones: used.ones.opposite(),
        twos: used.ones,
        fours: FALSE,
        eights: FALSE,
    }
}

/// The phase of an error flag that starts. (Bosch CAN 2.0 part B, section 3.2.3)
fn flag_of(passive: Literal) -> Nibble
    ensures { (v : ℕ → Bool) → v 0 ≡ false → nibble v result ≡ (if value v passive then 8 else 7) }
{
    Nibble {
        ones: passive.opposite(),
        twos: passive.opposite(),
        fours: passive.opposite(),
        eights: passive,
    }
}

/// The cause of an error in a frame or in a delimiter.
fn error_cause_of(sender: Literal) -> Nibble
    ensures { (v : ℕ → Bool) → v 0 ≡ false → nibble v result ≡ (if value v sender then 3 else 1) }
{
    Nibble {
        ones: TRUE,
        twos: sender,
        fours: FALSE,
        eights: FALSE,
    }
}

/// The cause of an error in an own flag.
fn flag_bit_cause_of(sender: Literal) -> Nibble
    ensures { (v : ℕ → Bool) → v 0 ≡ false → nibble v result ≡ (if value v sender then 3 else 2) }
{
    Nibble {
        ones: sender,
        twos: TRUE,
        fours: FALSE,
        eights: FALSE,
    }
}

/// The event of an error of fixed form.
fn form_kind_of(sender: Literal) -> Nibble
    ensures { (v : ℕ → Bool) → v 0 ≡ false → nibble v result ≡ (if value v sender then 4 else 7) }
{
    Nibble {
        ones: sender.opposite(),
        twos: sender.opposite(),
        fours: TRUE,
        eights: FALSE,
    }
}
