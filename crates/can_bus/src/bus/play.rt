//! A run of a bus to whose ports frames are offered at run time.
ghost use Rattle.std.specs.Prelude.{ℕ, ◌≡◌, ◌↔◌, length, Ok, IsOk, OnOk, OnErr, IfErr, IfOk};
ghost use Rattle.can_bus.specs.Offers.{AreOffered, IsFirstOfferFault, played, played_level, refused};
ghost use Rattle.can_bus.specs.OpenBus.{AreOver, OnOpenCall, OpenLogBegins, OpenLogWhole};
ghost use Rattle.can_bus.specs.Quiet.{AtEachPort, CountsNothing, MissesNothing, AtEachNode};
ghost use Rattle.can_bus.specs.Run.{AreLevelsOf};
ghost use Rattle.can_bus.specs.Schedule.{track_at};
ghost use Rattle.can_bus.specs.State.{bus_state, port_count, port_states};

use crate::bus::Bus;
use crate::fault::BusFault;
use crate::offer::Offer;
use can_frame::Level;
use can_node::Port;

impl<P: Port> Bus<P> {
    /// Runs one bit time for each place of `rec`, with offers, and records the level of each. It returns how many
    /// offers found a full queue. Each offer is made just before its bit time; those of one bit time in the order of
    /// the list. Offers at or after the end of `rec` are not made.
    ///
    /// No offer may be earlier than the one before it, and each must name a port of the bus. Otherwise it returns the
    /// first fault, the order being checked before the port; nothing has run, and `rec` and all ports are unchanged.
    /// It allocates no memory. Its work is proportional to the offers, and to ports and bit times; a bus at rest
    /// takes no time per port.
    ///
    /// On an open bus: it has two ports or more, all idle, with both counters 0 and no overload frame requested; each
    /// queue has capacity for all that its port holds and is offered, each log is empty with capacity for all frames;
    /// no two frames have the same arbitration field. Then each frame starts according to the schedule, and the
    /// recorded levels are those of its track. Each log has the frames in the order of their starts, as sent at the
    /// port that had the frame, and as received at each other port; after the last level of the last frame it has
    /// them all. No offer is returned, no counter changes, and no entry is missed.
    pub fn play(&mut self, offers: &[Offer], rec: &mut [Level]) -> Result<usize, BusFault>
        ensures taken { IsOk result ↔ AreOffered (port_count self.old) offers.now }
        ensures fault { IfErr result (λ fault. IsFirstOfferFault (port_count self.old) offers.now fault) }
        ensures bus { OnOk result (bus_state P.port self.new ≡ played offers.now (length rec.new) (bus_state P.port self.old)) }
        ensures levels { OnOk result (AreLevelsOf (λ t. played_level offers.now t (bus_state P.port self.old)) rec.new) }
        ensures count { IfOk result (λ count. count ≡ refused offers.now (length rec.new) (bus_state P.port self.old)) }
        ensures answer { OnOpenCall offers.now (port_states P.port self.old) (λ starts. result ≡ Ok 0) }
        ensures track { OnOpenCall offers.now (port_states P.port self.old) (λ starts. AreLevelsOf (track_at starts) rec.new) }
        ensures open_logs { OnOpenCall offers.now (port_states P.port self.old) (λ starts.
            AtEachNode (OpenLogBegins offers.now starts) (port_states P.port self.old) (port_states P.port self.new)) }
        ensures open_whole { OnOpenCall offers.now (port_states P.port self.old) (λ starts. AreOver starts (length rec.new) →
            AtEachNode (OpenLogWhole offers.now starts) (port_states P.port self.old) (port_states P.port self.new)) }
        ensures open_counters { OnOpenCall offers.now (port_states P.port self.old) (λ starts.
            AtEachPort CountsNothing (port_states P.port self.old) (port_states P.port self.new)) }
        ensures open_missed { OnOpenCall offers.now (port_states P.port self.old) (λ starts.
            AtEachPort MissesNothing (port_states P.port self.old) (port_states P.port self.new)) }
        ensures unchanged { OnErr result (self.new ≡ self.old) }
        ensures unrecorded { OnErr result (rec.new ≡ rec.old) }
    {
        self.play_disturbed(offers, &[], rec)
    }
}
