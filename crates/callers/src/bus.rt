//! A bus with offers and hits.
use can_bus::{Bus, BusFault, Hit, Offer};
use can_frame::Level;
use can_node::PackedNode;

/// Runs these ports on one bus, one bit time for each place of `levels`, records the levels there, and returns the
/// ports. It is refused if there are no ports or more than 64, if an offer is earlier than the one before it, if a
/// hit is not above the one before it, or if one of them names no port.
pub fn played(
    ports: Vec<PackedNode>,
    offers: &[Offer],
    hits: &[Hit],
    levels: &mut [Level],
) -> Result<Vec<PackedNode>, BusFault> {
    match Bus::new(ports) {
        Ok(mut bus) => {
            bus.play_disturbed(offers, hits, levels)?;
            Ok(bus.into_ports())
        }
        Err((fault, _ports)) => Err(fault),
    }
}
