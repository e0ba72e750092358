//! The offers of a scenario, in the order in which they are made.
ghost use Rattle.std.specs.Prelude.{◌≡◌, ◌++◌, map, IfOk, OnOk};
ghost use Rattle.can_trace.specs.ScenarioOffers.{in_time, offer_to, offers_from};

use can_bus::Offer;
use can_scenario_text::{PortPlan, TimedFrame};
use std::alloc::{AllocError, Global};

/// Returns the offers to these ports in the order of time. Offers with the same time are in the order of the
/// ports, and those to one port in the order of its queue.
pub fn offers_in_time(alloc: Global, plans: &[PortPlan]) -> Result<Vec<Offer>, AllocError>
    ensures { IfOk result (λ offers. offers.items ≡ in_time (offers_from 0 plans.now)) }
{
    let mut offers = all_offers(alloc, plans)?;
    offers.sort_by_key(|offer| offer.time)?;
    Ok(offers)
}

/// The offers to these ports, in the order of the ports.
fn all_offers(alloc: Global, plans: &[PortPlan]) -> Result<Vec<Offer>, AllocError>
    ensures { IfOk result (λ offers. offers.items ≡ offers_from 0 plans.now) }
{
    let mut offers = Vec::new(alloc);
    for (node, plan) in plans.iter().enumerate() {
        add_offers(node, &plan.queue, &mut offers)?;
    }
    Ok(offers)
}

/// Adds the offers to the port with this number.
fn add_offers(node: usize, queue: &[TimedFrame], offers: &mut Vec<Offer>) -> Result<(), AllocError>
    ensures { OnOk result (offers.new.items ≡ offers.old.items ++ map (offer_to node) queue.now) }
{
    for timed in queue {
        offers.push(Offer {
            time: timed.time,
            node,
            frame: timed.frame,
        })?;
    }
    Ok(())
}
