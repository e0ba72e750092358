ghost use Rattle.std.specs.Prelude.{◌≡◌, length, map};
ghost use Rattle.can_frame.specs.Levels.{level_code};
ghost use Rattle.can_node.specs.Ports.{port_drives};
ghost use Rattle.can_bus.specs.Wired.{wired as wired_of};

use can_frame::Level;
use can_node::Port;
use std::simd::prelude::*;

/// The number of levels that are wired at once, which is the number of lanes of `u8x32`.
const LANES: usize = 32;

/// A full vector of levels as lanes.
fn lanes(levels: &[Level; LANES]) -> u8x32
    ensures lanes { result ≡ map level_code levels.now }
    ensures whole { length result ≡ 32 }
{
    let mut bits = [0; LANES];
    for place in 0..LANES {
        bits[place] = levels[place].code();
    }
    u8x32::from_array(bits)
}

/// The wired level of a full vector of levels, by lanes.
fn wired_lanes(levels: &[Level; LANES]) -> Level
    ensures { result ≡ wired_of levels.now }
{
    let dominant = lanes(levels).simd_eq(u8x32::splat(0)).to_bitmask();
    Level::from_bool(dominant == 0)
}

/// The wired level of a few levels, one by one.
fn wired_plainly(levels: &[Level]) -> Level
    ensures { result ≡ wired_of levels.now }
{
    for level in levels {
        if !level.is_recessive() {
            return Level::Dominant;
        }
    }
    Level::Recessive
}

/// The level of a bus line on which these levels are driven: dominant if one of them is, otherwise recessive (Bosch
/// CAN 2.0 part B, section 2). Full vectors of levels are wired by lanes.
pub fn wired(levels: &[Level]) -> Level
    ensures { result ≡ wired_of levels.now }
{
    let (vectors, rest) = levels.as_chunks::<LANES>();
    for vector in vectors {
        if !wired_lanes(vector).is_recessive() {
            return Level::Dominant;
        }
    }
    wired_plainly(rest)
}

/// The wired level of a full vector of ports.
fn wired_vector<P: Port>(ports: &[P]) -> Level
    requires { length ports.now ≡ 32 }
    ensures { result ≡ wired_of (map port_drives (map P.port ports.now)) }
{
    let mut levels = [Level::Recessive; LANES];
    for (node, port) in ports.iter().enumerate() {
        levels[node] = port.drive();
    }
    wired(&levels)
}

/// The wired level of ports, one by one. For fewer ports than a full vector this is faster.
#[inline(always)]
fn wired_one_by_one<P: Port>(ports: &[P]) -> Level
    ensures { result ≡ wired_of (map port_drives (map P.port ports.now)) }
{
    for port in ports {
        if !port.drive().is_recessive() {
            return Level::Dominant;
        }
    }
    Level::Recessive
}

/// The wired level of all ports.
#[inline(always)]
pub(crate) fn wired_level<P: Port>(ports: &[P]) -> Level
    ensures { result ≡ wired_of (map port_drives (map P.port ports.now)) }
{
    let mut ahead = ports;
    while ahead.len() >= LANES {
        let (vector, rest) = ahead.split_at(LANES);
        if !wired_vector(vector).is_recessive() {
            return Level::Dominant;
        }
        ahead = rest;
    }
    wired_one_by_one(ahead)
}
