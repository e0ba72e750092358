/// An injected bit error in one bit time. Times are counted from the first bit time of the call.
///
/// Hits are ordered first by variant, as listed here, then by their numbers, as listed in each
/// variant.
#[derive(Clone, Copy, Debug, PartialEq, Eq, PartialOrd, Ord)]
pub enum Hit {
    /// The bus level is inverted at this time, for all nodes.
    At(u64),
    /// The bus level is inverted `offset` bit times after the start of this transmission attempt of
    /// the call, unless a later attempt has begun by then.
    In { attempt: u64, offset: u64 },
    /// This node alone samples the opposite of the recorded level at this time.
    View { time: u64, node: usize },
}
