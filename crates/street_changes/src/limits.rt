//! Changes.

/// A limit of a signal.
#[derive(Clone, Copy)]
pub enum SignalLimit {
    /// The common red, a part less.
    Red,
    /// The outbound left turn, a part less.
    LeftOut,
    /// The inbound left turn, a part less.
    LeftIn,
    /// The outbound clearance, a part less.
    ClearOut,
    /// The inbound clearance, a part less.
    ClearIn,
    /// All four patterns.
    Patterns,
}

/// A limit of a link.
#[derive(Clone, Copy)]
pub enum LinkLimit {
    /// The greatest outbound speed, a unit more.
    MostSpeedOut,
    /// The greatest inbound speed, a unit more.
    MostSpeedIn,
    /// The least outbound speed, a unit less.
    LeastSpeedOut,
    /// The least inbound speed, a unit less.
    LeastSpeedIn,
    /// The least change of pace outbound, one less.
    LeastChangeOut,
    /// The greatest change of pace outbound, one more.
    MostChangeOut,
    /// The least change of pace inbound, one less.
    LeastChangeIn,
    /// The greatest change of pace inbound, one more.
    MostChangeIn,
}

/// A limit of the whole street.
#[derive(Clone, Copy)]
pub enum StreetLimit {
    /// The least cycle, a second less.
    LeastCycle,
    /// The greatest cycle, a second more.
    MostCycle,
    /// The least outbound band, a hundredth of the cycle less.
    LeastOut,
    /// The least inbound band, a hundredth of the cycle less.
    LeastIn,
}

/// One limit that is let out.
#[derive(Clone, Copy)]
pub enum Change {
    /// None: the street as it is.
    AsItIs,
    /// One of a signal, from 1 on.
    OfSignal { signal: u32, limit: SignalLimit },
    /// One of a link, from 1 on.
    OfLink { link: u32, limit: LinkLimit },
    /// One of the whole street.
    OfStreet { limit: StreetLimit },
}
