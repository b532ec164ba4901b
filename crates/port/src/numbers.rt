//! The six fixed numbers of a port, and the two of them that are chosen.

/// What is chosen of a port when it is built.
#[derive(Clone, Copy)]
pub struct Limits {
    /// The most beats of a burst.
    pub burst: u8,
    /// The most read bursts owed at once.
    pub pending: u8,
}

// The two limits stand flat here: every law of the machine names one or the other alone.

/// What never changes of a port.
#[derive(Clone, Copy)]
pub struct Numbers {
    /// Bytes per word.
    pub width: u8,
    /// How many words it has.
    pub words: u32,
    /// The most beats of a burst.
    pub burst_limit: u8,
    /// The most read bursts owed at once.
    pub pending_limit: u8,
    /// The most waits of one command.
    pub wait_bound: u32,
    /// The most clocked calls in a row that bring no word while one is owed.
    pub silence_bound: u32,
}
