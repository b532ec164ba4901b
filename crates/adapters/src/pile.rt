//! A pile of three adapters over any port, and a list of calls run on its top.
use crate::adapter::Adapter;
use port::numbers::Limits;

mod build;

pub use build::run_on_pile;

/// A narrower to words of the width `V`, over a splitter, over a widener to words of the width `U`, over any port.
pub type Pile<P, U, V> = Adapter<Adapter<Adapter<P, U>, U>, V>;

/// What is chosen of a pile's adapters, bottom first.
#[derive(Clone, Copy)]
pub struct PileLimits {
    pub widener: Limits,
    pub splitter: Limits,
    pub narrower_pending: u8,
}
