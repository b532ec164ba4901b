//! The adapter: a port over any port.
ghost use Rattle.std.specs.Prelude.{◌≡◌};
ghost use Rattle.adapters.specs.Kept.{Kept};

use crate::cut::{Shape, Slot};
use crate::owed::{Collected, OwedBursts};
use port::ports::Port;
use port::record::PortRecord;
use port::width::Width;
use std::marker::PhantomData;

mod build;
mod clocks;
mod steps;

pub use build::{narrower, splitter, widener};

/// What an adapter holds besides the port below.
#[derive(Drop)]
pub(crate) struct Engine {
    plain: PortRecord,
    shape: Shape,
    slot: Slot,
    owed: OwedBursts,
    collected: Collected,
}

/// A port with words of the width `W`, over any port.
#[derive(Drop)]
pub struct Adapter<P: Port, W: Width> {
    below: P,
    engine: Engine,
    width: PhantomData<W>,
    pub ghost kept: { ∥ Kept (P.fixed below) (P.state below) engine ∥₁ },
    pub ghost wide: { engine.plain.numbers.width ≡ W.BYTES },
    pub ghost shaped: { engine.shape.width ≡ W.BYTES },
}
