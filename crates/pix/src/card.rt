//! A card: one of the stores and piles of layers that the tool can make.

ghost use Rattle.pix.specs.Cards.{card};
ghost use Rattle.pix.specs.CardLimits.{card_limits};

use layers::check::Check;
use layers::window::Window;
use store::bench::BenchStore;
use store::fault::Fault;
use store::plain::PlainStore;
use store::store::Store;

#[derive(Drop)]
pub enum Card {
    Plain(PlainStore),
    Checked(Check<PlainStore>),
    Windowed(Window<PlainStore>),
    Piled(Check<Window<PlainStore>>),
    Bench(BenchStore),
    CheckedBench(Check<BenchStore>),
}

/// Makes a call on the top store of a card, whichever that is.
macro_rules! on_top {
    ($card:expr, $store:ident => $call:expr) => {
        match $card {
            Card::Plain($store) => $call,
            Card::Checked($store) => $call,
            Card::Windowed($store) => $call,
            Card::Piled($store) => $call,
            Card::Bench($store) => $call,
            Card::CheckedBench($store) => $call,
        }
    };
}

impl Store for Card {
    ghost meaning = { card };

    ghost limits = { card_limits };

    fn count(&self) -> u32 {
        on_top!(self, store => store.count())
    }

    fn size(&self) -> u32 {
        on_top!(self, store => store.size())
    }

    fn tally(&self) -> u64 {
        on_top!(self, store => store.tally())
    }

    fn read(&mut self, block: u32, buffer: &mut [u8]) -> Result<(), Fault> {
        on_top!(self, store => store.read(block, buffer))
    }

    fn write(&mut self, block: u32, buffer: &[u8]) -> Result<(), Fault> {
        on_top!(self, store => store.write(block, buffer))
    }
}

impl Card {
    /// The plain store at the bottom, if there is one.
    pub fn plain(&mut self) -> Option<&mut PlainStore> {
        match self {
            Card::Plain(store) => Some(store),
            Card::Checked(layer) => Some(layer.below()),
            Card::Windowed(layer) => Some(layer.below()),
            Card::Piled(layer) => Some(layer.below().below()),
            Card::Bench(_) | Card::CheckedBench(_) => None,
        }
    }
}
