use crate::{
    AccumulatorState, DecoderState, ExchangeState, LocatorState, MultiplierState, SelectorState,
    TimerState,
};
use lvdc_word::Word;

/// What a module reads in a phase: a state of each module, voted or of single copies, and the words that came from memory
/// and port.
#[derive(Clone, Copy)]
pub struct Bus {
    pub timer: TimerState,
    pub locator: LocatorState,
    pub decoder: DecoderState,
    pub selector: SelectorState,
    pub accumulator: AccumulatorState,
    pub multiplier: MultiplierState,
    pub exchange: ExchangeState,
    /// The word that this phase read from memory, else 0.
    pub memory: Word,
    /// The word that this phase read from a port, else 0.
    pub port: Word,
}
