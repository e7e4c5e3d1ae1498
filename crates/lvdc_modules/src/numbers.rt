ghost use Rattle.std.specs.Prelude.{◌≡◌, ◌<◌, ◌≤◌};
ghost use Rattle.lvdc_vote.specs.Numbers.{latches_of};

use crate::{
    Accumulator, AccumulatorState, Decoder, DecoderState, ExchangeState, Exchanger, Locator,
    LocatorState, Multiplier, MultiplierState, Selector, SelectorState, Timer, TimerState,
};
use lvdc_vote::{LogicModule, Vote};

/// How many latches the module of this number has, 1 to 7.
pub fn latches(number: u8) -> u8
    requires least { 1 ≤ number }
    requires greatest { number < 8 }
    ensures { result ≡ latches_of number }
{
    match number {
        Timer::NUMBER => TimerState::LATCHES,
        Locator::NUMBER => LocatorState::LATCHES,
        Decoder::NUMBER => DecoderState::LATCHES,
        Selector::NUMBER => SelectorState::LATCHES,
        Accumulator::NUMBER => AccumulatorState::LATCHES,
        Multiplier::NUMBER => MultiplierState::LATCHES,
        Exchanger::NUMBER => ExchangeState::LATCHES,
        _ => unreachable!(),
    }
}

const _: () = prove!(Timer::NUMBER == 1 && Locator::NUMBER == 2 && Decoder::NUMBER == 3);

const _: () = prove!(Selector::NUMBER == 4 && Accumulator::NUMBER == 5);

const _: () = prove!(Multiplier::NUMBER == 6 && Exchanger::NUMBER == 7);
