//! A wire and a clock that are lent serve as those that are owned. A sink that is lent takes the commands, and not their frames.
ghost use Rattle.std.specs.Prelude.{◌≡◌};

use crate::{Clock, FrameSink, Heard, Reading, Sink, Wire, Writing};
use blot_desk::{DeskFault, Reply};
use blot_tag::Frame;
use blot_time::Moment;
use blot_types::Command;

impl<W: Wire> Wire for &mut W {
    ghost use Rattle.std.specs.Prelude.{◌≡◌};

    ghost does = { λ before did after. W.does before.now did after.now × (after.ghost_name ≡ before.ghost_name) };

    ghost failures = { λ wire. W.failures wire.now };

    fn read_some(&mut self, buffer: &mut [u8]) -> Reading {
        (**self).read_some(buffer)
    }

    fn write_some(&mut self, text: &[u8]) -> Writing {
        (**self).write_some(text)
    }

    fn faults(&self) -> u64 {
        (**self).faults()
    }
}

impl<C: Clock> Clock for &mut C {
    ghost use Rattle.std.specs.Prelude.{◌≡◌};

    ghost ticks = { λ before moment after. C.ticks before.now moment after.now × (after.ghost_name ≡ before.ghost_name) };

    fn now(&mut self) -> Moment {
        (**self).now()
    }
}

impl<S: Sink> FrameSink for &mut S {
    ghost use Rattle.std.specs.Prelude.{◌≡◌};
    ghost use Rattle.blot_gateway.specs.Wires.{hands};

    ghost takes = { λ before notice after. hands S.takes before.now notice after.now × (after.ghost_name ≡ before.ghost_name) };

    fn take(&mut self, _frame: &Frame, command: Command) -> Result<Reply, DeskFault> {
        (**self).take(command)
    }

    fn hear(&mut self, _frame: &Frame, _heard: Heard) {}
}

/// Takes a reference back: this use of it is what ties it to the parameter that was lent.
pub(crate) fn take_back<T>(lent: &mut T)
    ensures { lent.new ≡ lent.old }
{}
