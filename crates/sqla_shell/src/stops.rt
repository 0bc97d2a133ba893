//! The causes of the layers below as causes of a run's stop.

ghost use Rattle.std.specs.Prelude.{◌≡◌};
ghost use Rattle.sqla_shell.specs.declared.stop.Stop.TheVariants.{Memory};
ghost use Rattle.sqla_shell.specs.Causes.{keeper_stop, read_stop, write_stop};

use crate::stop::Stop;
use base_core::Refusal;
use byte_streams::{ReadStop, SinkStop};
use std::alloc::AllocError;

impl From<ReadStop> for Stop {
    ghost from_gives = { λ stop own. own ≡ read_stop stop };

    fn from(stop: ReadStop) -> Stop {
        match stop {
            ReadStop::Fault => Stop::Read,
            ReadStop::Memory => Stop::Memory,
        }
    }
}

impl From<SinkStop> for Stop {
    ghost from_gives = { λ stop own. own ≡ write_stop stop };

    fn from(stop: SinkStop) -> Stop {
        match stop {
            SinkStop::Fault => Stop::Write,
            SinkStop::Memory => Stop::Memory,
        }
    }
}

impl From<AllocError> for Stop {
    ghost from_gives = { λ _ own. own ≡ Memory };

    fn from(_e: AllocError) -> Stop {
        Stop::Memory
    }
}

impl From<Refusal> for Stop {
    ghost from_gives = { λ refusal own. own ≡ keeper_stop refusal };

    fn from(refusal: Refusal) -> Stop {
        match refusal {
            Refusal::KeeperFault => Stop::Keeper,
            _ => Stop::Memory,
        }
    }
}
