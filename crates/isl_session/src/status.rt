//! How a run ended.

ghost use Rattle.std.specs.Prelude.{◌≡◌};
ghost use Rattle.std.specs.Option.{option_copied};
ghost use Rattle.isl_session.specs.Status.{exit_code};

use isl_meter::Meter;
use isl_refusal::Refusal;
use std::marker::Model;

/// How a run ended: with no refusal, or with which one; and the session's meter as the run left it.
#[derive(Drop)]
pub struct Status {
    refusal: Option<Refusal>,
    meter: Option<Meter>,
}

impl Model for Status {
    ghost use Rattle.isl_session.specs.Status.{StatusView};

    ghost Value = { StatusView };

    ghost view = { λ s. record { refusal = s.refusal; meter = s.meter } };
}

impl Status {
    pub(crate) fn new(refusal: Option<Refusal>, meter: Option<Meter>) -> Status
        ensures { result ≡ record { refusal = refusal; meter = meter } }
    {
        Status { refusal, meter }
    }

    /// The exit status: 0, or that of the refusal.
    pub fn code(&self) -> u8
        ensures { result ≡ exit_code self.now.refusal }
    {
        match self.refusal {
            None => 0,
            Some(refusal) => refusal.code(),
        }
    }

    /// The session's meter as the run left it. There was no session where the command line was refused.
    pub fn meter(&self) -> Option<&Meter>
        ensures { option_copied result ≡ self.now.meter }
    {
        self.meter.as_ref()
    }
}
