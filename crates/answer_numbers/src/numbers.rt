// The answers about runs, numbers and identities.
ghost use Rattle.std.specs.Prelude.{◌≡◌};
ghost use Rattle.ids.specs.Told.{run_told, seq_told, effect_id_told};

use crate::{Tell, TellAs};
use errors::Told;
use ids::{EffectId, EffectSeq, RunId};

// A run is told by its number.
impl TellAs for RunId {
    ghost tells_as = { run_told };

    fn told_as(self, number: u64) -> Told {
        Told::new(number, self.0, 0, 0, 0, 0)
    }
}

// A number is told as it is.
impl TellAs for EffectSeq {
    ghost tells_as = { seq_told };

    fn told_as(self, number: u64) -> Told {
        Told::new(number, self.0 as u64, 0, 0, 0, 0)
    }
}

// An identity is told by its run and its number, behind 0.
impl Tell for EffectId {
    ghost tells = { effect_id_told };

    fn told(self) -> Told {
        Told::new(0, self.run.0, self.seq.0 as u64, 0, 0, 0)
    }
}
