// The verdict and the handover, for Rust or C.
ghost use Rattle.std.specs.Prelude.{◌≡◌};
ghost use Rattle.resume.specs.Verdict.{verdict_rule};
ghost use Rattle.resume.specs.Handing.{handed_rule};
ghost use Rattle.histories.specs.Told.{handed_told};
ghost use Rattle.hiskurdo.specs.VerdictNumbers.{verdict_numbers, handover_numbers};

use hiskurdo::verdicts;
use hiskurdo::verdicts::{HandoverNumbers, VerdictNumbers};

#[unsafe(no_mangle)]
pub extern "C" fn hiskurdo_verdict(journal: &[u8], plan: &[u8]) -> VerdictNumbers
    ensures { result ≡ verdict_numbers (verdict_rule journal.now plan.now) }
{
    verdicts::hiskurdo_verdict(journal, plan)
}

#[unsafe(no_mangle)]
pub extern "C" fn hiskurdo_handover(journal: &[u8], plan: &[u8], boundary: u64) -> HandoverNumbers
    ensures { result ≡ handover_numbers (handed_told (handed_rule journal.now plan.now boundary)) }
{
    verdicts::hiskurdo_handover(journal, plan, boundary)
}
