// The verdict and the handover, for Rust or C.
ghost use Rattle.std.specs.Prelude.{◌≡◌};
ghost use Rattle.resume.specs.Verdict.{verdict_rule};
ghost use Rattle.resume.specs.Handing.{handed_rule};
ghost use Rattle.histories.specs.Told.{given_told, handed_told};
ghost use Rattle.hiskurdo.specs.VerdictNumbers.{verdict_numbers, handover_numbers};

use histories::Handed;
use records::Body;
use resume::handing;

// A verdict. refused 0: ending (0 unstarted, 1 due, 2 done, 3 open, 4 finished), stop, records, calls, failed;
// refused 1: number, place, divergence, calls. What does not apply is 0.
#[repr(C)]
#[derive(Clone, Copy)]
pub struct VerdictNumbers {
    pub refused: u64,
    pub ending: u64,
    pub stop: u64,
    pub records: u64,
    pub number: u64,
    pub place: u64,
    pub divergence: u64,
    pub calls: u64,
    pub failed: u64,
}

// A handover. number 0: what (1 completed, 2 failed: of the journal; 3 input: of the plan), where it starts there and how
// long it is; else the refusal's number, with the empty part of the journal.
#[repr(C)]
#[derive(Clone, Copy)]
pub struct HandoverNumbers {
    pub number: u64,
    pub what: u64,
    pub start: u64,
    pub len: u64,
}

pub fn hiskurdo_verdict(journal: &[u8], plan: &[u8]) -> VerdictNumbers
    ensures { result ≡ verdict_numbers (verdict_rule journal.now plan.now) }
{
    match resume::verdict(journal, plan) {
        Ok(accepted) => VerdictNumbers {
            refused: 0,
            ending: accepted.ending.number(),
            stop: accepted.stop,
            records: accepted.records,
            number: 0,
            place: 0,
            divergence: 0,
            calls: accepted.calls,
            failed: accepted.failed,
        },
        Err(refused) => VerdictNumbers {
            refused: 1,
            ending: 0,
            stop: 0,
            records: 0,
            number: refused.number,
            place: refused.place,
            divergence: refused.divergence,
            calls: refused.calls,
            failed: 0,
        },
    }
}

fn given(what: u64, body: Body) -> HandoverNumbers
    ensures { result ≡ handover_numbers (given_told what body) }
{
    HandoverNumbers {
        number: 0,
        what,
        start: body.start as u64,
        len: body.len as u64,
    }
}

pub fn hiskurdo_handover(journal: &[u8], plan: &[u8], boundary: u64) -> HandoverNumbers
    ensures { result ≡ handover_numbers (handed_told (handed_rule journal.now plan.now boundary)) }
{
    match handing::handover_case(journal, plan, boundary) {
        Ok(Handed::Completed(body)) => given(1, body),
        Ok(Handed::Failed(body)) => given(2, body),
        Ok(Handed::Input(body)) => given(3, body),
        Err(number) => HandoverNumbers {
            number,
            what: 0,
            start: 0,
            len: 0,
        },
    }
}
