// The vocabulary of refusals (error.rs), and the form in which every answer is told in numbers.
//
// Owns: KernelError and its numbers; Told. Must not own: a reason to refuse.
// Defends: one refusal, one number, the same in every crate above.
#![tactic(auto)]

ghost use Rattle.std.specs.Prelude.{◌≡◌};
ghost use Rattle.errors.specs.Errors.{error_number};
ghost use Rattle.errors.specs.Told.{told5, error_told};

// HistoryNearCapacity and Decode are never made here and are left out.
#[derive(Clone, Copy)]
pub enum KernelError {
    IdExhausted,
    NondeterministicWorkflow,
    IncompatibleWorkflow,
    MalformedHistory,
    NoPersistentClock,
    ClockWentBackwards,
}

impl KernelError {
    // The number of a refusal.
    pub fn number(self) -> u8
        ensures { result ≡ error_number self }
    {
        match self {
            KernelError::IdExhausted => 21,
            KernelError::NondeterministicWorkflow => 22,
            KernelError::IncompatibleWorkflow => 23,
            KernelError::MalformedHistory => 24,
            KernelError::NoPersistentClock => 25,
            KernelError::ClockWentBackwards => 26,
        }
    }

    // A refusal has its number and no values.
    pub fn told(self) -> Told
        ensures { result ≡ error_told self }
    {
        Told::new(self.number() as u64, 0, 0, 0, 0, 0)
    }
}

// An answer in numbers: its own number, then its values in order, 0 where it has fewer than five.
#[repr(C)]
#[derive(Clone, Copy)]
pub struct Told {
    pub number: u64,
    pub a: u64,
    pub b: u64,
    pub c: u64,
    pub d: u64,
    pub e: u64,
}

impl Told {
    pub fn new(number: u64, a: u64, b: u64, c: u64, d: u64, e: u64) -> Told
        ensures { result ≡ told5 number a b c d e }
    {
        Told {
            number,
            a,
            b,
            c,
            d,
            e,
        }
    }
}
