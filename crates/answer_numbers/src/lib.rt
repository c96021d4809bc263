// The answers of the core in numbers.
//
// Owns: the number and the values of each case. Must not own: a rule, or a number that 01 gives (errors, machine).
// Defends: one case, one number, for every program that shows an answer.
#![tactic(auto)]

ghost use Rattle.std.specs.Prelude.{◌≡◌, ℕ};
ghost use Rattle.errors.specs.declared.Told.{Told};
ghost use Rattle.errors.specs.Told.{nothing_told, option_told, result_told};

use errors::{KernelError, Told};

mod cursors;
mod machines;
mod numbers;
mod timers;

// An answer that is told in numbers.
pub trait Tell {
    ghost tells: { Self → Told };

    fn told(self) -> Told
        ensures { result ≡ tells self };
}

// A value that an answer carries: it is told behind the answer's own number.
pub trait TellAs {
    ghost tells_as: { ℕ → Self → Told };

    fn told_as(self, number: u64) -> Told
        ensures { result ≡ tells_as number self };
}

// Nothing is 0.
impl Tell for () {
    ghost tells = { nothing_told };

    fn told(self) -> Told {
        Told::new(0, 0, 0, 0, 0, 0)
    }
}

// None is 0, some is 1 with its value.
impl<T: TellAs> Tell for Option<T> {
    ghost tells = { option_told T.tells_as };

    fn told(self) -> Told {
        match self {
            Some(value) => value.told_as(1),
            None => ().told(),
        }
    }
}

// What a call answers, or its refusal.
impl<T: Tell> Tell for Result<T, KernelError> {
    ghost tells = { result_told T.tells };

    fn told(self) -> Told {
        match self {
            Ok(answer) => answer.told(),
            Err(error) => error.told(),
        }
    }
}
