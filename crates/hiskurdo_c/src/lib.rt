// What C and Rust link: each call of the crate hiskurdo under its own name, with its contract.
//
// Owns: the exported names. Must not own: anything else; each export is one call of the crate hiskurdo.
// Defends: any bytes and any numbers may be passed; no export has a `requires`.
#![tactic(auto)]

pub mod texts;
pub mod verdicts;

ghost use Rattle.std.specs.Prelude.{◌≡◌};
ghost use Rattle.files.specs.Reading.{journal_rule, plan_rule};
ghost use Rattle.files.specs.Contents.{next_record, next_step};
ghost use Rattle.files.specs.Told.{journal_told, plan_told};
ghost use Rattle.hiskurdo.specs.Numbers.{read_numbers, record_numbers, step_numbers};

use hiskurdo::{EntryNumbers, ReadNumbers};

#[unsafe(no_mangle)]
pub extern "C" fn hiskurdo_read_journal(file: &[u8]) -> ReadNumbers
    ensures { result ≡ read_numbers (journal_told (journal_rule file.now)) }
{
    hiskurdo::hiskurdo_read_journal(file)
}

#[unsafe(no_mangle)]
pub extern "C" fn hiskurdo_read_plan(file: &[u8]) -> ReadNumbers
    ensures { result ≡ read_numbers (plan_told (plan_rule file.now)) }
{
    hiskurdo::hiskurdo_read_plan(file)
}

#[unsafe(no_mangle)]
pub extern "C" fn hiskurdo_next_record(file: &[u8], entry: u64, body: u64) -> EntryNumbers
    ensures { result ≡ record_numbers (record { entry = entry; body = body }) (next_record file.now (record { entry = entry; body = body })) }
{
    hiskurdo::hiskurdo_next_record(file, entry, body)
}

#[unsafe(no_mangle)]
pub extern "C" fn hiskurdo_next_step(file: &[u8], entry: u64, body: u64) -> EntryNumbers
    ensures { result ≡ step_numbers (record { entry = entry; body = body }) (next_step file.now (record { entry = entry; body = body })) }
{
    hiskurdo::hiskurdo_next_step(file, entry, body)
}
