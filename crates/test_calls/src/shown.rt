// How answers and states are written.
use answer_numbers::Tell;
use core_exports::machines::MachineNumbers;
use core_exports::{CursorNumbers, machines};
use cursor::ReplayCursor;
use errors::Told;
use std::{fmt, io};

// An answer's number and its five values.
#[derive(Clone, Copy)]
pub(crate) struct Numbers(pub Told);

impl fmt::Display for Numbers {
    fn fmt<W: fmt::Write>(&self, f: &mut fmt::Formatter<W>) -> fmt::Result {
        let told = self.0;
        write!(
            f,
            "{} {} {} {} {} {}",
            told.number, told.a, told.b, told.c, told.d, told.e
        )
    }
}

// A value that is one number; a refusal is said whole.
#[derive(Clone, Copy)]
pub(crate) struct Value(pub Told);

impl fmt::Display for Value {
    fn fmt<W: fmt::Write>(&self, f: &mut fmt::Formatter<W>) -> fmt::Result {
        let told = self.0;
        match told.number {
            0 => write!(f, "{}", told.a),
            _ => write!(f, "{}", Numbers(told)),
        }
    }
}

// What every reader of the machine says, and then what none says: the number that it offers, and its phase.
pub(crate) fn machine_readers(rt: &impl Print, machine: MachineNumbers) -> io::Result<()> {
    let position = machines::hiskurdo_machine_position(machine);
    let ids = machine.cursor.ids;
    print!(rt;
        "{} {} {} {} {} {} {} {} {} {}",
        Value(machines::hiskurdo_machine_run(machine)),
        position.number,
        position.a,
        Numbers(machines::hiskurdo_machine_pending(machine)),
        Numbers(machines::hiskurdo_machine_pending_timer(machine)),
        Value(machines::hiskurdo_machine_diverged(machine)),
        Value(machines::hiskurdo_machine_failed(machine)),
        ids.offers,
        ids.next,
        machine.phase
    )
}

// What every reader of the cursor says.
pub(crate) fn readers(rt: &impl Print, cursor: CursorNumbers) -> io::Result<()> {
    let position = core_exports::hiskurdo_cursor_position(cursor);
    print!(rt;
        "{} {} {} {} {} {} {} {} {}",
        Value(core_exports::hiskurdo_cursor_run(cursor)),
        position.number,
        position.a,
        Value(core_exports::hiskurdo_cursor_is_terminal(cursor)),
        Numbers(core_exports::hiskurdo_cursor_pending(cursor)),
        Numbers(core_exports::hiskurdo_cursor_pending_timer(cursor)),
        Numbers(core_exports::hiskurdo_cursor_next_seq(cursor)),
        Numbers(core_exports::hiskurdo_cursor_next_effect_id(cursor)),
        Value(core_exports::hiskurdo_cursor_failed(cursor))
    )
}

// The same of a cursor that was lent.
pub(crate) fn lent_readers(rt: &impl Print, cursor: ReplayCursor) -> io::Result<()> {
    let position = cursor.position();
    let told = position.told();
    print!(rt;
        "{} {} {} {} {} {} {} {} {}",
        cursor.run().0,
        told.number,
        told.a,
        u8::from(position.is_terminal()),
        Numbers(cursor.pending().told()),
        Numbers(cursor.pending_timer().told()),
        Numbers(cursor.next_seq().told()),
        Numbers(cursor.next_effect_id().told()),
        cursor.failed()
    )
}
