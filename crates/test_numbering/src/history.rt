// The records of the walk, those that are tried at its end, and what is asked for there.
ghost use Rattle.std.specs.Prelude.{◌≡◌};
ghost use Rattle.test_numbering.specs.Walk as Walk;

use clocks::{ClockCapability, TimerSpec};
use ids::{ActivityKind, ClockKind, EffectSeq, GateId};
use machine::{EffectRequest, TimerRequest};
use records::{Body, RecordRef};

// The last number.
pub(crate) const LAST: u32 = 4294967295;

const NO_BODY: Body = Body { start: 0, len: 0 };

pub(crate) fn start() -> RecordRef
    ensures { result ≡ Walk.start }
{
    RecordRef::RunStarted {
        workflow_kind: 1,
        workflow_version: 1,
        input: NO_BODY,
    }
}

pub(crate) fn marker(seq: u32) -> RecordRef
    ensures { result ≡ Walk.marker seq }
{
    RecordRef::VersionMarker {
        seq: EffectSeq(seq),
        gate: GateId(1),
        version: 1,
    }
}

pub(crate) fn schedule(seq: u32) -> RecordRef {
    RecordRef::EffectScheduled {
        seq: EffectSeq(seq),
        kind: ActivityKind(1),
        input_len: 0,
        input_crc: 0,
    }
}

pub(crate) fn effect_completed(seq: u32) -> RecordRef {
    RecordRef::EffectCompleted {
        seq: EffectSeq(seq),
        result: NO_BODY,
    }
}

pub(crate) fn effect_failed(seq: u32) -> RecordRef {
    RecordRef::EffectFailed {
        seq: EffectSeq(seq),
        error: NO_BODY,
    }
}

pub(crate) fn timer(seq: u32, clock_kind: ClockKind) -> RecordRef {
    RecordRef::TimerScheduled {
        seq: EffectSeq(seq),
        clock_kind,
        deadline: 5,
        armed_at: 3,
    }
}

pub(crate) fn fired(seq: u32) -> RecordRef {
    RecordRef::TimerFired {
        seq: EffectSeq(seq),
    }
}

pub(crate) fn completed() -> RecordRef {
    RecordRef::RunCompleted { result: NO_BODY }
}

pub(crate) fn failed() -> RecordRef {
    RecordRef::RunFailed { error: NO_BODY }
}

// The effect that is asked for.
pub(crate) fn effect_request() -> EffectRequest {
    EffectRequest {
        kind: ActivityKind(1),
        input_len: 0,
        input_crc: 0,
    }
}

// The timer that is asked for is persistent.
pub(crate) fn timer_request(capability: ClockCapability) -> TimerRequest {
    TimerRequest {
        spec: TimerSpec::AtPersistentTime { instant: 5 },
        capability,
    }
}
