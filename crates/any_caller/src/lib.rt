// A caller that knows nothing of what it hands over: each exported call with any arguments. This crate is proved only as long as no
// exported call requires anything of them, and as long as the bounds that `bozhtagul_records` returns lie inside the answer.
#![tactic(auto)]

ghost use Rattle.std.specs.Prelude.{◌≡◌};
ghost use Rattle.model.specs.Calls.{records_call};

use bozhtagul::{Checked, Outcome, Written};

pub fn hash(message: &[u8], out: &mut [u8]) -> Outcome {
    bozhtagul::bozhtagul_hash(message, out)
}

pub fn log(log: &[u8]) -> Written {
    bozhtagul::bozhtagul_log(log)
}

pub fn listing(input: &[u8], out: &mut [u8]) -> Written {
    bozhtagul::bozhtagul_listing(input, out)
}

pub fn commitment(log: &[u8], work: &mut [u8], out: &mut [u8]) -> Outcome {
    bozhtagul::bozhtagul_commitment(log, work, out)
}

pub fn answer(
    direction: u8,
    entity: u32,
    time: u64,
    until: u64,
    log: &[u8],
    work: &mut [u8],
    out: &mut [u8],
) -> Written {
    bozhtagul::bozhtagul_answer(direction, entity, time, until, log, work, out)
}

pub fn check(
    direction: u8,
    entity: u32,
    time: u64,
    until: u64,
    commitment: &[u8],
    answer: &[u8],
    work: &mut [u8],
    out: &mut [u8],
) -> Checked {
    bozhtagul::bozhtagul_check(
        direction, entity, time, until, commitment, answer, work, out,
    )
}

// The checked records themselves, by the bounds alone.
pub fn records<'a>(
    direction: u8,
    entity: u32,
    time: u64,
    until: u64,
    commitment: &[u8],
    answer: &'a [u8],
    work: &mut [u8],
) -> &'a [u8]
    ensures { result.now ≡ (records_call direction entity time until commitment.now answer.now work.old).result }
{
    let b = bozhtagul::bozhtagul_records(direction, entity, time, until, commitment, answer, work);
    let start = b.start as usize;
    &answer[start..start + b.length as usize]
}

pub fn recorder_start(memory: &mut [u8]) -> Outcome {
    bozhtagul::bozhtagul_recorder_start(memory)
}

pub fn recorder_take(record: &[u8], memory: &mut [u8]) -> Outcome {
    bozhtagul::bozhtagul_recorder_take(record, memory)
}

pub fn recorder_commitment(memory: &[u8], out: &mut [u8]) -> Outcome {
    bozhtagul::bozhtagul_recorder_commitment(memory, out)
}
