// What C calls: each exported call of the library, over the crate bozhtagul, whose functions say the same word for word. A slice is a pointer
// and then its length; `include/bozhtagul.h` declares the calls and the structs.
#![tactic(auto)]

ghost use Rattle.std.specs.Prelude.{◌≡◌, ◌+◌, ◌≤◌, length};
ghost use Rattle.fields.specs.Fields.{part};
ghost use Rattle.model.specs.CheckRows.{run};
ghost use Rattle.model.specs.Calls.{hash_call, log_call, listing_call, commitment_call, answer_call, check_call, records_call};
ghost use Rattle.bozhtagul.specs.Results.{outcome, written, checked, bounds};
ghost use Rattle.bozhtagul.specs.Demand3.{Sound, Complete};
ghost use Rattle.bozhtagul.specs.Recorders.{RecorderStarted, RecordOffered, CommitmentAsked};

use bozhtagul::{Checked, Outcome, Part, Written};

// Writes the SHA-256 of a message to the front of `out`.
#[unsafe(no_mangle)]
pub extern "C" fn bozhtagul_hash(message: &[u8], out: &mut [u8]) -> Outcome
    ensures result { result ≡ outcome (hash_call message.now out.old).result }
    ensures output { out.new ≡ (hash_call message.now out.old).output }
{
    bozhtagul::bozhtagul_hash(message, out)
}

// Reads a log; its length is its number of records.
#[unsafe(no_mangle)]
pub extern "C" fn bozhtagul_log(log: &[u8]) -> Written
    ensures { result ≡ written (log_call log.now) }
{
    bozhtagul::bozhtagul_log(log)
}

// Writes what the listing program prints for an input to the front of `out`.
#[unsafe(no_mangle)]
pub extern "C" fn bozhtagul_listing(input: &[u8], out: &mut [u8]) -> Written
    ensures result { result ≡ written (listing_call input.now out.old).result }
    ensures output { out.new ≡ (listing_call input.now out.old).output }
{
    bozhtagul::bozhtagul_listing(input, out)
}

// Writes a log's commitment to the front of `out`. The work area takes 128 bytes a record and is zero afterwards.
#[unsafe(no_mangle)]
pub extern "C" fn bozhtagul_commitment(log: &[u8], work: &mut [u8], out: &mut [u8]) -> Outcome
    ensures result { result ≡ outcome (commitment_call log.now out.old work.old).result }
    ensures output { out.new ≡ (commitment_call log.now out.old work.old).output }
    ensures cleared { work.new ≡ (commitment_call log.now out.old work.old).work }
{
    bozhtagul::bozhtagul_commitment(log, work, out)
}

// Writes the answer to a question to the front of `out`. The work area takes 128 bytes a record and is zero afterwards. `until` is the
// second time of direction 6, and without effect elsewhere.
#[unsafe(no_mangle)]
pub extern "C" fn bozhtagul_answer(
    direction: u8,
    entity: u32,
    time: u64,
    until: u64,
    log: &[u8],
    work: &mut [u8],
    out: &mut [u8],
) -> Written
    ensures result { result ≡ written (answer_call direction entity time until log.now out.old work.old).result }
    ensures output { out.new ≡ (answer_call direction entity time until log.now out.old work.old).output }
    ensures cleared { work.new ≡ (answer_call direction entity time until log.now out.old work.old).work }
{
    bozhtagul::bozhtagul_answer(direction, entity, time, until, log, work, out)
}

// Checks an answer, which may be any bytes, against a commitment. The work area takes 128 bytes for each record of the answer's trace and
// is zero afterwards. In direction 6 the versions listed are written to the front of `out`, 12 bytes each: entity and time; in every other
// direction `out` stays as it was. `sound` and `complete` are demand 3.
#[unsafe(no_mangle)]
pub extern "C" fn bozhtagul_check(
    direction: u8,
    entity: u32,
    time: u64,
    until: u64,
    commitment: &[u8],
    answer: &[u8],
    work: &mut [u8],
    out: &mut [u8],
) -> Checked
    ensures sound { Sound direction entity time until commitment.now answer.now work.old out.old out.new result }
    ensures complete { Complete direction entity time until commitment.now answer.now work.old out.old out.new result }
    ensures result { result ≡ checked (check_call direction entity time until commitment.now answer.now out.old work.old).result }
    ensures output { out.new ≡ (check_call direction entity time until commitment.now answer.now out.old work.old).output }
    ensures cleared { work.new ≡ (check_call direction entity time until commitment.now answer.now out.old work.old).work }
{
    bozhtagul::bozhtagul_check(
        direction, entity, time, until, commitment, answer, work, out,
    )
}

// Where the checked records of an answer stand, without the trace header: 0 and 0 if there are none or the check refuses.
#[unsafe(no_mangle)]
pub extern "C" fn bozhtagul_records(
    direction: u8,
    entity: u32,
    time: u64,
    until: u64,
    commitment: &[u8],
    answer: &[u8],
    work: &mut [u8],
) -> Part
    ensures result { result ≡ bounds (run direction entity time until commitment.now answer.now (length work.old)) }
    ensures inside { result.start + result.length ≤ length answer.now }
    ensures records { part answer.now result.start result.length ≡ (records_call direction entity time until commitment.now answer.now work.old).result }
    ensures cleared { work.new ≡ (records_call direction entity time until commitment.now answer.now work.old).work }
{
    bozhtagul::bozhtagul_records(direction, entity, time, until, commitment, answer, work)
}

// ---- a running recorder

// Begins a recorder in the memory that it is lent, whatever that held. It has place for a record for each whole 512 bytes after the first 512.
#[unsafe(no_mangle)]
pub extern "C" fn bozhtagul_recorder_start(memory: &mut [u8]) -> Outcome
    ensures { RecorderStarted memory.old memory.new result }
{
    bozhtagul::bozhtagul_recorder_start(memory)
}

// Offers a record to the recorder in a memory, which takes it or is left as it was.
#[unsafe(no_mangle)]
pub extern "C" fn bozhtagul_recorder_take(record: &[u8], memory: &mut [u8]) -> Outcome
    ensures { RecordOffered «record».now memory.old memory.new result }
{
    bozhtagul::bozhtagul_recorder_take(record, memory)
}

// Writes the commitment of the records that the recorder in a memory has taken to the front of `out`.
#[unsafe(no_mangle)]
pub extern "C" fn bozhtagul_recorder_commitment(memory: &[u8], out: &mut [u8]) -> Outcome
    ensures { CommitmentAsked memory.now out.old out.new result }
{
    bozhtagul::bozhtagul_recorder_commitment(memory, out)
}
