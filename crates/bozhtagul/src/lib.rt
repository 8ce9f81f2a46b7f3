// The public calls as the outside sees them: plain numbers and byte slices.
#![tactic(auto)]

ghost use Rattle.std.specs.Prelude.{◌≡◌, ◌+◌, ◌≤◌, length};
ghost use Rattle.fields.specs.Fields.{part};
ghost use Rattle.model.specs.CheckRows.{run};
ghost use Rattle.model.specs.Numbers.{H};
ghost use Rattle.model.specs.Calls.{fitting, hash_call, log_call, listing_call, commitment_call, answer_call, check_call, records_call};
ghost use Rattle.outcome.specs.Outcomes.{told, Gives};
ghost use Rattle.bozhtagul.specs.Results.{outcome, outcome_of, written, numbered, checked_by, checked, bounds};
ghost use Rattle.bozhtagul.specs.Demand3.{Sound, Complete};
ghost use Rattle.bozhtagul.specs.Recorders.{RecorderStarted, RecordOffered, CommitmentAsked};

use checker::Verdict;
use outcome::{Refusal, Row};
use proof_reader::Stop;
use question::{EntityKey, TimeKey};
use strings::DIGEST_WIDTH;

// The number of the row that turned a call away, or 0, and its position.
#[repr(C)]
#[derive(Clone, Copy)]
pub struct Outcome {
    pub number: u64,
    pub position: u64,
}

// The same, and a length or a number of records; fields that do not apply are 0.
#[repr(C)]
#[derive(Clone, Copy)]
pub struct Written {
    pub number: u64,
    pub position: u64,
    pub length: u64,
}

// The same, and the verdict: 0 none; 1 no entity; 2 not yet, with the time of the entity's first version; 3 found, with the version's time
// and the number of the trace's records; 4 none so late, with the time of the entity's last version; 5 listed, with the number of versions.
// Numbers, and no enum: C reads them.
#[repr(C)]
#[derive(Clone, Copy)]
pub struct Checked {
    pub number: u64,
    pub position: u64,
    pub verdict: u64,
    pub time: u64,
    pub count: u64,
}

// Where a part of the answer stands.
#[repr(C)]
#[derive(Clone, Copy)]
pub struct Part {
    pub start: u64,
    pub length: u64,
}

fn row(number: u64, position: u64) -> Outcome
    ensures { result ≡ record { number = number; position = position } }
{
    Outcome { number, position }
}

fn row_or_length(number: u64, position: u64, length: u64) -> Written
    ensures { result ≡ record { number = number; position = position; length = length } }
{
    Written {
        number,
        position,
        length,
    }
}

fn row_or_verdict(number: u64, position: u64, verdict: u64, time: u64, count: u64) -> Checked
    ensures { result ≡ record { number = number; position = position; verdict = verdict; time = time; count = count } }
{
    Checked {
        number,
        position,
        verdict,
        time,
        count,
    }
}

// What any call answers, as plain numbers: without a length, ...
impl<T: Copy> From<Result<T, Refusal>> for Outcome {
    ghost from_gives = { λ answer outcome. outcome ≡ outcome_of (told answer) };

    fn from(answer: Result<T, Refusal>) -> Outcome {
        match answer {
            Ok(_) => row(0, 0),
            Err(refusal) => row(u64::from(refusal.row), refusal.position as u64),
        }
    }
}

// ... and with it.
impl From<Result<usize, Refusal>> for Written {
    ghost from_gives = { λ answer numbers. numbers ≡ written (told answer) };

    fn from(answer: Result<usize, Refusal>) -> Written {
        match answer {
            Ok(length) => row_or_length(0, 0, length as u64),
            Err(refusal) => row_or_length(u64::from(refusal.row), refusal.position as u64, 0),
        }
    }
}

// A verdict as plain numbers, ...
impl From<Verdict> for Checked {
    ghost from_gives = { λ verdict checked. checked ≡ numbered verdict };

    fn from(verdict: Verdict) -> Checked {
        match verdict {
            Verdict::NotFound { stop } => match stop {
                Stop::NoEntity => row_or_verdict(0, 0, 1, 0, 0),
                Stop::NotYet { first } => row_or_verdict(0, 0, 2, first.0, 0),
                Stop::NoneSoLate { last } => row_or_verdict(0, 0, 4, last.0, 0),
            },
            Verdict::Found { time, count } => row_or_verdict(0, 0, 3, time.0, count as u64),
            Verdict::Listed { count } => row_or_verdict(0, 0, 5, 0, count as u64),
        }
    }
}

// ... and what the check answers.
impl From<Result<Verdict, Refusal>> for Checked {
    ghost from_gives = { λ answer checked. checked ≡ checked_by (told answer) };

    fn from(answer: Result<Verdict, Refusal>) -> Checked {
        match answer {
            Ok(verdict) => Checked::from(verdict),
            Err(refusal) => {
                row_or_verdict(u64::from(refusal.row), refusal.position as u64, 0, 0, 0)
            }
        }
    }
}

// Writes the SHA-256 of a message to the front of `out`, and gives its length: 13.
fn put_hash(message: &[u8], out: &mut [u8]) -> Result<usize, Refusal>
    ensures { Gives (fitting out.old (H message.now)) out.old out.new result }
{
    if out.len() < DIGEST_WIDTH {
        return Err(Row::OutputShort.at(0));
    }
    let digest = sha256::hash(message);
    fields::copy(out, 0, &digest, 0, DIGEST_WIDTH);
    Ok(DIGEST_WIDTH)
}

// The number of records of a log.
fn count_records(log: &[u8]) -> Result<usize, Refusal>
    ensures { told result ≡ log_call log.now }
{
    let sound = log_reader::read(log)?;
    Ok(sound.records)
}

// Writes the SHA-256 of a message to the front of `out`.
#[unsafe(no_mangle)]
pub extern "C" fn bozhtagul_hash(message: &[u8], out: &mut [u8]) -> Outcome
    ensures result { result ≡ outcome (hash_call message.now out.old).result }
    ensures output { out.new ≡ (hash_call message.now out.old).output }
{
    Outcome::from(put_hash(message, out))
}

// Reads a log; its length is its number of records.
#[unsafe(no_mangle)]
pub extern "C" fn bozhtagul_log(log: &[u8]) -> Written
    ensures { result ≡ written (log_call log.now) }
{
    Written::from(count_records(log))
}

// Writes what the listing program prints for an input to the front of `out`.
#[unsafe(no_mangle)]
pub extern "C" fn bozhtagul_listing(input: &[u8], out: &mut [u8]) -> Written
    ensures result { result ≡ written (listing_call input.now out.old).result }
    ensures output { out.new ≡ (listing_call input.now out.old).output }
{
    Written::from(listing::list(input, out))
}

// Writes a log's commitment to the front of `out`. The work area takes 128 bytes a record and is zero afterwards.
#[unsafe(no_mangle)]
pub extern "C" fn bozhtagul_commitment(log: &[u8], work: &mut [u8], out: &mut [u8]) -> Outcome
    ensures result { result ≡ outcome (commitment_call log.now out.old work.old).result }
    ensures output { out.new ≡ (commitment_call log.now out.old work.old).output }
    ensures cleared { work.new ≡ (commitment_call log.now out.old work.old).work }
{
    Outcome::from(host::commitment(log, work, out))
}

// Writes the answer to a question to the front of `out`. The work area takes 128 bytes a record and is zero afterwards. `until` is the
// second time of direction 6, and without effect elsewhere.
#[unsafe(no_mangle)]
pub extern "C" fn bozhtagul_answer(
    direction: u8,
    entity: u32,
    time: u64,
    until: u64,
    log: &[u8],
    work: &mut [u8],
    out: &mut [u8],
) -> Written
    ensures result { result ≡ written (answer_call direction entity time until log.now out.old work.old).result }
    ensures output { out.new ≡ (answer_call direction entity time until log.now out.old work.old).output }
    ensures cleared { work.new ≡ (answer_call direction entity time until log.now out.old work.old).work }
{
    let s = EntityKey(entity as u64);
    Written::from(host::answer(direction, s, TimeKey(time), TimeKey(until), log, work, out))
}

// Checks an answer, which may be any bytes, against a commitment. The work area takes 128 bytes for each record of the answer's trace and
// is zero afterwards. In direction 6 the versions listed are written to the front of `out`, 12 bytes each: entity and time; in every other
// direction `out` stays as it was. `sound` and `complete` are demand 3.
#[unsafe(no_mangle)]
pub extern "C" fn bozhtagul_check(
    direction: u8,
    entity: u32,
    time: u64,
    until: u64,
    commitment: &[u8],
    answer: &[u8],
    work: &mut [u8],
    out: &mut [u8],
) -> Checked
    ensures sound { Sound direction entity time until commitment.now answer.now work.old out.old out.new result }
    ensures complete { Complete direction entity time until commitment.now answer.now work.old out.old out.new result }
    ensures result { result ≡ checked (check_call direction entity time until commitment.now answer.now out.old work.old).result }
    ensures output { out.new ≡ (check_call direction entity time until commitment.now answer.now out.old work.old).output }
    ensures cleared { work.new ≡ (check_call direction entity time until commitment.now answer.now out.old work.old).work }
{
    let s = EntityKey(entity as u64);
    let from = TimeKey(time);
    let to = TimeKey(until);
    let checking = checker::check(direction, s, from, to, commitment, answer, work, out);
    Checked::from(checking)
}

// Where the checked records of an answer stand, without the trace header: 0 and 0 if there are none or the check refuses.
#[unsafe(no_mangle)]
pub extern "C" fn bozhtagul_records(
    direction: u8,
    entity: u32,
    time: u64,
    until: u64,
    commitment: &[u8],
    answer: &[u8],
    work: &mut [u8],
) -> Part
    ensures result { result ≡ bounds (run direction entity time until commitment.now answer.now (length work.old)) }
    ensures inside { result.start + result.length ≤ length answer.now }
    ensures records { part answer.now result.start result.length ≡ (records_call direction entity time until commitment.now answer.now work.old).result }
    ensures cleared { work.new ≡ (records_call direction entity time until commitment.now answer.now work.old).work }
{
    let s = EntityKey(entity as u64);
    let from = TimeKey(time);
    let to = TimeKey(until);
    let b = checker::record_bounds(direction, s, from, to, commitment, answer, work);
    Part {
        start: b.start as u64,
        length: b.length as u64,
    }
}

// ---- a running recorder

// Begins a recorder in the memory that it is lent, whatever that held. It has place for a record for each whole 512 bytes after the first 512.
#[unsafe(no_mangle)]
pub extern "C" fn bozhtagul_recorder_start(memory: &mut [u8]) -> Outcome
    ensures { RecorderStarted memory.old memory.new result }
{
    Outcome::from(recorder_calls::start(memory))
}

// Offers a record to the recorder in a memory, which takes it or is left as it was.
#[unsafe(no_mangle)]
pub extern "C" fn bozhtagul_recorder_take(record: &[u8], memory: &mut [u8]) -> Outcome
    ensures { RecordOffered «record».now memory.old memory.new result }
{
    Outcome::from(recorder_calls::take(record, memory))
}

// Writes the commitment of the records that the recorder in a memory has taken to the front of `out`.
#[unsafe(no_mangle)]
pub extern "C" fn bozhtagul_recorder_commitment(memory: &[u8], out: &mut [u8]) -> Outcome
    ensures { CommitmentAsked memory.now out.old out.new result }
{
    Outcome::from(recorder_calls::commitment(memory, out))
}
