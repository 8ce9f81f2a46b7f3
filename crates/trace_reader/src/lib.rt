// Reading the trace of an answer into the node table: rows 15, 16, 19 and 12 of its header, rows 15, 16, 20 and 21 of its records.
// The answer may be any bytes.
#![tactic(auto)]

ghost use Rattle.std.specs.Prelude.{◌≡◌, true, ◌||◌, [], ◌+◌, ◌*◌, ◌^◌, ◌≤◌, ◌<◌, eqb, ltb, length, drop};
ghost use Rattle.fields.specs.Fields.{field};
ghost use Rattle.model.specs.Numbers.{above};
ghost use Rattle.model.specs.Question.{forward};
ghost use Rattle.model.specs.Trace.{trace_header_width, letter_width};
ghost use Rattle.model.specs.CheckRows.{due, shown_edges, shown_record, all_below, read_records};
ghost use Rattle.outcome.specs.Outcomes.{told};
ghost use Rattle.question.specs.Ways.{way_of};
ghost use Rattle.graph.specs.Table.{slot_width, Slot, absent, version, NodePut};
ghost use Rattle.trace_reader.specs.Records.{before_of, values_row, Reads, RecordInSlot, Steps, RecordsAre, HeaderIs, TraceIs};

use fields::{get_u32, get_u64, put_u32};
use graph::{ABSENT, PLACE_COLUMN, SLOT_WIDTH, put_node};
use model::{LETTER_D, LETTER_E, LETTER_S, LETTER_T, LETTER_V};
use outcome::{Refusal, Row};
use question::{TimeKey, Way, entity_at, trace_letter};
use strings::{
    D_KIND, D_SOURCE, D_WIDTH, E_WIDTH, RECORD_ENTITY, RECORD_TIME, T_PREVIOUS, T_WIDTH,
    TRACE_COUNT, TRACE_HEADER_WIDTH, V_KIND, V_PREVIOUS, V_SOURCE, V_WIDTH,
};

// ---- letters

fn either(letter: u8, a: u8, b: u8) -> bool
    ensures { result ≡ (eqb letter a || eqb letter b) }
{
    if letter == a {
        return true;
    }
    letter == b
}

// The letters due in F: S first, later T, D or V.
fn forward_due(i: usize, letter: u8) -> bool
    ensures { result ≡ due forward i letter }
{
    if i == 0 {
        return letter == LETTER_S;
    }
    if letter == LETTER_T {
        return true;
    }
    either(letter, LETTER_D, LETTER_V)
}

// Row 16: whether a letter is one due for the i-th record; in B this is E or V at every place.
fn letter_due(way: Way, i: usize, letter: u8) -> bool
    ensures { result ≡ due (way_of way) i letter }
{
    match way {
        Way::Backward => either(letter, LETTER_E, LETTER_V),
        Way::Forward => forward_due(i, letter),
    }
}

// The bytes of a record.
fn width_of(letter: u8) -> usize
    ensures { result ≡ letter_width letter }
{
    if letter == LETTER_V {
        return V_WIDTH;
    }
    if letter == LETTER_D {
        return D_WIDTH;
    }
    if letter == LETTER_T {
        return T_WIDTH;
    }
    E_WIDTH
}

// ---- the rows of a record

// Whether the position at a place is below i. A position may be any number of 32 bits.
fn below(answer: &[u8], at: usize, i: usize) -> bool
    requires { at + 4 ≤ length answer.now }
    ensures { result ≡ ltb (field 4 answer.now at) i }
{
    let position = get_u32(answer, at) as usize;
    position < i
}

// Row 20: whether all positions of a record are below i.
fn positions_below(answer: &[u8], at: usize, letter: u8, i: usize) -> bool
    requires { at + letter_width letter ≤ length answer.now }
    ensures { result ≡ all_below i (shown_edges letter (drop at answer.now)) }
{
    if letter == LETTER_V {
        if below(answer, at + V_PREVIOUS, i) {
            return below(answer, at + V_SOURCE, i);
        }
        return false;
    }
    if letter == LETTER_D {
        return below(answer, at + D_SOURCE, i);
    }
    if letter == LETTER_T {
        return below(answer, at + T_PREVIOUS, i);
    }
    true
}

// Row 21: whether a time is above the record before, if there is one.
fn later(i: usize, last: TimeKey, time: TimeKey) -> bool
    ensures { result ≡ above (before_of i last.0) time.0 }
{
    if i == 0 {
        return true;
    }
    last < time
}

// Rows 20 and 21 of the i-th record, after one at the time `last`.
fn values_row(answer: &[u8], at: usize, letter: u8, i: usize, last: TimeKey) -> Result<(), Refusal>
    requires { at + letter_width letter ≤ length answer.now }
    ensures { told result ≡ values_row i last.0 at (shown_record letter (drop at answer.now)) }
{
    if !positions_below(answer, at, letter, i) {
        return Err(Row::PositionNotBelow.at(at));
    }
    let time = TimeKey(get_u64(answer, at + RECORD_TIME));
    if !later(i, last, time) {
        return Err(Row::TraceTimeNotAbove.at(at));
    }
    Ok(())
}

// The letter of the i-th record, which begins at a place, or a row: 15 (no byte), 16, 15 (width), 20, 21.
fn record_row(answer: &[u8], at: usize, way: Way, i: usize, last: TimeKey) -> Result<u8, Refusal>
    requires { at ≤ length answer.now }
    ensures { Reads (way_of way) i last.0 answer.now at result }
{
    let left = answer.len() - at;
    if left == 0 {
        return Err(Row::AnswerCut.at(at));
    }
    let letter = answer[at];
    if !letter_due(way, i, letter) {
        return Err(Row::LetterNotDue.at(at));
    }
    if left < width_of(letter) {
        return Err(Row::AnswerCut.at(at));
    }
    values_row(answer, at, letter, i, last)?;
    Ok(letter)
}

// ---- a record in the table

// The position at a place, where it is that of a slot.
fn start_at(answer: &[u8], at: usize) -> u16
    requires { (at + 4 ≤ length answer.now) × (field 4 answer.now at < absent) }
    ensures { result ≡ field 4 answer.now at }
{
    get_u32(answer, at) as u16
}

// Puts the version of the record at a place into slot i, with the starts of its edges: ABSENT, as a slot has it, where there is none.
fn put_record_node(
    answer: &[u8],
    at: usize,
    work: &mut [u8],
    i: usize,
    previous: u16,
    source: u16,
    kind: u8,
)
    requires { (at + 13 ≤ length answer.now) × Slot work.old i }
    ensures { NodePut work.old work.new i (version (field 4 answer.now (at + 1)) (field 8 answer.now (at + 5)) previous source kind) }
{
    let entity = entity_at(answer, at + RECORD_ENTITY);
    let time = TimeKey(get_u64(answer, at + RECORD_TIME));
    put_node(work, i, entity, time, previous, source, kind);
}

// Puts what a record shows into slot i. Its positions are below i.
fn put_shown(answer: &[u8], at: usize, letter: u8, work: &mut [u8], i: usize)
    requires { (at + letter_width letter ≤ length answer.now) × (all_below i (shown_edges letter (drop at answer.now)) ≡ true) × (i ≤ absent) × Slot work.old i }
    ensures { NodePut work.old work.new i (shown_record letter (drop at answer.now)) }
{
    if letter == LETTER_V {
        let previous = start_at(answer, at + V_PREVIOUS);
        let source = start_at(answer, at + V_SOURCE);
        put_record_node(answer, at, work, i, previous, source, answer[at + V_KIND]);
        return;
    }
    if letter == LETTER_D {
        let source = start_at(answer, at + D_SOURCE);
        put_record_node(answer, at, work, i, ABSENT, source, answer[at + D_KIND]);
        return;
    }
    if letter == LETTER_T {
        let previous = start_at(answer, at + T_PREVIOUS);
        put_record_node(answer, at, work, i, previous, ABSENT, 0);
        return;
    }
    put_record_node(answer, at, work, i, ABSENT, ABSENT, 0);
}

// Puts what a record shows into slot i, and the record's place in the trace into a free column.
fn put_record(answer: &[u8], at: usize, letter: u8, work: &mut [u8], i: usize, place: usize)
    requires { (at + letter_width letter ≤ length answer.now) × (all_below i (shown_edges letter (drop at answer.now)) ≡ true) × (i ≤ absent) × Slot work.old i × (place < 2 ^ 32) }
    ensures { RecordInSlot work.old work.new i (shown_record letter (drop at answer.now)) place }
{
    put_shown(answer, at, letter, work, i);
    put_u32(work, SLOT_WIDTH * i + PLACE_COLUMN, place as u32);
}

// The way from a record to the next one: its width, and its time, which the next one's is above.
#[derive(Clone, Copy)]
struct Step {
    width: usize,
    time: TimeKey,
}

// Takes the i-th record in, which begins at a place: its rows, and then its slot.
fn read_record(
    answer: &[u8],
    at: usize,
    way: Way,
    i: usize,
    last: TimeKey,
    work: &mut [u8],
    place: usize,
) -> Result<Step, Refusal>
    requires { (at ≤ length answer.now) × (i ≤ absent) × Slot work.old i × (place < 2 ^ 32) }
    ensures { Steps (way_of way) i last.0 answer.now at work.old work.new place result }
{
    let letter = record_row(answer, at, way, i, last)?;
    put_record(answer, at, letter, work, i, place);
    let time = TimeKey(get_u64(answer, at + RECORD_TIME));
    let width = width_of(letter);
    Ok(Step { width, time })
}

// ---- all records

// Reads the records of the trace that starts at a place into the table, and gives the byte behind the last one.
fn read_records(
    answer: &[u8],
    start: usize,
    way: Way,
    count: usize,
    work: &mut [u8],
) -> Result<usize, Refusal>
    requires { (start + trace_header_width ≤ length answer.now) × (count ≤ absent) × (slot_width * count ≤ length work.old) }
    ensures { RecordsAre (read_records (way_of way) count [] [] (start + trace_header_width) (drop (start + trace_header_width) answer.now)) answer.now start count work.new result }
{
    let mut at = start + TRACE_HEADER_WIDTH;
    let mut last = TimeKey(0);
    for i in 0..count {
        let step = read_record(answer, at, way, i, last, work, at - start)?;
        last = step.time;
        at += step.width;
    }
    Ok(at)
}

// ---- the trace

// The number of records that the header of the trace at a place says, or a row: 15 (no byte), 16, 15 (width), 19, 12. The work area has
// `size` bytes.
fn read_header(answer: &[u8], at: usize, way: Way, size: usize) -> Result<usize, Refusal>
    requires { at ≤ length answer.now }
    ensures { HeaderIs (way_of way) size answer.now at result }
{
    let left = answer.len() - at;
    if left == 0 {
        return Err(Row::AnswerCut.at(at));
    }
    if answer[at] != trace_letter(way) {
        return Err(Row::LetterNotDue.at(at));
    }
    if left < TRACE_HEADER_WIDTH {
        return Err(Row::AnswerCut.at(at));
    }
    let count = get_u32(answer, at + TRACE_COUNT) as usize;
    if count < 1 {
        return Err(Row::CountOutOfRange.at(at));
    }
    if 65535 < count {
        return Err(Row::CountOutOfRange.at(at));
    }
    if size < SLOT_WIDTH * count {
        return Err(Row::WorkAreaShort.at(0));
    }
    Ok(count)
}

// A trace that was read: how many records it has, and the byte behind it.
#[derive(Clone, Copy)]
pub struct Trace {
    pub count: usize,
    pub end: usize,
}

// Reads the trace at a place into the table.
pub fn read_trace(answer: &[u8], at: usize, way: Way, work: &mut [u8]) -> Result<Trace, Refusal>
    requires { at ≤ length answer.now }
    ensures { TraceIs (way_of way) (length work.old) answer.now at work.new result }
{
    let count = read_header(answer, at, way, work.len())?;
    let end = read_records(answer, at, way, count, work)?;
    Ok(Trace { count, end })
}
