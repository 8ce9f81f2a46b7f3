// The calls of the checker: whether an answer, which may be any bytes, is the true one under a commitment.
#![tactic(auto)]

ghost use Rattle.std.specs.Prelude.{◌≡◌, cond, ◌&&◌, List, [], ℕ, ◌+◌, ◌*◌, ◌^◌, ◌≤◌, ◌<◌, eqb, length, get_or};
ghost use Rattle.fields.specs.Fields.{equal};
ghost use Rattle.round_constants.specs.Constants.{K};
ghost use Rattle.model.specs.Graph.{VersionNode};
ghost use Rattle.model.specs.Question.{backward, one, all, SearchEnd};
ghost use Rattle.model.specs.CheckRows.{found_position, path_digests, leaf_digest, trace_rows, with_trace, check_end, run_under, run};
ghost use Rattle.model.specs.Calls.{verdict_of, check_call, records_call};
ghost use Rattle.model.specs.Trace.{trace_header_width};
ghost use Rattle.model.specs.Accumulator.{L_width, letter_R};
ghost use Rattle.outcome.specs.Outcomes.{told};
ghost use Rattle.question.specs.Ways.{way_of};
ghost use Rattle.question.specs.Directions.{part_of, question_of, span_of};
ghost use Rattle.graph.specs.Table.{Slot, node_in, nodes_in, Ready};
ghost use Rattle.marks.specs.Marks.{is_marked};
ghost use Rattle.proof_reader.specs.Spans.{ListStrings};
ghost use Rattle.trace_reader.specs.Records.{place_in, places_in};
ghost use Rattle.checker.specs.Runs.{checking_of, bounds_of, RunIs, BoundsAre, EndsHere, list_verdict, Checks, leaf_in_answer, found_proof, Lowest, digest_column, PathDigests, trace_in, found_rows, TraceInTable};

use graph::{INCOMING_COLUMN, OUTGOING_COLUMN, PLACE_COLUMN, SLOT_WIDTH};
use model::LETTER_R;
use outcome::{Refusal, Row};
use proof_reader::{ListProof, Proof, Stop};
use question::{EntityKey, Query, Question, SpanQuestion, TimeKey, Way};
use strings::{DIGEST_WIDTH, L_INCOMING, NAME_WIDTH, TRACE_HEADER_WIDTH};
use trace_reader::Trace;

// What an accepted answer says.
#[derive(Clone, Copy)]
pub enum Verdict {
    NotFound { stop: Stop },
    Found { time: TimeKey, count: usize },
    Listed { count: usize },
}

// ---- row 22

// i if its slot has no mark, else the lowest so far.
fn lower(work: &[u8], i: usize, lowest: Option<usize>) -> Option<usize>
    requires { Slot work.now i }
    ensures { result ≡ cond (is_marked work.now i) lowest (Some i) }
{
    if marks::marked(work, i) {
        lowest
    } else {
        Some(i)
    }
}

// The lowest record but the last to which none refers. From the last to the first, each record marks those to which it refers: so a mark
// tells whether a later one refers to a record.
fn find_unreferenced_backward(work: &mut [u8], n: usize) -> Option<usize>
    requires { Ready work.old n × (0 < n) }
    ensures { Lowest backward work.old work.new n result }
{
    let last = n - 1;
    let mut lowest = None;
    marks::clear_marks(work, n);
    marks::mark_starts(work, last);
    for i in (0..last).rev() {
        lowest = lower(work, i, lowest);
        marks::mark_starts(work, i);
    }
    lowest
}

// Row 22 is backward's alone.
fn find_unreferenced(way: Way, work: &mut [u8], n: usize) -> Option<usize>
    requires { Ready work.old n × (0 < n) }
    ensures { Lowest (way_of way) work.old work.new n result }
{
    match way {
        Way::Backward => find_unreferenced_backward(work, n),
        Way::Forward => None,
    }
}

// ---- rows 23 and 24

// The found version's record: the last in B, the first in F.
fn found_position(way: Way, n: usize) -> usize
    requires { 0 < n }
    ensures { (result < n) × ((ns : List VersionNode) → length ns ≡ n → result ≡ found_position (way_of way) ns) }
{
    match way {
        Way::Backward => n - 1,
        Way::Forward => 0,
    }
}

// Where in the answer the record in a slot stands, of a trace that begins at `start`.
fn record_place(work: &[u8], start: usize, i: usize) -> usize
    requires { Slot work.now i × (start < 2 ^ 63) }
    ensures { result ≡ place_in work.now start i }
{
    start + fields::get_u32(work, SLOT_WIDTH * i + PLACE_COLUMN) as usize
}

// Whether the version in a slot is the leaf's.
fn same_version(work: &[u8], i: usize, answer: &[u8], leaf: usize) -> bool
    requires { Slot work.now i × (leaf + L_width ≤ length answer.now) }
    ensures { result ≡ (eqb (node_in work.now i).entity (leaf_in_answer answer.now leaf).entity && eqb (node_in work.now i).time (leaf_in_answer answer.now leaf).time) }
{
    graph::entity_of(work, i) == proof_reader::leaf_entity(answer, leaf)
        && graph::time_of(work, i) == proof_reader::leaf_time(answer, leaf)
}

// The column of a trace's path digests: that of incoming digests in B, of outgoing ones in F.
fn column_of(way: Way) -> usize
    ensures { result ≡ digest_column (way_of way) }
{
    match way {
        Way::Backward => INCOMING_COLUMN,
        Way::Forward => OUTGOING_COLUMN,
    }
}

fn put_digests(way: Way, work: &mut [u8], n: usize, constants: &[u32; 64])
    requires { (Ready work.old n) × (constants.now ≡ K) }
    ensures { PathDigests (way_of way) work.old work.new n }
{
    match way {
        Way::Backward => incoming::fill_incoming(work, n, constants),
        Way::Forward => graph::fill_outgoing(work, n, constants),
    }
}

// Whether the path digest of the record in a slot is the leaf's.
fn compare_digest(
    way: Way,
    work: &mut [u8],
    n: usize,
    i: usize,
    answer: &[u8],
    leaf: usize,
    constants: &[u32; 64],
) -> bool
    requires { (Ready work.old n × (i < n) × (leaf + L_width ≤ length answer.now)) × (constants.now ≡ K) }
    ensures { result ≡ equal (get_or (path_digests (way_of way) (nodes_in work.old n)) i []) (leaf_digest (way_of way) (leaf_in_answer answer.now leaf)) }
{
    put_digests(way, work, n, constants);
    let column = column_of(way);
    fields::same(
        work,
        SLOT_WIDTH * i + column,
        answer,
        leaf + L_INCOMING + column,
        DIGEST_WIDTH,
    )
}

// Rows 23 and 24.
fn check_found_record(
    way: Way,
    answer: &[u8],
    leaf: usize,
    start: usize,
    n: usize,
    work: &mut [u8],
    constants: &[u32; 64],
) -> Result<(), Refusal>
    requires { (Ready work.old n × (0 < n) × (leaf + L_width ≤ length answer.now) × (start ≤ length answer.now)) × (constants.now ≡ K) }
    ensures { told result ≡ found_rows (way_of way) (leaf_in_answer answer.now leaf) (nodes_in work.old n) (places_in work.old start n) }
{
    let i = found_position(way, n);
    let position = record_place(work, start, i);
    if !same_version(work, i, answer, leaf) {
        return Err(Row::FoundRecordDiffers.at(position));
    }
    if !compare_digest(way, work, n, i, answer, leaf, constants) {
        return Err(Row::PathDigestDiffers.at(position));
    }
    Ok(())
}

// Rows 18, 22, 23 and 24, of a trace that begins at `start`.
fn check_trace_rows(
    way: Way,
    answer: &[u8],
    leaf: usize,
    start: usize,
    trace: Trace,
    work: &mut [u8],
    constants: &[u32; 64],
) -> Result<(), Refusal>
    requires { (Ready work.old trace.count × (0 < trace.count) × (leaf + L_width ≤ length answer.now) × (start ≤ length answer.now) × (trace.end ≤ length answer.now)) × (constants.now ≡ K) }
    ensures { told result ≡ trace_rows (way_of way) (leaf_in_answer answer.now leaf) (trace_in answer.now work.old start trace.count trace.end) }
{
    if trace.end < answer.len() {
        return Err(Row::BytesAfterEnd.at(trace.end));
    }
    if let Some(lowest) = find_unreferenced(way, work, trace.count) {
        return Err(Row::RecordUnreferenced.at(record_place(work, start, lowest)));
    }
    check_found_record(way, answer, leaf, start, trace.count, work, constants)
}

// ---- a run of the check

// Where a part of the answer stands.
#[derive(Clone, Copy)]
pub struct Bounds {
    pub start: usize,
    pub length: usize,
}

const NO_RECORDS: Bounds = Bounds {
    start: 0,
    length: 0,
};

// A run that accepts the answer: what it says, and where in the answer the checked records stand.
#[derive(Clone, Copy)]
struct Run {
    verdict: Verdict,
    records: Bounds,
}

// Without a trace, the answer ends where the proof does: row 18.
fn end_here(answer: &[u8], at: usize, verdict: Verdict) -> Result<Run, Refusal>
    requires { at ≤ length answer.now }
    ensures { EndsHere answer.now at verdict result }
{
    if at < answer.len() {
        return Err(Row::BytesAfterEnd.at(at));
    }
    Ok(Run {
        verdict,
        records: NO_RECORDS,
    })
}

// The trace behind the proof, which ended at the leaf, has been read into the table.
fn check_read_trace(
    way: Way,
    answer: &[u8],
    leaf: usize,
    at: usize,
    trace: Trace,
    work: &mut [u8],
    constants: &[u32; 64],
) -> Result<Run, Refusal>
    requires { (Ready work.old trace.count × (0 < trace.count) × (leaf + L_width ≤ length answer.now) × (at + trace_header_width ≤ length answer.now) × (trace.end ≤ length answer.now)) × (constants.now ≡ K) }
    ensures { (size : ℕ) → TraceInTable (way_of way) size answer.now at work.old trace.count trace.end → RunIs answer.now (with_trace (way_of way) size (found_proof answer.now leaf at) (leaf_in_answer answer.now leaf)) result }
{
    check_trace_rows(way, answer, leaf, at, trace, work, constants)?;
    let start = at + TRACE_HEADER_WIDTH;
    let length = answer.len() - start;
    Ok(Run {
        verdict: Verdict::Found {
            time: proof_reader::leaf_time(answer, leaf),
            count: trace.count,
        },
        records: Bounds { start, length },
    })
}

// A trace behind the proof, which ended at the leaf.
fn check_trace(
    way: Way,
    answer: &[u8],
    leaf: usize,
    at: usize,
    work: &mut [u8],
    constants: &[u32; 64],
) -> Result<Run, Refusal>
    requires { ((leaf + L_width ≤ length answer.now) × (at ≤ length answer.now)) × (constants.now ≡ K) }
    ensures { RunIs answer.now (with_trace (way_of way) (length work.old) (found_proof answer.now leaf at) (leaf_in_answer answer.now leaf)) result }
{
    let trace = trace_reader::read_trace(answer, at, way, work)?;
    check_read_trace(way, answer, leaf, at, trace, work, constants)
}

// The proof ended at the leaf, and a trace is asked for, or none.
fn check_found(
    trace: Option<Way>,
    answer: &[u8],
    leaf: usize,
    at: usize,
    work: &mut [u8],
    constants: &[u32; 64],
) -> Result<Run, Refusal>
    requires { ((leaf + L_width ≤ length answer.now) × (at ≤ length answer.now)) × (constants.now ≡ K) }
    ensures { RunIs answer.now (check_end (part_of trace) (length work.old) (found_proof answer.now leaf at) (SearchEnd.found (leaf_in_answer answer.now leaf))) result }
{
    match trace {
        None => {
            let time = proof_reader::leaf_time(answer, leaf);
            end_here(answer, at, Verdict::Found { time, count: 0 })
        }
        Some(way) => check_trace(way, answer, leaf, at, work, constants),
    }
}

// The run of a question for one version: row 14, the proof, the trace.
fn run_one(
    question: Question,
    commitment: &[u8],
    answer: &[u8],
    work: &mut [u8],
) -> Result<Run, Refusal>
    ensures { RunIs answer.now (run_under letter_R (one (question_of question)) commitment.now answer.now (length work.old)) result }
{
    if commitment.len() != DIGEST_WIDTH {
        return Err(Row::CommitmentNot32.at(0));
    }
    let constants = round_constants::work_out();
    match proof_reader::check_proof(LETTER_R, question, commitment, answer, 0, &constants)? {
        Proof::Stopped { stop, at } => end_here(answer, at, Verdict::NotFound { stop }),
        Proof::Found { leaf, at } => {
            check_found(question.trace, answer, leaf, at, work, &constants)
        }
    }
}

// ---- all versions between two times

// The strings that name the versions have been read: rows 18 and 13, and only then is the list written.
fn give_list(
    answer: &[u8],
    start: usize,
    end: usize,
    count: usize,
    out: &mut [u8],
) -> Result<Verdict, Refusal>
    requires { ListStrings answer.now start end count }
    ensures { (l : ListStrings answer.now start end count) → Checks (list_verdict answer.now end l.leaves) out.old out.new result }
{
    let size = NAME_WIDTH * count;
    if answer.len() > end {
        return Err(Row::BytesAfterEnd.at(end));
    }
    if out.len() < size {
        return Err(Row::OutputShort.at(0));
    }
    proof_reader::put_list(answer, start, end, out);
    Ok(Verdict::Listed { count })
}

// The check of a question for all versions between two times: row 14, the proof, 18, 13. It needs no work area.
fn check_all(
    span: SpanQuestion,
    commitment: &[u8],
    answer: &[u8],
    out: &mut [u8],
) -> Result<Verdict, Refusal>
    ensures { (size : ℕ) → Checks (verdict_of (run_under letter_R (all (span_of span)) commitment.now answer.now size)) out.old out.new result }
{
    if commitment.len() != DIGEST_WIDTH {
        return Err(Row::CommitmentNot32.at(0));
    }
    let constants = round_constants::work_out();
    match proof_reader::check_list(LETTER_R, span, commitment, answer, 0, &constants)? {
        ListProof::NoEntity { at } => {
            let stop = Stop::NoEntity;
            Ok(end_here(answer, at, Verdict::NotFound { stop })?.verdict)
        }
        ListProof::Listed { start, end, count } => give_list(answer, start, end, count, out),
    }
}

// ---- the calls

// Rows 11 and 25, or the check of what is asked; the work area is left as it comes.
fn check_asked(
    direction: u8,
    entity: EntityKey,
    time: TimeKey,
    until: TimeKey,
    commitment: &[u8],
    answer: &[u8],
    work: &mut [u8],
    out: &mut [u8],
) -> Result<Verdict, Refusal>
    ensures { Checks (verdict_of (run direction entity.0 time.0 until.0 commitment.now answer.now (length work.old))) out.old out.new result }
{
    match question::asked_by(direction, entity, time, until)? {
        Query::One { question } => Ok(run_one(question, commitment, answer, work)?.verdict),
        Query::All { span } => check_all(span, commitment, answer, out),
    }
}

// Checks an answer against a commitment: what an accepted answer says, or the row that turned it away and where. The work area takes 128
// bytes for each record of the answer's trace and is zero afterwards. For all versions between two times, their list is written to the front
// of `out`, 12 bytes a version; else `out` stays as it was.
pub fn check(
    direction: u8,
    entity: EntityKey,
    time: TimeKey,
    until: TimeKey,
    commitment: &[u8],
    answer: &[u8],
    work: &mut [u8],
    out: &mut [u8],
) -> Result<Verdict, Refusal>
    ensures result { told result ≡ checking_of (check_call direction entity.0 time.0 until.0 commitment.now answer.now out.old work.old).result }
    ensures output { out.new ≡ (check_call direction entity.0 time.0 until.0 commitment.now answer.now out.old work.old).output }
    ensures cleared { work.new ≡ (check_call direction entity.0 time.0 until.0 commitment.now answer.now out.old work.old).work }
{
    let checking = check_asked(
        direction, entity, time, until, commitment, answer, work, out,
    );
    fields::clear(work);
    checking
}

// Where in the answer the checked records stand, or the row that turns it away; the work area is left as it comes. Only a question for one
// version has records.
fn bounds_asked(
    direction: u8,
    entity: EntityKey,
    time: TimeKey,
    until: TimeKey,
    commitment: &[u8],
    answer: &[u8],
    work: &mut [u8],
) -> Result<Bounds, Refusal>
    ensures { BoundsAre answer.now (run direction entity.0 time.0 until.0 commitment.now answer.now (length work.old)) result }
{
    let query = question::asked_by(direction, entity, time, until)?;
    match query {
        Query::One { question } => Ok(run_one(question, commitment, answer, work)?.records),
        Query::All { .. } => Ok(NO_RECORDS),
    }
}

// Where in the answer the checked records stand, without the trace header: 0 and 0 if there are none or the check refuses.
pub fn record_bounds(
    direction: u8,
    entity: EntityKey,
    time: TimeKey,
    until: TimeKey,
    commitment: &[u8],
    answer: &[u8],
    work: &mut [u8],
) -> Bounds
    ensures result { result ≡ bounds_of (run direction entity.0 time.0 until.0 commitment.now answer.now (length work.old)) }
    ensures inside { result.start + result.length ≤ length answer.now }
    ensures cleared { work.new ≡ (records_call direction entity.0 time.0 until.0 commitment.now answer.now work.old).work }
{
    let bounds = bounds_asked(direction, entity, time, until, commitment, answer, work);
    fields::clear(work);
    bounds.unwrap_or(NO_RECORDS)
}

// The checked records as that part of the answer; an empty part if there are none or the check refuses.
pub fn records<'a>(
    direction: u8,
    entity: EntityKey,
    time: TimeKey,
    until: TimeKey,
    commitment: &[u8],
    answer: &'a [u8],
    work: &mut [u8],
) -> &'a [u8]
    ensures result { result.now ≡ (records_call direction entity.0 time.0 until.0 commitment.now answer.now work.old).result }
    ensures cleared { work.new ≡ (records_call direction entity.0 time.0 until.0 commitment.now answer.now work.old).work }
{
    let Bounds { start, length } = record_bounds(
        direction, entity, time, until, commitment, answer, work,
    );
    &answer[start..start + length]
}
