// The host's trace from a found version, over the node table: the versions in it, its length, its bytes.
#![tactic(auto)]

ghost use Rattle.std.specs.Prelude.{◌≡◌, cond, [], ◌∷◌, ℕ, ◌+◌, ◌*◌, ◌≤◌, ◌<◌, length};
ghost use Rattle.fields.specs.Fields.{encode, written};
ghost use Rattle.model.specs.Graph.{temporal, dependency};
ghost use Rattle.model.specs.Question.{backward, forward};
ghost use Rattle.model.specs.Trace.{trace_header_width, entry_letter, trace, trace_string};
ghost use Rattle.question.specs.Ways.{way_of};
ghost use Rattle.graph.specs.Table.{slot_width, Slot, kind_in, absent, node_in, nodes_in, Ready, Kept};
ghost use Rattle.graph.specs.Links.{name_string, Starts};
ghost use Rattle.marks.specs.Marks.{is_marked, Stands};
ghost use Rattle.trace_writer.specs.Marks.{trace_columns, slot_position, members, is_inside, starts_inside, OnlyMarked, Spread, MarksDone, PositionsDone, Positioned, Prepared};
ghost use Rattle.trace_writer.specs.Texts.{slot_edges, record_with, slot_string, slot_strings, Width, TraceLength, RecordWritten, Put, Room, Fits};

use fields::{get_u32, put_u32};
use graph::{ABSENT, POSITION_COLUMN, SLOT_WIDTH, kind_of, previous_of, put_name, source_of};
use marks::{clear_marks, mark_starts, marked, set_mark};
use model::{LETTER_D, LETTER_E, LETTER_S, LETTER_T, LETTER_V};
use question::{Way, trace_letter};
use strings::{
    D_KIND, D_SOURCE, D_WIDTH, E_WIDTH, RECORD_ENTITY, T_PREVIOUS, T_WIDTH, TRACE_COUNT,
    TRACE_HEADER_WIDTH, V_KIND, V_PREVIOUS, V_SOURCE, V_WIDTH,
};

// ---- the found version

// Marks the found version, which is in every trace from it, and none else.
fn mark_only(work: &mut [u8], n: usize, v: usize)
    requires { (slot_width * n ≤ length work.old) × (v < n) }
    ensures { OnlyMarked work.old work.new n v }
{
    clear_marks(work, n);
    set_mark(work, v, true);
}

// ---- the versions that reach the found one

// Marks the starts of a slot's edges, if the slot is marked.
fn mark_starts_if_marked(work: &mut [u8], i: usize)
    requires { Starts work.old i }
    ensures { Spread work.old work.new i }
{
    if marked(work, i) {
        mark_starts(work, i);
        return;
    }
}

// In falling order: an edge starts at an earlier slot than it ends.
fn mark_backward(work: &mut [u8], n: usize, v: usize)
    requires { Ready work.old n × (v < n) }
    ensures { MarksDone backward work.old work.new n v }
{
    mark_only(work, n, v);
    mark_starts(work, v);
    for i in (0..v).rev() {
        mark_starts_if_marked(work, i);
    }
}

// ---- the versions that the found one reaches

// Whether an edge starts inside: there is such an edge, and its start is in the trace.
fn inside(work: &[u8], start: u16) -> bool
    requires { Stands work.now start }
    ensures { result ≡ is_inside work.now start }
{
    if start == ABSENT {
        return false;
    }
    let from = start as usize;
    marked(work, from)
}

// Whether one of a slot's edges does.
fn either_inside(work: &[u8], i: usize) -> bool
    requires { Starts work.now i }
    ensures { result ≡ starts_inside work.now i }
{
    if inside(work, previous_of(work, i)) {
        return true;
    }
    inside(work, source_of(work, i))
}

// In rising order, likewise; the slots before the found version stay cleared.
fn mark_forward(work: &mut [u8], n: usize, v: usize)
    requires { Ready work.old n × (v < n) }
    ensures { MarksDone forward work.old work.new n v }
{
    mark_only(work, n, v);
    for i in v + 1..n {
        let reached = either_inside(work, i);
        set_mark(work, i, reached);
    }
}

// Marks just the versions of the trace.
fn mark_trace(way: Way, work: &mut [u8], n: usize, v: usize)
    requires { Ready work.old n × (v < n) }
    ensures { MarksDone (way_of way) work.old work.new n v }
{
    match way {
        Way::Backward => mark_backward(work, n, v),
        Way::Forward => mark_forward(work, n, v),
    }
}

// ---- positions

// How many records a slot gives.
fn record_count(work: &[u8], i: usize) -> u32
    requires { Slot work.now i }
    ensures { result ≡ cond (is_marked work.now i) 1 0 }
{
    if marked(work, i) {
        return 1;
    }
    0
}

// The position of a slot's record: how many slots before it are marked.
fn position_of(work: &[u8], i: usize) -> u32
    requires { Slot work.now i }
    ensures { result ≡ slot_position work.now i }
{
    get_u32(work, SLOT_WIDTH * i + POSITION_COLUMN)
}

fn set_positions(work: &mut [u8], n: usize)
    requires { (slot_width * n ≤ length work.old) × (n ≤ absent) }
    ensures { PositionsDone work.old work.new n }
{
    let mut position: u32 = 0;
    for i in 0..n {
        put_u32(work, SLOT_WIDTH * i + POSITION_COLUMN, position);
        position += record_count(work, i);
    }
}

// ---- length

// The bytes of a record, by whether its temporal and its dependency edge start inside.
fn width_of(previous: bool, source: bool) -> usize
    ensures { result ≡ cond previous (cond source 22 17) (cond source 18 13) }
{
    if previous {
        if source {
            return V_WIDTH;
        }
        return T_WIDTH;
    }
    if source {
        return D_WIDTH;
    }
    E_WIDTH
}

// 0 if the slot's version is not in the trace.
fn record_width(work: &[u8], i: usize) -> usize
    requires { Starts work.now i }
    ensures { Width work.now i result }
{
    if marked(work, i) {
        let previous = inside(work, previous_of(work, i));
        let source = inside(work, source_of(work, i));
        return width_of(previous, source);
    }
    0
}

// The header, and the records of all slots.
fn trace_length(work: &[u8], n: usize) -> usize
    requires { Ready work.now n }
    ensures { TraceLength work.now n result }
{
    let mut length: usize = TRACE_HEADER_WIDTH;
    for i in 0..n {
        length += record_width(work, i);
    }
    length
}

// Marks the versions of the trace from slot v, gives each its position, and answers the trace's length.
pub fn prepare(way: Way, work: &mut [u8], n: usize, v: usize) -> usize
    requires { Ready work.old n × (v < n) }
    ensures prepared { Prepared (way_of way) work.new n v }
    ensures kept { Kept trace_columns work.old work.new }
    ensures bytes { result ≡ length (trace_string (way_of way) (trace (way_of way) (nodes_in work.old n) v)) }
{
    mark_trace(way, work, n, v);
    set_positions(work, n);
    trace_length(work, n)
}

// ---- a record

// The letter of a record with no position.
fn entry_letter(way: Way) -> u8
    ensures { result ≡ entry_letter (way_of way) }
{
    match way {
        Way::Backward => LETTER_E,
        Way::Forward => LETTER_S,
    }
}

// The beginning of every record: letter, entity, time.
fn put_letter_and_name(letter: u8, work: &[u8], i: usize, out: &mut [u8], at: usize)
    requires { Slot work.now i × (at + 13 ≤ length out.old) }
    ensures { out.new ≡ written out.old at (letter ∷ name_string (node_in work.now i)) }
{
    out[at] = letter;
    put_name(out, at + RECORD_ENTITY, work, i);
}

// The kind of a slot's dependency edge.
fn put_kind(work: &[u8], i: usize, out: &mut [u8], at: usize)
    requires { Slot work.now i × (at + 1 ≤ length out.old) }
    ensures { out.new ≡ written out.old at (encode 1 (kind_in work.now i)) }
{
    out[at] = kind_of(work, i);
}

// The position of an edge's start.
fn put_position(work: &[u8], start: u16, out: &mut [u8], at: usize)
    requires { Slot work.now start × (at + 4 ≤ length out.old) }
    ensures { out.new ≡ written out.old at (encode 4 (slot_position work.now start)) }
{
    let from = start as usize;
    put_u32(out, at, position_of(work, from));
}

// T: only the temporal edge starts inside.
fn put_temporal(work: &[u8], i: usize, previous: u16, out: &mut [u8], at: usize)
    requires { Slot work.now i × Slot work.now previous × (at + 17 ≤ length out.old) }
    ensures { RecordWritten work.now i (temporal (slot_position work.now previous) ∷ []) out.old out.new at }
{
    put_letter_and_name(LETTER_T, work, i, out, at);
    put_position(work, previous, out, at + T_PREVIOUS);
}

// D: only the dependency edge starts inside.
fn put_dependency(work: &[u8], i: usize, source: u16, out: &mut [u8], at: usize)
    requires { Slot work.now i × Slot work.now source × (at + 18 ≤ length out.old) }
    ensures { RecordWritten work.now i (dependency (kind_in work.now i) (slot_position work.now source) ∷ []) out.old out.new at }
{
    put_letter_and_name(LETTER_D, work, i, out, at);
    put_kind(work, i, out, at + D_KIND);
    put_position(work, source, out, at + D_SOURCE);
}

// V: both do.
fn put_both(work: &[u8], i: usize, previous: u16, source: u16, out: &mut [u8], at: usize)
    requires { Slot work.now i × Slot work.now previous × Slot work.now source × (at + 22 ≤ length out.old) }
    ensures { RecordWritten work.now i (temporal (slot_position work.now previous) ∷ dependency (kind_in work.now i) (slot_position work.now source) ∷ []) out.old out.new at }
{
    put_letter_and_name(LETTER_V, work, i, out, at);
    put_kind(work, i, out, at + V_KIND);
    put_position(work, previous, out, at + V_PREVIOUS);
    put_position(work, source, out, at + V_SOURCE);
}

// The record of a version in the trace; answers the place behind it.
fn put_marked(way: Way, work: &[u8], i: usize, out: &mut [u8], at: usize) -> usize
    requires { Starts work.now i × (at + length (record_with (way_of way) work.now i (slot_edges work.now i)) ≤ length out.old) }
    ensures { Put out.old out.new at result (record_with (way_of way) work.now i (slot_edges work.now i)) }
{
    let previous = previous_of(work, i);
    let source = source_of(work, i);
    if inside(work, previous) {
        if inside(work, source) {
            put_both(work, i, previous, source, out, at);
            return at + V_WIDTH;
        }
        put_temporal(work, i, previous, out, at);
        return at + T_WIDTH;
    }
    if inside(work, source) {
        put_dependency(work, i, source, out, at);
        return at + D_WIDTH;
    }
    put_letter_and_name(entry_letter(way), work, i, out, at);
    at + E_WIDTH
}

// The record of a slot, if its version is in the trace.
fn put_record(way: Way, work: &[u8], i: usize, out: &mut [u8], at: usize) -> usize
    requires { Starts work.now i × (at + length (slot_string (way_of way) work.now i) ≤ length out.old) }
    ensures { Put out.old out.new at result (slot_string (way_of way) work.now i) }
{
    if marked(work, i) {
        return put_marked(way, work, i, out, at);
    }
    at
}

// ---- the trace

// All records, behind the header.
fn put_records(way: Way, work: &[u8], n: usize, out: &mut [u8])
    requires { Room (way_of way) work.now n (length out.old) }
    ensures { out.new ≡ written out.old trace_header_width (slot_strings (way_of way) work.now n) }
{
    let mut at: usize = TRACE_HEADER_WIDTH;
    for i in 0..n {
        at = put_record(way, work, i, out, at);
    }
}

// The number of records.
fn count_of(work: &[u8], n: usize) -> u32
    requires { Positioned work.now n × (0 < n) }
    ensures { result ≡ length (members work.now n) }
{
    let last = n - 1;
    position_of(work, last) + record_count(work, last)
}

// Writes the trace that the table was prepared for to the front of `out`.
pub fn write(way: Way, work: &[u8], n: usize, out: &mut [u8])
    requires { Fits (way_of way) work.now n (length out.old) }
    ensures { (v : ℕ) → Prepared (way_of way) work.now n v → out.new ≡ written out.old 0 (trace_string (way_of way) (trace (way_of way) (nodes_in work.now n) v)) }
{
    out[0] = trace_letter(way);
    put_u32(out, TRACE_COUNT, count_of(work, n));
    put_records(way, work, n, out);
}
