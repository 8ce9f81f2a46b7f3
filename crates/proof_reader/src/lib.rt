// Reading the proof of an answer: the strings that the walk through the two trees opens, or all that two times open, rows 15 to 17. The
// answer may be any bytes. And writing the names of the versions opened.
#![tactic(auto)]

ghost use Rattle.std.specs.Prelude.{◌≡◌, map, ℕ, ◌+◌, ◌≤◌, length, take, drop};
ghost use Rattle.fields.specs.Fields.{part, field, written};
ghost use Rattle.round_constants.specs.Constants.{K};
ghost use Rattle.model.specs.Accumulator.{G_width, L_width, branch_width};
ghost use Rattle.model.specs.Question.{by_entity, by_time, all, one, within, name_width, name_string};
ghost use Rattle.model.specs.CheckRows.{subtree_in, leaf_in, path_limit, leaf_name, check_proof};
ghost use Rattle.model.specs.Numbers.{digest_width, joined};
ghost use Rattle.question.specs.Directions.{relation_of, question_of, span_of};
ghost use Rattle.proof_reader.specs.Walks.{Takes, Opens, side_of, stop_of, versions_at, entities_at, sought_at, SearchIs, ProofIs};
ghost use Rattle.proof_reader.specs.Spans.{letter_due, DueOpens, all_at, SpanIs, ListIs, Listed};

use model::{LETTER_G, LETTER_L, LETTER_N, LETTER_P};
use outcome::{Refusal, Row};
use question::{EntityKey, Question, Relation, SpanQuestion, TimeKey};
use std::marker::PhantomData;
use strings::{
    BRANCH_LEFT, BRANCH_RIGHT, BRANCH_WIDTH, DIGEST_WIDTH, G_VERSIONS, G_WIDTH, L_ENTITY, L_TIME,
    L_WIDTH, NAME_TIME, NAME_WIDTH, R_TREE, R_WIDTH, SUBTREE_DIGEST, SUBTREE_GREATEST,
};

// ---- strings

// The string of `width` bytes at a place is there: 15 (no byte), 16, 15 (width), 17. The digest due stands at a place of `digests`.
fn take_string(
    answer: &[u8],
    at: usize,
    letter: u8,
    width: usize,
    digests: &[u8],
    due: usize,
    constants: &[u32; 64],
) -> Result<(), Refusal>
    requires { ((at ≤ length answer.now) × (due + digest_width ≤ length digests.now)) × (constants.now ≡ K) }
    ensures { Takes answer.now at letter width (part digests.now due digest_width) result }
{
    let left = answer.len() - at;
    if left == 0 {
        return Err(Row::AnswerCut.at(at));
    }
    if answer[at] != letter {
        return Err(Row::LetterNotDue.at(at));
    }
    if left < width {
        return Err(Row::AnswerCut.at(at));
    }
    let digest = sha256::digest(&answer[at..at + width], constants);
    if fields::same(&digest, 0, digests, due, DIGEST_WIDTH) {
        return Ok(());
    }
    Err(Row::DigestNotDue.at(at))
}

// The strings of a tree: a leaf's letter and width, and an inner one's letter.
#[derive(Clone, Copy)]
struct Layout {
    leaf: u8,
    width: usize,
    inner: u8,
}

const ENTITY_TREE: Layout = Layout {
    leaf: LETTER_G,
    width: G_WIDTH,
    inner: LETTER_P,
};

const VERSION_TREE: Layout = Layout {
    leaf: LETTER_L,
    width: L_WIDTH,
    inner: LETTER_N,
};

// The kind of string that was taken.
#[derive(Clone, Copy)]
enum Opening {
    Leaf,
    Inner,
}

// Takes the string of a subtree, which is known by the 48 bytes at a place of the answer: a leaf's if its keys are equal.
fn open(
    layout: Layout,
    answer: &[u8],
    at: usize,
    known: usize,
    constants: &[u32; 64],
) -> Result<Opening, Refusal>
    requires { ((at ≤ length answer.now) × (known + 48 ≤ length answer.now)) × (constants.now ≡ K) }
    ensures { Opens layout.leaf layout.width layout.inner answer.now at (subtree_in answer.now known) result }
{
    let Layout { leaf, width, inner } = layout;
    let least = fields::get_u64(answer, known);
    let greatest = fields::get_u64(answer, known + SUBTREE_GREATEST);
    let digest = known + SUBTREE_DIGEST;
    if least == greatest {
        take_string(answer, at, leaf, width, answer, digest, constants)?;
        return Ok(Opening::Leaf);
    }
    take_string(answer, at, inner, BRANCH_WIDTH, answer, digest, constants)?;
    Ok(Opening::Inner)
}

// ---- the rules of the walks

// The keys of a tree: each is made of the number that stands for it in a string.
trait Key: Copy {
    ghost number: { Self → ℕ };

    fn of_number(n: u64) -> Self
        ensures { number result ≡ n };
}

impl Key for EntityKey {
    ghost number = { λ key. key.0 };

    fn of_number(n: u64) -> EntityKey {
        EntityKey(n)
    }
}

impl Key for TimeKey {
    ghost number = { λ key. key.0 };

    fn of_number(n: u64) -> TimeKey {
        TimeKey(n)
    }
}

// Where a known subtree stands in the answer. In the tree of entities its keys are entities, in one entity's tree they are times.
#[derive(Clone, Copy)]
struct TreeAt<K> {
    at: usize,
    keys: PhantomData<K>,
}

impl<K: Key> TreeAt<K> {
    fn new(at: usize) -> TreeAt<K>
        ensures { result.at ≡ at }
    {
        TreeAt {
            at,
            keys: PhantomData,
        }
    }

    fn least(self, answer: &[u8]) -> K
        requires { self.at + 48 ≤ length answer.now }
        ensures { K.number result ≡ field 8 answer.now self.at }
    {
        K::of_number(fields::get_u64(answer, self.at))
    }

    fn greatest(self, answer: &[u8]) -> K
        requires { self.at + 48 ≤ length answer.now }
        ensures { K.number result ≡ field 8 answer.now (self.at + 8) }
    {
        K::of_number(fields::get_u64(answer, self.at + SUBTREE_GREATEST))
    }
}

// Whether an entity lies outside the known keys.
fn outside(answer: &[u8], tree: TreeAt<EntityKey>, entity: EntityKey) -> bool
    requires { tree.at + 48 ≤ length answer.now }
    ensures { result ≡ (by_entity entity.0).stops (subtree_in answer.now tree.at) }
{
    entity < tree.least(answer) || tree.greatest(answer) < entity
}

// Whether no version below the known keys meets the time: looking back all are after it, looking ahead all are before it.
fn unmet(question: Question, answer: &[u8], tree: TreeAt<TimeKey>) -> bool
    requires { tree.at + 48 ≤ length answer.now }
    ensures { result ≡ (by_time (relation_of question.relation) question.time.0).stops (subtree_in answer.now tree.at) }
{
    match question.relation {
        Relation::AtOrBefore => question.time < tree.least(answer),
        Relation::AtOrAfter => tree.greatest(answer) < question.time,
    }
}

// Where a walk stops without a version. In one entity's tree it has the key that is known there: the entity's first time, or its last.
#[derive(Clone, Copy)]
pub enum Stop {
    NoEntity,
    NotYet { first: TimeKey },
    NoneSoLate { last: TimeKey },
}

fn stop_at(relation: Relation, answer: &[u8], tree: TreeAt<TimeKey>) -> Stop
    requires { tree.at + 48 ≤ length answer.now }
    ensures { (t : ℕ) → result ≡ stop_of ((by_time (relation_of relation) t).stop_at (subtree_in answer.now tree.at)) }
{
    match relation {
        Relation::AtOrBefore => {
            let first = tree.least(answer);
            Stop::NotYet { first }
        }
        Relation::AtOrAfter => {
            let last = tree.greatest(answer);
            Stop::NoneSoLate { last }
        }
    }
}

// The side of the string P at a place: left if the entity is at most the left's greatest key.
fn entity_side(answer: &[u8], at: usize, entity: EntityKey) -> TreeAt<EntityKey>
    requires { at + branch_width ≤ length answer.now }
    ensures { result.at ≡ side_of (by_entity entity.0) answer.now at }
{
    let left = TreeAt::<EntityKey>::new(at + BRANCH_LEFT);
    let right = TreeAt::<EntityKey>::new(at + BRANCH_RIGHT);
    if left.greatest(answer) < entity {
        right
    } else {
        left
    }
}

// The side of the string N at a place: looking back, right if the time is at least the right's least key; looking ahead, left if it is at
// most the left's greatest key.
fn version_side(question: Question, answer: &[u8], at: usize) -> TreeAt<TimeKey>
    requires { at + branch_width ≤ length answer.now }
    ensures { result.at ≡ side_of (by_time (relation_of question.relation) question.time.0) answer.now at }
{
    let left = TreeAt::<TimeKey>::new(at + BRANCH_LEFT);
    let right = TreeAt::<TimeKey>::new(at + BRANCH_RIGHT);
    match question.relation {
        Relation::AtOrBefore => {
            if question.time < right.least(answer) {
                left
            } else {
                right
            }
        }
        Relation::AtOrAfter => {
            if left.greatest(answer) < question.time {
                right
            } else {
                left
            }
        }
    }
}

// ---- all versions between two times, in preorder

// Whether the times known of a subtree meet those between the two.
fn meets(span: SpanQuestion, answer: &[u8], tree: TreeAt<TimeKey>) -> bool
    requires { tree.at + 48 ≤ length answer.now }
    ensures { result ≡ within (span_of span) (subtree_in answer.now tree.at) }
{
    tree.least(answer) <= span.to && span.from <= tree.greatest(answer)
}

// Whether a letter is due for the string of a subtree, where n more N may stand on its path: L if its keys are equal.
fn letter_due(answer: &[u8], tree: TreeAt<TimeKey>, n: usize) -> bool
    requires { tree.at + 48 ≤ length answer.now }
    ensures { result ≡ letter_due n (subtree_in answer.now tree.at) }
{
    n != 0 || tree.least(answer) == tree.greatest(answer)
}

// Takes the string of a subtree, where n more N may stand on its path. Where no letter is due: 15 (no byte), 16.
fn open_due(
    answer: &[u8],
    at: usize,
    tree: TreeAt<TimeKey>,
    n: usize,
    constants: &[u32; 64],
) -> Result<Opening, Refusal>
    requires { ((at ≤ length answer.now) × (tree.at + 48 ≤ length answer.now)) × (constants.now ≡ K) }
    ensures { DueOpens n answer.now at (subtree_in answer.now tree.at) result }
{
    if letter_due(answer, tree, n) {
        return open(VERSION_TREE, answer, at, tree.at, constants);
    }
    let row = if at == answer.len() {
        Row::AnswerCut
    } else {
        Row::LetterNotDue
    };
    Err(row.at(at))
}

// The byte behind the last string, and the number of leaves opened.
#[derive(Clone, Copy)]
struct Span {
    at: usize,
    count: usize,
}

// All strings of a subtree that the times open, in preorder; n more N may stand on its path. That bounds its depth, so it is a recursion.
fn read_span(
    span: SpanQuestion,
    answer: &[u8],
    start: usize,
    tree: TreeAt<TimeKey>,
    n: usize,
    constants: &[u32; 64],
) -> Result<Span, Refusal>
    requires { (((start ≤ length answer.now) × (tree.at + 48 ≤ length answer.now)) × (n ≤ path_limit)) × (constants.now ≡ K) }
    ensures { SpanIs answer.now (all_at (span_of span) n answer.now start tree.at) result }
{
    if !meets(span, answer, tree) {
        return Ok(Span {
            at: start,
            count: 0,
        });
    }
    match open_due(answer, start, tree, n, constants)? {
        Opening::Leaf => Ok(Span {
            at: start + L_WIDTH,
            count: 1,
        }),
        Opening::Inner => {
            let left = TreeAt::<TimeKey>::new(start + BRANCH_LEFT);
            let right = TreeAt::<TimeKey>::new(start + BRANCH_RIGHT);
            let below = read_span(span, answer, start + BRANCH_WIDTH, left, n - 1, constants)?;
            let behind = read_span(span, answer, below.at, right, n - 1, constants)?;
            Ok(Span {
                at: behind.at,
                count: below.count + behind.count,
            })
        }
    }
}

// ---- the walk to an entity

// Where the walk in the tree of entities ends: without the entity sought, and before which byte, or at its string G.
#[derive(Clone, Copy)]
enum EntitySearch {
    NoEntity { at: usize },
    Group { at: usize },
}

// The walk in the tree of entities. Its depth has no bound, so it is a loop, and so is the one in an entity's tree.
fn walk_entities(
    entity: EntityKey,
    answer: &[u8],
    start: usize,
    root: TreeAt<EntityKey>,
    constants: &[u32; 64],
) -> Result<EntitySearch, Refusal>
    requires { ((start ≤ length answer.now) × (root.at + 48 ≤ length answer.now)) × (constants.now ≡ K) }
    ensures { SearchIs answer.now entity.0 (λ q. entities_at q answer.now start root.at) result }
{
    let mut at = start;
    let mut tree = root;
    loop {
        if outside(answer, tree, entity) {
            return Ok(EntitySearch::NoEntity { at });
        }
        match open(ENTITY_TREE, answer, at, tree.at, constants)? {
            Opening::Leaf => return Ok(EntitySearch::Group { at }),
            Opening::Inner => {
                tree = entity_side(answer, at, entity);
                at += BRANCH_WIDTH;
            }
        }
    }
}

// The string R at a place of the answer, under a root's letter and a commitment, and the walk below it.
fn find_entity(
    letter: u8,
    entity: EntityKey,
    commitment: &[u8],
    answer: &[u8],
    at: usize,
    constants: &[u32; 64],
) -> Result<EntitySearch, Refusal>
    requires { ((length commitment.now ≡ digest_width) × (at ≤ length answer.now)) × (constants.now ≡ K) }
    ensures { SearchIs answer.now entity.0 (λ q. check_proof letter q commitment.now at (drop at answer.now)) result }
{
    take_string(answer, at, letter, R_WIDTH, commitment, 0, constants)?;
    let root = TreeAt::<EntityKey>::new(at + R_TREE);
    walk_entities(entity, answer, at + R_WIDTH, root, constants)
}

// ---- the proof for one version

// How a proof ends, and the byte behind its last string; `leaf` is where the string L stands.
#[derive(Clone, Copy)]
pub enum Proof {
    Stopped { stop: Stop, at: usize },
    Found { leaf: usize, at: usize },
}

// The walk in one entity's tree.
fn walk_versions(
    question: Question,
    answer: &[u8],
    start: usize,
    root: TreeAt<TimeKey>,
    constants: &[u32; 64],
) -> Result<Proof, Refusal>
    requires { ((start ≤ length answer.now) × (root.at + 48 ≤ length answer.now)) × (constants.now ≡ K) }
    ensures { ProofIs answer.now (versions_at (relation_of question.relation) question.time.0 answer.now start root.at) result }
{
    let mut at = start;
    let mut tree = root;
    loop {
        if unmet(question, answer, tree) {
            let stop = stop_at(question.relation, answer, tree);
            return Ok(Proof::Stopped { stop, at });
        }
        match open(VERSION_TREE, answer, at, tree.at, constants)? {
            Opening::Leaf => {
                return Ok(Proof::Found {
                    leaf: at,
                    at: at + L_WIDTH,
                });
            }
            Opening::Inner => {
                tree = version_side(question, answer, at);
                at += BRANCH_WIDTH;
            }
        }
    }
}

// The proof at a place of the answer, under a root's letter and a commitment: the walk to the entity, and on in its tree.
pub fn check_proof(
    letter: u8,
    question: Question,
    commitment: &[u8],
    answer: &[u8],
    at: usize,
    constants: &[u32; 64],
) -> Result<Proof, Refusal>
    requires { ((length commitment.now ≡ digest_width) × (at ≤ length answer.now)) × (constants.now ≡ K) }
    ensures { ProofIs answer.now (check_proof letter (one (question_of question)) commitment.now at (drop at answer.now)) result }
{
    match find_entity(letter, question.entity, commitment, answer, at, constants)? {
        EntitySearch::NoEntity { at: end } => Ok(Proof::Stopped {
            stop: Stop::NoEntity,
            at: end,
        }),
        EntitySearch::Group { at: group } => {
            let root = TreeAt::<TimeKey>::new(group + G_VERSIONS);
            walk_versions(question, answer, group + G_WIDTH, root, constants)
        }
    }
}

// ---- the proof for all versions between two times

// How such a proof ends: without the entity, and before which byte, or with the number of its versions that were opened and the bytes, from
// `start` to `end`, of their strings and those above them.
#[derive(Clone, Copy)]
pub enum ListProof {
    NoEntity {
        at: usize,
    },
    Listed {
        start: usize,
        end: usize,
        count: usize,
    },
}

// The most N that a path in an entity's tree has.
const PATH_LIMIT: usize = 16;

// All strings behind the string G at a place that the two times open.
fn list_group(
    span: SpanQuestion,
    answer: &[u8],
    group: usize,
    constants: &[u32; 64],
) -> Result<ListProof, Refusal>
    requires { (group + G_width ≤ length answer.now) × (constants.now ≡ K) }
    ensures { ListIs answer.now (sought_at (all (span_of span)) answer.now (group + G_width) (group + 9)) result }
{
    let start = group + G_WIDTH;
    let tree = TreeAt::<TimeKey>::new(group + G_VERSIONS);
    let read = read_span(span, answer, start, tree, PATH_LIMIT, constants)?;
    Ok(ListProof::Listed {
        start,
        end: read.at,
        count: read.count,
    })
}

// The proof at a place of the answer, under a root's letter and a commitment: the walk to the entity, and all strings of its tree that the two
// times open.
pub fn check_list(
    letter: u8,
    span: SpanQuestion,
    commitment: &[u8],
    answer: &[u8],
    at: usize,
    constants: &[u32; 64],
) -> Result<ListProof, Refusal>
    requires { ((length commitment.now ≡ digest_width) × (at ≤ length answer.now)) × (constants.now ≡ K) }
    ensures { ListIs answer.now (check_proof letter (all (span_of span)) commitment.now at (drop at answer.now)) result }
{
    match find_entity(letter, span.entity, commitment, answer, at, constants)? {
        EntitySearch::NoEntity { at: end } => Ok(ListProof::NoEntity { at: end }),
        EntitySearch::Group { at: group } => list_group(span, answer, group, constants),
    }
}

// ---- the leaf found

pub fn leaf_entity(answer: &[u8], leaf: usize) -> EntityKey
    requires { leaf + L_width ≤ length answer.now }
    ensures { result.0 ≡ (leaf_in (take L_width (drop leaf answer.now))).entity }
{
    question::entity_at(answer, leaf + L_ENTITY)
}

pub fn leaf_time(answer: &[u8], leaf: usize) -> TimeKey
    requires { leaf + L_width ≤ length answer.now }
    ensures { result.0 ≡ (leaf_in (take L_width (drop leaf answer.now))).time }
{
    TimeKey(fields::get_u64(answer, leaf + L_TIME))
}

// ---- the list of the versions between two times

// Writes the name of the version of the string L at a place: its entity and time.
fn put_name(answer: &[u8], leaf: usize, out: &mut [u8], at: usize)
    requires { (leaf + L_width ≤ length answer.now) × (at + name_width ≤ length out.old) }
    ensures { out.new ≡ written out.old at (name_string (leaf_name (leaf_in (take L_width (drop leaf answer.now))))) }
{
    fields::put_u32(out, at, fields::get_u32(answer, leaf + L_ENTITY));
    fields::put_u64(out, at + NAME_TIME, fields::get_u64(answer, leaf + L_TIME));
}

// Writes the names of the versions of the L strings among the L and N strings from one byte to another, one after the other, to the front
// of `out`. It looks at the strings' letters alone: they were read before.
pub fn put_list(answer: &[u8], start: usize, end: usize, out: &mut [u8])
    requires { Listed answer.now start end (length out.old) }
    ensures { (l : Listed answer.now start end (length out.old)) → out.new ≡ written out.old 0 (joined (map name_string l.names)) }
{
    let mut next = start;
    let mut at: usize = 0;
    // No count is known: the letters say how wide the strings are.
    while next < end {
        if answer[next] == LETTER_L {
            put_name(answer, next, out, at);
            at += NAME_WIDTH;
            next += L_WIDTH;
        } else {
            next += BRANCH_WIDTH;
        }
    }
}
