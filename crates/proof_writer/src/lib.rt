// The host's writing of an answer's proof: the strings that the walk through the two trees opens, over a node table.
#![tactic(auto)]

ghost use Rattle.std.specs.Prelude.{◌≡◌, List, [], ◌∷◌, ◌++◌, ℕ, ◌+◌, ◌-◌, ◌*◌, ◌≤◌, ◌<◌, length};
ghost use Rattle.fields.specs.Fields.{written};
ghost use Rattle.round_constants.specs.Constants.{K};
ghost use Rattle.model.specs.Numbers.{joined};
ghost use Rattle.model.specs.Graph.{VersionNode};
ghost use Rattle.model.specs.Accumulator.{letter_N, L_width, branch_width, R_width, G_width, branch_string, largest_power_below, leaf_string};
ghost use Rattle.model.specs.Question as model;
ghost use Rattle.model.specs.Question.{by_entity, by_time, within, Opened};
ghost use Rattle.model.specs.Answer.{proof};
ghost use Rattle.question.specs.Directions.{relation_of, question_of, span_of, query_of};
ghost use Rattle.graph.specs.Table.{columns, Kept};
ghost use Rattle.accumulator.specs.Trees.{header_of};
ghost use Rattle.accumulator.specs.Halves.{own};
ghost use Rattle.trees.specs.Tables.{Graphed, HasGraph, version_at};
ghost use Rattle.ranks.specs.Ranked.{first_in, count_in, Ranked, RankedAs};
ghost use Rattle.kept_trees.specs.declared.Row.TheVariants.{Versions, Entities};
ghost use Rattle.kept_trees.specs.Leaves.{stretch, tree_of, versions_row, entities_row, row_leaves, size_of};
ghost use Rattle.proof_writer.specs.Walks.{descent_of, row_of, LeafOf, layout_of, none_of, Among, half_of, SoughtIs, Leads};
ghost use Rattle.kept_trees.specs.Kept.{KeptTree};
ghost use Rattle.proof_writer.specs.Spans.{span_strings, SpanFits};
ghost use Rattle.proof_writer.specs.Plans.{reached_entity, entity_string, version_path, front_bytes, entity_bytes, walk_bytes, list_bytes, length_of, PathIs, WayIs, PlanIs, Plan, HasPlan, HasTrees, HasPath, HasWay, HasList, Reaches};

use accumulator::{EntityTree, Header};
use kept_trees::Row;
use model::LETTER_N;
use question::{EntityKey, Query, Question, Relation, SpanQuestion, TimeKey};
use ranks::Ranks;
use strings::{BRANCH_WIDTH, G_WIDTH, L_WIDTH, R_WIDTH};

// ---- the walk through a tree

// Some leaves of a row that stand together: n of them, the first at `from`.
#[derive(Clone, Copy)]
struct Stretch {
    from: usize,
    n: usize,
}

// Whether an entity lies outside the keys of a tree.
fn outside(work: &[u8], ranks: Ranks, leaves: Stretch, entity: EntityKey) -> bool
    requires { Ranked work.now ranks × Among Entities ranks leaves }
    ensures { result ≡ (by_entity entity.0).stops (tree_of (entities_row work.now ranks) leaves.from leaves.n) }
{
    if entity < ranks::entity_at(work, ranks, leaves.from) {
        return true;
    }
    ranks::entity_at(work, ranks, leaves.from + (leaves.n - 1)) < entity
}

// Whether no version of a tree meets a time: all are after it, or all before.
fn unmet(work: &[u8], ranks: Ranks, leaves: Stretch, relation: Relation, time: TimeKey) -> bool
    requires { Ranked work.now ranks × Among Versions ranks leaves }
    ensures { result ≡ (by_time (relation_of relation) time.0).stops (tree_of (versions_row work.now) leaves.from leaves.n) }
{
    match relation {
        Relation::AtOrBefore => time < ranks::time_at(work, ranks, leaves.from),
        Relation::AtOrAfter => { ranks::time_at(work, ranks, leaves.from + (leaves.n - 1)) < time }
    }
}

// What a walk goes by: an entity in the tree of entities, a time in the tree of an entity's versions.
#[derive(Clone, Copy)]
enum Descent {
    ByEntity { entity: EntityKey },
    ByTime { relation: Relation, time: TimeKey },
}

fn stops(descent: Descent, work: &[u8], ranks: Ranks, leaves: Stretch) -> bool
    requires { Ranked work.now ranks × Among (row_of descent) ranks leaves }
    ensures { result ≡ (descent_of descent).stops (tree_of (row_leaves (row_of descent) work.now ranks) leaves.from leaves.n) }
{
    match descent {
        Descent::ByEntity { entity } => outside(work, ranks, leaves, entity),
        Descent::ByTime { relation, time } => unmet(work, ranks, leaves, relation, time),
    }
}

// Whether the walk goes on in the left half: by the greatest key there, or by the least in the right half, which begins k leaves later.
fn version_left(
    work: &[u8],
    ranks: Ranks,
    leaves: Stretch,
    k: usize,
    relation: Relation,
    time: TimeKey,
) -> bool
    requires { Ranked work.now ranks × Among Versions ranks leaves × (0 < k) × (k < leaves.n) }
    ensures { result ≡ (by_time (relation_of relation) time.0).goes_left (tree_of (versions_row work.now) leaves.from k) (tree_of (versions_row work.now) (leaves.from + k) (leaves.n - k)) }
{
    match relation {
        Relation::AtOrBefore => time < ranks::time_at(work, ranks, leaves.from + k),
        Relation::AtOrAfter => time <= ranks::time_at(work, ranks, leaves.from + (k - 1)),
    }
}

fn goes_left(descent: Descent, work: &[u8], ranks: Ranks, leaves: Stretch, k: usize) -> bool
    requires { Ranked work.now ranks × Among (row_of descent) ranks leaves × (0 < k) × (k < leaves.n) }
    ensures { result ≡ (descent_of descent).goes_left (tree_of (row_leaves (row_of descent) work.now ranks) leaves.from k) (tree_of (row_leaves (row_of descent) work.now ranks) (leaves.from + k) (leaves.n - k)) }
{
    match descent {
        Descent::ByEntity { entity } => entity
            <= ranks::entity_at(work, ranks, leaves.from + (k - 1)),
        Descent::ByTime { relation, time } => {
            version_left(work, ranks, leaves, k, relation, time)
        }
    }
}

// The half in which the walk goes on.
fn half(descent: Descent, work: &[u8], ranks: Ranks, leaves: Stretch) -> Stretch
    requires { Ranked work.now ranks × Among (row_of descent) ranks leaves × (1 < leaves.n) }
    ensures { result ≡ half_of leaves ((descent_of descent).goes_left (tree_of (row_leaves (row_of descent) work.now ranks) leaves.from (largest_power_below leaves.n)) (tree_of (row_leaves (row_of descent) work.now ranks) (leaves.from + largest_power_below leaves.n) (leaves.n - largest_power_below leaves.n))) }
{
    let k = accumulator::split(leaves.n);
    if goes_left(descent, work, ranks, leaves, k) {
        return Stretch {
            from: leaves.from,
            n: k,
        };
    }
    Stretch {
        from: leaves.from + k,
        n: leaves.n - k,
    }
}

// The walk opens `depth` inner strings on the way to the leaf `target`, counted from the first; it stops before that leaf, or reaches it.
#[derive(Clone, Copy)]
enum Sought {
    Stopped { target: usize, depth: usize },
    Reached { target: usize, depth: usize },
}

// The walk through the tree of some leaves.
fn seek(descent: Descent, work: &[u8], ranks: Ranks, from: usize, n: usize) -> Sought
    requires { Ranked work.now ranks × (0 < n) × (from + n ≤ size_of (row_of descent) ranks) }
    ensures leads { Leads n result }
    ensures walk { (xs : List (LeafOf (row_of descent))) → stretch (row_leaves (row_of descent) work.now ranks) from n ≡ own (layout_of (row_of descent)) xs → (inside : LeafOf (row_of descent) → Opened) → SoughtIs (layout_of (row_of descent)) (descent_of descent) inside (none_of (row_of descent)) xs result }
{
    let mut leaves = Stretch { from, n };
    let mut depth: usize = 0;
    // No count is known: the walk ends where a leaf is met, or none can be.
    loop {
        if stops(descent, work, ranks, leaves) {
            return Sought::Stopped {
                target: leaves.from - from,
                depth,
            };
        }
        if leaves.n <= 1 {
            return Sought::Reached {
                target: leaves.from - from,
                depth,
            };
        }
        leaves = half(descent, work, ranks, leaves);
        depth += 1;
    }
}

// ---- all strings that a span of times opens

// Whether a tree of versions has keys that meet a span.
fn meets(work: &[u8], ranks: Ranks, leaves: Stretch, span: SpanQuestion) -> bool
    requires { Ranked work.now ranks × Among Versions ranks leaves }
    ensures { result ≡ within (span_of span) (tree_of (versions_row work.now) leaves.from leaves.n) }
{
    let from = span.from;
    let to = span.to;
    if to < ranks::time_at(work, ranks, leaves.from) {
        return false;
    }
    from <= ranks::time_at(work, ranks, leaves.from + (leaves.n - 1))
}

// The length of the strings that a span opens of a tree of versions.
fn span_length(work: &[u8], ranks: Ranks, leaves: Stretch, span: SpanQuestion) -> usize
    requires { Ranked work.now ranks × Among Versions ranks leaves }
    ensures small { result + 97 ≤ 174 * leaves.n }
    ensures length { (n : ℕ) (ns : List VersionNode) → Graphed work.now n ns → RankedAs work.now ns ranks → result ≡ length (joined (span_strings ns work.now (span_of span) leaves.from leaves.n)) }
{
    if !meets(work, ranks, leaves, span) {
        return 0;
    }
    if leaves.n <= 1 {
        return L_WIDTH;
    }
    let k = accumulator::split(leaves.n);
    let left = Stretch {
        from: leaves.from,
        n: k,
    };
    let right = Stretch {
        from: leaves.from + k,
        n: leaves.n - k,
    };
    let before = span_length(work, ranks, left, span);
    let behind = span_length(work, ranks, right, span);
    BRANCH_WIDTH + (before + behind)
}

// The string N of a kept tree whose right half begins k leaves after the first.
fn put_node(
    work: &[u8],
    ranks: Ranks,
    leaves: Stretch,
    k: usize,
    out: &mut [u8],
    at: usize,
    constants: &[u32; 64],
)
    requires { (Ranked work.now ranks × Among Versions ranks leaves × (0 < k) × (k < leaves.n) × (at + branch_width ≤ length out.old)) × (constants.now ≡ K) }
    ensures { KeptTree (versions_row work.now) work.now leaves.from k → KeptTree (versions_row work.now) work.now (leaves.from + k) (leaves.n - k) → out.new ≡ written out.old at (branch_string letter_N (tree_of (versions_row work.now) leaves.from k) (tree_of (versions_row work.now) (leaves.from + k) (leaves.n - k))) }
{
    let left = kept_trees::kept_tree(Row::Versions, work, ranks, leaves.from, k, constants);
    let right = kept_trees::kept_tree(
        Row::Versions,
        work,
        ranks,
        leaves.from + k,
        leaves.n - k,
        constants,
    );
    accumulator::put_branch(out, at, LETTER_N, left, right);
}

// L of the version in a slot.
fn put_version(work: &[u8], n: usize, slot: usize, out: &mut [u8], at: usize)
    requires { HasGraph work.now n × (slot < n) × (at + L_width ≤ length out.old) }
    ensures { (ns : List VersionNode) → Graphed work.now n ns → out.new ≡ written out.old at (leaf_string (version_at ns slot).leaf) }
{
    leaves::put_string(out, at, work, slot)
}

// The strings that a span opens of a kept tree, in preorder from `at` on. Answers the place behind them.
fn put_span(
    work: &[u8],
    n: usize,
    ranks: Ranks,
    leaves: Stretch,
    span: SpanQuestion,
    out: &mut [u8],
    at: usize,
    constants: &[u32; 64],
) -> usize
    requires { SpanFits work.now n ranks (span_of span) leaves at (length out.old) × (constants.now ≡ K) }
    ensures end { (ns : List VersionNode) → Graphed work.now n ns → RankedAs work.now ns ranks → result ≡ at + length (joined (span_strings ns work.now (span_of span) leaves.from leaves.n)) }
    ensures strings { (ns : List VersionNode) → Graphed work.now n ns → RankedAs work.now ns ranks → KeptTree (versions_row work.now) work.now leaves.from leaves.n → out.new ≡ written out.old at (joined (span_strings ns work.now (span_of span) leaves.from leaves.n)) }
{
    if !meets(work, ranks, leaves, span) {
        return at;
    }
    if leaves.n <= 1 {
        put_version(work, n, ranks::slot_at(work, leaves.from), out, at);
        return at + L_WIDTH;
    }
    let k = accumulator::split(leaves.n);
    put_node(work, ranks, leaves, k, out, at, constants);
    let left = Stretch {
        from: leaves.from,
        n: k,
    };
    let right = Stretch {
        from: leaves.from + k,
        n: leaves.n - k,
    };
    let middle = put_span(
        work,
        n,
        ranks,
        left,
        span,
        out,
        at + BRANCH_WIDTH,
        constants,
    );
    put_span(work, n, ranks, right, span, out, middle, constants)
}

// ---- the plan

// R and G.
const R_G_WIDTH: usize = R_WIDTH + G_WIDTH;

// A way through a tree: the leaf that it leads toward, and how many inner strings it opens.
#[derive(Clone, Copy)]
pub struct Way {
    target: usize,
    depth: usize,
}

// A way through the tree of entities, and how many entities and versions there are.
#[derive(Clone, Copy)]
pub struct EntityPath {
    ranks: Ranks,
    target: usize,
    depth: usize,
}

// How a proof ends (`Unmet`: no version of the entity meets the time), its length, and what writing it needs: the ways through the two
// trees and the slot of the version found, or the span of the versions listed.
#[derive(Clone, Copy)]
pub enum Planned {
    NoEntity {
        length: usize,
        path: EntityPath,
    },
    Unmet {
        length: usize,
        path: EntityPath,
        way: Way,
    },
    Found {
        length: usize,
        path: EntityPath,
        way: Way,
        slot: usize,
    },
    Listed {
        length: usize,
        path: EntityPath,
        span: SpanQuestion,
    },
}

// The versions of the entity that a path leads to.
fn reached_versions(work: &[u8], path: EntityPath) -> Stretch
    requires { Ranked work.now path.ranks × (path.target < path.ranks.entities) }
    ensures from { result.from ≡ first_in work.now path.ranks path.target }
    ensures number { result.n ≡ count_in work.now path.ranks path.target }
{
    let ranks = path.ranks;
    let from = ranks::first_at(work, ranks, path.target);
    let n = ranks::count_at(work, ranks, path.target);
    Stretch { from, n }
}

// The plan from the entity's leaf on.
fn plan_versions(work: &[u8], n: usize, path: EntityPath, question: Question) -> Planned
    requires { HasPath work.now n path }
    ensures { (ns : List VersionNode) → Graphed work.now n ns → Reaches work.now ns (model.one (question_of question)) path → PlanIs work.now ns (model.one (question_of question)) result }
{
    let ranks = path.ranks;
    let leaves = reached_versions(work, path);
    let length = R_G_WIDTH + BRANCH_WIDTH * path.depth;
    let relation = question.relation;
    let time = question.time;
    let descent = Descent::ByTime { relation, time };
    match seek(descent, work, ranks, leaves.from, leaves.n) {
        Sought::Stopped { target, depth } => Planned::Unmet {
            length: length + BRANCH_WIDTH * depth,
            path,
            way: Way { target, depth },
        },
        Sought::Reached { target, depth } => Planned::Found {
            length: length + (BRANCH_WIDTH * depth + L_WIDTH),
            path,
            way: Way { target, depth },
            slot: ranks::slot_at(work, leaves.from + target),
        },
    }
}

// The plan of a list from the entity's leaf on.
fn plan_span(work: &[u8], n: usize, path: EntityPath, span: SpanQuestion) -> Planned
    requires { HasPath work.now n path }
    ensures { (ns : List VersionNode) → Graphed work.now n ns → Reaches work.now ns (model.all (span_of span)) path → PlanIs work.now ns (model.all (span_of span)) result }
{
    let ranks = path.ranks;
    let leaves = reached_versions(work, path);
    let length = R_G_WIDTH + BRANCH_WIDTH * path.depth;
    Planned::Listed {
        length: length + span_length(work, ranks, leaves, span),
        path,
        span,
    }
}

fn entity_of(query: Query) -> EntityKey
    ensures { result.0 ≡ model.entity_of (query_of query) }
{
    match query {
        Query::One { question } => question.entity,
        Query::All { span } => span.entity,
    }
}

fn plan_below(work: &[u8], n: usize, path: EntityPath, query: Query) -> Planned
    requires { HasPath work.now n path }
    ensures { (ns : List VersionNode) → Graphed work.now n ns → Reaches work.now ns (query_of query) path → PlanIs work.now ns (query_of query) result }
{
    match query {
        Query::One { question } => plan_versions(work, n, path, question),
        Query::All { span } => plan_span(work, n, path, span),
    }
}

// The plan over kept trees.
fn plan_entity(work: &[u8], n: usize, ranks: Ranks, query: Query) -> Planned
    requires { HasTrees work.now n ranks }
    ensures { (ns : List VersionNode) → Graphed work.now n ns → RankedAs work.now ns ranks → PlanIs work.now ns (query_of query) result }
{
    let entity = entity_of(query);
    let descent = Descent::ByEntity { entity };
    match seek(descent, work, ranks, 0, ranks.entities) {
        Sought::Stopped { target, depth } => Planned::NoEntity {
            length: R_WIDTH + BRANCH_WIDTH * depth,
            path: EntityPath {
                ranks,
                target,
                depth,
            },
        },
        Sought::Reached { target, depth } => {
            let path = EntityPath {
                ranks,
                target,
                depth,
            };
            plan_below(work, n, path, query)
        }
    }
}

// Keeps the trees and plans the proof.
pub fn plan(work: &mut [u8], n: usize, query: Query, constants: &[u32; 64]) -> Planned
    requires { (HasGraph work.old n) × (constants.now ≡ K) }
    ensures plan { Plan work.new n (query_of query) result }
    ensures kept { Kept (columns 84 122 ∷ []) work.old work.new }
{
    let ranks = ranks::rank_all(work, n);
    kept_trees::keep_trees(work, ranks, constants);
    plan_entity(work, n, ranks, query)
}

pub fn proof_length(plan: Planned) -> usize
    ensures { result ≡ length_of plan }
{
    match plan {
        Planned::NoEntity { length, path } => length,
        Planned::Unmet { length, path, way } => length,
        Planned::Found {
            length,
            path,
            way,
            slot,
        } => length,
        Planned::Listed { length, path, span } => length,
    }
}

// ---- writing

// R and the strings P.
fn put_front(
    work: &[u8],
    n: usize,
    header: Header,
    path: EntityPath,
    out: &mut [u8],
    constants: &[u32; 64],
)
    requires { (HasPath work.now n path × (R_width + branch_width * path.depth ≤ length out.old)) × (constants.now ≡ K) }
    ensures { (ns : List VersionNode) → Graphed work.now n ns → PathIs work.now ns path → out.new ≡ written out.old 0 (front_bytes (header_of header) ns path) }
{
    let ranks = path.ranks;
    let tree = kept_trees::kept_tree(Row::Entities, work, ranks, 0, ranks.entities, constants);
    accumulator::put_root(out, 0, header, ranks.entities as u32, EntityTree(tree));
    kept_trees::put_way(
        Row::Entities,
        work,
        ranks,
        0,
        ranks.entities,
        path.target,
        path.depth,
        out,
        R_WIDTH,
        constants,
    );
}

// G of the entity that a path leads to.
fn put_group(
    work: &[u8],
    n: usize,
    path: EntityPath,
    out: &mut [u8],
    at: usize,
    constants: &[u32; 64],
)
    requires { (HasPath work.now n path × (at + G_width ≤ length out.old)) × (constants.now ≡ K) }
    ensures { (ns : List VersionNode) → Graphed work.now n ns → PathIs work.now ns path → out.new ≡ written out.old at (entity_string ns (reached_entity ns path)) }
{
    let ranks = path.ranks;
    let versions = kept_trees::versions_tree(work, ranks, path.target, constants);
    let entity = ranks::entity_at(work, ranks, path.target);
    accumulator::put_group(out, at, entity, versions);
}

// The strings N on a way through the tree of that entity's versions.
fn put_versions(
    work: &[u8],
    n: usize,
    path: EntityPath,
    way: Way,
    out: &mut [u8],
    at: usize,
    constants: &[u32; 64],
)
    requires { (HasWay work.now n path way × (at + branch_width * way.depth ≤ length out.old)) × (constants.now ≡ K) }
    ensures { (ns : List VersionNode) → Graphed work.now n ns → PathIs work.now ns path → out.new ≡ written out.old at (joined (version_path ns (reached_entity ns path) way)) }
{
    let ranks = path.ranks;
    let leaves = reached_versions(work, path);
    kept_trees::put_way(
        Row::Versions,
        work,
        ranks,
        leaves.from,
        leaves.n,
        leaves.from + way.target,
        way.depth,
        out,
        at,
        constants,
    );
}

// R, the strings P and G.
fn put_entity(
    work: &[u8],
    n: usize,
    header: Header,
    path: EntityPath,
    out: &mut [u8],
    constants: &[u32; 64],
)
    requires { (HasPath work.now n path × (122 + branch_width * path.depth ≤ length out.old)) × (constants.now ≡ K) }
    ensures { (ns : List VersionNode) → Graphed work.now n ns → PathIs work.now ns path → out.new ≡ written out.old 0 (entity_bytes (header_of header) ns path) }
{
    put_front(work, n, header, path, out, constants);
    put_group(
        work,
        n,
        path,
        out,
        R_WIDTH + BRANCH_WIDTH * path.depth,
        constants,
    );
}

// The same, and the strings N.
fn put_walk(
    work: &[u8],
    n: usize,
    header: Header,
    path: EntityPath,
    way: Way,
    out: &mut [u8],
    constants: &[u32; 64],
)
    requires { (HasWay work.now n path way × (122 + branch_width * path.depth + branch_width * way.depth ≤ length out.old)) × (constants.now ≡ K) }
    ensures { (ns : List VersionNode) → Graphed work.now n ns → PathIs work.now ns path → WayIs ns (reached_entity ns path) path way → out.new ≡ written out.old 0 (walk_bytes (header_of header) ns path way) }
{
    put_entity(work, n, header, path, out, constants);
    put_versions(
        work,
        n,
        path,
        way,
        out,
        R_G_WIDTH + BRANCH_WIDTH * path.depth,
        constants,
    );
}

// The same, and L.
fn put_found(
    work: &[u8],
    n: usize,
    header: Header,
    path: EntityPath,
    way: Way,
    slot: usize,
    out: &mut [u8],
    constants: &[u32; 64],
)
    requires { (HasWay work.now n path way × (slot < n) × (122 + branch_width * path.depth + (branch_width * way.depth + L_width) ≤ length out.old)) × (constants.now ≡ K) }
    ensures { (ns : List VersionNode) → Graphed work.now n ns → PathIs work.now ns path → WayIs ns (reached_entity ns path) path way → out.new ≡ written out.old 0 (walk_bytes (header_of header) ns path way ++ leaf_string (version_at ns slot).leaf) }
{
    put_walk(work, n, header, path, way, out, constants);
    put_version(
        work,
        n,
        slot,
        out,
        R_G_WIDTH + BRANCH_WIDTH * path.depth + BRANCH_WIDTH * way.depth,
    );
}

// R, the strings P, G and the strings that a span opens.
fn put_listed(
    work: &[u8],
    n: usize,
    header: Header,
    path: EntityPath,
    span: SpanQuestion,
    out: &mut [u8],
    constants: &[u32; 64],
)
    requires { HasList work.now n path (span_of span) (length out.old) × (constants.now ≡ K) }
    ensures { (ns : List VersionNode) → Graphed work.now n ns → PathIs work.now ns path → out.new ≡ written out.old 0 (list_bytes (header_of header) ns path (span_of span)) }
{
    put_entity(work, n, header, path, out, constants);
    let ranks = path.ranks;
    let leaves = reached_versions(work, path);
    let at = R_G_WIDTH + BRANCH_WIDTH * path.depth;
    put_span(work, n, ranks, leaves, span, out, at, constants);
}

// Writes the proof that was planned.
pub fn write(
    plan: Planned,
    work: &[u8],
    n: usize,
    header: Header,
    out: &mut [u8],
    constants: &[u32; 64],
)
    requires { (HasPlan work.now n plan × (length_of plan ≤ length out.old)) × (constants.now ≡ K) }
    ensures { (q : model.Question) → Plan work.now n q plan → (ns : List VersionNode) → Graphed work.now n ns → out.new ≡ written out.old 0 (joined (proof (header_of header) ns q).opened) }
{
    match plan {
        Planned::NoEntity { length, path } => put_front(work, n, header, path, out, constants),
        Planned::Unmet { length, path, way } => {
            put_walk(work, n, header, path, way, out, constants)
        }
        Planned::Found {
            length,
            path,
            way,
            slot,
        } => put_found(work, n, header, path, way, slot, out, constants),
        Planned::Listed { length, path, span } => {
            put_listed(work, n, header, path, span, out, constants)
        }
    }
}
