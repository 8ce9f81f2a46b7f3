// The trees of a node table with ranks, built once: the digests of their inner strings are kept in the slots, so that any way through a tree
// can be written from its top down, with no hash but a leaf's.
#![tactic(auto)]

ghost use Rattle.std.specs.Prelude.{◌≡◌, [], ◌∷◌, ◌+◌, ◌-◌, ◌*◌, ◌≤◌, ◌<◌, length};
ghost use Rattle.round_constants.specs.Constants.{K};
ghost use Rattle.model.specs.Accumulator.{branch_width};
ghost use Rattle.graph.specs.Table.{Slot, columns, Kept};
ghost use Rattle.accumulator.specs.Trees.{known};
ghost use Rattle.ranks.specs.Ranked.{first_in, count_in, Ranked};
ghost use Rattle.kept_trees.specs.Leaves.{tree_of, version_known, versions_row, row_leaves, letter_of, size_of, Within};
ghost use Rattle.kept_trees.specs.Kept.{LeafDigests, KeptTree, node_kept, Stored, Keeping, WayPut, VersionsKept, TreesKept, Ready};
ghost use Rattle.kept_trees.specs.Entities.{SlotsAt, EntityLeaves, EntityKept, KeptTo, EntityStrings, EntitiesFilled};

use accumulator::{Subtree, VersionTree};
use graph::{KEPT_COLUMN, SLOT_WIDTH};
use lanes::LANES;
use model::{LETTER_N, LETTER_P};
use ranks::Ranks;
use strings::{BRANCH_WIDTH, DIGEST_WIDTH, G_WIDTH};

// ---- rows of leaves

// The versions by rank, or the entities in the order of births.
#[derive(Clone, Copy)]
pub enum Row {
    Versions,
    Entities,
}

fn letter_of(row: Row) -> u8
    ensures { result ≡ letter_of row }
{
    match row {
        Row::Versions => LETTER_N,
        Row::Entities => LETTER_P,
    }
}

// The key of a leaf: a version's time, an entity's number.
pub fn key_at(row: Row, work: &[u8], ranks: Ranks, i: usize) -> u64
    requires { Ranked work.now ranks × (i < size_of row ranks) }
    ensures { result ≡ ((row_leaves row work.now ranks).leaf i).least }
{
    match row {
        Row::Versions => ranks::time_at(work, ranks, i).0,
        Row::Entities => ranks::entity_at(work, ranks, i).0,
    }
}

// The slot where the digest of a tree is kept whose right half begins with leaf i. An entity's tree keeps none in the slot of its first
// version's rank, so the tree of entities can.
fn slot_of(row: Row, work: &[u8], ranks: Ranks, i: usize) -> usize
    requires { Ranked work.now ranks × (i < size_of row ranks) }
    ensures { result ≡ (row_leaves row work.now ranks).slot i }
{
    match row {
        Row::Versions => i,
        Row::Entities => ranks::first_at(work, ranks, i),
    }
}

// ---- kept digests

fn keep_digest(work: &mut [u8], slot: usize, tree: Subtree)
    requires { Slot work.old slot }
    ensures { Stored work.old work.new slot tree.digest }
{
    let digest = tree.digest;
    fields::copy(
        work,
        SLOT_WIDTH * slot + KEPT_COLUMN,
        &digest,
        0,
        DIGEST_WIDTH,
    );
}

// ---- what is known of a kept tree

// A tree of n leaves, two at least, of which the right half begins k leaves after the first.
fn kept_node(row: Row, work: &[u8], ranks: Ranks, from: usize, n: usize, k: usize) -> Subtree
    requires { Ranked work.now ranks × Within row ranks from n × (k < n) }
    ensures { known result ≡ node_kept (row_leaves row work.now ranks) work.now from n k }
{
    let least = key_at(row, work, ranks, from);
    let greatest = key_at(row, work, ranks, from + (n - 1));
    let digest = leaves::kept_digest(work, slot_of(row, work, ranks, from + k));
    Subtree {
        least,
        greatest,
        digest,
    }
}

// The leaf of the version of a rank.
fn version_at(work: &[u8], ranks: Ranks, rank: usize, constants: &[u32; 64]) -> Subtree
    requires { (Ranked work.now ranks × (rank < ranks.versions)) × (constants.now ≡ K) }
    ensures { known result ≡ version_known work.now rank }
{
    let leaf = leaves::leaf_of(work, ranks::slot_at(work, rank), constants);
    leaf.0
}

// The tree of the versions of the g-th entity.
pub fn versions_tree(work: &[u8], ranks: Ranks, g: usize, constants: &[u32; 64]) -> VersionTree
    requires { (Ranked work.now ranks × (g < ranks.entities)) × (constants.now ≡ K) }
    ensures { VersionsKept work.now ranks → known result.0 ≡ tree_of (versions_row work.now) (first_in work.now ranks g) (count_in work.now ranks g) }
{
    let from = ranks::first_at(work, ranks, g);
    let n = ranks::count_at(work, ranks, g);
    if n <= 1 {
        return VersionTree(version_at(work, ranks, from, constants));
    }
    let k = accumulator::split(n);
    VersionTree(kept_node(Row::Versions, work, ranks, from, n, k))
}

fn leaf_at(row: Row, work: &[u8], ranks: Ranks, i: usize, constants: &[u32; 64]) -> Subtree
    requires { (Ranked work.now ranks × (i < size_of row ranks)) × (constants.now ≡ K) }
    ensures { Ready row work.now ranks → known result ≡ (row_leaves row work.now ranks).leaf i }
{
    match row {
        Row::Versions => version_at(work, ranks, i, constants),
        Row::Entities => {
            let versions = versions_tree(work, ranks, i, constants);
            let leaf = accumulator::group(ranks::entity_at(work, ranks, i), versions, constants);
            leaf.0
        }
    }
}

// The tree of n leaves of a row.
pub fn kept_tree(
    row: Row,
    work: &[u8],
    ranks: Ranks,
    from: usize,
    n: usize,
    constants: &[u32; 64],
) -> Subtree
    requires { (Ranked work.now ranks × Within row ranks from n) × (constants.now ≡ K) }
    ensures { Ready row work.now ranks → KeptTree (row_leaves row work.now ranks) work.now from n → known result ≡ tree_of (row_leaves row work.now ranks) from n }
{
    if n <= 1 {
        return leaf_at(row, work, ranks, from, constants);
    }
    let k = accumulator::split(n);
    kept_node(row, work, ranks, from, n, k)
}

// ---- keeping

// The slots of the versions of some ranks.
fn slots_at(work: &[u8], ranks: Ranks, from: usize, count: usize) -> [usize; LANES]
    requires { Ranked work.now ranks × (count ≤ 8) × (from + count ≤ ranks.versions) }
    ensures { SlotsAt work.now from count result }
{
    let mut slots = [0usize; LANES];
    for l in 0..count {
        slots[l] = ranks::slot_at(work, from + l);
    }
    slots
}

// Keeps the digest of each version's leaf, in the slot of the version's rank.
fn keep_leaves(work: &mut [u8], ranks: Ranks, constants: &[u32; 64])
    requires { Ranked work.old ranks × (constants.now ≡ K) }
    ensures kept { Kept (columns 84 116 ∷ []) work.old work.new }
    ensures leaves { LeafDigests (versions_row work.new) work.new 0 ranks.versions }
{
    for from in (0..ranks.versions).step_by(LANES) {
        let count = LANES.min(ranks.versions - from);
        let slots = slots_at(work, ranks, from, count);
        leaves::keep(work, &slots[..count], from, constants);
    }
}

// Builds the tree of n leaves of a row, whose digests are kept in their slots, and keeps its inner digests instead: a leaf's digest is read
// before that of a tree takes its place.
fn keep(
    row: Row,
    work: &mut [u8],
    ranks: Ranks,
    from: usize,
    n: usize,
    constants: &[u32; 64],
) -> Subtree
    requires { (Ranked work.old ranks × Within row ranks from n × LeafDigests (row_leaves row work.old ranks) work.old from n) × (constants.now ≡ K) }
    ensures kept { Kept (columns 84 116 ∷ []) work.old work.new }
    ensures tree { Keeping (row_leaves row work.old ranks) work.old work.new from n (known result) }
{
    if n <= 1 {
        return kept_node(row, work, ranks, from, n, 0);
    }
    let k = accumulator::split(n);
    let left = keep(row, work, ranks, from, k, constants);
    let right = keep(row, work, ranks, from + k, n - k, constants);
    let top = accumulator::parent(letter_of(row), left, right, constants);
    let slot = slot_of(row, work, ranks, from + k);
    keep_digest(work, slot, top);
    top
}

// Keeps the tree of the g-th entity's versions.
fn keep_entity(work: &mut [u8], ranks: Ranks, g: usize, constants: &[u32; 64]) -> VersionTree
    requires { (Ranked work.old ranks × (g < ranks.entities) × EntityLeaves work.old ranks g) × (constants.now ≡ K) }
    ensures kept { Kept (columns 84 116 ∷ []) work.old work.new }
    ensures tree { EntityKept work.old work.new ranks g (known result.0) }
{
    let from = ranks::first_at(work, ranks, g);
    let n = ranks::count_at(work, ranks, g);
    VersionTree(keep(Row::Versions, work, ranks, from, n, constants))
}

// Keeps the trees of some entities' versions; their strings G are written to b, one behind the other.
fn keep_batch(
    b: &mut [u8; LANES * G_WIDTH],
    work: &mut [u8],
    ranks: Ranks,
    g: usize,
    count: usize,
    constants: &[u32; 64],
)
    requires { ((length b.old ≡ 456) × KeptTo work.old ranks g g × (count ≤ 8) × (g + count ≤ ranks.entities)) × (constants.now ≡ K) }
    ensures kept { Kept (columns 84 116 ∷ []) work.old work.new }
    ensures trees { KeptTo work.new ranks g (g + count) }
    ensures strings { EntityStrings work.new ranks g count b.new }
{
    for l in 0..count {
        let versions = keep_entity(work, ranks, g + l, constants);
        let entity = ranks::entity_at(work, ranks, g + l);
        accumulator::put_group(b, G_WIDTH * l, entity, versions);
    }
}

// Keeps the digests of some entities' leaves, each in the slot of its first version's rank.
fn put_digests(work: &mut [u8], ranks: Ranks, g: usize, count: usize, digests: [u8; 256])
    requires { Ranked work.old ranks × (count ≤ 8) × (g + count ≤ ranks.entities) }
    ensures { EntitiesFilled work.old ranks g digests count work.new }
{
    for l in 0..count {
        let slot = ranks::first_at(work, ranks, g + l);
        fields::copy(
            work,
            SLOT_WIDTH * slot + KEPT_COLUMN,
            &digests,
            DIGEST_WIDTH * l,
            DIGEST_WIDTH,
        );
    }
}

// Keeps the trees of all entities' versions, and the digests of the entities' leaves.
fn keep_entities(work: &mut [u8], ranks: Ranks, constants: &[u32; 64])
    requires { KeptTo work.old ranks 0 0 × (constants.now ≡ K) }
    ensures kept { Kept (columns 84 116 ∷ []) work.old work.new }
    ensures trees { KeptTo work.new ranks ranks.entities ranks.entities }
{
    let mut b = [0u8; LANES * G_WIDTH];
    for g in (0..ranks.entities).step_by(LANES) {
        let count = LANES.min(ranks.entities - g);
        keep_batch(&mut b, work, ranks, g, count, constants);
        let digests = lanes::digests(&b, G_WIDTH, G_WIDTH, count, constants);
        put_digests(work, ranks, g, count, digests);
    }
}

// Keeps all trees: each entity's, then the tree of entities.
pub fn keep_trees(work: &mut [u8], ranks: Ranks, constants: &[u32; 64])
    requires { Ranked work.old ranks × (constants.now ≡ K) }
    ensures kept { Kept (columns 84 116 ∷ []) work.old work.new }
    ensures trees { TreesKept work.new ranks }
{
    keep_leaves(work, ranks, constants);
    keep_entities(work, ranks, constants);
    keep(Row::Entities, work, ranks, 0, ranks.entities, constants);
}

// ---- writing

// The strings on the way from the root of a kept tree of n leaves to the leaf `target`, `depth` of them at most, from `at` on.
pub fn put_way(
    row: Row,
    work: &[u8],
    ranks: Ranks,
    from: usize,
    n: usize,
    target: usize,
    depth: usize,
    out: &mut [u8],
    at: usize,
    constants: &[u32; 64],
)
    requires { (Ranked work.now ranks × Within row ranks from n × (from ≤ target) × (target < from + n) × (at + branch_width * depth ≤ length out.old)) × (constants.now ≡ K) }
    ensures { Ready row work.now ranks → KeptTree (row_leaves row work.now ranks) work.now from n → WayPut (row_leaves row work.now ranks) from n (target - from) depth out.old out.new at }
{
    if depth == 0 {
        return;
    }
    if n <= 1 {
        return;
    }
    let k = accumulator::split(n);
    let left = kept_tree(row, work, ranks, from, k, constants);
    let right = kept_tree(row, work, ranks, from + k, n - k, constants);
    accumulator::put_branch(out, at, letter_of(row), left, right);
    if target < from + k {
        put_way(
            row,
            work,
            ranks,
            from,
            k,
            target,
            depth - 1,
            out,
            at + BRANCH_WIDTH,
            constants,
        );
        return;
    }
    put_way(
        row,
        work,
        ranks,
        from + k,
        n - k,
        target,
        depth - 1,
        out,
        at + BRANCH_WIDTH,
        constants,
    )
}
