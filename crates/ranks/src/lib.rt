// The versions of a node table ranked by entity and then by time: which version has which rank.
#![tactic(auto)]

ghost use Rattle.std.specs.Prelude.{◌≡◌, List, [], ◌∷◌, ◌+◌, ◌*◌, ◌≤◌, ◌<◌};
ghost use Rattle.fields.specs.Fields.{encode, written};
ghost use Rattle.model.specs.Graph.{VersionNode, node_at};
ghost use Rattle.graph.specs.Table.{slot_width, Slot, time_in, columns, Kept};
ghost use Rattle.trees.specs.Tables.{Graphed, HasGraph};
ghost use Rattle.ranks.specs.Ranked.{slot_at, first_in, count_in, entity_at, Ranked, RankedAs, Unranked, VersionsRanked};

use graph::{FIRST_COLUMN, NO_SLOT, RANKED_COLUMN, SLOT_WIDTH};
use question::{EntityKey, TimeKey};

// How many entities there are, and versions.
#[derive(Clone, Copy)]
pub struct Ranks {
    pub entities: usize,
    pub versions: usize,
}

// The slot of the version of a rank.
pub fn slot_at(work: &[u8], rank: usize) -> usize
    requires { Slot work.now rank }
    ensures { result ≡ slot_at work.now rank }
{
    fields::get_u16(work, SLOT_WIDTH * rank + RANKED_COLUMN) as usize
}

// The rank of the first version of the g-th entity; behind the last entity, the number of versions.
pub fn first_at(work: &[u8], ranks: Ranks, g: usize) -> usize
    requires { Ranked work.now ranks × (g ≤ ranks.entities) }
    ensures { result ≡ first_in work.now ranks g }
{
    if g < ranks.entities {
        return fields::get_u16(work, SLOT_WIDTH * g + FIRST_COLUMN) as usize;
    }
    ranks.versions
}

// How many versions the g-th entity has.
pub fn count_at(work: &[u8], ranks: Ranks, g: usize) -> usize
    requires { Ranked work.now ranks × (g < ranks.entities) }
    ensures { result ≡ count_in work.now ranks g }
{
    let next = first_at(work, ranks, g + 1);
    next - first_at(work, ranks, g)
}

// The number of the g-th entity.
pub fn entity_at(work: &[u8], ranks: Ranks, g: usize) -> EntityKey
    requires { Ranked work.now ranks × (g < ranks.entities) }
    ensures { result.0 ≡ entity_at work.now ranks g }
{
    let first = first_at(work, ranks, g);
    graph::entity_of(work, slot_at(work, first))
}

// The time of the version of a rank.
pub fn time_at(work: &[u8], ranks: Ranks, rank: usize) -> TimeKey
    requires { Ranked work.now ranks × (rank < ranks.versions) }
    ensures { result.0 ≡ time_in work.now (slot_at work.now rank) }
{
    graph::time_of(work, slot_at(work, rank))
}

// Puts a number of 2 bytes into a column of a slot.
fn put(work: &mut [u8], column: usize, i: usize, x: usize)
    requires { Slot work.old i × (column + 2 ≤ slot_width) × (x ≤ 65535) }
    ensures { work.new ≡ written work.old (slot_width * i + column) (encode 2 x) }
{
    fields::put_u16(work, SLOT_WIDTH * i + column, x as u16)
}

// Ranks the versions of an entity, from the one that enters it on. Answers the rank behind the last.
fn rank_versions(work: &mut [u8], entry: usize, n: usize, from: usize) -> usize
    requires { Unranked work.old n entry from }
    ensures { (ns : List VersionNode) → Graphed work.old n ns → VersionsRanked work.old work.new ns (node_at ns entry).entity from result }
{
    let mut rank = from;
    let mut i = entry;
    // No count is known: the links say where the versions end.
    while i < NO_SLOT {
        put(work, RANKED_COLUMN, rank, i);
        rank += 1;
        i = graph::get_next(work, i) as usize;
    }
    rank
}

// Ranks all versions, entity by entity in the order of births.
pub fn rank_all(work: &mut [u8], n: usize) -> Ranks
    requires { HasGraph work.old n }
    ensures ranks { (ns : List VersionNode) → Graphed work.old n ns → RankedAs work.new ns result }
    ensures kept { Kept (columns 116 122 ∷ []) work.old work.new }
{
    let mut entities: usize = 0;
    let mut versions: usize = 0;
    let mut i = trees::next_entry(work, 0, n);
    // No count is known: the next entity is searched for.
    while i < n {
        put(work, FIRST_COLUMN, entities, versions);
        entities += 1;
        versions = rank_versions(work, i, n, versions);
        i = trees::next_entry(work, i + 1, n);
    }
    Ranks { entities, versions }
}
