// Document 01's strings in code: how many bytes they have, and at which byte of them a field begins.
#![tactic(auto)]

pub const DIGEST_WIDTH: usize = 32;

// ---- the strings of a proof: L, N and P ("branch"), G, R

pub const L_WIDTH: usize = 77;

pub const L_ENTITY: usize = 1;

pub const L_TIME: usize = 5;

pub const L_INCOMING: usize = 13;

pub const L_OUTGOING: usize = 45;

pub const BRANCH_WIDTH: usize = 97;

pub const BRANCH_LEFT: usize = 1;

pub const BRANCH_RIGHT: usize = 49;

pub const G_WIDTH: usize = 57;

pub const G_ENTITY: usize = 1;

pub const G_VERSIONS: usize = 9;

pub const R_WIDTH: usize = 65;

pub const R_ENTITIES: usize = 1;

pub const R_RECORDS: usize = 5;

pub const R_LAST: usize = 9;

pub const R_TREE: usize = 17;

// What is known of a subtree, in N, P, G and R: its least key is in front.
pub const SUBTREE_GREATEST: usize = 8;

pub const SUBTREE_DIGEST: usize = 16;

// ---- a version's name in a list: its entity is in front

pub const NAME_WIDTH: usize = 12;

pub const NAME_TIME: usize = 4;

// ---- the strings I and O: what stands before their edges, an edge string, and the link that it makes with a path digest

pub const I_HEADER_WIDTH: usize = 2;

pub const O_HEADER_WIDTH: usize = 5;

pub const EDGE_WIDTH: usize = 26;

pub const EDGE_START: usize = 2;

pub const EDGE_END: usize = 14;

pub const LINK_WIDTH: usize = 58;

// ---- a trace: its header, and its records

pub const TRACE_HEADER_WIDTH: usize = 5;

pub const TRACE_COUNT: usize = 1;

// E, and S too.
pub const E_WIDTH: usize = 13;

pub const T_WIDTH: usize = 17;

pub const D_WIDTH: usize = 18;

pub const V_WIDTH: usize = 22;

// Of each record, ...
pub const RECORD_ENTITY: usize = 1;

pub const RECORD_TIME: usize = 5;

// ... and behind them, the kind of the dependency edge and the positions where the edges start.
pub const T_PREVIOUS: usize = 13;

pub const D_KIND: usize = 13;

pub const D_SOURCE: usize = 14;

pub const V_KIND: usize = 13;

pub const V_PREVIOUS: usize = 14;

pub const V_SOURCE: usize = 18;
