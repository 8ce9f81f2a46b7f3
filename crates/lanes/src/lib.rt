// SHA-256 of eight messages of one length side by side. Word t of message l stands at place 8 * t + l, so that each loop is one plain
// loop over places, which the compiler turns into vectors of four. The round is that of `sha256`.
#![tactic(auto)]

ghost use Rattle.std.specs.Prelude.{◌≡◌, ℕ, ◌+◌, ◌*◌, ◌/◌, ◌<◌, ◌≤◌, length, take, replicate};
ghost use Rattle.fields.specs.Fields.{part, written};
ghost use Rattle.round_constants.specs.Constants.{K};
ghost use Rattle.sha256.specs.Sha256.{H0, compress, hashed};
ghost use Rattle.sha256.specs.State.{ending};
ghost use Rattle.lanes.specs.Lanes.{word_on, state_at, lane, Loaded, Spread, Begun, Turned, Added, end_of, Padded, spelled, digests_of};

// ---- the schedule

// The word sixteen rows after a place.
fn next_word(w: &[u32; 512], i: usize) -> u32
    requires { i < 384 }
    ensures { result ≡ word_on w.now i }
{
    let s = sha256::small_sigma1(w[i + 112]).wrapping_add(w[i + 72]);
    let s = s.wrapping_add(sha256::small_sigma0(w[i + 8]));
    s.wrapping_add(w[i])
}

fn extend(w: &mut [u32; 512])
    requires { length w.old ≡ 512 }
    ensures { Spread w.old 384 w.new }
{
    for i in 0..384 {
        let x = next_word(w, i);
        w[i + 128] = x;
    }
}

// Row t of the schedule, from the blocks themselves.
fn load_row(w: &mut [u32; 512], m: &[u8], at: usize, step: usize, t: usize)
    requires { Loaded m.now at step (8 * t) w.old × ((t < 16) × (at + step * 7 + 64 ≤ length m.now)) }
    ensures { Loaded m.now at step (8 * t + 8) w.new }
{
    for l in 0..8 {
        let x = fields::get_u32(m, at + step * l + 4 * t);
        w[8 * t + l] = x;
    }
}

fn load(w: &mut [u32; 512], m: &[u8], at: usize, step: usize)
    requires { (length w.old ≡ 512) × (at + step * 7 + 64 ≤ length m.now) }
    ensures { Loaded m.now at step 128 w.new }
{
    for t in 0..16 {
        load_row(w, m, at, step, t);
    }
}

// ---- the rounds

// The working variables at a place. Every a and every e that a round makes is kept: b, c, d and f, g, h are older rows.
fn variables(a: &[u32; 544], e: &[u32; 544], i: usize) -> [u32; 8]
    requires { i < 512 }
    ensures { result ≡ state_at a.now e.now i }
{
    [
        a[i + 24],
        a[i + 16],
        a[i + 8],
        a[i],
        e[i + 24],
        e[i + 16],
        e[i + 8],
        e[i],
    ]
}

// The 64 rounds of all messages.
fn turn(a: &mut [u32; 544], e: &mut [u32; 544], w: &[u32; 512], k: &[u32; 64])
    requires { (length a.old ≡ 544) × (length e.old ≡ 544) }
    ensures { Turned k.now w.now a.old e.old 512 a.new e.new }
{
    for i in 0..512 {
        let v = variables(a, e, i);
        let r = sha256::one_round(v, k[i / 8], w[i]);
        a[i + 32] = r[0];
        e[i + 32] = r[4];
    }
}

// ---- hash values: rows d, c, b, a, h, g, f, e, as they begin the two tables of a round

fn begin(a: &mut [u32; 544], h: [u32; 64], from: usize)
    requires { (length a.old ≡ 544) × (from ≤ 32) }
    ensures { Begun h from 32 a.new }
{
    for i in 0..32 {
        a[i] = h[from + i];
    }
}

fn added(h: [u32; 64], a: &[u32; 544], e: &[u32; 544]) -> [u32; 64]
    ensures { Added h a.now e.now 32 result }
{
    let mut r = [0u32; 64];
    for i in 0..32 {
        r[i] = h[i].wrapping_add(a[i + 512]);
        r[i + 32] = h[i + 32].wrapping_add(e[i + 512]);
    }
    r
}

// The hash values of eight messages after a block of each; block l stands at `at + step * l`.
fn compressed(h: [u32; 64], m: &[u8], at: usize, step: usize, constants: &[u32; 64]) -> [u32; 64]
    requires { (at + step * 7 + 64 ≤ length m.now) × (constants.now ≡ K) }
    ensures { (l : ℕ) → l < 8 → lane result l ≡ compress (lane h l) (part m.now (at + step * l) 64) }
{
    let mut w = [0u32; 512];
    load(&mut w, m, at, step);
    extend(&mut w);
    let mut a = [0u32; 544];
    begin(&mut a, h, 0);
    let mut e = [0u32; 544];
    begin(&mut e, h, 32);
    turn(&mut a, &mut e, &w, constants);
    added(h, &a, &e)
}

// The hash values after n blocks of each message.
fn blocks(
    h: [u32; 64],
    m: &[u8],
    at: usize,
    step: usize,
    n: usize,
    constants: &[u32; 64],
) -> [u32; 64]
    requires { (at + step * 7 + 64 * n ≤ length m.now) × (constants.now ≡ K) }
    ensures { (l : ℕ) → l < 8 → lane result l ≡ hashed n m.now (at + step * l) (lane h l) }
{
    let mut x = h;
    for j in 0..n {
        let next = compressed(x, m, at + 64 * j, step, constants);
        x = next;
    }
    x
}

// The initial hash value of all messages.
fn initial() -> [u32; 64]
    ensures { (l : ℕ) → l < 8 → lane result l ≡ H0 }
{
    let h = sha256::initial();
    let mut r = [0u32; 64];
    for i in 0..64 {
        r[i] = h[4 * (i / 32) + (3 - i / 8 % 4)];
    }
    r
}

// ---- messages

// The blocks that end message l, over 128 zeros.
fn pad_one(b: &mut [u8; 1024], l: usize, m: &[u8], at: usize, n: usize, bits: u64)
    requires { (length b.old ≡ 1024) × ((part b.old (128 * l) 128 ≡ replicate 128 0) × ((l < 8) × ((n < 64) × (at + n ≤ length m.now)))) }
    ensures { b.new ≡ written b.old (128 * l) (end_of (part m.now at n) n bits) }
{
    fields::copy(b, 128 * l, m, at, n);
    fields::put_u64(b, 128 * l + (64 * ((n + 72) / 64) - 8), bits);
    b[128 * l + n] = 128;
}

fn pad_ends(b: &mut [u8; 1024], m: &[u8], at: usize, step: usize, n: usize, bits: u64)
    requires { (b.old ≡ replicate 1024 0) × ((n < 64) × (at + step * 7 + n ≤ length m.now)) }
    ensures { Padded m.now at step n bits 8 b.new }
{
    for l in 0..8 {
        pad_one(b, l, m, at + step * l, n, bits);
    }
}

// The last hash values of messages of which h holds the whole blocks, and m the n bytes after them.
fn ended(
    h: [u32; 64],
    m: &[u8],
    at: usize,
    step: usize,
    n: usize,
    bits: u64,
    constants: &[u32; 64],
) -> [u32; 64]
    requires { ((n < 64) × (at + step * 7 + n ≤ length m.now)) × (constants.now ≡ K) }
    ensures { (l : ℕ) → l < 8 → lane result l ≡ hashed ((n + 72) / 64) (ending (part m.now (at + step * l) n) bits) 0 (lane h l) }
{
    let mut b = [0u8; 1024];
    pad_ends(&mut b, m, at, step, n, bits);
    blocks(h, &b, 0, 128, (n + 72) / 64, constants)
}

// The hash value of message l.
fn words_of(h: [u32; 64], l: usize) -> [u32; 8]
    requires { l < 8 }
    ensures { result ≡ lane h l }
{
    [
        h[l + 24],
        h[l + 16],
        h[l + 8],
        h[l],
        h[l + 56],
        h[l + 48],
        h[l + 40],
        h[l + 32],
    ]
}

// The hash values as bytes, message by message.
fn value_bytes(h: [u32; 64]) -> [u8; 256]
    ensures { result ≡ spelled 8 h }
{
    let mut d = [0u8; 256];
    for l in 0..8 {
        let one = sha256::word_bytes(words_of(h, l));
        fields::copy(&mut d, 32 * l, &one, 0, 32);
    }
    d
}

// The digests of eight messages of n bytes.
fn side_by_side(m: &[u8], step: usize, n: usize, constants: &[u32; 64]) -> [u8; 256]
    requires { (step * 7 + n ≤ length m.now) × (constants.now ≡ K) }
    ensures { result ≡ digests_of 8 m.now step n }
{
    let rest = n % 64;
    let whole = blocks(initial(), m, 0, step, n / 64, constants);
    let last = ended(
        whole,
        m,
        n - rest,
        step,
        rest,
        sha256::in_bits(n as u64),
        constants,
    );
    value_bytes(last)
}

// The digests of the first messages, one after the other.
fn one_by_one(m: &[u8], step: usize, n: usize, count: usize, constants: &[u32; 64]) -> [u8; 256]
    requires { ((step * 7 + n ≤ length m.now) × (count ≤ 8)) × (constants.now ≡ K) }
    ensures { take (32 * count) result ≡ digests_of count m.now step n }
{
    let mut d = [0u8; 256];
    for l in 0..count {
        let one = sha256::digest(&m[step * l..step * l + n], constants);
        fields::copy(&mut d, 32 * l, &one, 0, 32);
    }
    d
}

// So many messages are hashed side by side.
pub const LANES: usize = 8;

// From so many messages on, eight lanes take less time than one message after the other, though some of them are idle.
const WORTHWHILE: usize = 5;

// The digests of up to eight messages of n bytes, one behind the other; message l stands at `step * l`. Behind them stands anything.
pub fn digests(m: &[u8], step: usize, n: usize, count: usize, constants: &[u32; 64]) -> [u8; 256]
    requires { ((step * 7 + n ≤ length m.now) × (count ≤ 8)) × (constants.now ≡ K) }
    ensures { take (32 * count) result ≡ digests_of count m.now step n }
{
    if count < WORTHWHILE {
        return one_by_one(m, step, n, count, constants);
    }
    side_by_side(m, step, n, constants)
}
