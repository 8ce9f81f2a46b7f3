// SHA-256 (FIPS 180-4): a digest of one slice, and a state that takes a message in part by part.
#![tactic(auto)]

ghost use Rattle.std.specs.Prelude.{◌≡◌, ℕ, ◌+◌, ◌-◌, ◌*◌, ◌/◌, ◌%◌, ◌^◌, ◌<◌, ◌≤◌, List, [], ◌++◌, length, take, replicate, slice_index, slice_index_or};
ghost use Rattle.fields.specs.Fields.{part};
ghost use Rattle.round_constants.specs.Constants.{K};
ghost use Rattle.sha256.specs.Sha256.{◌⊞◌, Ch, Maj, Σ0, Σ1, σ0, σ1, H0, words, extended, T1, T2, round, rounds, sums, compress, hashed, bytes, sha256};
ghost use Rattle.sha256.specs.State.{Scheduled, ending, Held, Absorbed};

// The four sigmas, with rotations nested in each other: fewer values are held at a time. A round waits for Σ1 longest, so two of its
// rotations stand side by side.
fn big_sigma0(x: u32) -> u32
    ensures { result ≡ Σ0 x }
{
    (x ^ (x ^ x.rotate_right(9)).rotate_right(11)).rotate_right(2)
}

fn big_sigma1(x: u32) -> u32
    ensures { result ≡ Σ1 x }
{
    x.rotate_right(6) ^ (x ^ x.rotate_right(14)).rotate_right(11)
}

pub fn small_sigma0(x: u32) -> u32
    ensures { result ≡ σ0 x }
{
    (x ^ x.rotate_right(11)).rotate_right(7) ^ (x >> 3)
}

pub fn small_sigma1(x: u32) -> u32
    ensures { result ≡ σ1 x }
{
    (x ^ x.rotate_right(2)).rotate_right(17) ^ (x >> 10)
}

fn choice(x: u32, y: u32, z: u32) -> u32
    ensures { result ≡ Ch x y z }
{
    z ^ (x & (y ^ z))
}

// x ^ y is y ^ z of the next round.
fn majority(x: u32, y: u32, z: u32) -> u32
    ensures { result ≡ Maj x y z }
{
    ((x ^ y) & (y ^ z)) ^ y
}

// The constant and the word first: the sum does not wait for the round before.
fn first_sum(v: [u32; 8], k: u32, w: u32) -> u32
    ensures { result ≡ T1 v k w }
{
    let s = v[7].wrapping_add(k.wrapping_add(w));
    let s = s.wrapping_add(choice(v[4], v[5], v[6]));
    s.wrapping_add(big_sigma1(v[4]))
}

fn second_sum(v: [u32; 8]) -> u32
    ensures { result ≡ T2 v }
{
    big_sigma0(v[0]).wrapping_add(majority(v[0], v[1], v[2]))
}

pub fn one_round(v: [u32; 8], k: u32, w: u32) -> [u32; 8]
    ensures { result ≡ round v k w }
{
    let t1 = first_sum(v, k, w);
    let t2 = second_sum(v);
    [
        t1.wrapping_add(t2),
        v[0],
        v[1],
        v[2],
        v[3].wrapping_add(t1),
        v[4],
        v[5],
        v[6],
    ]
}

fn round_at(v: [u32; 8], w: &[u32; 64], k: &[u32; 64], t: usize) -> [u32; 8]
    requires { t < 64 }
    ensures { (h : List ℕ) → v ≡ rounds t k.now w.now h → result ≡ rounds (t + 1) k.now w.now h }
{
    one_round(v, k[t], w[t])
}

fn eight_rounds(v: [u32; 8], w: &[u32; 64], k: &[u32; 64], t: usize) -> [u32; 8]
    requires { t + 8 ≤ 64 }
    ensures { (h : List ℕ) → v ≡ rounds t k.now w.now h → result ≡ rounds (t + 8) k.now w.now h }
{
    let v1 = round_at(v, w, k, t);
    let v2 = round_at(v1, w, k, t + 1);
    let v3 = round_at(v2, w, k, t + 2);
    let v4 = round_at(v3, w, k, t + 3);
    let v5 = round_at(v4, w, k, t + 4);
    let v6 = round_at(v5, w, k, t + 5);
    let v7 = round_at(v6, w, k, t + 6);
    round_at(v7, w, k, t + 7)
}

// What the word sixteen places on has of the words 7, 15 and 16 places before it, and then all of it.
fn early(w: &[u32; 64], t: usize) -> u32
    requires { t < 48 }
    ensures { result ≡ slice_index_or w.now (t + 9) 0 ⊞ σ0 (slice_index w.now (t + 1)) ⊞ slice_index_or w.now t 0 }
{
    w[t + 9]
        .wrapping_add(small_sigma0(w[t + 1]))
        .wrapping_add(w[t])
}

fn late(a: u32, e: u32) -> u32
    ensures { result ≡ σ1 a ⊞ e }
{
    small_sigma1(a).wrapping_add(e)
}

// Four words of the schedule at a time: the first parts of all four wait for none of them.
fn four_words(w: &mut [u32; 64], t: usize)
    requires { t + 4 ≤ 48 }
    ensures { (s : List ℕ) → Scheduled s (t + 16) w.old → Scheduled s (t + 20) w.new }
{
    let e1 = early(w, t);
    let e2 = early(w, t + 1);
    let e3 = early(w, t + 2);
    let e4 = early(w, t + 3);
    let w1 = late(w[t + 14], e1);
    let w2 = late(w[t + 15], e2);
    w[t + 16] = w1;
    w[t + 17] = w2;
    w[t + 18] = late(w1, e3);
    w[t + 19] = late(w2, e4);
}

// The sixteen words of the block at a place, at the front of the schedule.
fn load(w: &mut [u32; 64], m: &[u8], at: usize)
    requires { (length w.old ≡ 64) × (at + 64 ≤ length m.now) }
    ensures { (length w.new ≡ 64) × (take 16 w.new ≡ words 16 (part m.now at 64)) }
{
    for t in 0..16 {
        w[t] = fields::get_u32(m, at + 4 * t);
    }
}

// The other words of the schedule.
fn extend(w: &mut [u32; 64])
    requires { length w.old ≡ 64 }
    ensures { w.new ≡ extended 48 (take 16 w.old) }
{
    for t in (0..48).step_by(4) {
        four_words(w, t);
    }
}

fn added(h: [u32; 8], v: [u32; 8]) -> [u32; 8]
    ensures { result ≡ sums h v }
{
    let mut r = [0u32; 8];
    for i in 0..8 {
        r[i] = h[i].wrapping_add(v[i]);
    }
    r
}

// The hash value after the block at a place. The 64 constants are lent by the caller, who works them out once.
fn compressed(h: [u32; 8], m: &[u8], at: usize, constants: &[u32; 64]) -> [u32; 8]
    requires { (at + 64 ≤ length m.now) × (constants.now ≡ K) }
    ensures { result ≡ compress h (part m.now at 64) }
{
    let mut w = [0u32; 64];
    load(&mut w, m, at);
    extend(&mut w);
    let mut v = h;
    for t in (0..64).step_by(8) {
        let next = eight_rounds(v, &w, constants, t);
        v = next;
    }
    added(h, v)
}

// The hash value after the n blocks from a place on.
fn blocks(h: [u32; 8], m: &[u8], at: usize, n: usize, constants: &[u32; 64]) -> [u32; 8]
    requires { (at + 64 * n ≤ length m.now) × (constants.now ≡ K) }
    ensures { result ≡ hashed n m.now at h }
{
    let mut x = h;
    for j in 0..n {
        let next = compressed(x, m, at + 64 * j, constants);
        x = next;
    }
    x
}

// The one or two blocks that end a message, over zeros: the n bytes of m at a place, and the padding.
fn pad_end(b: &mut [u8; 128], m: &[u8], at: usize, n: usize, bits: u64)
    requires { (b.old ≡ replicate 128 0) × ((n < 64) × (at + n ≤ length m.now)) }
    ensures { b.new ≡ ending (part m.now at n) bits ++ replicate (128 - 64 * ((n + 72) / 64)) 0 }
{
    fields::copy(b, 0, m, at, n);
    fields::put_u64(b, 64 * ((n + 72) / 64) - 8, bits);
    b[n] = 128;
}

pub fn word_bytes(h: [u32; 8]) -> [u8; 32]
    ensures { result ≡ bytes h }
{
    let mut d = [0u8; 32];
    for i in 0..8 {
        fields::put_u32(&mut d, 4 * i, h[i]);
    }
    d
}

// The digest of a message of which h holds the whole blocks and m, at a place, the n bytes after them.
fn closed(h: [u32; 8], m: &[u8], at: usize, n: usize, bits: u64, constants: &[u32; 64]) -> [u8; 32]
    requires { (n < 64) × ((at + n ≤ length m.now) × (constants.now ≡ K)) }
    ensures { result ≡ bytes (hashed ((n + 72) / 64) (ending (part m.now at n) bits) 0 h) }
{
    let mut end = [0u8; 128];
    pad_end(&mut end, m, at, n, bits);
    word_bytes(blocks(h, &end, 0, (n + 72) / 64, constants))
}

// The initial hash value of section 5.3.3.
pub fn initial() -> [u32; 8]
    ensures { result ≡ H0 }
{
    [
        0x6a09e667, 0xbb67ae85, 0x3c6ef372, 0xa54ff53a, 0x510e527f, 0x9b05688c, 0x1f83d9ab,
        0x5be0cd19,
    ]
}

// The number of bits in n bytes, modulo 2^64.
pub fn in_bits(n: u64) -> u64
    ensures { result ≡ 8 * n % 2 ^ 64 }
{
    n.wrapping_mul(8)
}

// The digest of a slice.
pub fn digest(m: &[u8], constants: &[u32; 64]) -> [u8; 32]
    requires { constants.now ≡ K }
    ensures { result ≡ sha256 m.now }
{
    let n = m.len();
    let rest = n % 64;
    let h = blocks(initial(), m, 0, n / 64, constants);
    closed(h, m, n - rest, rest, in_bits(n as u64), constants)
}

// The same, for a caller without the constants.
pub fn hash(message: &[u8]) -> [u8; 32]
    ensures { result ≡ sha256 message.now }
{
    let constants = round_constants::work_out();
    digest(message, &constants)
}

// A message that is taken in part by part: the hash value of its whole blocks, the bytes after them at the front of the block,
// their number, and the message's length modulo 2^64.
#[derive(Drop)]
pub struct State {
    pub h: [u32; 8],
    pub block: [u8; 64],
    pub fill: usize,
    pub total: u64,
}

pub fn new() -> State
    ensures { Absorbed result [] }
{
    State {
        h: initial(),
        block: [0; 64],
        fill: 0,
        total: 0,
    }
}

// The block with n bytes of a slice, from a place on, behind its first ones.
fn placed(b: [u8; 64], fill: usize, s: &[u8], from: usize, n: usize) -> [u8; 64]
    requires { (fill + n ≤ 64) × (from + n ≤ length s.now) }
    ensures { take (fill + n) result ≡ take fill b ++ part s.now from n }
{
    let mut x = b;
    fields::copy(&mut x, fill, s, from, n);
    x
}

// The hash value once the block that was begun is full.
fn completed(h: [u32; 8], b: [u8; 64], fill: usize, s: &[u8], constants: &[u32; 64]) -> [u32; 8]
    requires { (fill < 64) × ((64 ≤ fill + length s.now) × (constants.now ≡ K)) }
    ensures { (m : List ℕ) → Held h b fill m → Held result [] 0 (m ++ part s.now 0 ((64 - fill) % 64)) }
{
    if fill == 0 {
        return h;
    }
    let x = placed(b, fill, s, 0, 64 - fill);
    blocks(h, &x, 0, 1, constants)
}

// The message with more bytes at its end. Whole blocks are read where they stand.
pub fn absorb(s: State, more: &[u8], constants: &[u32; 64]) -> State
    requires { (s.fill < 64) × (constants.now ≡ K) }
    ensures { (result.fill < 64) × ((m : List ℕ) → Absorbed s m → Absorbed result (m ++ more.now)) }
{
    let h = s.h;
    let block = s.block;
    let fill = s.fill;
    let n = more.len();
    let total = s.total.wrapping_add(n as u64);
    if n < 64 - fill {
        let b = placed(block, fill, more, 0, n);
        return State {
            h,
            block: b,
            fill: fill + n,
            total,
        };
    }
    let begun = (64 - fill) % 64;
    let rest = (n - begun) % 64;
    let first = completed(h, block, fill, more, constants);
    let whole = blocks(first, more, begun, (n - begun) / 64, constants);
    let b = placed(block, 0, more, n - rest, rest);
    State {
        h: whole,
        block: b,
        fill: rest,
        total,
    }
}

pub fn finish(s: State, constants: &[u32; 64]) -> [u8; 32]
    requires { (s.fill < 64) × (constants.now ≡ K) }
    ensures { (m : List ℕ) → Absorbed s m → result ≡ sha256 m }
{
    let h = s.h;
    let block = s.block;
    let fill = s.fill;
    closed(h, &block, 0, fill, in_bits(s.total), constants)
}
