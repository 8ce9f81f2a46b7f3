// The 64 round constants of SHA-256 (FIPS 180-4, 4.2.2), worked out by whole numbers: there is no table of them, nor of primes.
//
// The root of a prime p with d binary digits after the point is the greatest whole number whose cube is at most p * 2^(3 d). It is found
// with 6 digits by counting up from the root of the prime before, then with 15 and with 32, each by one division. All fits 64 bits.
#![tactic(auto)]

ghost use Rattle.std.specs.Prelude.{◌≡◌, ◌+◌, ◌-◌, ◌*◌, ◌/◌, ◌%◌, ◌^◌, ◌<◌, ◌≤◌, ltb, length};
ghost use Rattle.round_constants.specs.Constants.{Greatest, fraction, K};
ghost use Rattle.round_constants.specs.Working.{RoundedUp, Known, Tried, Sieved, Struck, NextUnmarked, SixDigits};

// The first 64 primes are below it.
const LIMIT: usize = 312;

// 2^(3 d) for 6 and for 15 digits, and 2^32.
const DIGITS_6: u64 = 262144;

const DIGITS_15: u64 = 35184372088832;

const BITS_32: u64 = 4294967296;

// ---- cube roots

// y / 2^b, rounded up.
fn ceil_shift(y: u64, b: u32) -> u64
    requires { (y < 2 ^ 63) × (b ≤ 17) }
    ensures { RoundedUp y b result }
{
    (y + ((1 << b) - 1)) >> b
}

fn cube(a: u64) -> u64
    requires { a ≤ 262145 }
    ensures { result ≡ a * a * a }
{
    a * a * a
}

// What n has above the cube of its root a, times 2^b.
fn remainder(n: u64, a: u64, b: u32) -> u64
    requires { Known n a b }
    ensures { result ≡ (n - a * a * a) * 2 ^ b }
{
    (n - cube(a)) << b
}

// Whether (a * 2^b + x)^3 is above n * 2^(3 b). Both sides are taken less a^3 * 2^(3 b) and divided by 2^(2 b): the lower terms of the
// cube are added from the lowest, each sum divided by 2^b and rounded up.
fn cube_exceeds(n: u64, a: u64, b: u32, x: u64) -> bool
    requires { Tried n a b x }
    ensures { result ≡ ltb (n * (2 ^ b * 2 ^ b * 2 ^ b)) ((a * 2 ^ b + x) * (a * 2 ^ b + x) * (a * 2 ^ b + x)) }
{
    let y = ceil_shift(x * x * x, b);
    let z = ceil_shift(3 * a * x * x + y, b);
    remainder(n, a, b) < 3 * a * a * x + z
}

// The cube root of n * 2^(3 b), from the root a of n: b digits more. The quotient is never below them and hardly ever above.
fn refined_root(n: u64, a: u64, b: u32) -> u64
    requires { Known n a b }
    ensures { Greatest 3 (n * (2 ^ b * 2 ^ b * 2 ^ b)) result }
{
    let mut x = remainder(n, a, b) / (3 * a * a);
    // No count is known: the root itself is sought.
    while cube_exceeds(n, a, b, x) {
        x -= 1;
    }
    (a << b) + x
}

// The cube root of n, from a number that is not above it.
fn raised_root(a: u64, n: u64) -> u64
    requires { (a * a * a ≤ n) × (n < 134217728) }
    ensures { (Greatest 3 n result) × (a ≤ result) }
{
    let mut r = a;
    // No count is known: the root itself is sought.
    while cube(r + 1) <= n {
        r += 1;
    }
    r
}

// The first 32 bits of the fractional part of a prime's cube root, from the root with 6 digits.
fn fraction(p: u64, a: u64) -> u32
    requires { SixDigits p a }
    ensures { result ≡ fraction 3 p }
{
    let b = refined_root(p * DIGITS_6, a, 9);
    let r = refined_root(p * DIGITS_15, b, 17);
    (r % BITS_32) as u32
}

// ---- primes, by a sieve

// Marks the multiples of p above it.
fn strike_multiples(marks: &mut [u8; 312], p: usize)
    requires { (length marks.old ≡ 312) × ((1 ≤ p) × (p < 312)) }
    ensures { Struck p marks.old marks.new }
{
    for m in (p + p..LIMIT).step_by(p) {
        marks[m] = 1;
    }
}

// The first number from a place on that is not marked: the next prime.
fn next_prime(marks: &[u8; 312], from: usize) -> usize
    requires { (Sieved from marks.now) × ((2 ≤ from) × (from ≤ 312)) }
    ensures { NextUnmarked from marks.now result }
{
    for n in from..LIMIT {
        if marks[n] == 0 {
            return n;
        }
    }
    LIMIT
}

// ---- the constants

// All of them, prime by prime. A call that hashes works them out once, and lends them to all that it calls.
pub fn work_out() -> [u32; 64]
    ensures { result ≡ K }
{
    let mut k = [0u32; 64];
    let mut marks = [0u8; LIMIT];
    let mut p: usize = 1;
    let mut a: u64 = 0;
    for i in 0..64 {
        let q = next_prime(&marks, p + 1);
        strike_multiples(&mut marks, q);
        let n = q as u64;
        let c = raised_root(a, n * DIGITS_6);
        k[i] = fraction(n, c);
        p = q;
        a = c;
    }
    k
}
