// The listing program: what it prints for standard input is the listing's text. Of a longer input one byte above the limit is enough. That the
// text cannot be written is said on standard error; where the input cannot be read any further, it ends there.
#![tactic(auto)]

use std::io::{Read, Write};

fn main(rt: HostRuntime) {
    let mut input = [0u8; 9217];
    let mut n: usize = 0;
    for turn in 0..9217 {
        let more = rt.stdin().read(&mut input[n..]).unwrap_or(0);
        if more == 0 {
            break;
        }
        n += more;
    }
    let mut text = [0u8; 65536];
    if let Ok(length) = listing::list(&input[..n], &mut text) {
        if rt.stdout().write_all(&text[..length]).is_err() {
            let _ = rt.stderr().write_all(b"the listing cannot be written\n");
        }
    }
}
