// The program: a plan text on standard input, the C lines of the order that the bench proposes or the line
// of its refusal on standard output (document 02, 8).
#![tactic(auto)]

use bench_answer::MOST_PROPOSAL_ANSWER;
use std::io;
use std::io::{Read, Write};

// A text of more than 32,768 bytes is refused whatever follows, so the first 65,536 are enough.
// Written out in each program: one function for all needs a bound that lends `[u8; N]`, and the prover makes no proof of such a bound.
fn main(rt: HostRuntime) -> io::Result<()> {
    let mut text = Vec::new(rt.alloc());
    rt.stdin().take(65536).read_to_end(&mut text)?;
    let mut out = [0; MOST_PROPOSAL_ANSWER];
    let length = bench_answer::proposal_answer(&text, &mut out);
    rt.stdout().write_all(&out[..length])
}
