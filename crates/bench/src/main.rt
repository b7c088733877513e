// Reads a sheet on standard input and writes its answers to standard output.

#![tactic(auto)]

use std::alloc::AllocError;
use std::io;
use std::io::{Read, Write};

// The room that the answer to one line may take.
const LONGEST_ANSWER: usize = 28;

fn main(rt: HostRuntime) -> io::Result<()> {
    let heap = rt.alloc();
    let mut input = Vec::new(heap);
    rt.stdin().read_to_end(&mut input)?;
    let room = text::lines::count_lines(&input)
        .checked_mul(LONGEST_ANSWER)
        .ok_or(AllocError)?;
    let mut out = vec![in heap; 0u8; room]?;
    match sheet::run(&input, &mut out) {
        Ok(len) => rt.stdout().write_all(&out[0..len]),
        // that room is always enough
        Err(_) => unreachable(),
    }
}
