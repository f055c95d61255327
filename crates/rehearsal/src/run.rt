// A script from its first line to the end of the input.
use crate::rehearsal::Rehearsal;
use std::alloc::Global;
use std::io;
use std::io::{BufRead, BufReader, Read, Write};

// What is said is written when it has come to so many bytes, or no further line is at hand.
const CHUNK: usize = 8192;

// Plays each line of the input. What is said and not written yet is left in `said`.
fn play_all<I: Read, O: Write>(
    heap: Global,
    input: &mut BufReader<I>,
    output: &mut O,
    said: &mut Vec<u8>,
) -> io::Result<()> {
    let mut rehearsal = Rehearsal::new(heap)?;
    let mut line = Vec::new(heap);
    // Input may have no end, so the loop has one; an iterator of lines would not tell whether a further line is at hand.
    for _ in 0..u64::MAX {
        line.clear();
        if input.read_until(b'\n', &mut line)? == 0 {
            break;
        }
        rehearsal.step(&line, said)?;
        if said.len() >= CHUNK || !input.buffer().contains(&b'\n') {
            output.write_all(said)?;
            said.clear();
        }
    }
    Ok(())
}

// Plays a script, and writes what is answered and shown.
pub fn run<I: Read, O: Write>(
    heap: Global,
    input: &mut BufReader<I>,
    output: &mut O,
) -> io::Result<()> {
    let mut said = Vec::new(heap);
    let played = play_all(heap, input, output, &mut said);
    output.write_all(&said)?;
    played
}
