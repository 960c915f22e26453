// The archive exporter: a table file comes on standard input, its archive text goes to standard output. A refusal writes nothing there, and
// its number and place to standard error.
#![tactic(auto)]

use std::io;

fn export<R: Print + Eprint>(
    rt: &R,
    file: &[u8],
    words: &mut [u32],
    out: &mut [u8],
) -> io::Result<()> {
    match archive::print_archive(file, words, out) {
        Ok(length) => rt.write_all(archive::text(out, length)),
        Err(refused) => eprint!(rt; "{refused}\n"),
    }
}

// Fixed memory, no heap: the longest file that is looked at, and a byte more; the words of 8,192 nodes; the longest text.
fn main(rt: HostRuntime) -> io::Result<()> {
    let mut file = [0u8; 229_393];
    let mut words = [0u32; 40_960];
    let mut out = [0u8; 1_048_576];
    let n = input::read_full(&mut rt.reader(), &mut file)?;
    export(&rt, &file[..n], &mut words, &mut out)
}
