// The digest job: a table file comes on standard input; the digest of its archive text, and how many bytes that has, go to standard output.
// A refusal writes nothing there, and its number and place to standard error.
#![tactic(auto)]

use std::io;

fn tell(rt: &impl Print, text: &[u8]) -> io::Result<()> {
    let digest = digest::digest(text);
    let length = text.len();
    print!(rt; "{digest:016x} {length} bytes\n")
}

// As in the archive exporter but for what is done with the text: shared, it would take a closure, and be no shorter.
fn digest_file<R: Print + Eprint>(
    rt: &R,
    file: &[u8],
    words: &mut [u32],
    out: &mut [u8],
) -> io::Result<()> {
    match archive::print_archive(file, words, out) {
        Ok(length) => tell(rt, archive::text(out, length)),
        Err(refused) => eprint!(rt; "{refused}\n"),
    }
}

// Fixed memory, no heap: the longest file that is looked at, and a byte more; the words of 8,192 nodes; the longest text.
fn main(rt: HostRuntime) -> io::Result<()> {
    let mut file = [0u8; 229_393];
    let mut words = [0u32; 40_960];
    let mut out = [0u8; 1_048_576];
    let n = input::read_full(&mut rt.reader(), &mut file)?;
    digest_file(&rt, &file[..n], &mut words, &mut out)
}
