// Plays a trace: standard input to standard output. All the work is the library's.
#![tactic(auto)]

use whole_input::read_full;

fn main(rt: HostRuntime) {
    // A little more than the greatest trace (45,080 bytes), so that a longer one is seen to be longer.
    let mut input = [0u8; 45088];
    let mut prg = [0u8; 8192];
    let mut chr = [0u8; 8192];
    // No text is longer than this.
    let mut text = [0u8; 16384];
    let n = read_full(&rt, &mut input);
    let count = traces::run(&input[..n], &mut prg, &mut chr, &mut text);
    // It sets no status: what could not be written is told where it can be read.
    if rt.write_all(&text[..count]).is_err() {
        let _ = rt.eprintln("tracerun: the text cannot be written");
    }
}
