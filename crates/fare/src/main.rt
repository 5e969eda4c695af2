// The call-file program: standard input, 64 slots. Each line is written as soon as its record is answered.
#![tactic(auto)]

use playing::play;
use std::io;
use std::io::{BufReader, LineWriter, Write};

fn main(rt: HostRuntime) -> io::Result<()> {
    let mut input = BufReader::new(rt.alloc(), rt.stdin())?;
    let mut out = LineWriter::new(rt.alloc(), rt.stdout())?;
    play(&mut input, &mut out)?;
    out.flush()
}
