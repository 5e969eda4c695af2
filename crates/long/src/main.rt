// Long rides: each argument names a call file of data/; its name and all that the call-file program prints for it.
#![tactic(auto)]

use playing::play;
use std::fs::File;
use std::io::{BufReader, LineWriter, Write};
use std::rt::Files;
use std::{env, io};

// A file that cannot be opened is told on standard error, and the next one is played.
fn play_file<R: Files + Alloc + Eprint, W: Write>(
    rt: &R,
    out: &mut W,
    path: &str,
) -> io::Result<()> {
    writeln!(out, "file {path}")?;
    match File::open(rt, path) {
        Ok(file) => play(&mut BufReader::new(rt.alloc(), file)?, out),
        Err(e) => eprintln!(rt; "{path}: {e}"),
    }
}

fn main(rt: HostRuntime) -> io::Result<()> {
    let mut out = LineWriter::new(rt.alloc(), rt.stdout())?;
    for path in env::args(&rt)?.skip(1) {
        play_file(&rt, &mut out, &path)?;
    }
    out.flush()
}
