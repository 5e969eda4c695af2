// A call file is read to its end and printed: a line for each record, then the figures. Where the bytes of the input and those
// of the output are known, what is written is what the definition of the program says.
#![tactic(auto)]

ghost use Rattle.std.specs.Prelude.{◌≡◌, ◌≤◌, ◌<◌, ◌^◌, length, take, OnOk, IfOk, IfSome};
ghost use Rattle.std.specs.Io.KnownBytes.{Appends, Consumes, IsAtEnd};
ghost use Rattle.machine.specs.CallFile.{program_of, end_line};
ghost use Rattle.machine.specs.Calls.{figures_of};
ghost use Rattle.callfile.specs.Line.{numbers};
ghost use Rattle.playing.specs.Text.{line_bytes, end_bytes, bytes_of};
ghost use Rattle.playing.specs.Turn.{Turns};

use callfile::{Line, serve_record};
use resetting::reset;
use state::fresh_state;
use std::io;
use std::io::{Read, Write};
use terms::{Figures, State};
use whole::figures;

// Reads until the buffer is full or the input ends; how many bytes came. The library's read_exact fails where the last record is short.
pub fn read_full<R: Read>(input: &mut R, buf: &mut [u8]) -> io::Result<usize>
    ensures bound { IfOk result (λ n. n ≤ length buf.new) }
    ensures bytes { IfOk result (λ n. Consumes (R.remaining input.old) (R.remaining input.new) (take n buf.new)) }
    ensures end { IfOk result (λ n. n < length buf.new → IsAtEnd (R.remaining input.new)) }
{
    let mut done: usize = 0;
    while done < buf.len() {
        let more = input.read(&mut buf[done..])?;
        if more == 0 {
            break;
        }
        done += more;
    }
    Ok(done)
}

#[tactic(auto, unfolding(crate::specs::Text::line_bytes, crate::specs::Text::rest_bytes, callfile::specs::Line::numbers))]
fn print_line<W: Write>(out: &mut W, l: Line) -> io::Result<()>
    ensures { OnOk result (Appends (W.contents out.old) (W.contents out.new) (line_bytes (numbers l))) }
{
    writeln!(out, "{l}")
}

#[tactic(auto, unfolding(crate::specs::Text::end_bytes, crate::specs::Text::rest_bytes, machine::specs::CallFile::end_line))]
fn print_end<W: Write>(out: &mut W, f: Figures) -> io::Result<()>
    ensures { OnOk result (Appends (W.contents out.old) (W.contents out.new) (end_bytes (end_line f))) }
{
    writeln!(out, "end {f}")
}

// One record: read, served, printed; the state after it. None where the input has no record left.
fn turn<R: Read, W: Write>(
    input: &mut R,
    out: &mut W,
    t: &mut [u32; 384],
    st: State,
    place: u64,
) -> io::Result<Option<State>>
    ensures { IfSome (R.remaining input.old) (λ bs. IfOk result (λ a. Turns bs place t.old st a t.new (R.remaining input.new) (W.contents out.old) (W.contents out.new))) }
{
    let mut rec = [0; 12];
    let n = read_full(input, &mut rec)?;
    if n == 0 {
        return Ok(None);
    }
    let r = serve_record(t, st, place, &rec[..n]);
    print_line(out, r.line)?;
    Ok(Some(r.state))
}

// The figures of the table at the end.
fn finish<W: Write>(out: &mut W, t: &[u32; 384], st: State) -> io::Result<()>
    ensures { OnOk result (Appends (W.contents out.old) (W.contents out.new) (end_bytes (end_line (figures_of t.now st).figures))) }
{
    print_end(out, figures(t, st).figures)
}

// A table of 64 slots is reset, and every record of the input is served. The places count the turns: a proved loop has to end.
pub fn play<R: Read, W: Write>(input: &mut R, out: &mut W) -> io::Result<()>
    ensures { OnOk result (IfSome (R.remaining input.old) (λ bs. length bs < 2 ^ 64 → Appends (W.contents out.old) (W.contents out.new) (bytes_of (program_of bs)))) }
{
    let mut t = [0; 384];
    let mut st = reset(&mut t, fresh_state()).state;
    for place in 1..=u64::MAX {
        let Some(next) = turn(input, out, &mut t, st, place)? else {
            break;
        };
        st = next;
    }
    finish(out, &t, st)
}
