// The probe: one call after another, each on a table and a state that are handed in (docs/PROBE.md).
#![tactic(auto)]

ghost use Rattle.std.specs.Prelude.{◌≤◌};

use beginning::{abandon, begin};
use playing::read_full;
use resetting::reset;
use statecode::{read_state, write_state};
use std::io;
use std::io::{BufReader, LineWriter, Read, Write};
use stepping::step;
use terms::{Answer, Job, Operation, Out, State};
use whole::{figures, list, tidy};

// Numbers of a slice, on one line behind a word.
fn print_numbers<W: Write>(out: &mut W, word: &str, t: &[u32]) -> io::Result<()> {
    write!(out, "{word}")?;
    for n in t {
        write!(out, " {n}")?;
    }
    writeln!(out)
}

fn print_answer<W: Write>(out: &mut W, a: Answer) -> io::Result<()> {
    writeln!(out, "answer {} {}", u32::from(a), a.price())
}

fn print_state<W: Write>(out: &mut W, st: State) -> io::Result<()> {
    let mut w = [0; 122];
    write_state(&mut w, st);
    print_numbers(out, "state", &w)
}

// How many numbers are lent to a list.
#[derive(Clone, Copy)]
struct Places {
    count: usize,
    ghost fits: { count ≤ 8192 },
}

// What a probe asks for.
#[derive(Clone, Copy)]
enum Query {
    Reset,
    Begin(u32, Operation, Job),
    Step(u32),
    Abandon(u32),
    Tidy,
    Figures,
    List(Places),
}

// The query of the seven numbers before state and table, if the call is one and every number that it does not use is 0.
fn query_of(w: [u32; 7]) -> Option<Query> {
    match w {
        [0, 0, 0, 0, 0, 0, _] => Some(Query::Reset),
        [1, o, i, number, price, 0, _] => {
            let o = Operation::try_from(o).ok()?;
            Some(Query::Begin(i, o, Job { number, price }))
        }
        [2, 0, i, 0, 0, 0, _] => Some(Query::Step(i)),
        [3, 0, i, 0, 0, 0, _] => Some(Query::Abandon(i)),
        [4, 0, 0, 0, 0, 0, _] => Some(Query::Tidy),
        [5, 0, 0, 0, 0, 0, _] => Some(Query::Figures),
        [6, 0, 0, 0, 0, room, _] if room <= 8192 => Some(Query::List(Places {
            count: room as usize,
        })),
        _ => None,
    }
}

// Numbers out of their bytes, low byte first.
fn fill_numbers(t: &mut [u32], b: &[u8]) {
    for (x, c) in t.iter_mut().zip(b.as_chunks::<4>().0) {
        *x = u32::from_le_bytes(*c);
    }
}

fn numbers<const N: usize>(b: &[u8]) -> [u32; N] {
    let mut w = [0; N];
    fill_numbers(&mut w, b);
    w
}

// A probe as it was read; its table stands in the room that is lent.
#[derive(Clone, Copy)]
struct Probe {
    query: Query,
    state: State,
    length: usize,
    ghost fits: { length ≤ 24600 },
}

// The numbers of the input that come next; whether it goes so far. A part has 1,024 numbers at most: `min` says it to the check.
fn read_numbers<R: Read>(input: &mut R, t: &mut [u32]) -> io::Result<bool> {
    let mut b = [0; 4096];
    for part in t.chunks_mut(1024) {
        let b = &mut b[..4 * part.len().min(1024)];
        if read_full(input, b)? < b.len() {
            return Ok(false);
        }
        fill_numbers(part, b);
    }
    Ok(true)
}

// The probe that begins with these seven numbers, if the input goes on as one.
fn read_probe<R: Read>(
    input: &mut R,
    w: [u32; 7],
    table: &mut [u32; 24600],
) -> io::Result<Option<Probe>> {
    let Some(query) = query_of(w) else {
        return Ok(None);
    };
    if 24600 < w[6] {
        return Ok(None);
    }
    let mut b = [0; 488];
    if read_full(input, &mut b)? < 488 {
        return Ok(None);
    }
    let Some(state) = read_state(&numbers::<122>(&b)) else {
        return Ok(None);
    };
    let length = w[6] as usize;
    if !read_numbers(input, &mut table[..length])? {
        return Ok(None);
    }
    Ok(Some(Probe {
        query,
        state,
        length,
    }))
}

fn print_out<W: Write>(out: &mut W, o: Out) -> io::Result<State> {
    print_answer(out, o.answer)?;
    Ok(o.state)
}

fn make_figures<W: Write>(out: &mut W, t: &[u32], st: State) -> io::Result<State> {
    let r = figures(t, st);
    print_answer(out, r.answer)?;
    writeln!(out, "figures {}", r.figures)?;
    Ok(st)
}

// A list in a room of sevens.
fn make_list<W: Write>(out: &mut W, t: &[u32], st: State, room: &mut [u32]) -> io::Result<State> {
    room.fill(7);
    print_answer(out, list(t, st, room))?;
    print_numbers(out, "room", room)?;
    Ok(st)
}

// The call is made, its answer printed; the state after it. A list is written into `fares`.
fn make<W: Write>(
    out: &mut W,
    t: &mut [u32],
    st: State,
    q: Query,
    fares: &mut [u32; 8192],
) -> io::Result<State> {
    match q {
        Query::Reset => print_out(out, reset(t, st)),
        Query::Begin(i, o, j) => print_out(out, begin(t, st, i, o, j)),
        Query::Step(i) => print_out(out, step(t, st, i)),
        Query::Abandon(i) => print_out(out, abandon(t, st, i)),
        Query::Tidy => print_out(out, tidy(t, st)),
        Query::Figures => make_figures(out, t, st),
        Query::List(places) => make_list(out, t, st, &mut fares[..places.count]),
    }
}

// The call is made, everything printed.
fn answer<W: Write>(
    out: &mut W,
    p: Probe,
    table: &mut [u32; 24600],
    fares: &mut [u32; 8192],
) -> io::Result<()> {
    let t = &mut table[..p.length];
    let after = make(out, t, p.state, p.query, fares)?;
    print_state(out, after)?;
    print_numbers(out, "table", t)
}

// One probe is read and answered; whether another may follow.
fn turn<R: Read, W: Write>(
    input: &mut R,
    out: &mut W,
    table: &mut [u32; 24600],
    fares: &mut [u32; 8192],
) -> io::Result<bool> {
    let mut b = [0; 28];
    let n = read_full(input, &mut b)?;
    if n == 0 {
        return Ok(false);
    }
    let probe = if n < 28 {
        None
    } else {
        read_probe(input, numbers(&b), table)?
    };
    let Some(p) = probe else {
        out.write_all(b"answer 40 0\n")?;
        return Ok(false);
    };
    answer(out, p, table, fares)?;
    Ok(true)
}

// Room for the longest table and the longest list stands on the stack, so that no probe can be short of heap. The loop counts its
// turns: a proved loop has to end.
fn main(rt: HostRuntime) -> io::Result<()> {
    let mut input = BufReader::new(rt.alloc(), rt.stdin())?;
    let mut out = LineWriter::new(rt.alloc(), rt.stdout())?;
    let mut table = [0; 24600];
    let mut fares = [0; 8192];
    for _ in 0..u64::MAX {
        if !turn(&mut input, &mut out, &mut table, &mut fares)? {
            break;
        }
    }
    out.flush()
}
