// A record of a call file: its call, the run of operation 4, and the numbers of its printed line.
#![tactic(auto)]

ghost use Rattle.std.specs.Prelude.{◌≡◌, ◌&&◌, not, ◌+◌, ◌-◌, ◌*◌, ◌≤◌, ◌<◌, length};
ghost use Rattle.machine.specs.Contract.{after};
ghost use Rattle.machine.specs.CallFile.{job_of, no_job, begins, steps, abandons, tidies, operation_of, by_operation, decode, run_of, serve, printed};
ghost use Rattle.machine.specs.CallFile.{line_of, record_of};
ghost use Rattle.std.specs.Prelude.{Some};
ghost use Rattle.callfile.specs.Line.{numbers, served, line_text};

use beginning::{abandon, begin};
use std::fmt;
use stepping::step;
use terms::{Answer, Call, Job, Operation, Out, State};
use whole::tidy;
use words::{four_at, two_at};

fn job_of(b: &[u8; 12]) -> Job
    ensures { result ≡ job_of b.now }
{
    Job {
        number: four_at(b, 4),
        price: four_at(b, 8),
    }
}

// Whether fare number and price are zero.
#[tactic(auto, unfolding(machine::specs::CallFile::no_job))]
fn no_job(b: &[u8; 12]) -> bool
    ensures { result ≡ no_job b.now }
{
    (four_at(b, 4) == 0) & (four_at(b, 8) == 0)
}

// A begin: its count is not used, so it must be 0.
#[tactic(auto, unfolding(machine::specs::CallFile::begins, machine::specs::Choice::if_b))]
fn begins_of(b: &[u8; 12], o: Operation) -> Call
    ensures { result ≡ begins b.now o }
{
    if two_at(b, 2) == 0 {
        Call::Begin(o, u32::from(b[1]), job_of(b))
    } else {
        Call::Bad
    }
}

#[tactic(auto, unfolding(machine::specs::CallFile::steps, machine::specs::Choice::if_b))]
fn steps_of(b: &[u8; 12]) -> Call
    ensures { result ≡ steps b.now }
{
    let count = two_at(b, 2);
    if (count != 0) & no_job(b) {
        Call::Steps(u32::from(b[1]), count)
    } else {
        Call::Bad
    }
}

#[tactic(auto, unfolding(machine::specs::CallFile::abandons, machine::specs::Choice::if_b))]
fn abandons_of(b: &[u8; 12]) -> Call
    ensures { result ≡ abandons b.now }
{
    if (two_at(b, 2) == 0) & no_job(b) {
        Call::Abandon(u32::from(b[1]))
    } else {
        Call::Bad
    }
}

#[tactic(auto, unfolding(machine::specs::CallFile::tidies, machine::specs::Choice::if_b))]
fn tidies_of(b: &[u8; 12]) -> Call
    ensures { result ≡ tidies b.now }
{
    if (b[1] == 0) & ((two_at(b, 2) == 0) & no_job(b)) {
        Call::Tidy
    } else {
        Call::Bad
    }
}

// The operation that a begin's byte names. by_operation asks for 1 to 3 alone, so it can't fail as Operation's TryFrom may.
#[tactic(auto, unfolding(machine::specs::CallFile::operation_of, machine::specs::Choice::if_b))]
pub fn operation_of(o: u32) -> Operation
    ensures { result ≡ operation_of o }
{
    match o {
        1 => Operation::LookUp,
        2 => Operation::PutIn,
        _ => Operation::TakeOut,
    }
}

// The call by its operation byte, matched with ranges as document 01 asks.
#[tactic(auto, unfolding(machine::specs::CallFile::by_operation, machine::specs::Choice::if_b))]
fn by_operation(o: u32, b: &[u8; 12]) -> Call
    ensures { result ≡ by_operation o b.now }
{
    match o {
        1..=3 => begins_of(b, operation_of(o)),
        4 => steps_of(b),
        5 => abandons_of(b),
        6 => tidies_of(b),
        _ => Call::Bad,
    }
}

// The call of a record; a short one is bad.
#[tactic(auto, unfolding(machine::specs::CallFile::decode, machine::specs::Choice::if_b))]
fn call_of(b: &[u8]) -> Call
    ensures { result ≡ decode b.now }
{
    let Some(b) = b.first_chunk() else {
        return Call::Bad;
    };
    by_operation(u32::from(b[0]), b)
}

// Operation 4: so many steps of task i, as long as they answer 0: the number is document 01's.
fn run(t: &mut [u32], st: State, i: u32, count: u32) -> Out
    ensures { after t.new result ≡ run_of count t.old st i }
{
    let mut o = Out {
        state: st,
        answer: Answer::Accepted,
    };
    for _ in 0..count {
        o = step(t, o.state, i);
        if u32::from(o.answer) != 0 {
            break;
        }
    }
    o
}

// The call is made. It is data, read from a file: a match, no closure; a bad one has its answer here, as in `CallFile.serve`.
#[tactic(auto, unfolding(machine::specs::CallFile::serve, machine::specs::Contract::after))]
fn serve_call(t: &mut [u32], st: State, c: Call) -> Out
    ensures { after t.new result ≡ serve t.old st c }
{
    match c {
        Call::Begin(o, i, j) => begin(t, st, i, o, j),
        Call::Steps(i, count) => run(t, st, i, count),
        Call::Abandon(i) => abandon(t, st, i),
        Call::Tidy => tidy(t, st),
        Call::Bad => Out {
            state: st,
            answer: Answer::BadRecord,
        },
    }
}

// The numbers of a printed line. Operation and answer are the numbers that print: a bad record's byte names no operation.
#[derive(Clone, Copy)]
pub struct Line {
    pub place: u64,
    pub operation: u32,
    pub task: u32,
    pub answer: u32,
    pub price: u32,
}

impl fmt::Display for Line {
    ghost output = { λ l. Some (line_text l) };

    fn fmt<W: fmt::Write>(&self, f: &mut fmt::Formatter<W>) -> fmt::Result {
        write!(
            f,
            "{} {} {} {} {}",
            self.place, self.operation, self.task, self.answer, self.price
        )
    }
}

// Operation or task as they print: 0 for a short record.
#[tactic(auto, unfolding(machine::specs::CallFile::printed, machine::specs::Choice::if_b))]
fn printed_at(b: &[u8], i: usize) -> u32
    requires { i < 12 }
    ensures { result ≡ printed i b.now }
{
    if b.len() < 12 { 0 } else { u32::from(b[i]) }
}

#[tactic(auto, unfolding(machine::specs::CallFile::line_of, crate::specs::Line::numbers))]
fn line_of(place: u64, b: &[u8], a: Answer) -> Line
    ensures { numbers result ≡ line_of place b.now a }
{
    Line {
        place,
        operation: printed_at(b, 0),
        task: printed_at(b, 1),
        answer: u32::from(a),
        price: a.price(),
    }
}

// What a record hands back beside the table.
#[derive(Clone, Copy)]
pub struct Served {
    pub state: State,
    pub line: Line,
}

// One record at its place.
pub fn serve_record(t: &mut [u32], st: State, place: u64, b: &[u8]) -> Served
    ensures { served t.new result ≡ record_of t.old st place b.now }
{
    let o = serve_call(t, st, call_of(b));
    Served {
        state: o.state,
        line: line_of(place, b, o.answer),
    }
}
