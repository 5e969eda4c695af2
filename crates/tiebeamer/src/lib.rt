// The fare table for C and Rust: table and state are lent as slices of 32-bit numbers, an answer is its number
// (docs/INTERFACE.md). Each call is one equation to its definition, and none has a `requires`. The crate tiebeamer_c
// exports the calls under C's names, with the same clauses.
#![tactic(auto)]

ghost use Rattle.std.specs.Prelude.{◌≡◌, true, false, ◌≤◌, ◌<◌, ℕ, get_or, Ok, Err, IfOk, IfErr};
ghost use Rattle.fields.specs.Writes.{seen, SameTable};
ghost use Rattle.machine.specs.Contract.{turned_out};
ghost use Rattle.machine.specs.Step.{unsettled, step_work, step_of};
ghost use Rattle.machine.specs.Table.{slots};
ghost use Rattle.machine.specs.Calls.{begin_of, abandon_of};
ghost use Rattle.machine.specs.CallFile.{end_line, run_of};
ghost use Rattle.statecode.specs.Lent.{lent};
ghost use Rattle.tiebeamer.specs.declared.Unasked.TheVariants as Unasked;
ghost use Rattle.tiebeamer.specs.declared.Unasked.TheVariants.{NoCall};
ghost use Rattle.terms.specs.Operations.{operation_at};
ghost use Rattle.walk.specs.Arrived.{turn_at};
ghost use Rattle.machine.specs.State.{one, task_at};
ghost use Rattle.tiebeamer.specs.Numbers.{answered, left_by, Hands, Leaves, Walks};
ghost use Rattle.tiebeamer.specs.Interface.{number_refused, number_asked, price_asked, told, reset_told, begin_told, step_told, run_told};
ghost use Rattle.tiebeamer.specs.Interface.{abandon_told, tidy_told, shown, figures_shown, list_shown};

use fields::{Slots, SlotsMut, fitting_slots};
use resetting::reset;
use state::{ask_fits, job_fits, task_place};
use statecode::{
    StateMut, Walker, goal_number, is_busy_at, is_sound_by, put_first, read_state, state_in,
    store_task, task_at, walker_at, write_state,
};
use stepping::phase_step;
use terms::{
    Answer, Figures, Goal, Job, NoOperation, Operation, Outcome, Path, Refusal, Task, Turn, Work,
};
use walk::{Arrival, walk_out};
use whole::{figures, list, tidy};

// The refusals of the interface's own: the numbers lent are no state, or no call has this operation or count.
#[derive(Clone, Copy)]
enum Unasked {
    NoState,
    NoCall,
}

impl From<Unasked> for u32 {
    ghost from_gives = { λ e n. n ≡ number_refused e };

    fn from(e: Unasked) -> u32 {
        match e {
            Unasked::NoState => 50,
            Unasked::NoCall => 51,
        }
    }
}

impl From<NoOperation> for Unasked {
    ghost from_gives = { λ o e. e ≡ Unasked.NoCall };

    fn from(_: NoOperation) -> Unasked {
        Unasked::NoCall
    }
}

// The number of what a call comes to.
fn number_asked(r: Result<Answer, Unasked>) -> u32
    ensures { result ≡ number_asked r }
{
    match r {
        Ok(a) => a.into(),
        Err(e) => e.into(),
    }
}

// The price is written where the call is made.
fn put_price(price: &mut u32, r: Result<Answer, Unasked>)
    ensures { price.new ≡ price_asked price.old r }
{
    if let Ok(a) = r {
        *price = a.price();
    }
}

// The answer of a call that may be refused.
fn answered(r: Result<Answer, Refusal>) -> Answer
    ensures { result ≡ answered r }
{
    match r {
        Ok(a) => a,
        Err(e) => e.into(),
    }
}

// The table and the state start anew. What `?` hands on of a lent slice says not what the slice becomes, so each call asks for itself.
fn reset_asked(t: &mut [u32], w: &mut [u32]) -> Result<Answer, Unasked>
    ensures { told (number_asked result) 0 t.new w.new ≡ reset_told t.old w.old }
{
    let Some(st) = read_state(w) else {
        return Err(Unasked::NoState);
    };
    let Some(w) = w.as_mut_array() else {
        return Err(Unasked::NoState);
    };
    let o = reset(t, st);
    write_state(w, o.state);
    Ok(o.answer)
}

pub fn tiebeamer_reset(table: &mut [u32], state: &mut [u32]) -> u32
    ensures { told result 0 table.new state.new ≡ reset_told table.old state.old }
{
    number_asked(reset_asked(table, state))
}

// Begin, abandon, step and run stand beside those on a state by value: here only the numbers of the task that moves are read and
// written, which is what makes them fast (F27 in docs/DECISIONS.md).

// Task i begins an operation, or the first refusal that holds. The places 7 to 14 of an idle task are 0 already, so its
// first seven numbers are enough.
#[tactic(auto, unfolding(machine::specs::Contract::after, machine::specs::Calls::begin_of, machine::specs::Choice::if_b))]
fn begun(t: &[u32], w: &mut StateMut, i: u32, o: Operation, j: Job) -> Result<Answer, Refusal>
    ensures { Leaves t.now w.old w.new (answered result) (begin_of t.now (lent w.old) i o j) }
{
    fitting_slots(t.len())?;
    let at = task_place(i)?;
    if !ask_fits(o, j) {
        return Err(Refusal::OutOfRange);
    }
    if is_busy_at(w.numbers, at) {
        return Err(Refusal::TaskBusy);
    }
    if !is_sound_by(w.numbers) {
        return Err(Refusal::Damaged);
    }
    let k = goal_number(Goal::Serve(o));
    put_first(w.numbers, at, 1, j, k, Path::default());
    Ok(Answer::Accepted)
}

// The operation that a number names, as C hands it: 1 look up, 2 put in, 3 take out.
#[tactic(auto, unfolding(terms::specs::Operations::operation_at))]
fn operation_asked(n: u32) -> Result<Operation, Unasked>
    ensures named { IfOk result (λ o. operation_at n ≡ Ok o) }
    ensures refused { IfErr result (λ e. (operation_at n ≡ Err (record { number = n })) × (e ≡ NoCall)) }
{
    Ok(Operation::try_from(n)?)
}

fn begin_asked(t: &[u32], w: &mut [u32], i: u32, operation: u32, j: Job) -> Result<Answer, Unasked>
    ensures { told (number_asked result) 0 t.now w.new ≡ begin_told t.now w.old i operation j.number j.price }
{
    let Some(numbers) = state_in(w) else {
        return Err(Unasked::NoState);
    };
    let o = operation_asked(operation)?;
    Ok(answered(begun(t, &mut StateMut { numbers }, i, o, j)))
}

pub fn tiebeamer_begin(
    table: &[u32],
    state: &mut [u32],
    task: u32,
    operation: u32,
    number: u32,
    price: u32,
) -> u32
    ensures { told result 0 table.now state.new ≡ begin_told table.now state.old task operation number price }
{
    let j = Job { number, price };
    number_asked(begin_asked(table, state, task, operation, j))
}

// Answer 6 leaves a put-in unsettled.
fn unsettled(a: Answer) -> u32
    ensures { result ≡ one (unsettled a) }
{
    u32::from(matches!(a, Answer::PutUnsettled))
}

// A turn of task i is stored in the state; its answer.
fn store_turn(w: &mut StateMut, i: usize, r: Outcome) -> Answer
    requires { (i < 8) × (get_or w.old.numbers.now 120 0 ≤ 1000000) × (get_or w.old.numbers.now 121 0 ≤ 1000000) }
    ensures { Hands w.old w.new result (turned_out (lent w.old) i r.turn r.committed) }
{
    let m = w.numbers[120] + u32::from(r.committed);
    let u = w.numbers[121];
    match r.turn {
        Turn::Hurt => Answer::Damaged,
        Turn::Next(k) => {
            store_task(w, i, k, m, u);
            Answer::Accepted
        }
        Turn::Done(b) => {
            store_task(w, i, Task::idle(), m, u + unsettled(b));
            b
        }
    }
}

// A step of task i, by what it does.
#[tactic(auto, unfolding(machine::specs::Contract::after, machine::specs::Contract::acted, machine::specs::Contract::played, machine::specs::Contract::turned_out, machine::specs::Step::step_work, machine::specs::Step::carried, machine::specs::Choice::if_b))]
fn step_work(t: &mut SlotsMut, w: &mut StateMut, i: usize) -> Result<Answer, Refusal>
    requires { (t.old.n ≡ slots t.old.numbers.now) × (i < 8) }
    ensures { Leaves t.new.numbers.now w.old w.new (answered result)
        (step_work t.old.numbers.now (lent w.old) i (task_at (lent w.old) i).work) × SameTable t.old t.new }
{
    let Work::Busy(j, f) = task_at(w.numbers, i).work else {
        return Err(Refusal::TaskIdle);
    };
    if !(is_sound_by(w.numbers) & job_fits(j)) {
        return Err(Refusal::Damaged);
    }
    let r = phase_step(t, w.numbers[120], j, f);
    Ok(store_turn(w, i, r))
}

// The slot that a walker's next step leaves, behind its parent: first the entry, and never the entry again.
#[tactic(auto, unfolding(machine::specs::Choice::if_b))]
fn left_by(k: Walker) -> Result<(u32, u32), Refusal>
    ensures { result ≡ left_by k }
{
    match k.path {
        None => Ok((4294967295, 0)),
        Some(q) => {
            if q.here == 0 {
                return Err(Refusal::Damaged);
            }
            Ok((q.parent, q.here))
        }
    }
}

// What a walker came to is stored in its numbers; its answer. While it goes on, the number of its goal stays the one that stands there.
fn store_arrival(w: &mut StateMut, i: usize, k: Walker, q: Path, a: Arrival) -> Answer
    requires { Walks w.old.numbers.now i k × (get_or w.old.numbers.now 120 0 ≤ 1000000) × (get_or w.old.numbers.now 121 0 ≤ 1000000) }
    ensures { Hands w.old w.new result (turned_out (lent w.old) i (turn_at k.goal k.job q a) false) }
{
    match a {
        Arrival::Lost => return Answer::Damaged,
        Arrival::On => {
            let goal = w.numbers[15 * i + 3];
            put_first(w.numbers, i, 2, k.job, goal, q);
        }
        Arrival::Puts => put_first(w.numbers, i, 3, k.job, 0, q),
        Arrival::Takes => put_first(w.numbers, i, 4, k.job, 0, q),
        Arrival::Settles => put_first(w.numbers, i, 5, k.job, 0, q),
        Arrival::Ends(b) => {
            let r = Outcome {
                turn: Turn::Done(b),
                committed: false,
            };
            return store_turn(w, i, r);
        }
    }
    Answer::Accepted
}

// A step of task i, which walks. It has no notes before and after, so seven numbers are enough unless the operation ends.
fn walk_on(t: &Slots, w: &mut StateMut, i: usize, k: Walker) -> Result<Answer, Refusal>
    requires { (t.now.n ≡ slots t.now.numbers.now) × Walks w.old.numbers.now i k }
    ensures { Leaves t.now.numbers.now w.old w.new (answered result)
        (step_work t.now.numbers.now (lent w.old) i (task_at (lent w.old) i).work) }
{
    if !(is_sound_by(w.numbers) & job_fits(k.job)) {
        return Err(Refusal::Damaged);
    }
    let (grand, parent) = left_by(k)?;
    let r = walk_out(t, k.goal, k.job, grand, parent);
    let q = Path {
        grand,
        parent,
        here: r.to,
    };
    Ok(store_arrival(w, i, k, q, r.at))
}

// A step of task i, or the first refusal that holds. The state stays in its numbers: only the task's own are read and written.
#[tactic(auto, unfolding(machine::specs::Contract::after, machine::specs::Step::step_of, machine::specs::Choice::if_b))]
fn stepped(t: &mut [u32], w: &mut StateMut, i: u32) -> Result<Answer, Refusal>
    ensures { Leaves t.new w.old w.new (answered result) (step_of t.old (lent w.old) i) }
{
    let n = fitting_slots(t.len())?;
    let at = task_place(i)?;
    match walker_at(w.numbers, at) {
        Some(k) => walk_on(&Slots { numbers: t, n }, w, at, k),
        None => step_work(&mut SlotsMut { numbers: t, n }, w, at),
    }
}

fn step_by(t: &mut [u32], w: &mut StateMut, i: u32) -> Answer
    ensures { Leaves t.new w.old w.new result (step_of t.old (lent w.old) i) }
{
    answered(stepped(t, w, i))
}

// So many steps, as long as they answer 0.
fn run_by(t: &mut [u32], w: &mut StateMut, i: u32, count: u32) -> Answer
    ensures { Leaves t.new w.old w.new result (run_of count t.old (lent w.old) i) }
{
    let mut a = Answer::Accepted;
    for _ in 0..count {
        a = step_by(t, w, i);
        if u32::from(a) != 0 {
            break;
        }
    }
    a
}

fn step_asked(t: &mut [u32], w: &mut [u32], i: u32) -> Result<Answer, Unasked>
    ensures { (p : ℕ) → told (number_asked result) (price_asked p result) t.new w.new ≡ step_told t.old w.old i p }
{
    let Some(numbers) = state_in(w) else {
        return Err(Unasked::NoState);
    };
    Ok(step_by(t, &mut StateMut { numbers }, i))
}

pub fn tiebeamer_step(table: &mut [u32], state: &mut [u32], task: u32, price: &mut u32) -> u32
    ensures { told result price.new table.new state.new ≡ step_told table.old state.old task price.old }
{
    let r = step_asked(table, state, task);
    put_price(price, r);
    number_asked(r)
}

// So many steps, as long as they answer 0: 1 to 65,535.
fn run_asked(t: &mut [u32], w: &mut [u32], i: u32, count: u32) -> Result<Answer, Unasked>
    ensures { (p : ℕ) → told (number_asked result) (price_asked p result) t.new w.new ≡ run_told t.old w.old i count p }
{
    let Some(numbers) = state_in(w) else {
        return Err(Unasked::NoState);
    };
    if !((1 <= count) & (count <= 65535)) {
        return Err(Unasked::NoCall);
    }
    Ok(run_by(t, &mut StateMut { numbers }, i, count))
}

pub fn tiebeamer_run(
    table: &mut [u32],
    state: &mut [u32],
    task: u32,
    count: u32,
    price: &mut u32,
) -> u32
    ensures { told result price.new table.new state.new ≡ run_told table.old state.old task count price.old }
{
    let r = run_asked(table, state, task, count);
    put_price(price, r);
    number_asked(r)
}

// Task i is abandoned, or the first refusal that holds; its numbers are read as a task.
#[tactic(auto, unfolding(machine::specs::Contract::after, machine::specs::Calls::abandon_of, machine::specs::Choice::if_b))]
fn given_up(t: &[u32], w: &mut StateMut, i: u32) -> Result<Answer, Refusal>
    ensures { Leaves t.now w.old w.new (answered result) (abandon_of t.now (lent w.old) i) }
{
    fitting_slots(t.len())?;
    let at = task_place(i)?;
    let k = task_at(w.numbers, at);
    if !k.is_busy() {
        return Err(Refusal::TaskIdle);
    }
    if !is_sound_by(w.numbers) {
        return Err(Refusal::Damaged);
    }
    let m = w.numbers[120];
    let u = w.numbers[121];
    if k.settles() {
        store_task(w, at, k.abandoned(), m, u + 1);
        Ok(Answer::PutUnsettled)
    } else {
        store_task(w, at, k.abandoned(), m, u);
        Ok(Answer::Accepted)
    }
}

fn abandon_asked(t: &[u32], w: &mut [u32], i: u32) -> Result<Answer, Unasked>
    ensures { told (number_asked result) 0 t.now w.new ≡ abandon_told t.now w.old i }
{
    let Some(numbers) = state_in(w) else {
        return Err(Unasked::NoState);
    };
    Ok(answered(given_up(t, &mut StateMut { numbers }, i)))
}

pub fn tiebeamer_abandon(table: &[u32], state: &mut [u32], task: u32) -> u32
    ensures { told result 0 table.now state.new ≡ abandon_told table.now state.old task }
{
    number_asked(abandon_asked(table, state, task))
}

// The slots that the entry does not reach are set to zero; the state stays.
fn tidy_asked(t: &mut [u32], w: &[u32]) -> Result<Answer, Unasked>
    ensures { told (number_asked result) 0 t.new w.now ≡ tidy_told t.old w.now }
{
    let Some(st) = read_state(w) else {
        return Err(Unasked::NoState);
    };
    Ok(tidy(t, st).answer)
}

pub fn tiebeamer_tidy(table: &mut [u32], state: &mut [u32]) -> u32
    ensures { told result 0 table.new state.new ≡ tidy_told table.old state.old }
{
    number_asked(tidy_asked(table, state))
}

// The figures, in their order.
#[tactic(auto, unfolding(machine::specs::CallFile::end_line))]
fn put_figures(places: &mut [u32; 7], f: Figures)
    ensures { places.new ≡ end_line f }
{
    *places = [f.height, f.level, f.c, f.m, f.fares, f.free, f.allowed];
}

// Refused figures write nothing.
fn figures_asked(t: &[u32], w: &[u32], places: &mut [u32; 7]) -> Result<Answer, Unasked>
    ensures { shown (number_asked result) places.new ≡ figures_shown t.now w.now places.old }
{
    let Some(st) = read_state(w) else {
        return Err(Unasked::NoState);
    };
    let r = figures(t, st);
    if u32::from(r.answer) == 0 {
        put_figures(places, r.figures);
    }
    Ok(r.answer)
}

// Height, level records, c, m, fares, free slots and the allowed rank.
pub fn tiebeamer_figures(table: &[u32], state: &[u32], places: &mut [u32; 7]) -> u32
    ensures { shown result places.new ≡ figures_shown table.now state.now places.old }
{
    number_asked(figures_asked(table, state, places))
}

fn list_asked(t: &[u32], w: &[u32], room: &mut [u32]) -> Result<Answer, Unasked>
    ensures { shown (number_asked result) room.new ≡ list_shown t.now w.now room.old }
{
    let Some(st) = read_state(w) else {
        return Err(Unasked::NoState);
    };
    Ok(list(t, st, room))
}

// Number and price of each fare, into the room lent.
pub fn tiebeamer_list(table: &[u32], state: &[u32], room: &mut [u32]) -> u32
    ensures { shown result room.new ≡ list_shown table.now state.now room.old }
{
    number_asked(list_asked(table, state, room))
}
