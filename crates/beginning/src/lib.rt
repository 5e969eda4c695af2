// Begin and abandon.
#![tactic(auto)]

ghost use Rattle.std.specs.Prelude.{◌≡◌, ◌+◌, ◌-◌, ◌*◌, ◌/◌, ◌≤◌, ◌<◌, length};
ghost use Rattle.machine.specs.Contract.{after};
ghost use Rattle.machine.specs.Calls.{begin_of, abandoned_out, abandon_of};
ghost use Rattle.state.specs.Refused.{or_refused};

use fields::fitting_slots;
use state::{ask_fits, is_sound, or_refused, task_place, with_counts, with_task};
use terms::{Answer, Job, Operation, Out, Refusal, State, Task};

// Task i is busy with the operation, or the first refusal that holds.
#[tactic(auto, unfolding(machine::specs::Contract::after, machine::specs::Calls::begin_of, machine::specs::Choice::if_b))]
fn begun(t: &[u32], st: State, i: u32, o: Operation, j: Job) -> Result<Out, Refusal>
    ensures { after t.now (or_refused st result) ≡ begin_of t.now st i o j }
{
    fitting_slots(t.len())?;
    let at = task_place(i)?;
    if !ask_fits(o, j) {
        return Err(Refusal::OutOfRange);
    }
    let k = st.tasks[at];
    if k.is_busy() {
        return Err(Refusal::TaskBusy);
    }
    if !is_sound(st) {
        return Err(Refusal::Damaged);
    }
    Ok(Out {
        state: with_task(st, at, k.begun(o, j)),
        answer: Answer::Accepted,
    })
}

// Task i begins an operation.
pub fn begin(t: &[u32], st: State, i: u32, o: Operation, j: Job) -> Out
    ensures { after t.now result ≡ begin_of t.now st i o j }
{
    or_refused(st, begun(t, st, i, o, j))
}

// Task i, which is k, is abandoned.
#[tactic(auto, unfolding(machine::specs::Calls::abandoned_out, machine::specs::Choice::if_b))]
fn abandon_work(st: State, i: usize, k: Task) -> Out
    requires { (i < 8) × (st.m ≤ 1000000) × (st.u ≤ 1000000) }
    ensures { result ≡ abandoned_out st i k }
{
    if k.settles() {
        return Out {
            state: with_counts(st, i, k.abandoned(), 0, 1),
            answer: Answer::PutUnsettled,
        };
    }
    Out {
        state: with_task(st, i, k.abandoned()),
        answer: Answer::Accepted,
    }
}

// Task i is idle, or the first refusal that holds.
#[tactic(auto, unfolding(machine::specs::Contract::after, machine::specs::Calls::abandon_of, machine::specs::Choice::if_b))]
fn given_up(t: &[u32], st: State, i: u32) -> Result<Out, Refusal>
    ensures { after t.now (or_refused st result) ≡ abandon_of t.now st i }
{
    fitting_slots(t.len())?;
    let at = task_place(i)?;
    let k = st.tasks[at];
    if !k.is_busy() {
        return Err(Refusal::TaskIdle);
    }
    if !is_sound(st) {
        return Err(Refusal::Damaged);
    }
    Ok(abandon_work(st, at, k))
}

// Task i is abandoned.
pub fn abandon(t: &[u32], st: State, i: u32) -> Out
    ensures { after t.now result ≡ abandon_of t.now st i }
{
    or_refused(st, given_up(t, st, i))
}
