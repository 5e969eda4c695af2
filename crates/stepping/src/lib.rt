// Step: the refusals in their order, then what the task's phase asks for.
#![tactic(auto)]

ghost use Rattle.std.specs.Prelude.{◌≡◌, ◌+◌, ◌-◌, ◌*◌, ◌/◌, ◌≤◌, ◌<◌, length};
ghost use Rattle.fields.specs.Writes.{read, SameTable, Does};
ghost use Rattle.machine.specs.Contract.{after};
ghost use Rattle.machine.specs.Table.{slots};
ghost use Rattle.machine.specs.State.{task_at};
ghost use Rattle.machine.specs.Step.{phase_step, step_work, step_of};
ghost use Rattle.state.specs.Refused.{or_refused};

use choosing::settle_step;
use fields::{SlotsMut, fitting_slots};
use putting::put_step;
use state::{is_sound, job_fits, or_refused, task_place, turn_out};
use taking::take_step;
use terms::{Job, Out, Outcome, Phase, Refusal, State, Work};
use walk::{calm_turn, walk_from, walk_on};

// The step of a task by its phase; m put-ins are committed. A phase is data, in the state and in its numbers: a match, no closure.
#[tactic(auto, unfolding(machine::specs::Contract::acted, machine::specs::Contract::played, machine::specs::Step::phase_step, machine::specs::Choice::if_b, machine::specs::Table::puts))]
pub fn phase_step(t: &mut SlotsMut, m: u32, j: Job, f: Phase) -> Outcome
    ensures { Does t.old t.new result (phase_step (read t.old) t.old.n m j f) }
{
    match f {
        Phase::Start(g) => calm_turn(walk_from(&t.read(), g, j, 4294967295, 0)),
        Phase::Walk(g, q) => calm_turn(walk_on(&t.read(), g, j, q)),
        Phase::PuttingIn(q, s) => put_step(t, m, j, q, s),
        Phase::TakingOut(q, s) => take_step(t, j, q, s),
        Phase::Settling(q, s) => settle_step(t, j, q, s),
    }
}

// A step of task i, by what it does.
#[tactic(auto, unfolding(machine::specs::Contract::after, machine::specs::Step::step_work, machine::specs::Choice::if_b))]
fn step_work(t: &mut SlotsMut, st: State, i: usize) -> Result<Out, Refusal>
    requires { i < 8 }
    ensures { (after t.new.numbers.now (or_refused st result) ≡ step_work t.old.numbers.now st i (task_at st i).work) × SameTable t.old t.new }
{
    let Work::Busy(j, f) = st.tasks[i].work else {
        return Err(Refusal::TaskIdle);
    };
    if !(is_sound(st) & job_fits(j)) {
        return Err(Refusal::Damaged);
    }
    let r = phase_step(t, st.m, j, f);
    Ok(turn_out(st, i, r.turn, r.committed))
}

// A step of task i, or the first refusal that holds.
#[tactic(auto, unfolding(machine::specs::Contract::after, machine::specs::Step::step_of, machine::specs::Choice::if_b))]
fn stepped(t: &mut [u32], st: State, i: u32) -> Result<Out, Refusal>
    ensures { after t.new (or_refused st result) ≡ step_of t.old st i }
{
    let n = fitting_slots(t.len())?;
    let at = task_place(i)?;
    let mut lent = SlotsMut { numbers: t, n };
    step_work(&mut lent, st, at)
}

// One step of task i.
pub fn step(t: &mut [u32], st: State, i: u32) -> Out
    ensures { after t.new result ≡ step_of t.old st i }
{
    or_refused(st, stepped(t, st, i))
}
