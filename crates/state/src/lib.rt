// The state by value: the counts over its eight tasks, its soundness, and a task's turn stored in it.
#![tactic(auto)]

ghost use Rattle.std.specs.Prelude.{◌≡◌, ◌&&◌, ◌+◌, ◌-◌, ◌*◌, ◌≤◌, ◌<◌, IfOk, IfErr};
ghost use Rattle.machine.specs.State.{settling, busy_tasks, sound, job_fits, ask_fits, may_price, with_task, fresh_state};
ghost use Rattle.machine.specs.Contract.{turned_out};
ghost use Rattle.machine.specs.Step.{counted};
ghost use Rattle.state.specs.Refused.{or_refused};
ghost use Rattle.terms.specs.declared.Refusal.TheVariants.{TaskNumber};

use terms::{Answer, Job, Operation, Out, Refusal, State, Task, Turn};

// How many tasks settle.
pub fn count_settling(st: State) -> u32
    ensures { (result ≡ settling st.tasks 8) × (result ≤ 8) }
{
    st.tasks.iter().filter(|k| k.settles()).count() as u32
}

// How many tasks are busy.
pub fn count_busy(st: State) -> u32
    ensures { (result ≡ busy_tasks st.tasks 8) × (result ≤ 8) }
{
    st.tasks.iter().filter(|k| k.is_busy()).count() as u32
}

// Whether m is in range and c is at most m.
#[tactic(auto, unfolding(machine::specs::State::sound, machine::specs::State::count_open))]
pub fn is_sound(st: State) -> bool
    ensures { result ≡ sound st }
{
    let all = u64::from(st.u) + u64::from(count_settling(st));
    (st.m <= 1000000) & (all <= u64::from(st.m))
}

#[tactic(auto, unfolding(machine::specs::State::job_fits, machine::specs::Record::number_fits, machine::specs::Record::price_fits))]
pub fn job_fits(j: Job) -> bool
    ensures { result ≡ job_fits j }
{
    (j.number < 1000000) & (j.price < 100000)
}

fn may_price(o: Operation) -> bool
    ensures { result ≡ may_price o }
{
    matches!(o, Operation::PutIn)
}

#[tactic(auto, unfolding(machine::specs::State::ask_fits))]
pub fn ask_fits(o: Operation, j: Job) -> bool
    ensures { result ≡ ask_fits o j }
{
    job_fits(j) & (may_price(o) | (j.price == 0))
}

// A task is stored.
pub fn with_task(st: State, i: usize, k: Task) -> State
    requires { i < 8 }
    ensures { result ≡ with_task st i k }
{
    let mut next = st;
    next.tasks[i] = k;
    next
}

// A task is stored, and m and u are so much more. Their bounds are asked in three contracts: a type of them would be made and taken
// apart between is_sound and each use.
pub fn with_counts(st: State, i: usize, k: Task, m: u32, u: u32) -> State
    requires { (i < 8) × (st.m ≤ 1000000) × (st.u ≤ 1000000) × (m ≤ 1) × (u ≤ 1) }
    ensures { result ≡ counted st i k m u }
{
    let mut next = st;
    next.tasks[i] = k;
    next.m = st.m + m;
    next.u = st.u + u;
    next
}

// The turn of task i is carried out on the state, and answered.
#[tactic(auto, unfolding(machine::specs::Contract::turned_out))]
pub fn turn_out(st: State, i: usize, a: Turn, committed: bool) -> Out
    requires { (i < 8) × (st.m ≤ 1000000) × (st.u ≤ 1000000) }
    ensures { result ≡ turned_out st i a committed }
{
    match a {
        Turn::Hurt => Out {
            state: st,
            answer: Answer::Damaged,
        },
        Turn::Next(k) => Out {
            state: with_counts(st, i, k, u32::from(committed), 0),
            answer: Answer::Accepted,
        },
        Turn::Done(b) => {
            let more = u32::from(matches!(b, Answer::PutUnsettled));
            Out {
                state: with_counts(st, i, Task::idle(), u32::from(committed), more),
                answer: b,
            }
        }
    }
}

// A task's number as its place, or 10. The place is a plain index: that it is below 8 is what indexing eight tasks asks.
pub fn task_place(i: u32) -> Result<usize, Refusal>
    ensures placed { IfOk result (λ at. (at ≡ i) × (i < 8)) }
    ensures refused { IfErr result (λ e. (7 < i) × (e ≡ TaskNumber)) }
{
    if 7 < i {
        return Err(Refusal::TaskNumber);
    }
    Ok(i as usize)
}

// What a call hands back, or its refusal with the state as it was.
pub fn or_refused(st: State, r: Result<Out, Refusal>) -> Out
    ensures { result ≡ or_refused st r }
{
    r.unwrap_or_else(|e| Out {
        state: st,
        answer: e.into(),
    })
}

// After a reset.
pub fn fresh_state() -> State
    ensures { result ≡ fresh_state }
{
    State {
        tasks: [Task::idle(); 8],
        m: 0,
        u: 0,
    }
}
