// A state as 122 numbers, and back (docs/PROBE.md): eight tasks of 15 numbers each, then m, then u.
#![tactic(auto)]

ghost use Rattle.std.specs.Prelude.{◌≡◌, ◌++◌, ◌+◌, ◌-◌, ◌*◌, ◌≤◌, ◌<◌, length, take, drop, set, true};
ghost use Rattle.std.specs.Prelude.{MatchOption};
ghost use Rattle.std.specs.Borrow.{sem, LendsIf, Array, u32};
ghost use Rattle.std.specs.List.{list_all};
ghost use Rattle.std.proofs.Math.Seq.{paste};
ghost use Rattle.terms.specs.Task.{is_busy, work_settles};
ghost use Rattle.machine.specs.State.{settling, sound, task_at};
ghost use Rattle.statecode.specs.Walking.{walker_of, put_first};
ghost use Rattle.statecode.specs.Own.{clear_from, own_goal, own_noted, own_by, own_row, storing};
ghost use Rattle.statecode.specs.Code.{is_state, goal_number, no_links, places, put_row, take_row, settle_row, phase_row, work_row, rows, encode};
ghost use Rattle.statecode.specs.Lent.{lent, SameState};
ghost use Rattle.statecode.specs.Code.{job_by, path_by, links_by, goal_by, put_by, take_by, settle_by, phase_by, task_by, state_by, decode};

mod lent;

pub use lent::StateMut;
use terms::{
    Goal, Job, Links, Operation, Path, Phase, PutStage, SettleStage, State, TakeStage, Task, Work,
};

// A task that walks: it has no notes, and a path once it is on its way.
#[derive(Clone, Copy)]
pub struct Walker {
    pub job: Job,
    pub goal: Goal,
    pub path: Option<Path>,
}

// Goal stands in the crate terms, and its numbers in this code alone, so they are no From there.
pub fn goal_number(g: Goal) -> u32
    ensures { result ≡ goal_number g }
{
    match g {
        Goal::Serve(Operation::LookUp) => 1,
        Goal::Serve(Operation::PutIn) => 2,
        Goal::Serve(Operation::TakeOut) => 3,
        Goal::Settle => 4,
    }
}

// The 15 places of a task; the eight parameters are those of the definition `places`.
fn places_of(f: u32, j: Job, k: u32, q: Path, a: Links, b: Links, c: Links, d: Links) -> [u32; 15]
    ensures { result ≡ places f j k q a b c d }
{
    [
        f, j.number, j.price, k, q.grand, q.parent, q.here, a.left, a.right, b.left, b.right,
        c.left, c.right, d.left, d.right,
    ]
}

// The stages are three enums of the crate terms, whose variants hold their links in fields of their own: a text each is plainer.
fn put_row(j: Job, q: Path, s: PutStage) -> [u32; 15]
    ensures { result ≡ put_row j q s }
{
    let o = Links::default();
    match s {
        PutStage::PutParent => places_of(3, j, 0, q, o, o, o, o),
        PutStage::PutLeaf(a) => places_of(3, j, 1, q, a, o, o, o),
        PutStage::PutCommit(a, b) => places_of(3, j, 2, q, a, b, o, o),
    }
}

fn take_row(j: Job, q: Path, s: TakeStage) -> [u32; 15]
    ensures { result ≡ take_row j q s }
{
    let o = Links::default();
    match s {
        TakeStage::TakeGrand => places_of(4, j, 0, q, o, o, o, o),
        TakeStage::TakeParent(a) => places_of(4, j, 1, q, a, o, o, o),
        TakeStage::TakeLeft(a, b) => places_of(4, j, 2, q, a, b, o, o),
        TakeStage::TakeRight(a, b, c) => places_of(4, j, 3, q, a, b, c, o),
        TakeStage::TakeCommit(a, b, c, d) => places_of(4, j, 4, q, a, b, c, d),
    }
}

fn settle_row(j: Job, q: Path, s: SettleStage) -> [u32; 15]
    ensures { result ≡ settle_row j q s }
{
    let o = Links::default();
    match s {
        SettleStage::SettleGrand => places_of(5, j, 0, q, o, o, o, o),
        SettleStage::SettleParent(a) => places_of(5, j, 1, q, a, o, o, o),
        SettleStage::SettleChoose(a, b) => places_of(5, j, 2, q, a, b, o, o),
        SettleStage::SettleRotate(a, b, c) => places_of(5, j, 3, q, a, b, c, o),
        SettleStage::SettleDouble(a, b, c, d) => places_of(5, j, 4, q, a, b, c, d),
    }
}

// A walker's numbers: its phase, its goal and its path.
fn walk_row(f: u32, j: Job, g: Goal, q: Path) -> [u32; 15]
    ensures { result ≡ places f j (goal_number g) q no_links no_links no_links no_links }
{
    let o = Links::default();
    places_of(f, j, goal_number(g), q, o, o, o, o)
}

fn phase_row(j: Job, f: Phase) -> [u32; 15]
    ensures { result ≡ phase_row j f }
{
    match f {
        Phase::Start(g) => walk_row(1, j, g, Path::default()),
        Phase::Walk(g, q) => walk_row(2, j, g, q),
        Phase::PuttingIn(q, s) => put_row(j, q, s),
        Phase::TakingOut(q, s) => take_row(j, q, s),
        Phase::Settling(q, s) => settle_row(j, q, s),
    }
}

// The 15 numbers of a task.
fn row_of(k: Task) -> [u32; 15]
    ensures { result ≡ work_row k.work }
{
    match k.work {
        Work::Idle => [0; 15],
        Work::Busy(j, f) => phase_row(j, f),
    }
}

// Task i's 15 numbers are written.
fn put_row_at(w: &mut [u32; 122], i: usize, r: [u32; 15])
    requires { i < 8 }
    ensures { w.new ≡ paste w.old (15 * i) r 15 }
{
    let at = 15 * i;
    w[at..at + 15].copy_from_slice(&r);
}

// m and u are written.
fn put_ends(w: &mut [u32; 122], m: u32, u: u32)
    ensures { w.new ≡ set (set w.old 120 m) 121 u }
{
    w[120] = m;
    w[121] = u;
}

// The numbers of a state.
pub fn write_state(w: &mut [u32; 122], st: State)
    ensures { w.new ≡ encode st }
{
    for (i, k) in st.tasks.iter().enumerate() {
        put_row_at(w, i, row_of(*k));
    }
    put_ends(w, st.m, st.u);
}

fn job_by(w: &[u32; 15]) -> Job
    ensures { result ≡ job_by w.now }
{
    Job {
        number: w[1],
        price: w[2],
    }
}

fn path_by(w: &[u32; 15]) -> Path
    ensures { result ≡ path_by w.now }
{
    Path {
        grand: w[4],
        parent: w[5],
        here: w[6],
    }
}

fn links_by(w: &[u32; 15], i: usize) -> Links
    requires { i < 14 }
    ensures { result ≡ links_by w.now i }
{
    Links {
        left: w[i],
        right: w[i + 1],
    }
}

#[tactic(auto, unfolding(crate::specs::Code::goal_by, machine::specs::Choice::if_b))]
pub fn goal_by(g: u32) -> Goal
    ensures { result ≡ goal_by g }
{
    Operation::try_from(g).map_or(Goal::Settle, Goal::Serve)
}

// As with the rows, each stage has a text of its own.
#[tactic(auto, unfolding(crate::specs::Code::put_by, machine::specs::Choice::if_b))]
fn put_by(w: &[u32; 15], k: u32) -> PutStage
    ensures { result ≡ put_by w.now k }
{
    let a = links_by(w, 7);
    let b = links_by(w, 9);
    match k {
        0 => PutStage::PutParent,
        1 => PutStage::PutLeaf(a),
        _ => PutStage::PutCommit(a, b),
    }
}

#[tactic(auto, unfolding(crate::specs::Code::take_by, machine::specs::Choice::if_b))]
fn take_by(w: &[u32; 15], k: u32) -> TakeStage
    ensures { result ≡ take_by w.now k }
{
    let a = links_by(w, 7);
    let b = links_by(w, 9);
    let c = links_by(w, 11);
    let d = links_by(w, 13);
    match k {
        0 => TakeStage::TakeGrand,
        1 => TakeStage::TakeParent(a),
        2 => TakeStage::TakeLeft(a, b),
        3 => TakeStage::TakeRight(a, b, c),
        _ => TakeStage::TakeCommit(a, b, c, d),
    }
}

#[tactic(auto, unfolding(crate::specs::Code::settle_by, machine::specs::Choice::if_b))]
fn settle_by(w: &[u32; 15], k: u32) -> SettleStage
    ensures { result ≡ settle_by w.now k }
{
    let a = links_by(w, 7);
    let b = links_by(w, 9);
    let c = links_by(w, 11);
    let d = links_by(w, 13);
    match k {
        0 => SettleStage::SettleGrand,
        1 => SettleStage::SettleParent(a),
        2 => SettleStage::SettleChoose(a, b),
        3 => SettleStage::SettleRotate(a, b, c),
        _ => SettleStage::SettleDouble(a, b, c, d),
    }
}

#[tactic(auto, unfolding(crate::specs::Code::phase_by, machine::specs::Choice::if_b))]
fn phase_by(w: &[u32; 15], f: u32) -> Phase
    ensures { result ≡ phase_by w.now f }
{
    let k = w[3];
    match f {
        1 => Phase::Start(goal_by(k)),
        2 => Phase::Walk(goal_by(k), path_by(w)),
        3 => Phase::PuttingIn(path_by(w), put_by(w, k)),
        4 => Phase::TakingOut(path_by(w), take_by(w, k)),
        _ => Phase::Settling(path_by(w), settle_by(w, k)),
    }
}

// What 15 numbers read as, whether they are a task's or not. An idle task is handed back at once: one match for both is three times as slow.
#[inline(never)]
#[tactic(auto, unfolding(crate::specs::Code::task_by, machine::specs::Choice::if_b))]
fn task_by(w: &[u32; 15]) -> Task
    ensures { result ≡ task_by w.now }
{
    let f = w[0];
    if f == 0 {
        return Task::idle();
    }
    Task {
        work: Work::Busy(job_by(w), phase_by(w, f)),
    }
}

// The 15 numbers of task i.
fn row_at(w: &[u32; 122], i: usize) -> &[u32; 15]
    requires { i < 8 }
    ensures { result.now ≡ take 15 (drop (15 * i) w.now) }
{
    &w.as_chunks::<15>().0[i]
}

// Whether all places from one on are 0. A fold asks all of them without a branch, which is faster than `all`.
#[tactic(auto, unfolding(crate::specs::Own::clear_from))]
fn clear_from<const FROM: usize>(w: &[u32; 15]) -> bool
    requires { FROM ≤ 15 }
    ensures { result ≡ clear_from FROM w.now }
{
    w[FROM..].iter().fold(true, |clear, x| clear & (*x == 0))
}

// Whether this is a goal's number.
#[tactic(auto, unfolding(crate::specs::Own::own_goal))]
fn own_goal(k: u32) -> bool
    ensures { result ≡ own_goal k }
{
    goal_number(goal_by(k)) == k
}

// With k records read, four at most: whether the places behind their links are 0.
#[tactic(auto, unfolding(crate::specs::Own::own_noted, machine::specs::Choice::if_b))]
fn own_noted(w: &[u32; 15], k: u32) -> bool
    ensures { result ≡ own_noted k w.now }
{
    match k {
        0 => clear_from::<7>(w),
        1 => clear_from::<9>(w),
        2 => clear_from::<11>(w),
        3 => clear_from::<13>(w),
        _ => k == 4,
    }
}

// Whether the numbers of a task fit its phase f and its goal or count k. A put-in reads two records, the others four.
#[tactic(auto, unfolding(crate::specs::Own::own_by, machine::specs::Choice::if_b))]
fn own_by(w: &[u32; 15], f: u32, k: u32) -> bool
    ensures { result ≡ own_by f k w.now }
{
    match f {
        0 => clear_from::<0>(w),
        1 => own_goal(k) & clear_from::<4>(w),
        2 => own_goal(k) & clear_from::<7>(w),
        3 => k <= 2 && own_noted(w, k),
        4 | 5 => own_noted(w, k),
        _ => false,
    }
}

// Whether 15 numbers are those of the task that they read as.
fn own_row(w: &[u32; 15]) -> bool
    ensures { result ≡ own_row w.now }
{
    own_by(w, w[0], w[3])
}

// Whether all rows are their tasks' own.
fn own_rows(rows: &[[u32; 15]]) -> bool
    ensures { result ≡ list_all own_row rows.now }
{
    rows.iter().all(|r| own_row(r))
}

// Whether the numbers are a state.
pub fn is_state(w: &[u32]) -> bool
    ensures { result ≡ is_state w.now }
{
    if w.len() != 122 {
        return false;
    }
    own_rows(w.as_chunks::<15>().0)
}

// The state of a row of numbers, if it is one.
pub fn read_state(w: &[u32]) -> Option<State>
    ensures { result ≡ decode w.now }
{
    let numbers = w.as_array()?;
    if !is_state(w) {
        return None;
    }
    Some(state_by(numbers))
}

// The numbers of a slice, if they are a state, lent to be written.
pub fn state_in(w: &mut [u32]) -> Option<&mut [u32; 122]>
    ensures cases { MatchOption result (decode w.old ≡ None) (λ y. (is_state y.now ≡ true) × (y.now ≡ w.old)) }
    ensures* writes_back { sem 𝓛 (LendsIf (Array u32 0) (Array u32 0) w.entry result (λ ws. ws) w.old) }
{
    if !is_state(w) {
        return None;
    }
    w.as_mut_array()
}

// Task i of a state.
#[tactic(auto, using(crate::proofs::Own::task_part))]
pub fn task_at(w: &[u32; 122], i: usize) -> Task
    requires { i < 8 }
    ensures { result ≡ task_at (state_by w.now) i }
{
    task_by(row_at(w, i))
}

// Whether task i of a state is busy. Its phase alone says so, and the rest of it is not read.
#[tactic(auto, using(crate::proofs::Own::task_part), unfolding(crate::specs::Code::task_by, machine::specs::Choice::if_b))]
pub fn is_busy_at(w: &[u32; 122], i: usize) -> bool
    requires { i < 8 }
    ensures { result ≡ is_busy (task_at (state_by w.now) i).work }
{
    row_at(w, i)[0] != 0
}

// What 122 numbers read as. Eight tasks are written out: a loop first fills the array with idle ones and copies it, and is slower.
fn state_by(w: &[u32; 122]) -> State
    ensures { result ≡ state_by w.now }
{
    State {
        tasks: [
            task_at(w, 0),
            task_at(w, 1),
            task_at(w, 2),
            task_at(w, 3),
            task_at(w, 4),
            task_at(w, 5),
            task_at(w, 6),
            task_at(w, 7),
        ],
        m: w[120],
        u: w[121],
    }
}

// Whether the task of 15 numbers settles.
#[tactic(auto, unfolding(crate::specs::Code::task_by, crate::specs::Code::phase_by, machine::specs::Choice::if_b))]
fn settles_by(w: &[u32; 15]) -> bool
    ensures { result ≡ work_settles (task_by w.now).work }
{
    match w[0] {
        1 | 2 => goal_by(w[3]).settles(),
        0 | 3 | 4 => false,
        _ => true,
    }
}

// How many tasks of a state settle.
fn count_settling_by(w: &[u32; 122]) -> u32
    ensures { (result ≡ settling (state_by w.now).tasks 8) × (result ≤ 8) }
{
    let (rows, _) = w.as_chunks::<15>();
    rows.iter().filter(|r| settles_by(r)).count() as u32
}

// Whether m is in range and c is at most m. At most eight tasks settle: they are counted only where it matters.
pub fn is_sound_by(w: &[u32; 122]) -> bool
    ensures { result ≡ sound (state_by w.now) }
{
    let m = w[120];
    let c = u64::from(w[121]);
    if c + 8 <= u64::from(m) {
        return m <= 1000000;
    }
    let all = c + u64::from(count_settling_by(w));
    (m <= 1000000) & (all <= u64::from(m))
}

// Task i's 15 numbers, m and u are written.
fn put_task(w: &mut [u32; 122], i: usize, r: [u32; 15], m: u32, u: u32)
    requires { i < 8 }
    ensures { w.new ≡ set (set (paste w.old (15 * i) r 15) 120 m) 121 u }
{
    put_row_at(w, i, r);
    put_ends(w, m, u);
}

// A task is stored in a state, with m and u.
pub fn store_task(w: &mut StateMut, i: usize, k: Task, m: u32, u: u32)
    requires { i < 8 }
    ensures { (lent w.new ≡ storing (lent w.old) i k m u) × SameState w.old w.new }
{
    put_task(w.numbers, i, row_of(k), m, u);
}

// The task of 15 numbers, if it walks.
#[tactic(auto, unfolding(crate::specs::Code::task_by, crate::specs::Code::phase_by, machine::specs::Choice::if_b))]
fn walker_by(w: &[u32; 15]) -> Option<Walker>
    ensures { result ≡ walker_of (task_by w.now).work }
{
    let path = match w[0] {
        1 => None,
        2 => Some(path_by(w)),
        _ => return None,
    };
    Some(Walker {
        job: job_by(w),
        goal: goal_by(w[3]),
        path,
    })
}

// Task i of a state, if it walks.
#[tactic(auto, using(crate::proofs::Own::task_part))]
pub fn walker_at(w: &[u32; 122], i: usize) -> Option<Walker>
    requires { i < 8 }
    ensures { result ≡ walker_of (task_at (state_by w.now) i).work }
{
    walker_by(row_at(w, i))
}

// The first seven numbers of task i are written; f is the number of its phase (docs/PROBE.md), since the state stays in its numbers.
#[tactic(auto, unfolding(crate::specs::Walking::put_first))]
pub fn put_first(w: &mut [u32; 122], i: usize, f: u32, j: Job, k: u32, q: Path)
    requires { i < 8 }
    ensures { w.new ≡ put_first w.old (15 * i) f j k q }
{
    let b = 15 * i;
    w[b..b + 7].copy_from_slice(&[f, j.number, j.price, k, q.grand, q.parent, q.here]);
}
