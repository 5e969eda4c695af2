// The walk, and a reading: decisions on records by value, and the functions that load the records that they name.
#![tactic(auto, unfolding(machine::specs::Choice::if_b, crate::specs::Arrived::turn_at, machine::specs::Walk::at_leaf, machine::specs::Walk::serve_arrival, machine::specs::Walk::settle_arrival, machine::specs::Walk::arrival, machine::specs::Walk::walk_to, machine::specs::Walk::walk_from, crate::specs::Arrived::left_to, machine::specs::Walk::walk_on, machine::specs::Commit::reading, machine::specs::Commit::commit_if))]

ghost use Rattle.std.specs.Prelude.{◌≡◌, true, IfOk};
ghost use Rattle.terms.specs.Task.{busy};
ghost use Rattle.fields.specs.Writes.{seen};
ghost use Rattle.machine.specs.Walk.{at_leaf, serve_arrival, settle_arrival, arrival, walk_to, walk_from, walk_on};
ghost use Rattle.machine.specs.Commit.{reading, Did, commit_if};
ghost use Rattle.terms.specs.declared.Goal.TheVariants.{Serve, Settle};
ghost use Rattle.walk.specs.Arrived.{left_to, turn_at};
ghost use Rattle.walk.specs.Reads.{leading_read, child_read};
ghost use Rattle.walk.specs.Stopped.{or_stopped, or_calm};
ghost use Rattle.machine.proofs.Writes.{calmly};

use fields::{
    Slots, in_tree, is_leaf, is_level, is_linked, lead_to, links_of, outranks, sought_link,
    well_formed,
};
use terms::{
    Answer, Goal, Job, Operation, Outcome, Path, Phase, PutStage, Rec, SettleStage, TakeStage,
    Task, Turn, Work,
};

// The task in another phase.
pub fn busy_in(j: Job, f: Phase) -> Task
    ensures { result ≡ busy j f }
{
    Task {
        work: Work::Busy(j, f),
    }
}

// A turn that writes nothing.
pub fn calm_turn(a: Turn) -> Outcome
    ensures { result ≡ calmly a }
{
    Outcome {
        turn: a,
        committed: false,
    }
}

// What a walk comes to at the record arrived at: 17, on with the walk, on to the readings of an operation, or the end.
#[derive(Clone, Copy)]
pub enum Arrival {
    Lost,
    On,
    Puts,
    Takes,
    Settles,
    Ends(Answer),
}

// A link was followed: where it leads (0 where Lost, as in the definition `left_to`), and what the walk comes to there.
#[derive(Clone, Copy)]
pub struct Gone {
    pub to: u32,
    pub at: Arrival,
}

// A leaf is arrived at.
fn at_leaf(o: Operation, j: Job, q: Path, r: Rec) -> Arrival
    ensures { turn_at (Serve o) j q result ≡ at_leaf o j q r }
{
    match (o, r.number == j.number) {
        (Operation::LookUp, true) => Arrival::Ends(Answer::Found(r.price)),
        (Operation::PutIn, true) => Arrival::Ends(Answer::HeldAlready),
        (Operation::PutIn, false) => Arrival::Puts,
        (Operation::TakeOut, true) => Arrival::Takes,
        (Operation::LookUp | Operation::TakeOut, false) => Arrival::Ends(Answer::NotHeld),
    }
}

// A record h is arrived at, for an operation.
fn serve_arrival(o: Operation, j: Job, q: Path, h: Rec) -> Arrival
    ensures { turn_at (Serve o) j q result ≡ serve_arrival o j q h }
{
    if is_leaf(h) {
        at_leaf(o, j, q, h)
    } else {
        Arrival::On
    }
}

// A record h is arrived at below p, on a walk that settles.
fn settle_arrival(j: Job, q: Path, p: Rec, h: Rec) -> Arrival
    ensures { turn_at Settle j q result ≡ settle_arrival j q p h }
{
    if outranks(h, p) {
        Arrival::Lost
    } else if is_level(p, h) {
        Arrival::Settles
    } else if is_leaf(h) {
        Arrival::Ends(Answer::PutSettled)
    } else {
        Arrival::On
    }
}

// The arrival rule.
fn arrive(g: Goal, j: Job, q: Path, p: Rec, h: Rec) -> Arrival
    ensures { turn_at g j q result ≡ arrival g j q p h }
{
    match g {
        Goal::Serve(o) => serve_arrival(o, j, q, h),
        Goal::Settle => settle_arrival(j, q, p, h),
    }
}

// The record arrived at is read; p is the one that the walk left.
fn walk_to(t: &Slots, g: Goal, j: Job, q: Path, p: Rec) -> Arrival
    requires { p ≡ seen t.now q.parent }
    ensures { turn_at g j q result ≡ walk_to (seen t.now) t.now.n g j q }
{
    let h = t.at(q.here);
    if is_linked(t.n, q.here, h) {
        arrive(g, j, q, p, h)
    } else {
        Arrival::Lost
    }
}

// One step of a walk: it leaves slot s, whose parent is the slot grand.
pub fn walk_out(t: &Slots, g: Goal, j: Job, grand: u32, s: u32) -> Gone
    ensures { (turn_at g j (record { grand = grand; parent = s; here = result.to }) result.at ≡ walk_from (seen t.now) t.now.n g j grand s)
        × (result.to ≡ left_to (seen t.now) t.now.n j.number s) }
{
    let p = t.at(s);
    if !well_formed(t.n, s, p) {
        return Gone {
            to: 0,
            at: Arrival::Lost,
        };
    }
    let to = sought_link(j.number, p);
    let q = Path {
        grand,
        parent: s,
        here: to,
    };
    Gone {
        to,
        at: walk_to(t, g, j, q, p),
    }
}

// The turn of a task that walked to q.
fn turn_at(g: Goal, j: Job, q: Path, a: Arrival) -> Turn
    ensures { result ≡ turn_at g j q a }
{
    match a {
        Arrival::Lost => Turn::Hurt,
        Arrival::On => Turn::Next(busy_in(j, Phase::Walk(g, q))),
        Arrival::Puts => Turn::Next(busy_in(j, Phase::PuttingIn(q, PutStage::PutParent))),
        Arrival::Takes => Turn::Next(busy_in(j, Phase::TakingOut(q, TakeStage::TakeGrand))),
        Arrival::Settles => Turn::Next(busy_in(j, Phase::Settling(q, SettleStage::SettleGrand))),
        Arrival::Ends(b) => Turn::Done(b),
    }
}

// One step of a walk, as a turn of its task.
pub fn walk_from(t: &Slots, g: Goal, j: Job, grand: u32, s: u32) -> Turn
    ensures { result ≡ walk_from (seen t.now) t.now.n g j grand s }
{
    let r = walk_out(t, g, j, grand, s);
    let q = Path {
        grand,
        parent: s,
        here: r.to,
    };
    turn_at(g, j, q, r.at)
}

// A walk that goes on from where the task stands.
pub fn walk_on(t: &Slots, g: Goal, j: Job, q: Path) -> Turn
    ensures { result ≡ walk_on (seen t.now) t.now.n g j q }
{
    if q.here == 0 {
        Turn::Hurt
    } else {
        walk_from(t, g, j, q.parent, q.here)
    }
}

// A reading: 17, or its links are noted, or the walk starts again.
pub fn read_record(k: Task, formed: bool, good: bool, r: Rec) -> Turn
    ensures { result ≡ reading k formed good r }
{
    if !formed {
        Turn::Hurt
    } else if good {
        Turn::Next(k.noted(links_of(r)))
    } else {
        Turn::Next(k.restarted())
    }
}

// The reading of slot s, whose noted links must lead on to slot next. The hints here and below make a reading cheaper.
#[inline(always)]
pub fn read_leading(t: &Slots, k: Task, s: u32, next: u32) -> Outcome
    ensures { result ≡ calmly (leading_read (seen t.now) t.now.n k s next) }
{
    let r = t.at(s);
    let good = in_tree(r) & lead_to(links_of(r), next);
    calm_turn(read_record(k, well_formed(t.n, s, r), good, r))
}

// The reading of slot s, which a link leads to and which need not lead on.
#[inline(always)]
pub fn read_child(t: &Slots, k: Task, s: u32) -> Outcome
    ensures { result ≡ calmly (child_read (seen t.now) t.now.n k s) }
{
    let r = t.at(s);
    calm_turn(read_record(k, is_linked(t.n, s, r), in_tree(r), r))
}

// What stops a commit before its change: a ground of 17, or a record that changed since its reading.
pub fn may_change(k: Task, grounds: bool, test: bool) -> Result<(), Turn>
    ensures { ((d : Did) → commit_if k grounds test d ≡ or_stopped d result) × IfOk result (λ u. grounds ≡ true) }
{
    if !grounds {
        Err(Turn::Hurt)
    } else if test {
        Ok(())
    } else {
        Err(Turn::Next(k.restarted()))
    }
}

// What a step comes to; where it stopped before its change, its turn alone.
pub fn or_calm(r: Result<Outcome, Turn>) -> Outcome
    ensures { result ≡ or_calm r }
{
    r.unwrap_or_else(calm_turn)
}
