// Settling: the commits by how many records were read, and the changes by their rows.
#![tactic(auto, unfolding(machine::specs::Contract::acted, machine::specs::Contract::played, machine::specs::Table::puts, machine::specs::Choice::if_b, machine::specs::Settling::grounds_two, machine::specs::Settling::grounds_three, machine::specs::Settling::grounds_four, machine::specs::Settling::test_two, machine::specs::Settling::test_three, machine::specs::Settling::test_four, machine::specs::Settling::commit_two, machine::specs::Settling::commit_three, machine::specs::Settling::commit_four, machine::specs::Settling::promote_do, machine::specs::Table::slot1, machine::specs::Settling::rotate_do, machine::specs::Table::slot2, machine::specs::Settling::rotate_two_do, machine::specs::Settling::double_do, machine::specs::Table::slot3, machine::specs::Settling::promote_by, machine::specs::Settling::rotate_by, machine::specs::Settling::double_by))]

ghost use Rattle.std.specs.Prelude.{◌≡◌, ◌<◌, eqb, IfOk};
ghost use Rattle.terms.specs.declared.LevelRow.TheVariants.{DoubleRotation};
ghost use Rattle.machine.specs.Commit.{Did};
ghost use Rattle.fields.specs.Writes.{seen, read, Does};
ghost use Rattle.machine.specs.Rows.{around_of};
ghost use Rattle.machine.specs.Settling.{grounds_two, grounds_three, grounds_four, test_two, test_three, test_four, commit_two, commit_three};
ghost use Rattle.machine.specs.Settling.{commit_four, promote_do, rotate_do, rotate_two_do, double_do, rotate_by, double_by, promote_by};
ghost use Rattle.settling.specs.Again.{settled_on};
ghost use Rattle.walk.specs.Inside.{Inside};
ghost use Rattle.walk.specs.Stopped.{or_stopped, or_calm};

use fields::{Slots, SlotsMut, is_level, is_linked, is_still, lead_to, well_formed};
use room::free_slots;
use rows::{Level, Rotation, double_writes, promote_writes, rotate_writes};
use terms::{
    Answer, Goal, Job, LevelRow, Links, Outcome, ParentRow, Phase, Rec, SettleStage, Turn,
};
use walk::{busy_in, calm_turn, may_change};

// What a step that chooses goes by: the row of z and s, and the records of z and x.
#[derive(Clone, Copy)]
pub struct Chosen {
    pub row: ParentRow,
    pub z: Rec,
    pub x: Rec,
}

// With a rotation to come: the row of x, y and w, and the record of y.
#[derive(Clone, Copy)]
pub struct Turning {
    pub row: LevelRow,
    pub y: Rec,
}

// The grounds of 17 before the test, by how many records were read: as in the definitions, each adds to the one before.
fn grounds_two(n: u32, k: Level, pz: Rec, e: Chosen) -> bool
    ensures { result ≡ grounds_two n k.path k.pz k.z pz e.z e.x }
{
    let q = k.path;
    let led = lead_to(k.pz, q.parent) & (lead_to(k.z, q.here) & is_level(e.z, e.x));
    well_formed(n, q.grand, pz) & ((q.grand != q.parent) & led)
}

fn grounds_three(n: u32, k: Level, pz: Rec, e: Chosen) -> bool
    ensures { result ≡ grounds_three n k.path k.pz k.z pz e.z e.x }
{
    let q = k.path;
    grounds_two(n, k, pz, e) & ((q.grand != q.here) & (q.parent != q.here))
}

fn grounds_four(n: u32, k: Level, i: u32, pz: Rec, e: Chosen, y: Rec) -> bool
    ensures { result ≡ grounds_four n k.path k.pz k.z i pz e.z e.x y }
{
    let q = k.path;
    let apart = (q.grand != i) & ((q.parent != i) & (q.here != i));
    grounds_three(n, k, pz, e) & (is_linked(n, i, y) & apart)
}

// The test, likewise.
fn test_two(k: Level, pz: Rec, e: Chosen) -> bool
    ensures { result ≡ test_two k.pz k.z pz e.z }
{
    is_still(pz, k.pz) & is_still(e.z, k.z)
}

fn test_three(k: Level, c: Links, pz: Rec, e: Chosen) -> bool
    ensures { result ≡ test_three k.pz k.z c pz e.z e.x }
{
    test_two(k, pz, e) & is_still(e.x, c)
}

fn test_four(k: Level, c: Links, d: Links, pz: Rec, e: Chosen, y: Rec) -> bool
    ensures { result ≡ test_four k.pz k.z c d pz e.z e.x y }
{
    test_three(k, c, pz, e) & is_still(y, d)
}

// What stops a commit with two, three and four records read: pz, z, x and y.
pub fn commit_two(t: &Slots, k: Level, e: Chosen) -> Result<(), Turn>
    ensures commits { (d : Did) → commit_two (seen t.now) t.now.n k.job k.path k.pz k.z e.z e.x d ≡ or_stopped d result }
    ensures pz_stands { IfOk result (λ u. k.path.grand < t.now.n) }
{
    let pz = t.at(k.path.grand);
    let task = k.at(SettleStage::SettleChoose(k.pz, k.z));
    may_change(task, grounds_two(t.n, k, pz, e), test_two(k, pz, e))
}

pub fn commit_three(t: &Slots, k: Level, c: Links, e: Chosen) -> Result<(), Turn>
    ensures commits { (d : Did) → commit_three (seen t.now) t.now.n k.job k.path k.pz k.z c e.z e.x d ≡ or_stopped d result }
    ensures pz_stands { IfOk result (λ u. k.path.grand < t.now.n) }
{
    let pz = t.at(k.path.grand);
    let task = k.at(SettleStage::SettleRotate(k.pz, k.z, c));
    may_change(task, grounds_three(t.n, k, pz, e), test_three(k, c, pz, e))
}

pub fn commit_four(t: &Slots, k: Level, c: Links, d: Links, e: Chosen) -> Result<(), Turn>
    ensures commits { (f : Did) →
        commit_four (seen t.now) t.now.n k.job k.path k.pz k.z c d (around_of k.path k.pz k.z c).y e.z e.x f ≡ or_stopped f result }
    ensures pz_stands { IfOk result (λ u. k.path.grand < t.now.n) }
{
    commit_with_y(t, k, c, d, e, t.at(k.around(c).y))
}

// The same where the step has y's record already: no record is read twice.
pub fn commit_with_y(t: &Slots, k: Level, c: Links, d: Links, e: Chosen, y: Rec) -> Result<(), Turn>
    requires { y ≡ seen t.now (around_of k.path k.pz k.z c).y }
    ensures commits { (f : Did) →
        commit_four (seen t.now) t.now.n k.job k.path k.pz k.z c d (around_of k.path k.pz k.z c).y e.z e.x f ≡ or_stopped f result }
    ensures pz_stands { IfOk result (λ u. k.path.grand < t.now.n) }
{
    let i = k.around(c).y;
    let pz = t.at(k.path.grand);
    let task = k.at(SettleStage::SettleDouble(k.pz, k.z, c, d));
    may_change(
        task,
        grounds_four(t.n, k, i, pz, e, y),
        test_four(k, c, d, pz, e, y),
    )
}

// A commit was made: the task walks again from the entry.
fn settled_on(j: Job) -> Outcome
    ensures { result ≡ settled_on j }
{
    calm_turn(Turn::Next(busy_in(j, Phase::Start(Goal::Settle))))
}

// Promote.
fn promote_do(t: &mut SlotsMut, k: Level, z: Rec) -> Result<Outcome, Turn>
    requires { (k.path.parent < t.old.n) × (k.path.grand < t.old.n) }
    ensures { Does t.old t.new (or_calm result)
        (promote_do (read t.old) t.old.n k.job k.path (eqb k.pz.left k.path.parent) k.z z) }
{
    if 28 <= z.rank {
        return Err(Turn::Hurt);
    }
    let [i] = free_slots::<1>(&t.read()).ok_or(Turn::Done(Answer::PutUnsettled))?;
    promote_writes(t, k, z, i);
    Ok(settled_on(k.job))
}

// Rotate, with the new ranks of x and z.
fn rotate_do(t: &mut SlotsMut, r: Rotation, rx: u32, rz: u32) -> Result<Outcome, Turn>
    requires { Inside t.old.n r.path }
    ensures { Does t.old t.new (or_calm result) (rotate_do (read t.old) t.old.n r.job r.path r.around r.z r.x rx rz) }
{
    let slots = free_slots(&t.read()).ok_or(Turn::Done(Answer::PutUnsettled))?;
    rotate_writes(t, r, rx, rz, slots);
    Ok(settled_on(r.job))
}

fn rotate_two_do(t: &mut SlotsMut, r: Rotation) -> Result<Outcome, Turn>
    requires { Inside t.old.n r.path }
    ensures { Does t.old t.new (or_calm result) (rotate_two_do (read t.old) t.old.n r.job r.path r.around r.z r.x) }
{
    if 28 <= r.x.rank {
        Err(Turn::Hurt)
    } else {
        rotate_do(t, r, r.x.rank + 1, r.z.rank)
    }
}

// Double rotation; d are y's links.
fn double_do(t: &mut SlotsMut, r: Rotation, y: Rec, d: Links) -> Result<Outcome, Turn>
    requires { (y.rank < 4294967295) × Inside t.old.n r.path × (r.around.y < t.old.n) }
    ensures { Does t.old t.new (or_calm result) (double_do (read t.old) t.old.n r.job r.path r.around d r.z r.x y) }
{
    let slots = free_slots(&t.read()).ok_or(Turn::Done(Answer::PutUnsettled))?;
    double_writes(t, r, y, d, slots);
    Ok(settled_on(r.job))
}

// The change by its row. The hints here and below keep the stack of the step that changes nothing small.
#[inline(never)]
pub fn promote_by(t: &mut SlotsMut, k: Level, e: Chosen) -> Result<Outcome, Turn>
    requires { (k.path.parent < t.old.n) × (k.path.grand < t.old.n) }
    ensures { Does t.old t.new (or_calm result) (promote_by e.row (read t.old) t.old.n k.job k.path k.pz k.z e.z) }
{
    match e.row {
        ParentRow::Promote => promote_do(t, k, e.z),
        ParentRow::Outranked | ParentRow::Wider => Err(Turn::Hurt),
    }
}

#[inline(never)]
pub fn rotate_by(t: &mut SlotsMut, row: LevelRow, r: Rotation) -> Result<Outcome, Turn>
    requires { Inside t.old.n r.path }
    ensures { Does t.old t.new (or_calm result) (rotate_by row (read t.old) t.old.n r.job r.path r.around r.z r.x) }
{
    match row {
        LevelRow::RotateOne => rotate_do(t, r, r.x.rank, r.z.rank.saturating_sub(1)),
        LevelRow::RotateTwo => rotate_two_do(t, r),
        LevelRow::NoRow | LevelRow::DoubleRotation => Err(Turn::Hurt),
    }
}

#[inline(never)]
pub fn double_by(t: &mut SlotsMut, r: Rotation, g: Turning, d: Links) -> Result<Outcome, Turn>
    requires { (g.row ≡ DoubleRotation → g.y.rank < 4294967295) × Inside t.old.n r.path × (r.around.y < t.old.n) }
    ensures { Does t.old t.new (or_calm result) (double_by g.row (read t.old) t.old.n r.job r.path r.around d r.z r.x g.y) }
{
    match g.row {
        LevelRow::DoubleRotation => double_do(t, r, g.y, d),
        _ => rotate_by(t, g.row, r),
    }
}
