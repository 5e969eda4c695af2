// Settling: each step chooses by the links noted so far.
#![tactic(auto, unfolding(machine::specs::Contract::acted, machine::specs::Contract::played, machine::specs::Table::puts, machine::specs::Choice::if_b, machine::specs::Settling::choose_formed, machine::specs::Settling::turn_formed, machine::specs::Settling::read_grand, machine::specs::Settling::read_parent, machine::specs::Settling::read_on, machine::specs::Settling::settle_step, machine::specs::Settling::choose_step, machine::specs::Settling::choose_by, machine::specs::Settling::rotate_step, machine::specs::Settling::rotate_first, machine::specs::Settling::rotate_turn, machine::specs::Settling::rotate_on, machine::specs::Settling::double_step, machine::specs::Settling::double_first, machine::specs::Settling::double_turn))]

ghost use Rattle.std.specs.Prelude.{◌≡◌, ◌<◌};
ghost use Rattle.terms.specs.declared.ParentRow.TheVariants.{Wider};
ghost use Rattle.terms.specs.declared.SettleStage.TheVariants.{SettleChoose, SettleRotate, SettleDouble};
ghost use Rattle.fields.specs.Writes.{seen, read, Does};
ghost use Rattle.machine.specs.Settling.{choose_formed, turn_formed, rotate_first, double_first, settle_step};
ghost use Rattle.walk.specs.Stopped.{or_calm};
ghost use Rattle.choosing.specs.Chosen.{Choosing, Turned};

use fields::{Slots, SlotsMut, in_tree, is_linked, well_formed};
use rows::{Level, level_row, parent_row};
use settling::{
    Chosen, Turning, commit_four, commit_three, commit_two, commit_with_y, double_by, promote_by,
    rotate_by,
};
use terms::{
    Around, Job, LevelRow, Links, Outcome, ParentRow, Path, Phase, Rec, SettleStage, Turn,
};
use walk::{busy_in, calm_turn, or_calm, read_leading, read_record};

fn choose_formed(n: u32, k: Level, z: Rec, x: Rec, s: Rec) -> bool
    ensures { result ≡ choose_formed n k.path k.z z x s }
{
    let others = is_linked(n, k.path.here, x) & is_linked(n, k.sibling(), s);
    well_formed(n, k.path.parent, z) & others
}

fn turn_formed(n: u32, o: Around, y: Rec, w: Rec) -> bool
    ensures { result ≡ turn_formed n o y w }
{
    is_linked(n, o.y, y) & is_linked(n, o.w, w)
}

// The row of z and s, with the records of z and x; 17 where one of the three is not there. The hint makes it cheaper.
#[inline(always)]
fn choose_row(t: &Slots, k: Level) -> Result<Chosen, Turn>
    ensures { Choosing (seen t.now) t.now.n k.path k.z result }
{
    let z = t.at(k.path.parent);
    let x = t.at(k.path.here);
    let s = t.at(k.sibling());
    if choose_formed(t.n, k, z, x, s) {
        Ok(Chosen {
            row: parent_row(z.rank, s.rank),
            z,
            x,
        })
    } else {
        Err(Turn::Hurt)
    }
}

// The row of x, y and w, with the record of y; 17 where y or w is not there.
fn turn_row(t: &Slots, o: Around, x: Rec) -> Result<Turning, Turn>
    ensures { Turned (seen t.now) t.now.n o x result }
{
    let y = t.at(o.y);
    let w = t.at(o.w);
    if turn_formed(t.n, o, y, w) {
        Ok(Turning {
            row: level_row(x.rank, y.rank, w.rank),
            y,
        })
    } else {
        Err(Turn::Hurt)
    }
}

// pz and z noted: promote, or read x. The hints here and below keep the stack of a step small: it needs one of the three alone.
#[inline(never)]
fn choose_step(t: &mut SlotsMut, k: Level) -> Result<Outcome, Turn>
    ensures { Does t.old t.new (or_calm result) (settle_step (read t.old) t.old.n k.job k.path (SettleChoose k.pz k.z)) }
{
    let e = choose_row(&t.read(), k)?;
    if matches!(e.row, ParentRow::Wider) {
        let task = k.at(SettleStage::SettleChoose(k.pz, k.z));
        return Ok(calm_turn(read_record(task, true, in_tree(e.x), e.x)));
    }
    commit_two(&t.read(), k, e)?;
    promote_by(t, k, e)
}

// x noted too, and a rotation to come: rotate, or read y.
fn rotate_turn(t: &mut SlotsMut, k: Level, c: Links, e: Chosen) -> Result<Outcome, Turn>
    requires { (k.path.parent < t.old.n) × (k.path.here < t.old.n) }
    ensures { Does t.old t.new (or_calm result) (rotate_first Wider (read t.old) t.old.n k.job k.path k.pz k.z c e.z e.x) }
{
    let g = turn_row(&t.read(), k.around(c), e.x)?;
    if matches!(g.row, LevelRow::DoubleRotation) {
        let task = k.at(SettleStage::SettleRotate(k.pz, k.z, c));
        return Ok(calm_turn(read_record(task, true, in_tree(g.y), g.y)));
    }
    commit_three(&t.read(), k, c, e)?;
    rotate_by(t, g.row, k.rotation(c, e.z, e.x))
}

// x noted too: promote, or a rotation.
#[inline(never)]
fn rotate_step(t: &mut SlotsMut, k: Level, c: Links) -> Result<Outcome, Turn>
    ensures { Does t.old t.new (or_calm result) (settle_step (read t.old) t.old.n k.job k.path (SettleRotate k.pz k.z c)) }
{
    let e = choose_row(&t.read(), k)?;
    if matches!(e.row, ParentRow::Wider) {
        return rotate_turn(t, k, c, e);
    }
    commit_three(&t.read(), k, c, e)?;
    promote_by(t, k, e)
}

// y noted too, and a rotation to come: the commit, by the ranks found now.
fn double_turn(t: &mut SlotsMut, k: Level, c: Links, d: Links, e: Chosen) -> Result<Outcome, Turn>
    requires { (k.path.parent < t.old.n) × (k.path.here < t.old.n) }
    ensures { Does t.old t.new (or_calm result) (double_first Wider (read t.old) t.old.n k.job k.path k.pz k.z c d e.z e.x) }
{
    let g = turn_row(&t.read(), k.around(c), e.x)?;
    commit_with_y(&t.read(), k, c, d, e, g.y)?;
    double_by(t, k.rotation(c, e.z, e.x), g, d)
}

// y noted too: promote, or a rotation.
#[inline(never)]
fn double_step(t: &mut SlotsMut, k: Level, c: Links, d: Links) -> Result<Outcome, Turn>
    ensures { Does t.old t.new (or_calm result) (settle_step (read t.old) t.old.n k.job k.path (SettleDouble k.pz k.z c d)) }
{
    let e = choose_row(&t.read(), k)?;
    if matches!(e.row, ParentRow::Wider) {
        return double_turn(t, k, c, d, e);
    }
    commit_four(&t.read(), k, c, d, e)?;
    promote_by(t, k, e)
}

// A step of a settling task that stands on a level record. The stage is data of the task.
pub fn settle_step(t: &mut SlotsMut, j: Job, q: Path, f: SettleStage) -> Outcome
    ensures { Does t.old t.new result (settle_step (read t.old) t.old.n j q f) }
{
    let k = busy_in(j, Phase::Settling(q, f));
    let level = |pz, z| Level {
        job: j,
        path: q,
        pz,
        z,
    };
    match f {
        SettleStage::SettleGrand => read_leading(&t.read(), k, q.grand, q.parent),
        SettleStage::SettleParent(_) => read_leading(&t.read(), k, q.parent, q.here),
        SettleStage::SettleChoose(a, b) => or_calm(choose_step(t, level(a, b))),
        SettleStage::SettleRotate(a, b, c) => or_calm(rotate_step(t, level(a, b), c)),
        SettleStage::SettleDouble(a, b, c, d) => or_calm(double_step(t, level(a, b), c, d)),
    }
}
