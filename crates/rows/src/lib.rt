// The settling table: which row fits, and the writes of each row. Both mirror forms are one text.
#![tactic(auto, unfolding(machine::specs::Table::puts, machine::specs::Choice::if_b, machine::specs::Rows::around_of, machine::specs::Rows::parent_row, machine::specs::Rows::level_row, machine::specs::Rows::sided, machine::specs::Rows::link_at, machine::specs::Rows::rotate_writes, machine::specs::Rows::double_writes))]

ghost use Rattle.std.specs.Prelude.{◌≡◌, ◌-◌, ◌<◌, eqb, slice_index};
ghost use Rattle.terms.specs.Task.{busy};
ghost use Rattle.terms.specs.declared.Phase.TheVariants.{Settling};
ghost use Rattle.fields.specs.Writes.{Writes};
ghost use Rattle.machine.specs.Record.{other};
ghost use Rattle.machine.specs.Rows.{parent_row, level_row, sided, link_at, around_of, promote_writes, rotate_writes, double_writes};
ghost use Rattle.room.specs.Found.{AllBelow};
ghost use Rattle.walk.specs.Inside.{Inside};

use fields::{SlotsMut, other_link};
use putting::inner_of;
use terms::{Around, Job, LevelRow, Links, ParentRow, Path, Phase, Rec, SettleStage, Task};
use walk::busy_in;

// A settling task that stands on a level record x, with the links noted of pz and z.
#[derive(Clone, Copy)]
pub struct Level {
    pub job: Job,
    pub path: Path,
    pub pz: Links,
    pub z: Links,
}

// A rotation of x, a level record, and z: with where the records around them stand.
#[derive(Clone, Copy)]
pub struct Rotation {
    pub job: Job,
    pub path: Path,
    pub around: Around,
    pub z: Rec,
    pub x: Rec,
}

impl Level {
    // The task at a stage.
    pub fn at(self, s: SettleStage) -> Task
        ensures { result ≡ busy self.job (Settling self.path s) }
    {
        busy_in(self.job, Phase::Settling(self.path, s))
    }

    // The slot of s, z's other child.
    pub fn sibling(self) -> u32
        ensures { result ≡ other self.z self.path.here }
    {
        other_link(self.z, self.path.here)
    }

    // Where the records around x stand, by its links c too.
    pub fn around(self, c: Links) -> Around
        ensures { result ≡ around_of self.path self.pz self.z c }
    {
        let side = self.z.left == self.path.here;
        Around {
            high: self.pz.left == self.path.parent,
            side,
            s: self.sibling(),
            y: link_at(!side, c),
            w: link_at(side, c),
        }
    }

    // The rotation of x and z, by the links c of x too.
    pub fn rotation(self, c: Links, z: Rec, x: Rec) -> Rotation
        ensures { result ≡ record { job = self.job; path = self.path; around = around_of self.path self.pz self.z c; z = z; x = x } }
    {
        Rotation {
            job: self.job,
            path: self.path,
            around: self.around(c),
            z,
            x,
        }
    }
}

// The rows that z and s decide, by their ranks. A range inside `Some` gets no generated proof: it has a match of its own.
pub fn parent_row(z: u32, s: u32) -> ParentRow
    ensures { result ≡ parent_row z s }
{
    match z.checked_sub(s) {
        None => ParentRow::Outranked,
        Some(d) => match d {
            0..=1 => ParentRow::Promote,
            _ => ParentRow::Wider,
        },
    }
}

// The rows that x, y and w decide, by their ranks.
pub fn level_row(x: u32, y: u32, w: u32) -> LevelRow
    ensures { result ≡ level_row x y w }
{
    match (x.checked_sub(y), x.checked_sub(w)) {
        (Some(2..), Some(_)) => LevelRow::RotateOne,
        (Some(1), Some(1)) => LevelRow::RotateTwo,
        (Some(1), Some(2..)) => LevelRow::DoubleRotation,
        _ => LevelRow::NoRow,
    }
}

// An inner record that leads to `near` on x's side and to `far` on the other.
fn sided_record(side: bool, number: u32, rank: u32, near: u32, far: u32) -> Rec
    ensures { result ≡ sided side number rank near far }
{
    let (left, right) = if side { (near, far) } else { (far, near) };
    inner_of(number, rank, left, right)
}

// The link on a side: true is left.
fn link_at(side: bool, a: Links) -> u32
    ensures { result ≡ link_at side a }
{
    if side { a.left } else { a.right }
}

// Promote: z's copy with one rank more.
pub fn promote_writes(t: &mut SlotsMut, k: Level, z: Rec, i: u32)
    requires { (z.rank < 28) × (i < t.old.n) × (k.path.parent < t.old.n) × (k.path.grand < t.old.n) }
    ensures { Writes t.old t.new (promote_writes k.path (eqb k.pz.left k.path.parent) k.z z i) }
{
    t.fill(i, inner_of(z.number, z.rank + 1, k.z.left, k.z.right));
    t.take_off(k.path.parent);
    t.lead(k.path.grand, k.pz.left == k.path.parent, i);
}

// Rotate: x on top with rank rx, z below it with rank rz. That path and slots are in the table is asked (Inside, AllBelow): only the
// table says it, so it is no invariant of the Rotation.
pub fn rotate_writes(t: &mut SlotsMut, r: Rotation, rx: u32, rz: u32, slots: [u32; 2])
    requires { AllBelow t.old.n slots × Inside t.old.n r.path }
    ensures { Writes t.old t.new (rotate_writes r.path r.around r.z r.x rx rz (slice_index slots 0) (slice_index slots 1)) }
{
    let [i, k] = slots;
    let o = r.around;
    t.fill(i, sided_record(o.side, r.x.number, rx, o.w, k));
    t.fill(k, sided_record(o.side, r.z.number, rz, o.y, o.s));
    t.take_off(r.path.parent);
    t.take_off(r.path.here);
    t.lead(r.path.grand, o.high, i);
}

// A record of a double rotation that goes down one rank, with the links near and far.
fn lowered(o: Around, r: Rec, near: u32, far: u32) -> Rec
    ensures { result ≡ sided o.side r.number (r.rank - 1) near far }
{
    sided_record(o.side, r.number, r.rank.saturating_sub(1), near, far)
}

// Double rotation: y on top, x and z below it on their sides; d are y's links.
pub fn double_writes(t: &mut SlotsMut, r: Rotation, y: Rec, d: Links, slots: [u32; 3])
    requires { (y.rank < 4294967295) × AllBelow t.old.n slots × Inside t.old.n r.path × (r.around.y < t.old.n) }
    ensures { Writes t.old t.new
        (double_writes r.path r.around d r.z r.x y (slice_index slots 0) (slice_index slots 1) (slice_index slots 2)) }
{
    let [i, k, l] = slots;
    let o = r.around;
    let near = lowered(o, r.x, o.w, link_at(o.side, d));
    let far = lowered(o, r.z, link_at(!o.side, d), o.s);
    let (left, right) = if o.side { (near, far) } else { (far, near) };
    t.fill(i, inner_of(y.number, y.rank + 1, k, l));
    t.fill(k, left);
    t.fill(l, right);
    t.take_off(r.path.parent);
    t.take_off(r.path.here);
    t.take_off(o.y);
    t.lead(r.path.grand, o.high, i);
}
