// Take-out: its four readings and its commit.
#![tactic(auto, unfolding(machine::specs::Contract::acted, machine::specs::Contract::played, machine::specs::Table::puts, machine::specs::Choice::if_b, machine::specs::TakeOut::take_apart, machine::specs::TakeOut::take_leaf, machine::specs::TakeOut::take_grounds, machine::specs::TakeOut::take_test, machine::specs::TakeOut::take_commit, machine::specs::TakeOut::take_room, machine::specs::Table::slot1, machine::specs::TakeOut::take_step, machine::specs::TakeOut::read_take_grand, machine::specs::TakeOut::read_take_parent, machine::specs::TakeOut::read_take_left, machine::specs::TakeOut::read_take_right))]

ghost use Rattle.std.specs.Prelude.{◌≡◌, ◌<◌};
ghost use Rattle.fields.specs.Writes.{read, Writes, Does};
ghost use Rattle.machine.specs.TakeOut.{take_apart, take_leaf, take_grounds, take_test, take_writes, take_commit, take_step};
ghost use Rattle.walk.specs.Inside.{Inside};
ghost use Rattle.walk.specs.Stopped.{or_calm};

use fields::{SlotsMut, is_leaf, is_linked, is_still, lead_to, other_link, well_formed};
use room::free_slots;
use terms::{Answer, Job, Links, Outcome, Path, Phase, Rec, TakeStage, Turn};
use walk::{busy_in, calm_turn, may_change, or_calm, read_child, read_leading};

// What a take-out reads, of each the links noted or the record: grandparent, parent, its left child, its right child.
#[derive(Clone, Copy)]
struct Family<T> {
    grand: T,
    parent: T,
    left: T,
    right: T,
}

// No two of the records read are one and the same.
fn take_apart(q: Path, b: Links) -> bool
    ensures { result ≡ take_apart q b }
{
    let below = (q.parent != b.left) & ((q.parent != b.right) & (b.left != b.right));
    (q.grand != q.parent) & ((q.grand != b.left) & ((q.grand != b.right) & below))
}

// Whether a record is a leaf of the task's number.
fn take_leaf(j: Job, h: Rec) -> bool
    ensures { result ≡ take_leaf j h }
{
    is_leaf(h) & (h.number == j.number)
}

// The grounds of 17 that the commit looks at before its test.
fn take_grounds(n: u32, j: Job, q: Path, noted: Family<Links>, now: Family<Rec>) -> bool
    ensures { result ≡ take_grounds n j q noted.grand noted.parent now.grand now.parent now.left now.right }
{
    let b = noted.parent;
    let h = if b.left == q.here {
        now.left
    } else {
        now.right
    };
    let stands = lead_to(noted.grand, q.parent) & (lead_to(b, q.here) & take_leaf(j, h));
    let children = is_linked(n, b.left, now.left)
        & (is_linked(n, b.right, now.right) & (take_apart(q, b) & stands));
    well_formed(n, q.grand, now.grand) & (well_formed(n, q.parent, now.parent) & children)
}

fn take_test(noted: Family<Links>, now: Family<Rec>) -> bool
    ensures { result ≡ take_test noted.grand noted.parent noted.left noted.right now.grand now.parent now.left now.right }
{
    let children = is_still(now.left, noted.left) & is_still(now.right, noted.right);
    is_still(now.grand, noted.grand) & (is_still(now.parent, noted.parent) & children)
}

// The five writes of a take-out: s is the sibling's record, x the slot of its copy.
fn take_writes(t: &mut SlotsMut, q: Path, left: bool, s: Rec, sibling: u32, x: u32)
    requires { (x < t.old.n) × (sibling < t.old.n) × Inside t.old.n q }
    ensures { Writes t.old t.new (take_writes q left s sibling x) }
{
    t.fill(x, s);
    t.take_off(q.parent);
    t.take_off(q.here);
    t.take_off(sibling);
    t.lead(q.grand, left, x);
}

// The commit of a take-out. The hint keeps the stack of every other step small.
#[inline(never)]
fn take_commit(t: &mut SlotsMut, j: Job, q: Path, noted: Family<Links>) -> Result<Outcome, Turn>
    ensures { Does t.old t.new (or_calm result)
        (take_commit (read t.old) t.old.n j q noted.grand noted.parent noted.left noted.right) }
{
    let now = Family {
        grand: t.at(q.grand),
        parent: t.at(q.parent),
        left: t.at(noted.parent.left),
        right: t.at(noted.parent.right),
    };
    let s = TakeStage::TakeCommit(noted.grand, noted.parent, noted.left, noted.right);
    let k = busy_in(j, Phase::TakingOut(q, s));
    may_change(
        k,
        take_grounds(t.n, j, q, noted, now),
        take_test(noted, now),
    )?;
    let [x] = free_slots::<1>(&t.read()).ok_or(Turn::Done(Answer::NoRoom))?;
    let sibling = other_link(noted.parent, q.here);
    let copied = t.at(sibling);
    take_writes(t, q, noted.grand.left == q.parent, copied, sibling, x);
    Ok(calm_turn(Turn::Done(Answer::TakenOut)))
}

// A step of a take-out that has walked: the four readings, then the commit. The stage is data of the task.
pub fn take_step(t: &mut SlotsMut, j: Job, q: Path, s: TakeStage) -> Outcome
    ensures { Does t.old t.new result (take_step (read t.old) t.old.n j q s) }
{
    let k = busy_in(j, Phase::TakingOut(q, s));
    match s {
        TakeStage::TakeGrand => read_leading(&t.read(), k, q.grand, q.parent),
        TakeStage::TakeParent(_) => read_leading(&t.read(), k, q.parent, q.here),
        TakeStage::TakeLeft(_, b) => read_child(&t.read(), k, b.left),
        TakeStage::TakeRight(_, b, _) => read_child(&t.read(), k, b.right),
        TakeStage::TakeCommit(grand, parent, left, right) => {
            let noted = Family {
                grand,
                parent,
                left,
                right,
            };
            or_calm(take_commit(t, j, q, noted))
        }
    }
}
