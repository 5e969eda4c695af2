// Put-in: its two readings and its commit.
#![tactic(auto, unfolding(machine::specs::Contract::acted, machine::specs::Contract::played, machine::specs::Table::puts, machine::specs::Choice::if_b, machine::specs::PutIn::put_grounds, machine::specs::PutIn::put_test, machine::specs::PutIn::leaf_of, machine::specs::PutIn::inner_rank, machine::specs::PutIn::put_turn, machine::specs::PutIn::put_writes, machine::specs::PutIn::put_commit, machine::specs::PutIn::put_limit, machine::specs::PutIn::put_room, machine::specs::Table::slot1, machine::specs::Table::slot2, machine::specs::Table::slot3, machine::specs::PutIn::put_step, machine::specs::PutIn::read_put_parent, machine::specs::PutIn::read_put_leaf))]

ghost use Rattle.std.specs.Prelude.{◌≡◌, ◌<◌, slice_index};
ghost use Rattle.fields.specs.Writes.{read, Writes, Does};
ghost use Rattle.room.specs.Found.{AllBelow};
ghost use Rattle.walk.specs.Stopped.{or_calm};
ghost use Rattle.machine.specs.PutIn.{leaf_of, inner_of, inner_rank, put_grounds, put_test, put_writes, put_turn, put_commit, put_step};

use fields::{SlotsMut, is_leaf, is_linked, is_still, lead_to, well_formed};
use room::free_slots;
use terms::{Answer, Goal, Job, Links, Outcome, Path, Phase, PutStage, Rec, Turn};
use walk::{busy_in, may_change, or_calm, read_child, read_leading};

// The grounds of 17 that the commit looks at before its test.
fn put_grounds(n: u32, j: Job, q: Path, a: Links, p: Rec, h: Rec) -> bool
    ensures { result ≡ put_grounds n j q a p h }
{
    let other = is_leaf(h) & (h.number != j.number);
    let apart = (q.parent != q.here) & (lead_to(a, q.here) & other);
    well_formed(n, q.parent, p) & (is_linked(n, q.here, h) & apart)
}

fn put_test(a: Links, b: Links, p: Rec, h: Rec) -> bool
    ensures { result ≡ put_test a b p h }
{
    is_still(p, a) & is_still(h, b)
}

// A fresh leaf: a fare's, or a sentinel's.
fn leaf_of(number: u32, price: u32) -> Rec
    ensures { result ≡ leaf_of number price }
{
    let (price, rank) = if number == 4294967295 {
        (0, 255)
    } else {
        (price, 0)
    };
    Rec {
        state: 1,
        number,
        price,
        rank,
        left: 0,
        right: 0,
    }
}

// A fresh inner record.
pub fn inner_of(number: u32, rank: u32, left: u32, right: u32) -> Rec
    ensures { result ≡ inner_of number rank left right }
{
    Rec {
        state: 1,
        number,
        price: 0,
        rank,
        left,
        right,
    }
}

// The rank of the new inner record.
fn inner_rank(h: Rec) -> u32
    ensures { result ≡ inner_rank h }
{
    if h.rank == 255 { 255 } else { 1 }
}

// How the task goes on after its put-in.
fn put_turn(j: Job, p: Rec, h: Rec) -> Turn
    ensures { result ≡ put_turn j p h }
{
    if (p.rank == 1) & (inner_rank(h) == 1) {
        Turn::Next(busy_in(j, Phase::Start(Goal::Settle)))
    } else {
        Turn::Done(Answer::PutSettled)
    }
}

// In the leaf's place a new inner record, whose leaves are the smaller number and the larger.
fn put_writes(t: &mut SlotsMut, j: Job, q: Path, left: bool, h: Rec, slots: [u32; 3])
    requires { AllBelow t.old.n slots × (q.here < t.old.n) × (q.parent < t.old.n) }
    ensures { Writes t.old t.new (put_writes j q left h (slice_index slots 0) (slice_index slots 1) (slice_index slots 2)) }
{
    let [x, y, z] = slots;
    let own = leaf_of(j.number, j.price);
    let old = leaf_of(h.number, h.price);
    let (number, low, high) = if j.number < h.number {
        (h.number, own, old)
    } else {
        (j.number, old, own)
    };
    t.fill(x, inner_of(number, inner_rank(h), y, z));
    t.fill(y, low);
    t.fill(z, high);
    t.take_off(q.here);
    t.lead(q.parent, left, x);
}

// The commit of a put-in: the limit and room are looked at after the test. The hint keeps the stack of every other step small.
#[inline(never)]
fn put_commit(
    t: &mut SlotsMut,
    m: u32,
    j: Job,
    q: Path,
    a: Links,
    b: Links,
) -> Result<Outcome, Turn>
    ensures { Does t.old t.new (or_calm result) (put_commit (read t.old) t.old.n m j q a b) }
{
    let p = t.at(q.parent);
    let h = t.at(q.here);
    let k = busy_in(j, Phase::PuttingIn(q, PutStage::PutCommit(a, b)));
    may_change(k, put_grounds(t.n, j, q, a, p, h), put_test(a, b, p, h))?;
    if 1000000 <= m {
        return Err(Turn::Done(Answer::Limit));
    }
    let slots = free_slots(&t.read()).ok_or(Turn::Done(Answer::NoRoom))?;
    put_writes(t, j, q, a.left == q.here, h, slots);
    Ok(Outcome {
        turn: put_turn(j, p, h),
        committed: true,
    })
}

// A step of a put-in that has walked: the reading of the parent, that of the leaf, the commit. The stage is data of the task.
pub fn put_step(t: &mut SlotsMut, m: u32, j: Job, q: Path, s: PutStage) -> Outcome
    ensures { Does t.old t.new result (put_step (read t.old) t.old.n m j q s) }
{
    let k = busy_in(j, Phase::PuttingIn(q, s));
    match s {
        PutStage::PutParent => read_leading(&t.read(), k, q.parent, q.here),
        PutStage::PutLeaf(_) => read_child(&t.read(), k, q.here),
        PutStage::PutCommit(a, b) => or_calm(put_commit(t, m, j, q, a, b)),
    }
}
