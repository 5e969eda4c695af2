// What the entry reaches: its counts by a walk down the links, the sweep of what is not reached, and the fares in their order.
#![tactic(auto)]

ghost use Rattle.std.specs.Prelude.{◌≡◌, ◌&&◌, ◌+◌, ◌-◌, ◌*◌, ◌≤◌, ◌<◌, eqb, length, get_or, replicate};
ghost use Rattle.fields.specs.Writes.{seen, SameTable, Writes};
ghost use Rattle.machine.specs.Record.{in_tree, is_fare, linked};
ghost use Rattle.machine.specs.Reach.{deeper};
ghost use Rattle.machine.specs.State.{one};
ghost use Rattle.machine.specs.Calls.{sweep};
ghost use Rattle.machine.proofs.Marks.{unmarked};
ghost use Rattle.reach.specs.Down.{leaf_below, inner_below, Down, All};
ghost use Rattle.reach.specs.Tree.{tree_from};
ghost use Rattle.reach.specs.Writing.{swept, Line, RoomFor, Wrote};

use fields::{Slots, SlotsMut, in_tree, is_fare, is_leaf, is_level, is_linked, well_formed};
use terms::Rec;

// What stands below a slot, its own record with it; `left` slots are not marked then.
#[derive(Clone, Copy)]
pub struct Below {
    pub left: u32,
    pub level: u32,
    pub fares: u32,
    pub depth: u32,
    pub height: u32,
}

// Whether a slot has no mark. Marks are numbers, as in the definition `reach_from`.
fn is_unmarked(marks: &[u8], s: u32) -> bool
    ensures { result ≡ eqb (get_or marks.now s 0) 0 }
{
    marks.get(s as usize).is_none_or(|m| *m == 0)
}

// Whether the record of slot s may be reached: a link may lead to it, it is in the tree, and no link led to it before.
#[tactic(auto, unfolding(machine::specs::Record::linked, machine::specs::Record::in_tree, machine::specs::Choice::if_b))]
fn may_reach(marks: &[u8], n: u32, s: u32, r: Rec) -> bool
    ensures { result ≡ (linked n s r && (in_tree r && eqb (get_or marks.now s 0) 0)) }
{
    is_linked(n, s, r) & (in_tree(r) & is_unmarked(marks, s))
}

// One record deeper, where there is a fare at all.
#[tactic(auto, unfolding(machine::specs::Reach::deeper, machine::specs::Choice::if_b))]
fn deeper_by(d: u32) -> u32
    requires { d ≤ 4096 }
    ensures { result ≡ deeper d }
{
    if d == 0 { 0 } else { d + 1 }
}

#[tactic(auto, unfolding(crate::specs::Down::leaf_below))]
fn leaf_below(p: Rec, r: Rec, left: u32) -> Below
    ensures { result ≡ leaf_below p r left }
{
    let fares = u32::from(is_fare(r));
    Below {
        left,
        level: u32::from(is_level(p, r)),
        fares,
        depth: fares,
        height: 0,
    }
}

#[tactic(auto, unfolding(crate::specs::Down::inner_below), using(crate::proofs::Joins::larger_is))]
fn inner_below(p: Rec, r: Rec, a: Below, b: Below) -> Below
    requires { (a.level + b.level ≤ 4096) × (a.fares + b.fares ≤ 4096) × (a.depth ≤ 4096) × (b.depth ≤ 4096) }
    ensures { result ≡ inner_below p r a b }
{
    Below {
        left: b.left,
        level: u32::from(is_level(p, r)) + (a.level + b.level),
        fares: a.fares + b.fares,
        depth: deeper_by(a.depth.max(b.depth)),
        height: a.depth.saturating_sub(1),
    }
}

// The way down from slot s, below p, marking each slot once; none where damage is met.
fn down(t: &Slots, marks: &mut [u8], p: Rec, s: u32, left: u32) -> Option<Below>
    requires { (length marks.old ≡ t.now.n) × (left ≡ unmarked marks.old) × (left ≤ 4096) }
    ensures { Down (seen t.now) t.now.n p s marks.old left result marks.new }
{
    let r = t.at(s);
    if !may_reach(marks, t.n, s, r) {
        return None;
    }
    marks[s as usize] = 1;
    if is_leaf(r) {
        return Some(leaf_below(p, r, left - 1));
    }
    let a = down(t, marks, r, r.left, left - 1)?;
    let b = down(t, marks, r, r.right, a.left)?;
    Some(inner_below(p, r, a, b))
}

// All that the entry reaches, in a table whose slots have no marks yet; none where damage is met.
pub fn reach_all(t: &Slots, marks: &mut [u8]) -> Option<Below>
    requires { marks.old ≡ replicate t.now.n 0 }
    ensures { All (seen t.now) t.now.n result marks.new }
{
    let e = t.at(0);
    let good = well_formed(t.n, 0, e) & in_tree(e);
    if !good {
        return None;
    }
    marks[0] = 1;
    down(t, marks, e, e.left, t.n - 1)
}

// A slot without a mark is set to zero.
#[tactic(auto, unfolding(crate::specs::Writing::swept, machine::specs::Table::puts, machine::specs::Choice::if_b))]
fn sweep_slot(t: &mut SlotsMut, s: u32, mark: u8)
    requires { s < t.old.n }
    ensures { (t.new.numbers.now ≡ swept t.old.numbers.now s mark) × SameTable t.old t.new }
{
    if mark == 0 {
        t.fill(s, Rec::default());
    }
}

#[tactic(auto, using(crate::proofs::Sweep::sweeping))]
pub fn sweep_all(t: &mut SlotsMut, marks: &[u8])
    requires { length marks.now ≡ t.old.n }
    ensures { Writes t.old t.new (sweep marks.now t.old.n 0) }
{
    for s in 0..t.n {
        sweep_slot(t, s, marks[s as usize]);
    }
}

// Where the next fare is written, and how many slots are not visited yet.
#[derive(Clone, Copy)]
pub struct Written {
    pub at: usize,
    pub left: u32,
}

// The number and price of a record, if it is a fare.
fn write_line(room: &mut [u32], at: usize, r: Rec) -> usize
    requires { at + 2 * one (is_fare r) ≤ length room.old }
    ensures { Line r at room.old result room.new }
{
    if !is_fare(r) {
        return at;
    }
    room[at] = r.number;
    room[at + 1] = r.price;
    at + 2
}

// The fares below slot s, from the leftmost to the rightmost; each record visited is one slot less.
pub fn write_fares(t: &Slots, room: &mut [u32], s: u32, w: Written) -> Written
    requires { RoomFor (tree_from w.left (seen t.now) s) w.left w.at room.old }
    ensures { Wrote (tree_from w.left (seen t.now) s) w.left w.at room.old result room.new }
{
    let r = t.at(s);
    let left = w.left - 1;
    if is_leaf(r) {
        let at = write_line(room, w.at, r);
        return Written { at, left };
    }
    let a = write_fares(t, room, r.left, Written { left, ..w });
    write_fares(t, room, r.right, a)
}
