// Records by value: the only crate that knows where a field stands. The lent table with its reading and its three writes (slots),
// and the tests of a record.
#![tactic(auto)]

ghost use Rattle.std.specs.Prelude.{◌≡◌, ◌+◌, ◌-◌, ◌*◌, ◌/◌, ◌≤◌, ◌<◌, length, ◌&&◌, ◌||◌, true, false, IfOk, IfErr};
ghost use Rattle.machine.specs.Record.{fare_marks, inner_marks, is_link, is_inner, entry_form, in_tree, sentinel, is_leaf, well_formed, linked};
ghost use Rattle.machine.specs.Record.{level, is_fare, leads, links_of, still, other};
ghost use Rattle.machine.specs.Table.{length_fits};
ghost use Rattle.machine.specs.Walk.{sought, outranks};
ghost use Rattle.terms.specs.declared.Refusal.TheVariants.{Length};

mod slots;

pub use slots::{Slots, SlotsMut};
use terms::{Links, Rec, Refusal};

// Whether a table may be so many numbers long.
#[tactic(auto, unfolding(machine::specs::Table::length_fits))]
pub fn length_fits(l: usize) -> bool
    ensures { result ≡ length_fits l }
{
    (l % 6 == 0) & (48..=24576).contains(&l)
}

// How many slots a table of so many numbers has.
pub fn slots_of(l: usize) -> u32
    requires { l ≤ 24576 }
    ensures { result ≡ l / 6 }
{
    (l / 6) as u32
}

// The slots of a table so many numbers long, or 18.
pub fn fitting_slots(l: usize) -> Result<u32, Refusal>
    ensures fits { IfOk result (λ n. (length_fits l ≡ true) × (n ≡ l / 6) × (l ≡ n * 6) × (8 ≤ n) × (n ≤ 4096)) }
    ensures refused { IfErr result (λ e. (length_fits l ≡ false) × (e ≡ Length)) }
{
    if !length_fits(l) {
        return Err(Refusal::Length);
    }
    Ok(slots_of(l))
}

#[tactic(auto, unfolding(machine::specs::Record::in_tree))]
pub fn in_tree(r: Rec) -> bool
    ensures { result ≡ in_tree r }
{
    r.state == 1
}

#[tactic(auto, unfolding(machine::specs::Record::sentinel))]
fn is_sentinel(r: Rec) -> bool
    ensures { result ≡ sentinel r }
{
    (r.number == 4294967295) & ((r.rank == 255) & (r.price == 0))
}

#[tactic(auto, unfolding(machine::specs::Record::is_leaf))]
pub fn is_leaf(r: Rec) -> bool
    ensures { result ≡ is_leaf r }
{
    (r.left == 0) & (r.right == 0)
}

// Whether the marks of a leaf fit: a sentinel, or a fare.
#[tactic(auto, unfolding(machine::specs::Record::fare_marks, machine::specs::Record::number_fits, machine::specs::Record::price_fits))]
fn leaf_marked(r: Rec) -> bool
    ensures { result ≡ (sentinel r || fare_marks r) }
{
    is_sentinel(r) | ((r.number < 1000000) & ((r.price < 100000) & (r.rank == 0)))
}

// Whether a link leads somewhere, in a table of n slots.
#[tactic(auto, unfolding(machine::specs::Record::is_link))]
fn is_link(n: u32, s: u32) -> bool
    ensures { result ≡ is_link n s }
{
    (1..n).contains(&s)
}

// Whether a record with links is well formed as an inner one.
#[tactic(auto, unfolding(machine::specs::Record::is_inner, machine::specs::Record::inner_marks, machine::specs::Record::number_fits))]
fn inner_formed(n: u32, r: Rec) -> bool
    ensures { result ≡ (is_inner n r && (sentinel r || inner_marks r)) }
{
    let marked = (r.number < 1000000) & ((r.price == 0) & (1..=28).contains(&r.rank));
    let linked = is_link(n, r.left) & (is_link(n, r.right) & (r.left != r.right));
    linked & (is_sentinel(r) | marked)
}

// Whether a record is well formed as the entry.
#[tactic(auto, unfolding(machine::specs::Record::entry_form))]
fn entry_formed(n: u32, r: Rec) -> bool
    ensures { result ≡ entry_form n r }
{
    is_sentinel(r) & (is_link(n, r.left) & (r.right == 0))
}

// Whether a record of slot s is well formed, in a table of n slots: by state, slot and links, so that few tests are made.
#[tactic(auto, unfolding(machine::specs::Record::well_formed, machine::specs::Record::plain_form))]
pub fn well_formed(n: u32, s: u32, r: Rec) -> bool
    ensures { result ≡ well_formed n s r }
{
    if !((r.state == 1) | (r.state == 2)) {
        return false;
    }
    if s == 0 {
        return entry_formed(n, r);
    }
    if is_leaf(r) {
        return leaf_marked(r);
    }
    inner_formed(n, r)
}

// The same of a record that a link leads to.
#[tactic(auto, unfolding(machine::specs::Record::linked))]
pub fn is_linked(n: u32, s: u32, r: Rec) -> bool
    ensures { result ≡ linked n s r }
{
    (s != 0) & well_formed(n, s, r)
}

// Whether r is level below p.
#[tactic(auto, unfolding(machine::specs::Record::level))]
pub fn is_level(p: Rec, r: Rec) -> bool
    ensures { result ≡ level p r }
{
    !is_sentinel(r) & (r.rank == p.rank)
}

#[tactic(auto, unfolding(machine::specs::Record::is_fare))]
pub fn is_fare(r: Rec) -> bool
    ensures { result ≡ is_fare r }
{
    is_leaf(r) & !is_sentinel(r)
}

#[tactic(auto, unfolding(machine::specs::Walk::outranks))]
pub fn outranks(h: Rec, p: Rec) -> bool
    ensures { result ≡ outranks h p }
{
    p.rank < h.rank
}

// Two of the six numbers, as a reading notes them: no conversion.
pub fn links_of(r: Rec) -> Links
    ensures { result ≡ links_of r }
{
    Links {
        left: r.left,
        right: r.right,
    }
}

// Whether one of two links leads to a record.
#[tactic(auto, unfolding(machine::specs::Record::leads))]
pub fn lead_to(a: Links, s: u32) -> bool
    ensures { result ≡ leads a s }
{
    (s != 0) & ((a.left == s) | (a.right == s))
}

// Whether a record is still in the tree with both links as noted.
#[tactic(auto, unfolding(machine::specs::Record::still, machine::specs::Record::in_tree))]
pub fn is_still(r: Rec, a: Links) -> bool
    ensures { result ≡ still r a }
{
    in_tree(r) & (links_of(r) == a)
}

// The link on the side of the number sought.
#[tactic(auto, unfolding(machine::specs::Walk::sought, machine::specs::Choice::if_b))]
pub fn sought_link(k: u32, r: Rec) -> u32
    ensures { result ≡ sought k r }
{
    if k < r.number { r.left } else { r.right }
}

// The link that does not lead to s.
#[tactic(auto, unfolding(machine::specs::Record::other, machine::specs::Choice::if_b))]
pub fn other_link(b: Links, s: u32) -> u32
    ensures { result ≡ other b s }
{
    if b.left == s { b.right } else { b.left }
}
