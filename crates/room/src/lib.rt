// Room: the lowest-numbered free slots, and how many there are.
#![tactic(auto)]

ghost use Rattle.std.specs.Prelude.{◌≡◌, ◌+◌, ◌-◌, ◌*◌, ◌≤◌, ◌<◌, length};
ghost use Rattle.fields.specs.Writes.{seen};
ghost use Rattle.machine.specs.Table.{count_free};
ghost use Rattle.room.specs.Found.{Found, FreeSlots};

use fields::Slots;

// The lowest free slot from a slot on; at or past the end there is none. Document 01 names this form: the loop yields the slot by break.
#[tactic(auto, using(machine::proofs::Scan::scan_end, machine::proofs::Scan::scan_hit, machine::proofs::Scan::scan_miss))]
fn free_from(t: &Slots, from: u32) -> Option<u32>
    requires { from ≤ 4096 }
    ensures { Found (seen t.now) t.now.n from result }
{
    let mut i = from;
    loop {
        if t.n <= i {
            break None;
        }
        if t.state_at(i) == 0 {
            break Some(i);
        }
        i += 1;
    }
}

// The N lowest free slots, in the order in which new records take them, if there are so many. They are stored by index: of an
// element that is borrowed a proof would know the length alone.
pub fn free_slots<const N: usize>(t: &Slots) -> Option<[u32; N]>
    ensures { FreeSlots (seen t.now) t.now.n N result }
{
    let mut slots = [0; N];
    let mut from = 1;
    for i in 0..N {
        let s = free_from(t, from)?;
        slots[i] = s;
        from = s + 1;
    }
    Some(slots)
}

// How many slots are in state 0.
#[tactic(auto, unfolding(machine::specs::Table::count_free, machine::specs::Choice::if_b))]
pub fn count_free(t: &Slots) -> u32
    ensures { result ≡ count_free (seen t.now) t.now.n }
{
    let mut count = 0;
    for s in 0..t.n {
        if t.state_at(s) == 0 {
            count += 1;
        }
    }
    count
}
