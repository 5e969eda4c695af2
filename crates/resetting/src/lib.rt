// Reset.
#![tactic(auto)]

ghost use Rattle.std.specs.Prelude.{◌≡◌, ◌+◌, ◌-◌, ◌*◌, ◌/◌, ◌≤◌, ◌<◌, length, replicate};
ghost use Rattle.fields.specs.Writes.{SameTable};
ghost use Rattle.machine.specs.Contract.{after};
ghost use Rattle.machine.specs.Calls.{empty_table, reset_of};
ghost use Rattle.state.specs.Refused.{or_refused};

use fields::{SlotsMut, fitting_slots};
use state::{fresh_state, or_refused};
use terms::{Answer, Out, Rec, Refusal, State};

// A sentinel in the tree, with no right link: the entry, or a leaf.
fn sentinel(left: u32) -> Rec
    ensures { result ≡ record { state = 1; number = 4294967295; price = 0; rank = 255; left = left; right = 0 } }
{
    Rec {
        state: 1,
        number: 4294967295,
        rank: 255,
        left,
        ..Rec::default()
    }
}

// The entry and the first sentinel leaf, in an empty table.
#[tactic(auto, unfolding(machine::specs::Calls::empty_table, machine::specs::Table::puts))]
fn lay_out(t: &mut SlotsMut)
    requires { 8 ≤ t.old.n }
    ensures { (t.new.numbers.now ≡ empty_table (length t.old.numbers.now)) × SameTable t.old t.new }
{
    t.numbers.fill(0);
    t.fill(0, sentinel(1));
    t.fill(1, sentinel(0));
}

// The table is laid out and the state is fresh, or 18.
#[tactic(auto, unfolding(machine::specs::Contract::after, machine::specs::Calls::reset_of, machine::specs::Choice::if_b))]
fn restart(t: &mut [u32], st: State) -> Result<Out, Refusal>
    ensures { after t.new (or_refused st result) ≡ reset_of t.old st }
{
    let n = fitting_slots(t.len())?;
    lay_out(&mut SlotsMut { numbers: t, n });
    Ok(Out {
        state: fresh_state(),
        answer: Answer::Accepted,
    })
}

// The table and the state start anew.
pub fn reset(t: &mut [u32], st: State) -> Out
    ensures { after t.new result ≡ reset_of t.old st }
{
    or_refused(st, restart(t, st))
}
