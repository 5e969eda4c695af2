// The calls over the whole table: tidy, figures and the list of fares.
#![tactic(auto)]

ghost use Rattle.std.specs.Prelude.{◌≡◌, true};
ghost use Rattle.machine.specs.Contract.{after};
ghost use Rattle.machine.specs.State.{sound};
ghost use Rattle.machine.specs.Reach.{reach};
ghost use Rattle.machine.specs.Calls.{tidy_reached, tidy_of, no_report, figures_reached, figures_of, list_reached, list_of};
ghost use Rattle.fields.specs.Writes.{seen, read, SameTable};
ghost use Rattle.state.specs.Refused.{or_refused};
ghost use Rattle.whole.specs.Whole.{figures_out, reported, answered, listed, Found};

use allowed::allowed_rank;
use fields::{Slots, SlotsMut, fitting_slots};
use reach::{Below, Written, reach_all, sweep_all, write_fares};
use room::count_free;
use state::{count_busy, count_settling, is_sound, or_refused};
use terms::{Answer, Figures, Out, Refusal, Report, State};

// Every slot that the entry does not reach is set to zero, or 17. The hints in this file make the calls cheaper.
#[tactic(auto, unfolding(machine::specs::Contract::after, machine::specs::Calls::tidy_reached))]
#[inline]
fn sweep(t: &mut SlotsMut, st: State) -> Result<Out, Refusal>
    ensures { (after t.new.numbers.now (or_refused st result) ≡ tidy_reached t.old.numbers.now st (reach t.old.n (read t.old))) × SameTable t.old t.new }
{
    // A mark a slot, on the stack: there is no heap.
    let mut marks = [0; 4096];
    let marks = &mut marks[..t.n as usize];
    reach_all(&t.read(), marks).ok_or(Refusal::Damaged)?;
    sweep_all(t, marks);
    Ok(Out {
        state: st,
        answer: Answer::Accepted,
    })
}

// The table is swept, or the first refusal that holds.
#[tactic(auto, unfolding(machine::specs::Contract::after, machine::specs::Calls::tidy_of, machine::specs::Choice::if_b))]
#[inline]
fn tidied(t: &mut [u32], st: State) -> Result<Out, Refusal>
    ensures { after t.new (or_refused st result) ≡ tidy_of t.old st }
{
    let n = fitting_slots(t.len())?;
    if count_busy(st) != 0 {
        return Err(Refusal::SomeBusy);
    }
    if !is_sound(st) {
        return Err(Refusal::Damaged);
    }
    sweep(&mut SlotsMut { numbers: t, n }, st)
}

// Every slot that the entry does not reach is set to zero.
pub fn tidy(t: &mut [u32], st: State) -> Out
    ensures { after t.new result ≡ tidy_of t.old st }
{
    or_refused(st, tidied(t, st))
}

// What the entry reaches, or 17.
#[inline]
fn reached(t: &Slots) -> Result<Below, Refusal>
    ensures { Found (seen t.now) t.now.n result }
{
    // A mark a slot, on the stack: there is no heap.
    let mut marks = [0; 4096];
    reach_all(t, &mut marks[..t.n as usize]).ok_or(Refusal::Damaged)
}

fn figures_out(t: &Slots, st: State, b: Below) -> Figures
    requires { sound st ≡ true }
    ensures { result ≡ figures_out (seen t.now) t.now.n st b }
{
    Figures {
        height: b.height,
        level: b.level,
        c: st.u + count_settling(st),
        m: st.m,
        fares: b.fares,
        free: count_free(t),
        allowed: allowed_rank(st.m),
    }
}

// The figures, or the first refusal that holds.
#[tactic(auto, unfolding(machine::specs::Calls::figures_of, machine::specs::Choice::if_b))]
#[inline]
fn counted(t: &[u32], st: State) -> Result<Figures, Refusal>
    ensures { reported result ≡ figures_of t.now st }
{
    let n = fitting_slots(t.len())?;
    if !is_sound(st) {
        return Err(Refusal::Damaged);
    }
    let t = Slots { numbers: t, n };
    let b = reached(&t)?;
    Ok(figures_out(&t, st, b))
}

// Height, level records, c, m, fares, free slots and the allowed rank.
pub fn figures(t: &[u32], st: State) -> Report
    ensures { result ≡ figures_of t.now st }
{
    match counted(t, st) {
        Ok(figures) => Report {
            answer: Answer::Accepted,
            figures,
        },
        Err(e) => Report {
            answer: e.into(),
            figures: Figures::default(),
        },
    }
}

// The fares are written into the room lent, or the first refusal that holds.
#[tactic(auto, unfolding(crate::specs::Whole::listed, machine::specs::Calls::list_of, machine::specs::Choice::if_b))]
#[inline]
fn written(t: &[u32], st: State, room: &mut [u32]) -> Result<(), Refusal>
    ensures { listed (answered result) room.new ≡ list_of t.now st room.old }
{
    let n = fitting_slots(t.len())?;
    if !is_sound(st) {
        return Err(Refusal::Damaged);
    }
    let t = Slots { numbers: t, n };
    let b = reached(&t)?;
    if room.len() < 2 * b.fares as usize {
        return Err(Refusal::NoRoom);
    }
    write_fares(&t, room, t.at(0).left, Written { at: 0, left: n });
    Ok(())
}

// Number and price of each fare, from the leftmost to the rightmost, into the room lent.
pub fn list(t: &[u32], st: State, room: &mut [u32]) -> Answer
    ensures { listed result room.new ≡ list_of t.now st room.old }
{
    match written(t, st, room) {
        Ok(()) => Answer::Accepted,
        Err(e) => e.into(),
    }
}
