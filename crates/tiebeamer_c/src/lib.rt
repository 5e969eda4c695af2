// The calls of the fare table under C's names (interface/tiebeamer.h): each export makes the call of the crate tiebeamer, with
// its clauses. A slice goes over as a pointer and a count, a place for numbers as a pointer.
#![tactic(auto)]

ghost use Rattle.std.specs.Prelude.{◌≡◌};
ghost use Rattle.tiebeamer.specs.Interface.{told, reset_told, begin_told, step_told, run_told, abandon_told, tidy_told, shown, figures_shown, list_shown};

#[unsafe(no_mangle)]
pub extern "C" fn tiebeamer_reset(table: &mut [u32], state: &mut [u32]) -> u32
    ensures { told result 0 table.new state.new ≡ reset_told table.old state.old }
{
    tiebeamer::tiebeamer_reset(table, state)
}

// The operation is 1 look up, 2 put in, 3 take out: a number, as C hands it.
#[unsafe(no_mangle)]
pub extern "C" fn tiebeamer_begin(
    table: &[u32],
    state: &mut [u32],
    task: u32,
    operation: u32,
    number: u32,
    price: u32,
) -> u32
    ensures { told result 0 table.now state.new ≡ begin_told table.now state.old task operation number price }
{
    tiebeamer::tiebeamer_begin(table, state, task, operation, number, price)
}

#[unsafe(no_mangle)]
pub extern "C" fn tiebeamer_step(
    table: &mut [u32],
    state: &mut [u32],
    task: u32,
    price: &mut u32,
) -> u32
    ensures { told result price.new table.new state.new ≡ step_told table.old state.old task price.old }
{
    tiebeamer::tiebeamer_step(table, state, task, price)
}

// So many steps, as long as they answer 0.
#[unsafe(no_mangle)]
pub extern "C" fn tiebeamer_run(
    table: &mut [u32],
    state: &mut [u32],
    task: u32,
    count: u32,
    price: &mut u32,
) -> u32
    ensures { told result price.new table.new state.new ≡ run_told table.old state.old task count price.old }
{
    tiebeamer::tiebeamer_run(table, state, task, count, price)
}

// Task i is abandoned.
#[unsafe(no_mangle)]
pub extern "C" fn tiebeamer_abandon(table: &[u32], state: &mut [u32], task: u32) -> u32
    ensures { told result 0 table.now state.new ≡ abandon_told table.now state.old task }
{
    tiebeamer::tiebeamer_abandon(table, state, task)
}

#[unsafe(no_mangle)]
pub extern "C" fn tiebeamer_tidy(table: &mut [u32], state: &mut [u32]) -> u32
    ensures { told result 0 table.new state.new ≡ tidy_told table.old state.old }
{
    tiebeamer::tiebeamer_tidy(table, state)
}

// Height, level records, c, m, fares, free slots and the allowed rank.
#[unsafe(no_mangle)]
pub extern "C" fn tiebeamer_figures(table: &[u32], state: &[u32], places: &mut [u32; 7]) -> u32
    ensures { shown result places.new ≡ figures_shown table.now state.now places.old }
{
    tiebeamer::tiebeamer_figures(table, state, places)
}

// Number and price of each fare, into the room lent.
#[unsafe(no_mangle)]
pub extern "C" fn tiebeamer_list(table: &[u32], state: &[u32], room: &mut [u32]) -> u32
    ensures { shown result room.new ≡ list_shown table.now state.now room.old }
{
    tiebeamer::tiebeamer_list(table, state, room)
}
