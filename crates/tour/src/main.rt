//! A guided run of the library: two sheets are made and edited, joined, and put into their environments.
#![tactic(auto)]

ghost use Rattle.std.specs.Prelude.{◌≡◌, None};
ghost use Rattle.lts.specs.declared.environments.Position.TheVariants.{Under};

use crate::words::{Answer, Order, Place, Word};
use lts::environments::Position::{self, Plain, Under};
use lts::environments::Surrounded;
use lts::sources::Source;
use lts::systems::Lts;
use sheets::joins::Join;
use sheets::replays::Call::{self, Note, Strike};
use sheets::replays::{Entry, replay};
use sheets::store::Sheet;

mod words;

// A call that is not yet carried out.
fn entry(call: Call) -> Entry
    ensures { result ≡ record { call = call; answer = None } }
{
    Entry { call, answer: None }
}

// Carries out a script on a new sheet, and prints each call with its answer. The sizes are two numbers, as `replay` takes them: a type of
// them would be made here only to be taken apart.
fn write(
    rt: &HostRuntime,
    sheet: &mut Sheet,
    states: usize,
    signals: usize,
    script: &mut [Entry],
) -> anyhow::Result<()> {
    let made = Answer(replay(sheet, states, signals, script));
    println!(rt; "new sheet (states {states}, signals {signals}): {made}")?;
    for entry in script.iter() {
        if let Some(answer) = entry.answer {
            println!(rt; "  {}: {}", Order(entry.call), Answer(answer))?;
        }
    }
    Ok(())
}

// `rt` and the join go side by side: a struct of both would only be taken apart.
fn list_join(rt: &HostRuntime, join: &Join) -> anyhow::Result<()> {
    let states = join.states();
    let signals = join.signals();
    println!(rt; "join (states {states}, signals {signals}):")?;
    for state in 0..states {
        list_state(rt, join, state)?;
    }
    Ok(())
}

// The steps that leave a state, each with the side and the place where it was noted.
fn list_state(rt: &HostRuntime, join: &Join, state: usize) -> anyhow::Result<()> {
    let signals = join.signals();
    let listed = |place: usize| join.step(state, place).zip(join.origin(state, place));
    for (step, origin) in (0..join.step_count(state)).filter_map(listed) {
        let label = Word::of(step.label, signals);
        let side = origin.side.number();
        println!(rt;
            "  {state} {label} {}  (side {side}, place {})",
            step.target, origin.place
        )?;
    }
    Ok(())
}

// Short for a list: in full, a position under a set takes four lines of it.
fn under(allowed: usize, state: usize) -> Position
    ensures { result ≡ Under allowed state }
{
    Under { allowed, state }
}

// The steps that leave one position of the surrounded system.
fn list_position(rt: &HostRuntime, join: &Join, position: Position) -> anyhow::Result<()> {
    let system = Surrounded::of(join);
    let signals = join.signals();
    let from = Place(position);
    let Some(state) = system.number(position) else {
        println!(rt; "{from}: absent")?;
        return Ok(());
    };
    println!(rt; "{from}, state {state} of {}:", system.states())?;
    for step in (0..system.step_count(state)).filter_map(|place| system.step(state, place)) {
        let label = Word::of(step.label, signals);
        if let Some(position) = system.position(step.target) {
            println!(rt; "  {label} to {}", Place(position))?;
        }
    }
    Ok(())
}

// The old sheet's script, with a step struck and noted again, and slips of each kind but a full sheet. A sheet takes labels by their numbers: 0 for tau, 1
// for t, 2 for a.
fn write_old(rt: &HostRuntime, sheet: &mut Sheet) -> anyhow::Result<()> {
    println!(rt; "The old sheet, with some slips:")?;
    write(rt, sheet, 49, 1, &mut [])?;
    let mut script = [
        entry(Note((0, 2, 1).into())),
        entry(Note((0, 1, 2).into())),
        entry(Note((4, 2, 1).into())),
        entry(Note((0, 3, 1).into())),
        entry(Note((0, 2, 1).into())),
        entry(Note((2, 0, 3).into())),
        entry(Note((2, 2, 3).into())),
        entry(Strike((2, 2, 3).into())),
        entry(Strike((2, 2, 3).into())),
        entry(Note((2, 2, 3).into())),
    ];
    write(rt, sheet, 4, 1, &mut script)
}

fn write_new(rt: &HostRuntime, sheet: &mut Sheet) -> anyhow::Result<()> {
    println!(rt; "The new sheet:")?;
    let mut script = [
        entry(Note((0, 2, 1).into())),
        entry(Note((0, 1, 2).into())),
        entry(Note((2, 0, 3).into())),
    ];
    write(rt, sheet, 4, 1, &mut script)
}

fn run(rt: &HostRuntime) -> anyhow::Result<()> {
    let mut old = Sheet::blank(rt.alloc())?;
    let mut new = Sheet::blank(rt.alloc())?;
    write_old(rt, &mut old)?;
    write_new(rt, &mut new)?;
    let join = Join::of(&old, &new);
    println!(rt; "Both side by side, with the origin of each step:")?;
    list_join(rt, &join)?;
    println!(rt; "Some positions, alone or under a set of allowed signals:")?;
    let positions = [
        Plain { state: 0 },
        under(0, 0),
        under(1, 0),
        under(0, 2),
        under(1, 2),
        under(1, 6),
        Plain { state: 8 },
    ];
    for position in positions {
        list_position(rt, &join, position)?;
    }
    Ok(())
}

fn main(rt: HostRuntime) -> anyhow::Result<()> {
    run(&rt)
}
