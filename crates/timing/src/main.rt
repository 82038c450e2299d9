//! Times the comparer on the case that standard input gives.
#![tactic(auto)]

use crate::fullest::Fullest;
use anyhow::{Context, anyhow};
use lts::sources::Source;
use refine::comparers::Comparer;
use refine::verdicts::Verdict;
use sheets::joins::Join;
use sheets::refusals::Refusal;
use sheets::store::Sheet;
use std::io::{BufRead, BufReader};
use std::mem::swap;
use std::str::SplitWhitespace;
use std::time::{Duration, Instant};

mod fullest;

// The numbers that come next.
fn numbers<const N: usize>(words: &mut SplitWhitespace) -> anyhow::Result<[usize; N]> {
    let mut numbers = [0; N];
    for number in &mut numbers {
        *number = words.next().context("a number is missing")?.parse()?;
    }
    Ok(numbers)
}

// Which refusal it was is of no use to `bench/run`.
fn refused(_: Refusal) -> anyhow::Error {
    anyhow!("refused")
}

// A judgement, and how long it took. The two states are two numbers, as `judge` takes them.
fn timed<S: Source>(
    rt: &HostRuntime,
    comparer: &mut Comparer,
    source: &S,
    left: usize,
    right: usize,
) -> anyhow::Result<(Verdict, Duration)> {
    let start = Instant::now(rt)?;
    let verdict = comparer.judge(source, left, right).map_err(refused)?;
    Ok((verdict, start.elapsed(rt)?))
}

// Judges once to warm up, then as often as asked, with one comparer.
fn measure<S: Source>(
    rt: &HostRuntime,
    source: &S,
    left: usize,
    right: usize,
    times: usize,
) -> anyhow::Result<()> {
    let mut comparer = Comparer::new(rt.alloc())?;
    let (verdict, mut quickest) = timed(rt, &mut comparer, source, left, right)?;
    for _ in 0..times {
        let (_, took) = timed(rt, &mut comparer, source, left, right)?;
        quickest = quickest.min(took);
    }
    let nanos = quickest.as_nanos();
    // the one place that prints a verdict: a type of its own with a Display would hold the same match
    match verdict {
        Verdict::Alike => println!(rt; "alike {nanos}")?,
        Verdict::Apart { round } => println!(rt; "apart {round} {nanos}")?,
    }
    Ok(())
}

// A line `sheet STATES SIGNALS` begins a sheet and `step FROM LABEL TO` notes a step on it; `ask LEFT RIGHT TIMES` compares two states of
// the join of the last two sheets, and `limit LEFT RIGHT TIMES` two states of the fullest source. The verdict is printed with the
// nanoseconds of the quickest judgement. With no input nothing is printed.
fn run(rt: &HostRuntime) -> anyhow::Result<()> {
    let mut old = Sheet::blank(rt.alloc())?;
    let mut new = Sheet::blank(rt.alloc())?;
    for line in BufReader::new(rt.alloc(), rt.stdin())?.lines(rt.alloc()) {
        let line = line?;
        let mut words = line.as_str().split_whitespace();
        match words.next().context("an empty line")? {
            "sheet" => {
                let [states, signals] = numbers::<2>(&mut words)?;
                swap(&mut old, &mut new);
                new.new_sheet(states, signals).map_err(refused)?;
            }
            "step" => {
                let [from, label, to] = numbers::<3>(&mut words)?;
                new.note((from, label, to).into()).map_err(refused)?;
            }
            "ask" => {
                let [left, right, times] = numbers::<3>(&mut words)?;
                measure(rt, &Join::of(&old, &new), left, right, times)?;
            }
            "limit" => {
                let [left, right, times] = numbers::<3>(&mut words)?;
                measure(rt, &Fullest, left, right, times)?;
            }
            _ => {
                numbers::<3>(&mut words)?;
                return Err(anyhow!("an unknown line"));
            }
        }
    }
    Ok(())
}

fn main(rt: HostRuntime) -> anyhow::Result<()> {
    run(&rt)
}
