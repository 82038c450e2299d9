//! A second comparer, held against the main one on many small joins.
#![tactic(auto)]

use crate::chance::Dice;
use crate::counts::Tally;
use crate::drafts::Drafts;
use crate::known::show_known;
use crate::trials::Bench;

mod chance;
mod counts;
mod drafts;
mod faults;
mod holding;
mod known;
mod matching;
mod pairs;
mod trials;

const JOINS: usize = 6000;

// Compares joins drawn by chance, and shows the first dispute.
fn compare_many(rt: &HostRuntime, bench: &mut Bench) -> anyhow::Result<Tally> {
    let mut dice = Dice::new(2020);
    let mut tally = Tally::default();
    let mut first = None;
    for _ in 0..JOINS {
        let drafts = Drafts::random(rt.alloc(), &mut dice)?;
        let dispute = bench.compare(&drafts, &mut tally)?;
        if let (None, Some(dispute)) = (first, dispute) {
            println!(rt; "{dispute}:\n{drafts}")?;
        }
        first = first.or(dispute);
    }
    Ok(tally)
}

fn run(rt: &HostRuntime) -> anyhow::Result<()> {
    let mut bench = Bench::new(rt.alloc())?;
    println!(rt; "Known pairs, by the second comparer and by the main one:")?;
    show_known(rt, &mut bench)?;
    let tally = compare_many(rt, &mut bench)?;
    println!(rt; "{tally}")?;
    Ok(())
}

fn main(rt: HostRuntime) -> anyhow::Result<()> {
    run(&rt)
}
