// Times a step and a reading of the whole zone table, of 8 basins and 12 gauges with 79 fault sets: table_bench ROUNDS.
// Without ROUNDS it prints what a few rounds leave; bench/table.rs, the same in plain Rust, must print the same.
#![tactic(auto)]

use anyhow::anyhow;
use plant::{Gauge, GaugeReading, Plant};
use refusal::Failure;
use std::alloc::Global;
use std::env;
use std::time::Instant;
use table::Observer;
use zones::{Range, Rate};

fn gauge(first: u8, second: u8) -> Gauge {
    Gauge { first, second }
}

// Eight gauges of a basin each, and four between neighbours.
fn plant(heap: Global) -> Result<Plant, Failure> {
    let range = Range {
        least: 100,
        most: 900,
    };
    let ranges = vec![in heap; range; 8]?;
    let rates = vec![in heap; Rate { rise: 3, fall: 2 }; 8]?;
    let gauges = [
        gauge(1, 0),
        gauge(2, 0),
        gauge(3, 0),
        gauge(4, 0),
        gauge(5, 0),
        gauge(6, 0),
        gauge(7, 0),
        gauge(8, 0),
        gauge(1, 2),
        gauge(2, 3),
        gauge(3, 4),
        gauge(4, 5),
    ];
    Ok(Plant::new(8, 2, ranges, rates, gauges.to_vec(heap)?)?)
}

// Reading k is of the gauges in turn. The ends move a little, so that readings keep sharpening.
fn reading(k: usize) -> GaugeReading {
    let gauge = (k % 12) as u32;
    let by = (k % 5) as i64;
    if gauge < 8 {
        GaugeReading {
            gauge,
            low: 460 + by,
            high: 530 + by,
        }
    } else {
        GaugeReading {
            gauge,
            low: by - 30,
            high: by + 30,
        }
    }
}

fn trace(sum: i64, number: i64) -> i64 {
    sum.wrapping_mul(31).wrapping_add(number)
}

// What is done in a round.
fn step(observer: &mut Observer, _round: usize) {
    let _ = observer.step();
}

fn read(observer: &mut Observer, round: usize) {
    let _ = observer.read(reading(round));
}

fn step_and_read(observer: &mut Observer, round: usize) {
    step(observer, round);
    read(observer, round);
}

// What is left after so many rounds of work: one number of the table for each, and the whole of it at the end.
fn rounds_of<F: Fn(&mut Observer, usize)>(
    heap: Global,
    rounds: usize,
    work: F,
) -> Result<i64, Failure>
    requires { F.IsAlwaysCallable work }
{
    let mut observer = Observer::new(heap, plant(heap)?)?;
    for round in 0..12 {
        read(&mut observer, round);
    }
    let mut sum = 0;
    for round in 0..rounds {
        work(&mut observer, round);
        let length = observer.table.len().max(1);
        if let Some(number) = observer.table.get(round % length) {
            sum = trace(sum, *number);
        }
    }
    Ok(
        observer
            .table
            .iter()
            .fold(sum, |sum, number| trace(sum, *number)),
    )
}

fn left_by<F: Fn(&mut Observer, usize)>(
    rt: &HostRuntime,
    rounds: usize,
    work: F,
) -> anyhow::Result<i64>
    requires { F.IsAlwaysCallable work }
{
    rounds_of(rt.alloc(), rounds, work).map_err(|_| anyhow!("no observer"))
}

// As in zone_bench: a crate for these lines alone would be no plainer.
fn time<F: Fn(&mut Observer, usize)>(
    rt: &HostRuntime,
    what: &str,
    rounds: usize,
    work: F,
) -> anyhow::Result<()>
    requires { F.IsAlwaysCallable work }
{
    let start = Instant::now(rt)?;
    let sum = left_by(rt, rounds, work)?;
    let nanos = start.elapsed(rt)?.as_nanos() / (rounds as u128).max(1);
    println!(rt; "{what} {nanos} ns {sum}")?;
    Ok(())
}

fn run(rt: &HostRuntime) -> anyhow::Result<()> {
    let mut args = env::args(rt)?;
    let _ = args.next();
    match args.next() {
        Some(rounds) => {
            let rounds = rounds.as_str().parse::<usize>()?;
            time(rt, "step", rounds, step)?;
            time(rt, "read", rounds, read)?;
            time(rt, "both", rounds, step_and_read)
        }
        None => {
            let stepped = left_by(rt, 20, step)?;
            let read_alone = left_by(rt, 20, read)?;
            let both = left_by(rt, 20, step_and_read)?;
            println!(rt; "step {stepped}\nread {read_alone}\nboth {both}")?;
            Ok(())
        }
    }
}

fn main(rt: HostRuntime) -> anyhow::Result<()> {
    run(&rt)
}
