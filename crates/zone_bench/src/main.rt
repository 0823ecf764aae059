// Times the closing, the step and the reading of a zone of eight basins: zone_bench ROUNDS.
// Without ROUNDS it prints what a few rounds leave; bench/zones.rs, the same in plain Rust, must print the same.
#![tactic(auto)]

use anyhow::anyhow;
use refusal::Refusal;
use std::env;
use std::time::Instant;
use zones::{Range, Rate, Reading};

const BASINS: usize = 8;

const NUMBERS: usize = 81;

const RATES: [Rate; BASINS] = [Rate { rise: 3, fall: 2 }; BASINS];

const RANGES: [Range; BASINS] = [Range {
    least: 100,
    most: 900,
}; BASINS];

// Reading k is of a basin alone, or of it and the next.
fn reading(k: usize) -> Reading {
    let first = (k % 8) as u8 + 1;
    if k % 16 < 8 {
        Reading {
            first,
            second: 0,
            low: 460,
            high: 540,
        }
    } else {
        Reading {
            first,
            second: first % 8 + 1,
            low: -30,
            high: 30,
        }
    }
}

fn first_zone() -> Result<[i64; NUMBERS], Refusal> {
    let mut zone = [0; NUMBERS];
    zones::set_first(BASINS, &RANGES, &mut zone)?;
    Ok(zone)
}

// The zone of the start, and twelve readings met without a closing: work for one.
fn rough_zone() -> Result<[i64; NUMBERS], Refusal> {
    let mut zone = first_zone()?;
    for met in (0..12).map(reading) {
        let at = usize::from(met.first) * 9 + usize::from(met.second);
        if let Some(bound) = zone.get_mut(at) {
            *bound = bounds::sharper(*bound, met.high);
        }
    }
    Ok(zone)
}

fn closed_zone() -> Result<[i64; NUMBERS], Refusal> {
    let mut zone = rough_zone()?;
    zones::close(BASINS, &mut zone)?;
    Ok(zone)
}

// What is left of a zone by a change, in so many rounds: one number for each, so that no round can be left out.
fn left_by<F: Fn(usize, &mut [i64; NUMBERS]) -> Result<(), Refusal>>(
    start: [i64; NUMBERS],
    rounds: usize,
    change: F,
) -> Result<i64, Refusal>
    requires { F.IsAlwaysCallable change }
{
    let mut sum = 0i64;
    for round in 0..rounds {
        let mut zone = start;
        change(round, &mut zone)?;
        sum = sum.wrapping_mul(31).wrapping_add(zone[round % NUMBERS]);
    }
    Ok(sum)
}

fn left_by_closing(rounds: usize) -> Result<i64, Refusal> {
    left_by(rough_zone()?, rounds, |_, zone| zones::close(BASINS, zone))
}

fn left_by_steps(rounds: usize) -> Result<i64, Refusal> {
    left_by(
        closed_zone()?,
        rounds,
        |_, zone| zones::step(BASINS, &RATES, zone),
    )
}

fn left_by_readings(rounds: usize) -> Result<i64, Refusal> {
    left_by(first_zone()?, rounds, |round, zone| {
        zones::meet(BASINS, reading(round), zone)
    })
}

// Times so many rounds of some work. As in table_bench: a crate for these lines alone would be no plainer.
fn time<F: FnOnce(usize) -> Result<i64, Refusal>>(
    rt: &HostRuntime,
    what: &str,
    rounds: usize,
    work: F,
) -> anyhow::Result<()>
    requires { F.IsAlwaysCallable work }
{
    let start = Instant::now(rt)?;
    let sum = taken(work(rounds))?;
    let nanos = start.elapsed(rt)?.as_nanos() / (rounds as u128).max(1);
    println!(rt; "{what} {nanos} ns {sum}")?;
    Ok(())
}

// Nothing here is refused.
fn taken(sum: Result<i64, Refusal>) -> anyhow::Result<i64> {
    sum.map_err(|refusal| anyhow!("{refusal}"))
}

fn run(rt: &HostRuntime) -> anyhow::Result<()> {
    let Some(rounds) = env::args(rt)?.nth(1) else {
        let closed = taken(left_by_closing(100))?;
        let stepped = taken(left_by_steps(100))?;
        let met = taken(left_by_readings(100))?;
        println!(rt; "close {closed}\nstep {stepped}\nmeet {met}")?;
        return Ok(());
    };
    let rounds = rounds.as_str().parse::<usize>()?;
    time(rt, "close", rounds, left_by_closing)?;
    time(rt, "step", rounds, left_by_steps)?;
    time(rt, "meet", rounds, left_by_readings)
}

fn main(rt: HostRuntime) -> anyhow::Result<()> {
    run(&rt)
}
