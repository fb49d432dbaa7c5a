// The specification's own worked cases (document 01, "Sums done by hand"), run and printed: P7 to P12, P11 in steps too, and P9 from the file. What it
// must write stands in stdout, by hand. All other cases run through the archive: a proved program pays for each call that it makes.
#![tactic(auto)]

mod show;

use narrow_checker::whole::check;
use narrow_checker::without_tables::check_rounds;
use narrow_file::read;
use narrow_prover::prove::prove;
use narrow_steps::state::State;
use narrow_tables::sum::true_sum;
use show::{Verdict, line, list};
use std::io;

// P7, the sum.
fn sum(rt: &impl Print, tables: &[u32]) -> io::Result<()> {
    if let Ok(x) = true_sum(2, 2, tables) {
        line(rt, x)?;
    }
    Ok(())
}

// P7 and P8: the rounds, the list one place longer and scratch two.
fn prover(rt: &impl Print, tables: &[u32], challenges: &[u32]) -> io::Result<()> {
    let mut messages = [8u32; 7];
    let mut scratch = [9u32; 10];
    if prove(2, 2, tables, challenges, &mut messages, &mut scratch).is_ok() {
        list(rt, &messages)?;
        list(rt, &scratch)?;
    }
    Ok(())
}

// P9: the verdict, and the last value without tables.
fn checker(
    rt: &impl Print,
    tables: &[u32],
    claim: u32,
    challenges: &[u32],
    messages: &[u32],
) -> io::Result<()> {
    line(
        rt,
        Verdict(check(2, 2, tables, claim, challenges, messages)),
    )?;
    if let Ok(x) = check_rounds(2, 2, claim, challenges, messages) {
        line(rt, x)?;
    }
    Ok(())
}

// The file, and P9 with what was read.
fn file(rt: &impl Print, tables: &[u32], challenges: &[u32], bytes: &[u8]) -> io::Result<()> {
    let mut messages = [8u32; 6];
    if let Ok(head) = read(bytes, &mut messages) {
        list(rt, &[head.vars, head.degree, head.claim])?;
        list(rt, &messages)?;
        checker(rt, tables, head.claim, challenges, &messages)?;
    }
    Ok(())
}

// The cases of the tables 0, 1, 2, 0 and 3, 4, 1, 2.
fn two_tables(rt: &impl Print, tables: &[u32], challenges: &[u32], bytes: &[u8]) -> io::Result<()> {
    println!(rt; "P7 sum, P7 and P8 rounds with a place to spare, scratch with two, the file, P9")?;
    sum(rt, tables)?;
    prover(rt, tables, challenges)?;
    file(rt, tables, challenges, bytes)
}

// The false claim 11 of the table 3, 4, 1, 2.
fn one_table(
    rt: &impl Print,
    table: &[u32],
    lucky: &[u32],
    other: &[u32],
    messages: &[u32],
) -> io::Result<()> {
    println!(rt; "P10, P11")?;
    line(rt, Verdict(check(2, 1, table, 11, lucky, messages)))?;
    line(rt, Verdict(check(2, 1, table, 11, other, messages)))
}

// P11 in steps: the running claim after round 1, and what closing says after round 2.
fn steps(rt: &impl Print, one: &[u32], two: &[u32]) -> io::Result<()> {
    println!(rt; "P11 in steps")?;
    let first = State::open(2, 1, 11).state.step(one, 5).state;
    line(rt, first.claim)?;
    let second = first.step(two, 9).state;
    line(rt, Verdict(second.close(0).outcome))
}

// P12.
fn no_variables(rt: &impl Print, tables: &[u32], none: &[u32]) -> io::Result<()> {
    println!(rt; "P12")?;
    line(rt, Verdict(check(0, 2, tables, 35, none, none)))?;
    line(rt, Verdict(check(0, 2, tables, 36, none, none)))
}

fn main(rt: HostRuntime) -> io::Result<()> {
    two_tables(
        &rt,
        &[0, 1, 2, 0, 3, 4, 1, 2],
        &[3, 1],
        b"sumproof=1\nfield=2147483647\nvars=2\ndegree=2\nclaim=6\nround=4,0,2147483645\nround=2147483629,30,2147483639\nend=2\n",
    )?;
    one_table(&rt, &[3, 4, 1, 2], &[0, 9], &[5, 9], &[7, 2147483644, 3, 1])?;
    steps(&rt, &[7, 2147483644], &[3, 1])?;
    no_variables(&rt, &[5, 7], &[])
}
