// What the program prints: a line for each row and each of the other places, the first difference of each, and the totals.
use crate::extras;
use crate::failure::Failure;
use crate::rows::compare_row;
use crate::show::Row;
use crate::tally::{Counts, Tally};
use instruction::FAMILIES;
use std::fmt::Display;

// Prints what was compared and how it came out, and adds it to the total.
fn report<N: Display>(
    rt: &HostRuntime,
    total: &mut Counts,
    name: &N,
    tally: Tally,
) -> Result<(), Failure> {
    println!(rt; "{name}: {tally}")?;
    total.add(tally.counts);
    Ok(())
}

pub fn run(rt: &HostRuntime) -> Result<(), Failure> {
    let heap = rt.alloc();
    let mut total = Counts::default();
    for family in &FAMILIES {
        report(rt, &mut total, &Row(family), compare_row(heap, family)?)?;
    }
    report(
        rt,
        &mut total,
        &"opcodes of no row",
        extras::no_instruction(heap)?,
    )?;
    report(rt, &mut total, &"empty code", extras::empty_code(heap)?)?;
    report(
        rt,
        &mut total,
        &"ip outside the code",
        extras::outside_code(heap)?,
    )?;
    report(
        rt,
        &mut total,
        &"cut instructions",
        extras::cut_instructions(heap)?,
    )?;
    report(
        rt,
        &mut total,
        &"code longer than the area",
        extras::long_code(heap)?,
    )?;
    let rows = FAMILIES.len();
    let Counts { cases, different } = total;
    println!(rt; "{rows} rows, {cases} cases, {different} differences")?;
    Ok(())
}
