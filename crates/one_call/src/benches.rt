//! The bench that calls are made on, and the state that they leave it in.

use crate::telling::{Host, personal, prepared, tell_refused};
use bench::{Bench, ReportFault};
use devices::Counted;
use octets::Octets;
use sieve_run::Meter;
use std::io;

/// The id of its message.
pub(crate) const ID: &[u8] = b"m";

/// A bench with a main script, and a message that expects that script's verdict. The verdict isn't
/// made yet.
pub(crate) fn bench_of(rt: &impl Host) -> io::Result<Bench> {
    let mut bench = Bench::new(rt.alloc())?;
    fill(rt, &mut bench)?;
    Ok(bench)
}

fn fill(rt: &impl Host, bench: &mut Bench) -> io::Result<()> {
    let text = Octets::copied(rt.alloc(), b"discard;")?;
    prepared(bench.put_script(personal(rt, b"main")?, text))?;
    prepared(bench.set_main(personal(rt, b"main")?))?;
    put_empty(rt, bench, ID)?;
    prepared(bench.set_expected(ID, Octets::copied(rt.alloc(), b"discard\n")?))
}

/// Puts a message of no octets.
pub(crate) fn put_empty(rt: &impl Host, bench: &mut Bench, id: &[u8]) -> io::Result<()> {
    let id = Octets::copied(rt.alloc(), id)?;
    prepared(bench.put_message(id, Octets::from_vec(Vec::new(rt.alloc()))))
}

/// Makes each verdict.
pub(crate) fn make_verdicts(bench: &mut Bench, meter: &mut Meter) -> io::Result<()> {
    prepared(bench.report(meter, &mut Counted::new(io::sink())))
}

/// Prints the report, its answer, and the number of runs.
pub(crate) fn tell_report(rt: &impl Print, bench: &mut Bench, meter: &mut Meter) -> io::Result<()> {
    let answer = bench.report(meter, &mut Counted::new(io::writer(rt)));
    tell_reported(rt, answer, meter)
}

/// Prints the answer of a report, and the number of runs.
pub(crate) fn tell_reported(
    rt: &impl Print,
    answer: Result<(), ReportFault>,
    meter: &Meter,
) -> io::Result<()> {
    match answer {
        Ok(()) => println!(rt; "ok")?,
        Err(ReportFault::NoMemory) => tell_refused(rt)?,
        Err(fault) => println!(rt; "{fault}")?,
    }
    println!(rt; "runs {}", meter.runs())
}
