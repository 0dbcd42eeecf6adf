// Plan texts through the reader, and through the answers that the programs write. Standard input has records: a line that says
// what the text is, a line with a count n, and n bytes, in which a letter may stand for a limit (limits.rt). For each it writes
// that line with the number and the place that reading gives; if the text is accepted, a line with its counts and what is kept of
// task 3 and of position 3; then the answer, and the answer with the margins.
#![tactic(auto)]

ghost use Rattle.std.specs.Prelude.{◌-◌, ◌<◌, ◌≤◌, length, IfOk};

use bench_answer::{MOST_ANSWER, MOST_SLACK_ANSWER};
use plan::{Constraint, Plan};
use std::io;
use std::io::{BufWriter, Read, Write};

mod limits;

// No input is longer, nor any text.
const ROOM: usize = 262144;

fn show_plan<W: Write>(out: &mut W, p: &Plan) -> io::Result<()> {
    write!(
        out,
        "\ttypes {}\tunits {}\ttasks {}",
        p.types, p.units[1], p.tasks
    )?;
    for k in 0..2 {
        let best = plan::time_of(&p.bcet, 3, k);
        let worst = plan::time_of(&p.wcet, 3, k);
        write!(out, "\tbest {best}\tworst {worst}")?;
    }
    let predecessors = plan::predecessors_of(&p.predecessors, 3);
    let deadline = plan::deadline_of(&p.deadlines, 3);
    let release = plan::release_of(&p.releases, 3);
    write!(
        out,
        "\tpredecessors {predecessors}\tdeadline {deadline}\trelease {release}"
    )
}

fn show_constraint<W: Write>(out: &mut W, c: &Constraint) -> io::Result<()> {
    write!(
        out,
        "\tlen {}\ttask {}\ttype {}",
        c.len, c.order[3], c.chosen[3]
    )
}

fn show_reading<W: Write>(out: &mut W, s: &[u8]) -> io::Result<()> {
    let a = plan_text::read(s);
    writeln!(out, "\t{}\t{}", a.number, a.place)?;
    if a.number == 0 {
        show_plan(out, &a.plan)?;
        show_constraint(out, &a.constraint)?;
        writeln!(out)?;
    }
    Ok(())
}

// The two that follow are one only by a bound `Fn` that names a const parameter, of which the prover makes no proof.
fn show_answer<W: Write>(out: &mut W, s: &[u8]) -> io::Result<()> {
    let mut text = [0; MOST_ANSWER];
    let length = bench_answer::answer(s, &mut text);
    out.write_all(&text[..length])
}

fn show_slack_answer<W: Write>(out: &mut W, s: &[u8]) -> io::Result<()> {
    let mut text = [0; MOST_SLACK_ANSWER];
    let length = bench_answer::slack_answer(s, &mut text);
    out.write_all(&text[..length])
}

fn show_text<W: Write>(out: &mut W, s: &[u8]) -> io::Result<()> {
    show_reading(out, s)?;
    show_answer(out, s)?;
    show_slack_answer(out, s)
}

// One array is lent for all records: it is not cleared for each.
fn show<W: Write>(out: &mut W, text: &mut [u8; ROOM], s: &[u8]) -> io::Result<()> {
    let n = limits::with_limits(s, text);
    show_text(out, text.get(..n).unwrap_or(&[]))
}

// The line at the front, without its newline, and what follows it.
fn split_line(bytes: &[u8]) -> (&[u8], &[u8])
    ensures { length result.1.now ≤ length bytes.now - 1 }
{
    match bytes.iter().position(|&b| b == b'\n') {
        Some(n) => (&bytes[..n], &bytes[n + 1..]),
        None => (bytes, &[]),
    }
}

// The count that a line has, of any bytes, as the last four bits of each tell; or one that is more than the input has room for.
fn count_of(line: &[u8]) -> usize
    ensures { result ≤ 2621455 }
{
    let count = line.iter().fold(0usize, |n, &b| {
        n.saturating_mul(10).saturating_add(usize::from(b & 15))
    });
    count.min(ROOM)
}

// The record at the front, and what follows it. A text ends with the input at the latest.
fn record<'a, W: Write>(out: &mut W, room: &mut [u8; ROOM], bytes: &'a [u8]) -> io::Result<&'a [u8]>
    ensures { IfOk result (λ rest. length rest.now ≤ length bytes.now - 1) }
{
    let (name, counted) = split_line(bytes);
    let (count, left) = split_line(counted);
    let (text, rest) = left
        .split_at_checked(count_of(count))
        .unwrap_or((left, &[]));
    out.write_all(name)?;
    show(out, room, text)?;
    Ok(rest)
}

fn records<W: Write>(out: &mut W, bytes: &[u8]) -> io::Result<()> {
    let mut room = [0; ROOM];
    let mut rest = bytes;
    while !rest.is_empty() {
        rest = record(out, &mut room, rest)?;
    }
    Ok(())
}

fn main(rt: HostRuntime) -> io::Result<()> {
    let mut bytes = Vec::new(rt.alloc());
    rt.stdin().take(ROOM as u64).read_to_end(&mut bytes)?;
    let mut out = BufWriter::new(rt.alloc(), rt.stdout())?;
    records(&mut out, &bytes)?;
    out.flush()
}
