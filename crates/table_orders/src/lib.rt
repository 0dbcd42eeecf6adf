// The order that the bench proposes, as C lines in a lent buffer (document 02, 8).
#![tactic(auto)]

ghost use Rattle.std.specs.Prelude.{◌≡◌, ◌≤◌, length};
ghost use Rattle.plan.specs.Rules.{most_tasks};
ghost use Rattle.plan.specs.Refusals.{refused};
ghost use Rattle.table_orders.specs.OrderTable.{order_buffer_after, order_line, order_tabled, order_text_of};
ghost use Rattle.table_lines.specs.Steps.{Outcome, Put, Room};

use plan::{Constraint, Plan, Verdict};
use proposal_theory::Proposal;
use table_lines::{
    Written, accepted, decimal_length, fits, put_bytes, put_each, put_pair, total_length,
};

// Bytes enough for the C lines of every proposal.
pub const ORDER_ROOM: usize = 448;

// Writes the line of a task t on type k.
fn put_entry(buffer: &mut [u8], at: usize, t: usize, k: usize) -> usize
    requires { Room buffer.old at (order_line t k) }
    ensures { Put buffer.old at (order_line t k) buffer.new result }
{
    let next = put_bytes(buffer, at, b"C\t");
    put_pair(buffer, next, t, k, b'\n')
}

fn entry_length(t: usize, k: usize) -> usize
    ensures { (result ≡ length (order_line t k)) × (result ≤ 44) }
{
    decimal_length(t) + decimal_length(k) + 4
}

// How many bytes the lines of all positions have.
fn order_length(c: &Constraint) -> usize
    requires { c.now.len ≤ most_tasks }
    ensures { result ≡ length (order_text_of c.now) }
{
    total_length(c.len, |i| entry_length(c.order[i], c.chosen[i]))
}

// Writes these lines from the start of the buffer on.
fn put_order(c: &Constraint, buffer: &mut [u8]) -> usize
    requires { (c.now.len ≤ most_tasks) × Room buffer.old 0 (order_text_of c.now) }
    ensures { Put buffer.old 0 (order_text_of c.now) buffer.new result }
{
    put_each(
        buffer,
        c.len,
        |buffer, at, i| put_entry(buffer, at, c.order[i], c.chosen[i]),
    )
}

// The lines of a proposal: its refusal, or 19 where the buffer is too short, or the bytes of the lines that are written.
fn write_order(a: &Proposal, buffer: &mut [u8]) -> Result<usize, Verdict>
    requires { a.now.constraint.len ≤ most_tasks }
    ensures { Outcome (refused a.now.number a.now.place) (order_text_of a.now.constraint) buffer.old result buffer.new }
{
    accepted(a.number, a.place)?;
    let c = &a.constraint;
    fits(order_length(c), buffer.len())?;
    Ok(put_order(c, buffer))
}

// The C lines of the order that the bench proposes for a plan.
#[tactic(auto, using(crate::proofs::Proposed::order_few, crate::proofs::Proposed::order_answer, crate::proofs::Proposed::order_bytes, crate::proofs::Proposed::order_refused, crate::proofs::Proposed::order_untouched))]
pub fn proposal_table(p: Plan, buffer: &mut [u8]) -> Written
    ensures { (result ≡ order_tabled p (length buffer.old))
        × (buffer.new ≡ order_buffer_after p buffer.old) }
{
    let a = proposal::propose(p);
    Written::from(write_order(&a, buffer))
}
