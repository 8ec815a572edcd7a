// A guest's judge and rule at work: one processor filled to the last tick, one with a tick left, and a board whose odd
// processors go first.
#![tactic(auto)]

use board::admission::Admission;
use board::gathered::Gathered;
use guest::odd_first::OddFirst;
use guest::same_period::SamePeriod;
use guest::visit::visit;
use model::fault::{NamingFault, Numbered, RequestFault};
use model::wanted::Wanted;
use processor::asking::MOST_ROWS;
use promise::call::{Answer, Call};
use promise::history::Outcome;
use std::{array, io};

// Every reservation here is released every 41 ticks at the soonest.
const PERIOD: u32 = 41;

fn ask(key: u32, budget: u32, deadline: u32) -> Call<'static> {
    Call::Admit(Wanted {
        key,
        budget,
        deadline,
        period: PERIOD,
    })
}

// 23 of budget 1 and 9 of budget 2 fill the 41 ticks. Their shares, 25,576 and 51,151 after rounding up, come to
// 23 × 25,576 + 9 × 51,151 = 1,048,607, which is 31 more than the scale.
fn full(rt: &HostRuntime) -> io::Result<()> {
    let calls: [Call; MOST_ROWS] = array::from_fn(|i| {
        let budget = if i < 23 { 1 } else { 2 };
        ask(i as u32 + 1, budget, PERIOD)
    });
    println!(rt; "32 reservations on one processor")?;
    show(rt, 1, &calls)
}

// Beside 40 ticks two do not fit, and one does, if it is due at the next release and not sooner: sooner than that only
// density counts, and 1,023,001 leaves 25,575. The shares are 1,023,001 and 25,576, one more than the scale.
fn nearly_full(rt: &HostRuntime) -> io::Result<()> {
    println!(rt; "one processor with one tick left")?;
    show(
        rt,
        1,
        &[ask(1, 40, 41), ask(2, 2, 41), ask(3, 1, 40), ask(4, 1, 41)],
    )
}

// No two of 30 ticks share a processor, so they go to 1, 3, 5, 2, 4. Then 11 fit beside each, first on 1, then on 3; and
// when the one on 3 leaves, the next of 30 goes there. The shares are 767,251 and 281,326.
fn odd_first(rt: &HostRuntime) -> io::Result<()> {
    println!(rt; "five processors")?;
    show(
        rt,
        5,
        &[
            ask(1, 30, 41),
            ask(2, 30, 41),
            ask(3, 30, 41),
            ask(4, 30, 41),
            ask(5, 30, 41),
            ask(6, 11, 41),
            ask(7, 11, 41),
            Call::Withdraw { key: 2 },
            ask(8, 30, 41),
        ],
    )
}

// Makes the calls, and prints each answer and then each processor's spare share.
fn show(rt: &HostRuntime, processors: u32, calls: &[Call]) -> io::Result<()> {
    let Ok(outcome) = visit(rt.alloc(), processors, calls) else {
        return println!(rt; "not set up");
    };
    for answer in outcome.answers.as_slice() {
        show_answer(rt, answer)?;
    }
    show_spare(rt, &outcome)
}

fn show_answer(rt: &HostRuntime, answer: &Answer) -> io::Result<()> {
    match answer {
        Answer::Admitted(r) => show_admission(rt, r),
        Answer::Withdrawn(r) => show_withdrawal(rt, r),
        Answer::Loaded(_) => println!(rt; "  a load"),
    }
}

// Programs show what was made in their own words.
fn show_admission(rt: &HostRuntime, r: &Result<Admission, RequestFault>) -> io::Result<()> {
    match r {
        Ok(admission) => {
            for placed in admission.rows() {
                let key = placed.row.key;
                let budget = placed.row.timing.budget;
                let processor = placed.processor;
                println!(rt; "  {key}: budget {budget}, processor {processor}")?;
            }
            Ok(())
        }
        Err(fault) => show_refusal(rt, fault),
    }
}

fn show_withdrawal(rt: &HostRuntime, r: &Result<Gathered, NamingFault>) -> io::Result<()> {
    match r {
        Ok(_) => println!(rt; "  gone"),
        Err(fault) => show_refusal(rt, fault),
    }
}

fn show_refusal<F: Numbered>(rt: &HostRuntime, fault: &F) -> io::Result<()> {
    let number = fault.number();
    println!(rt; "  refused {number}")
}

fn show_spare(rt: &HostRuntime, outcome: &Outcome<SamePeriod, OddFirst>) -> io::Result<()> {
    for (i, processor) in outcome.board.plan.processors.iter().enumerate() {
        let number = i + 1;
        let rows = processor.rows.len();
        let spare = processor.spare();
        println!(rt; "  processor {number}: {rows} of 32 rows, spare share {spare}")?;
    }
    Ok(())
}

fn main(rt: HostRuntime) -> io::Result<()> {
    full(&rt)?;
    nearly_full(&rt)?;
    odd_first(&rt)
}
