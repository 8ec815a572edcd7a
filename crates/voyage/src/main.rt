// A list of calls from set-up on, made by the one call that carries the promise, and the answer to each.
#![tactic(auto)]

use board::admission::Admission;
use board::gathered::Gathered;
use judges::demand::Demand;
use model::fault::{NamingFault, Numbered, RequestFault};
use model::wanted::Wanted;
use placement::best::Best;
use promise::call::{Answer, Call};
use promise::history::run;
use std::io;
use store::fault::BufferFault;

// One processor with key 7, (2, 4, 4) whole, and an empty one.
const IMAGE: [u8; 26] = [
    1, 2, 1, 0, 1, 0, 0, 0, 0, 0, 7, 0, 0, 0, 2, 0, 0, 0, 4, 0, 0, 0, 4, 0, 0, 0,
];

fn ask(key: u32, budget: u32, deadline: u32, period: u32) -> Call<'static> {
    Call::Admit(Wanted {
        key,
        budget,
        deadline,
        period,
    })
}

fn show(rt: &HostRuntime, answer: &Answer) -> io::Result<()> {
    match answer {
        Answer::Admitted(r) => show_admission(rt, r),
        Answer::Withdrawn(r) => show_withdrawal(rt, r),
        Answer::Loaded(r) => show_load(rt, r),
    }
}

fn show_admission(rt: &HostRuntime, r: &Result<Admission, RequestFault>) -> io::Result<()> {
    match r {
        Ok(admission) => {
            for placed in admission.rows() {
                let key = placed.row.key;
                let processor = placed.processor;
                let budget = placed.row.timing.budget;
                println!(rt; "admitted: {budget} ticks of {key} on processor {processor}")?;
            }
            Ok(())
        }
        Err(fault) => show_refusal(rt, fault),
    }
}

fn show_withdrawal(rt: &HostRuntime, r: &Result<Gathered, NamingFault>) -> io::Result<()> {
    match r {
        Ok(gathered) => {
            for key in gathered.keys.as_slice() {
                println!(rt; "withdrawn: gathered {key}")?;
            }
            Ok(())
        }
        Err(fault) => show_refusal(rt, fault),
    }
}

fn show_refusal<F: Numbered>(rt: &HostRuntime, fault: &F) -> io::Result<()> {
    let number = fault.number();
    println!(rt; "refused {number}")
}

fn show_load(rt: &HostRuntime, r: &Result<(), BufferFault>) -> io::Result<()> {
    match r {
        Ok(_) => println!(rt; "loaded"),
        Err(fault) => {
            let number = fault.rule.number();
            let place = fault.place;
            println!(rt; "refused {number} at {place}")
        }
    }
}

fn main(rt: HostRuntime) -> io::Result<()> {
    let calls = [
        ask(1, 6, 10, 10),
        ask(2, 6, 10, 10),
        ask(3, 10, 20, 20),
        Call::Withdraw { key: 1 },
        Call::Withdraw { key: 9 },
        Call::Load { image: &IMAGE },
        Call::Load {
            image: &IMAGE[0..25],
        },
        ask(7, 1, 1, 1),
    ];
    let Ok(judge) = Demand::new(1, 0) else {
        return println!(rt; "no such judge");
    };
    let Ok(outcome) = run(rt.alloc(), 2, judge, Best, &calls) else {
        return println!(rt; "not set up");
    };
    for answer in outcome.answers.as_slice() {
        show(&rt, answer)?;
    }
    Ok(())
}
