//! What `bench/*.sh` measures of single crates: `benchmarks NAME SIZE` times the diagrams of one function, and
//! `benchmarks sat` solves the formula on standard input, and `benchmarks question NETLIST [CARE]` writes what `cyc check`
//! asks of these files as a formula. Without words it makes small functions.
#![tactic(auto)]

mod diagrams;
mod formulas;
mod functions;
mod netlists;
mod queens;
mod questions;
mod work;

use diagrams::{time_sized, time_small};
use formulas::solve;
use questions::write_question;
use std::{env, io};

// Does what the words ask for.
fn run(rt: &HostRuntime, words: &[String]) -> io::Result<()> {
    match words {
        [] => time_small(rt, rt.alloc()),
        [word] if word.as_str() == "sat" => {
            let text = io::read_to_string(rt.alloc(), rt.stdin())?;
            solve(rt, rt.alloc(), &text)
        }
        [word, net] if word.as_str() == "question" => { write_question(rt, rt.alloc(), net, None) }
        [word, net, care] if word.as_str() == "question" => {
            write_question(rt, rt.alloc(), net, Some(care))
        }
        [name, size] => time_sized(rt, rt.alloc(), name, size),
        _ => Err(io::Error::other("usage: benchmarks NAME SIZE, sat, or question NETLIST [CARE]")),
    }
}

fn main(rt: HostRuntime) -> io::Result<()> {
    let words: Vec<String> = env::args(&rt)?.skip(1).collect(rt.alloc())?;
    run(&rt, &words)
}
