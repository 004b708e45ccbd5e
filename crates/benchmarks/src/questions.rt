//! The question of a netlist in DIMACS form, in the clauses that `cyc check` asks it in: does a care vector leave a gate on a
//! loop unknown? The formula has a model exactly where one does.

ghost use Rattle.std.specs.Prelude.{◌≡◌, ◌<◌, length, All, IfOk};
ghost use Rattle.care_sets.specs.Binding.{IsCareOf};
ghost use Rattle.netlist.specs.Netlists.{count};
ghost use Rattle.clause_decision.specs.Scopes.{AreNeverUnknown, IsScopeOf};

use care_sets::Care;
use clause_decision::{Cone, Scope, cone_of};
use clause_formulas::negation;
use cyc_base::{Items, Name};
use cyc_io::{
    Failed, HostShelf, HostSink, Sink, TextSink, put_number_between, read_whole, write_whole,
};
use feedback_cuts::NetlistLoops;
use isolation::{LOOP_NODES, settled_loops};
use loops::{LoopedNetlist, upstream_of};
use netlist::Netlist;
use parsed_files::{care_of, netlist_of};
use std::alloc::{AllocError, Global};
use std::io;
use ternary_clauses::Rails;
use verdict::known_gates;

// The gates on loops that aren't marked.
fn gates_on_loops(
    alloc: Global,
    looped: &LoopedNetlist<'_>,
    known: &[bool],
) -> Result<Vec<u32>, AllocError>
    requires { length known.now ≡ length looped.now.net.gates }
    ensures { IfOk result (λ gates. All (λ n. n < length looped.now.net.gates) gates.items) }
{
    let mut open = Vec::new(alloc);
    for gate in 0..looped.net().gates() {
        if !known[gate as usize] && looped.are_in_one_loop(gate, gate) {
            open.push(gate)?;
        }
    }
    Ok(open)
}

// These gates with all upstream of them.
fn scope_of(
    alloc: Global,
    looped: &LoopedNetlist<'_>,
    known: Vec<bool>,
    open: &[u32],
) -> Result<Scope, AllocError>
    requires width { length known.items ≡ length looped.now.net.gates }
    requires known { AreNeverUnknown looped.now.net known.items }
    requires open { All (λ n. n < length looped.now.net.gates) open.now }
    ensures { IfOk result (IsScopeOf looped.now.net) }
{
    Ok(Scope {
        gates: Items::of(upstream_of(alloc, looped, open)?),
        known: Items::of(known),
    })
}

// The literals that say that these gates are unknown.
fn unknown_literals(
    alloc: Global,
    net: &Netlist,
    rails: &[Rails],
    gates: &[u32],
) -> Result<Vec<u32>, AllocError>
    requires gates { All (λ n. n < length net.now.gates) gates.now }
    requires width { length rails.now ≡ count net.now }
{
    gates
        .iter()
        .map(|gate| negation(rails[net.gate_sig(*gate).0 as usize].known))
        .collect(alloc)
}

// A literal is twice its variable here, and one more where it negates it. DIMACS counts variables from 1.
fn put_literal<K: Sink>(sink: &mut K, literal: u32) -> Result<(), Failed> {
    let sign: &[u8] = if literal % 2 == 0 { b"" } else { b"-" };
    put_number_between(sink, sign, u64::from(literal / 2) + 1, b" ")
}

fn put_clause<K: Sink>(sink: &mut K, clause: &[u32]) -> Result<(), Failed> {
    for literal in clause {
        put_literal(sink, *literal)?;
    }
    write_whole(sink, b"0\n")
}

// The clauses of a list in which the number of its literals stands before each of them, and how many they are.
fn put_clauses<K: Sink>(sink: &mut K, numbers: &[u32]) -> Result<u64, Failed> {
    let mut clauses: u64 = 0;
    let mut left: u32 = 0;
    for number in numbers {
        if left == 0 {
            left = *number;
            clauses = clauses.saturating_add(1);
        } else {
            put_literal(sink, *number)?;
            left -= 1;
            if left == 0 {
                write_whole(sink, b"0\n")?;
            }
        }
    }
    Ok(clauses)
}

// The clauses of a cone, that its vector is of care, and that one of these literals is true.
fn put_question<K: Sink>(
    alloc: Global,
    sink: &mut K,
    cone: &Cone,
    unknown: &[u32],
) -> Result<(), Failed> {
    let mut clauses = TextSink::new(alloc);
    let number = put_clauses(&mut clauses, &cone.formula.literals)?;
    put_number_between(sink, b"p cnf ", cone.formula.variables, b" ")?;
    put_number_between(sink, b"", number.saturating_add(3), b"\n")?;
    write_whole(sink, &clauses.into_vec())?;
    put_clause(sink, &[cone.inside])?;
    put_clause(sink, &[cone.allowed])?;
    put_clause(sink, unknown)
}

// The question of a netlist on its care set.
fn put_question_of<K: Sink>(
    alloc: Global,
    sink: &mut K,
    net: &Netlist,
    care: &Care,
) -> io::Result<()>
    requires { IsCareOf net.now care.now }
{
    let loops = NetlistLoops::find(alloc, net)?;
    let looped = loops.looped();
    let settled = settled_loops(alloc, &looped, LOOP_NODES)?;
    let known = known_gates(alloc, &looped, &settled)?;
    let open = gates_on_loops(alloc, &looped, &known)?;
    let scope = scope_of(alloc, &looped, known, &open)?;
    let Ok(cone) = cone_of(alloc, net, care, &scope) else {
        return Err(io::Error::other("too many clauses, or out of memory"));
    };
    let unknown = unknown_literals(alloc, net, &cone.rails, &open)?;
    match put_question(alloc, sink, &cone, &unknown) {
        Ok(()) => Ok(()),
        Err(_) => Err(io::Error::other("the formula wasn't written")),
    }
}

// The bytes of a file.
fn bytes_of(rt: &HostRuntime, alloc: Global, file: &str) -> io::Result<Vec<u8>> {
    let name = Name::copied_from(alloc, file.as_bytes())?;
    match read_whole(alloc, &mut HostShelf::new(alloc, rt), &name) {
        Ok(bytes) => Ok(bytes),
        Err(_) => Err(io::Error::other("a file wasn't read")),
    }
}

// The care set of a file, and each vector without one.
fn care_in(rt: &HostRuntime, alloc: Global, net: &Netlist, file: Option<&str>) -> io::Result<Care>
    ensures { IfOk result (IsCareOf net.now) }
{
    let Some(file) = file else {
        return Ok(Care::none());
    };
    let bytes = bytes_of(rt, alloc, file)?;
    match care_of(alloc, net, &bytes) {
        Ok(care) => Ok(care),
        Err(_) => Err(io::Error::other("the second file is no care file of the netlist")),
    }
}

/// Writes to out the question of the netlist of a file, on the care set of another one.
pub fn write_question(
    rt: &HostRuntime,
    alloc: Global,
    netlist: &str,
    care: Option<&str>,
) -> io::Result<()> {
    let Ok(net) = netlist_of(alloc, bytes_of(rt, alloc, netlist)?) else {
        return Err(io::Error::other("the first file is no netlist"));
    };
    let care = care_in(rt, alloc, &net, care)?;
    put_question_of(alloc, &mut HostSink::new(rt.stdout()), &net, &care)
}
