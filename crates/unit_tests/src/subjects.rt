//! What is tested: subjects, each of which is a table of cases.

use crate::{
    by_clauses, clause_parts, clauses, comparisons, diagrams, explained, fixpoints, formulas,
    graphs, netlists, operations, plays, rails, refused, settling, simulators, streams, unrolling,
    values,
};
use std::alloc::Global;
use std::test::Fail;

#[derive(Clone, Copy)]
enum Subject {
    Values,
    Streams,
    Netlists,
    Ticks,
    Plays,
    Explanations,
    Graphs,
    Unrolling,
    Diagrams,
    Operations,
    Covers,
    Rails,
    LoopsAlone,
    Formulas,
    Clauses,
    PartsOfClauses,
    PartsOfDecisions,
    Refusals,
    Comparisons,
}

const SUBJECTS: &[Subject] = &[
    Subject::Values,
    Subject::Streams,
    Subject::Netlists,
    Subject::Ticks,
    Subject::Plays,
    Subject::Explanations,
    Subject::Graphs,
    Subject::Unrolling,
    Subject::Diagrams,
    Subject::Operations,
    Subject::Covers,
    Subject::Rails,
    Subject::LoopsAlone,
    Subject::Formulas,
    Subject::Clauses,
    Subject::PartsOfClauses,
    Subject::PartsOfDecisions,
    Subject::Refusals,
    Subject::Comparisons,
];

/// Its name, and how many cases it has.
fn table(subject: Subject) -> (&'static str, u32) {
    match subject {
        Subject::Values => ("values", values::CASES),
        Subject::Streams => ("streams", 1),
        Subject::Netlists => ("netlists", netlists::CASES),
        Subject::Ticks => ("ticks", fixpoints::CASES),
        Subject::Plays => ("plays", 1),
        Subject::Explanations => ("explanations", explained::CASES),
        Subject::Graphs => ("graphs", graphs::CASES),
        Subject::Unrolling => ("unrolling", 1),
        Subject::Diagrams => ("diagrams", diagrams::CASES),
        Subject::Operations => ("operations", operations::CASES),
        Subject::Covers => ("covers", rails::CASES),
        Subject::Rails => ("rails", fixpoints::CASES),
        Subject::LoopsAlone => ("loops alone", settling::CASES),
        Subject::Formulas => ("formulas", formulas::CASES),
        Subject::Clauses => ("clauses", clauses::CASES),
        Subject::PartsOfClauses => ("parts of clauses", clause_parts::CASES),
        Subject::PartsOfDecisions => ("parts of decisions", by_clauses::CASES),
        Subject::Refusals => ("refusals", refused::CASES),
        Subject::Comparisons => ("comparisons", comparisons::CASES),
    }
}

/// Whether what is called in a case answers as it should.
fn is_right(alloc: Global, subject: Subject, case: u32) -> Result<bool, Fail> {
    match subject {
        Subject::Values => Ok(values::is_right(case)),
        Subject::Streams => Ok(streams::is_right()),
        Subject::Netlists => netlists::is_right(alloc, case),
        Subject::Ticks => simulators::is_right(alloc, case),
        Subject::Plays => plays::is_right(alloc),
        Subject::Explanations => explained::is_right(alloc, case),
        Subject::Graphs => graphs::is_right(alloc, case),
        Subject::Unrolling => unrolling::is_right(alloc),
        Subject::Diagrams => diagrams::is_right(alloc, case),
        Subject::Operations => operations::is_right(alloc, case),
        Subject::Covers => rails::is_right(alloc, case),
        Subject::Rails => fixpoints::is_right(alloc, case),
        Subject::LoopsAlone => settling::is_right(alloc, case),
        Subject::Formulas => Ok(formulas::is_right(alloc, case)?),
        Subject::Clauses => clauses::is_right(alloc, case),
        Subject::PartsOfClauses => clause_parts::is_right(alloc, case),
        Subject::PartsOfDecisions => by_clauses::is_right(alloc, case),
        Subject::Refusals => refused::is_right(alloc, case),
        Subject::Comparisons => comparisons::is_right(alloc, case),
    }
}

#[test]
fn each_case_is_right(rt: HostRuntime) -> Result<(), Fail> {
    for subject in SUBJECTS {
        let (name, cases) = table(*subject);
        for case in 0..cases {
            assert!(rt; is_right(rt.alloc(), *subject, case)?, "{name} at {case}");
        }
    }
    Ok(())
}
