// The codes of faults, and which fault an error of the readers is.
ghost use Rattle.std.specs.Prelude.{◌≡◌, ◌<◌, ◌≤◌, ◌⊎◌, IfErr, IfOk, OnOk, Some, None, length};
ghost use Rattle.netlist.specs.Netlists.{gate_at};
ghost use Rattle.report.specs.Texts.{tail_text};
ghost use Rattle.parsed_files.specs.Faults.{at_line, blif_fault, care_fault, flat_fault, of_file as whole, of_name, of_name_at, of_number_at, too_long as long};
ghost use Rattle.parsed_files.specs.ScheduleFiles.{event_fault, latch_name as name_of_latch, play_fault, sched_fault};
ghost use Rattle.parsed_files.specs.Seen.{error_seen, tail_seen};
ghost use Rattle.delay_core.specs.declared.fault.EventFault.TheVariants as event_faults;
ghost use Rattle.delay_core.specs.declared.fault.PlayFault.TheVariants as play_faults;

use crate::fault::{Fault, FaultTail, FileError};
use blif_read::BlifFault;
use care_sets::CareFault;
use cyc_base::{MAX_FILE_BYTES, Name};
use delay_core::{EventFault, PlayFault};
use flatten::FlatFault;
use netlist::Netlist;
use report::{FaultCode, Tail};
use sched_text::SchedFault;
use std::alloc::{AllocError, Global};

impl FaultTail {
    /// The same for the text of a fault.
    pub fn told(&self) -> Tail<'_>
        ensures { tail_text result ≡ tail_seen self.now }
    {
        match self {
            FaultTail::Nothing => Tail::Nothing,
            FaultTail::Name(name) => Tail::Name(name),
            FaultTail::Number(number) => Tail::Number(*number),
        }
    }
}

impl From<AllocError> for FileError {
    ghost from_gives = { λ _ e. error_seen e ≡ None };

    fn from(_: AllocError) -> Self {
        FileError::Memory
    }
}

fn of_file(code: FaultCode) -> FileError
    ensures { error_seen result ≡ Some (whole code) }
{
    FileError::Has(Fault {
        code,
        line: None,
        tail: FaultTail::Nothing,
    })
}

fn of_line(code: FaultCode, line: u64) -> FileError
    ensures { error_seen result ≡ Some (at_line code line) }
{
    FileError::Has(Fault {
        code,
        line: Some(line),
        tail: FaultTail::Nothing,
    })
}

fn naming(code: FaultCode, name: Name) -> FileError
    ensures { error_seen result ≡ Some (of_name code name) }
{
    FileError::Has(Fault {
        code,
        line: None,
        tail: FaultTail::Name(name),
    })
}

fn naming_line(code: FaultCode, line: u64, name: Name) -> FileError
    ensures { error_seen result ≡ Some (of_name_at code line name) }
{
    FileError::Has(Fault {
        code,
        line: Some(line),
        tail: FaultTail::Name(name),
    })
}

fn numbering_line(code: FaultCode, line: u64, number: u64) -> FileError
    ensures { error_seen result ≡ Some (of_number_at code line number) }
{
    FileError::Has(Fault {
        code,
        line: Some(line),
        tail: FaultTail::Number(number),
    })
}

/// The error of a file that is too long.
pub fn too_long() -> FileError
    ensures { error_seen result ≡ Some long }
{
    of_file(FaultCode::FileTooLong)
}

/// That the bytes of a file aren't too many.
pub(crate) fn check_length(bytes: &[u8]) -> Result<(), FileError>
    ensures short { OnOk result (length bytes.now ≤ MAX_FILE_BYTES) }
    ensures long { IfErr result (λ error. (MAX_FILE_BYTES < length bytes.now) × (error_seen error ≡ Some long)) }
{
    if bytes.len() > MAX_FILE_BYTES {
        return Err(too_long());
    }
    Ok(())
}

impl From<BlifFault> for FileError {
    ghost from_gives = { λ fault e. error_seen e ≡ blif_fault fault };

    fn from(fault: BlifFault) -> Self {
        match fault {
            BlifFault::BadByte { line } => of_line(FaultCode::BadByte, line),
            BlifFault::OutsideModel { line } => of_line(FaultCode::LineOutsideModel, line),
            BlifFault::BadModel { line } => of_line(FaultCode::BadModelLine, line),
            BlifFault::ModelTwice { line } => of_line(FaultCode::ModelTwice, line),
            BlifFault::LeftOut { line } => of_line(FaultCode::DirectiveLeftOut, line),
            BlifFault::UnknownDirective { line } => of_line(FaultCode::UnknownDirective, line),
            BlifFault::StrayRow { line } => of_line(FaultCode::StrayRow, line),
            BlifFault::BadRow { line } => of_line(FaultCode::BadRow, line),
            BlifFault::MixedRows { line } => of_line(FaultCode::MixedRows, line),
            BlifFault::NoOutputName { line } => of_line(FaultCode::NoOutputName, line),
            BlifFault::TooManyPins { line } => of_line(FaultCode::TooManyPins, line),
            BlifFault::BadLatch { line } => of_line(FaultCode::BadLatchLine, line),
            BlifFault::LevelLatch { line } => of_line(FaultCode::LevelLatch, line),
            BlifFault::BadSubckt { line } => of_line(FaultCode::BadSubcircuitLine, line),
            BlifFault::NoModel => of_file(FaultCode::NoModel),
            BlifFault::Memory => FileError::Memory,
        }
    }
}

impl From<FlatFault> for FileError {
    ghost from_gives = { λ fault e. error_seen e ≡ flat_fault fault };

    fn from(fault: FlatFault) -> Self {
        match fault {
            FlatFault::UnknownModel { name } => naming(FaultCode::UnknownModel, name),
            FlatFault::Recursive { name } => naming(FaultCode::RecursiveModel, name),
            FlatFault::UnknownFormal { name } => naming(FaultCode::UnknownFormal, name),
            FlatFault::FormalTwice { name } => naming(FaultCode::FormalTwice, name),
            FlatFault::OpenInput { name } => naming(FaultCode::OpenInput, name),
            FlatFault::TooLarge => of_file(FaultCode::NetlistTooLarge),
            FlatFault::TooDeep { name } => naming(FaultCode::TooDeep, name),
            FlatFault::DeclaredTwice { name } => naming(FaultCode::DeclaredTwice, name),
            FlatFault::DrivenTwice { name } => naming(FaultCode::DrivenTwice, name),
            FlatFault::Undriven { name } => naming(FaultCode::NotDriven, name),
            FlatFault::BadClock { name } => naming(FaultCode::BadClock, name),
            FlatFault::ClockRead { name } => naming(FaultCode::ClockRead, name),
            FlatFault::Memory => FileError::Memory,
        }
    }
}

impl From<CareFault> for FileError {
    ghost from_gives = { λ fault e. error_seen e ≡ care_fault fault };

    fn from(fault: CareFault) -> Self {
        match fault {
            CareFault::NoModels => of_file(FaultCode::NoCareModel),
            CareFault::HasLatch { model } => naming(FaultCode::CareModelHasLatch, model),
            CareFault::NotOneOutput { model } => naming(FaultCode::CareModelNeedsOneOutput, model),
            CareFault::UnknownName { name } => naming(FaultCode::UnknownCareName, name),
            CareFault::NotLatch { name } => naming(FaultCode::NotALatch, name),
            CareFault::Loop { model } => naming(FaultCode::CareModelHasLoop, model),
            CareFault::Memory => FileError::Memory,
        }
    }
}

// The name of a latch by its place among the latches.
fn latch_name(alloc: Global, net: &Netlist, number: u32) -> Result<Name, AllocError>
    ensures { IfOk result (λ name. name ≡ name_of_latch net.now number) }
{
    if number < net.latches() {
        net.latch(number).name.copy()
    } else {
        Ok(Name::new(Vec::new(alloc)))
    }
}

// The error of vectors or of a schedule for a netlist.
pub(crate) fn sched_error(alloc: Global, net: &Netlist, fault: SchedFault) -> FileError
    ensures { (error_seen result ≡ None) ⊎ (error_seen result ≡ sched_fault net.now fault) }
{
    match fault {
        SchedFault::BadLine { line } => of_line(FaultCode::BadLine, line),
        SchedFault::WrongWidth { line } => of_line(FaultCode::WrongWidth, line),
        SchedFault::UnknownGate { line, name } => naming_line(FaultCode::UnknownGate, line, name),
        SchedFault::BadStart { line, latch } => match latch_name(alloc, net, latch) {
            Ok(name) => naming_line(FaultCode::StartValueNotPermitted, line, name),
            Err(_) => FileError::Memory,
        },
        SchedFault::TickCount { line } => of_line(FaultCode::WrongNumberOfTicks, line),
        SchedFault::Memory => FileError::Memory,
    }
}

// The name of a gate by its place among the gates.
fn gate_name(alloc: Global, net: &Netlist, number: u32) -> Result<Name, AllocError>
    ensures { IfOk result (λ name. name ≡ (gate_at net.now number).name) }
{
    if number < net.gates() {
        net.gate(number).name.copy()
    } else {
        Ok(Name::new(Vec::new(alloc)))
    }
}

fn event_error(line: u64, fault: EventFault) -> FileError
    ensures { (error_seen result ≡ None) ⊎ (error_seen result ≡ event_fault line fault) }
{
    match fault {
        EventFault::NoGate => of_line(FaultCode::UnknownGate, line),
        EventFault::AgeCount => of_line(FaultCode::WrongNumberOfAges, line),
        EventFault::TooOld { pin } => numbering_line(FaultCode::AgeTooOld, line, u64::from(pin)),
        EventFault::Memory => FileError::Memory,
    }
}

/// The error of a schedule file whose play has this fault: the fault, or want of memory.
pub fn play_error(alloc: Global, net: &Netlist, fault: PlayFault) -> FileError
    ensures { (error_seen result ≡ None) ⊎ (error_seen result ≡ play_fault net.now fault) }
{
    match fault {
        PlayFault::Event { line, fault } => event_error(line, fault),
        PlayFault::Unfair { line, gate } => match gate_name(alloc, net, gate) {
            Ok(name) => naming_line(FaultCode::GateWithoutEvent, line, name),
            Err(_) => FileError::Memory,
        },
        PlayFault::Memory => FileError::Memory,
    }
}
