use cyc_base::Name;
use report::FaultCode;

/// What stands behind the words of a fault.
#[derive(Drop)]
pub enum FaultTail {
    Nothing,
    Name(Name),
    Number(u64),
}

/// A fault of a file: its code, its line where it has one, and what stands behind its words.
#[derive(Drop)]
pub struct Fault {
    pub code: FaultCode,
    pub line: Option<u64>,
    pub tail: FaultTail,
}

/// Why the bytes of a file have no meaning.
#[derive(Drop)]
pub enum FileError {
    Has(Fault),
    Memory,
}
