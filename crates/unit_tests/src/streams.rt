//! A stream that takes no more bytes.

use cyc_io::{Failed, HostSink, write_whole};

/// Whether a write of no bytes fails.
pub fn is_right() -> bool {
    let mut room = [0; 3];
    let mut short = HostSink::new(&mut room[..]);
    write_whole(&mut short, b"written") == Err(Failed)
}
