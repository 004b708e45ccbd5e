//! What the pins of an event see.

ghost use Rattle.std.specs.Prelude.{◌≡◌, ◌+◌, ◌<◌, ◌≤◌, length, All, IfSome, nat_lt, not, position, vec_capacity};
ghost use Rattle.std.specs.List.Sorted.{IsNonDecreasing};
ghost use Rattle.schedules.specs.Moments.{newest, seen};
ghost use Rattle.schedules.specs.Fairness.{earliest};
ghost use Rattle.delay_core.specs.Plays.{starts_of};

use crate::timeline::Timeline;
use cyc_base::Sig;

/// The first age that names a moment before the first allowed one.
pub(crate) fn first_too_old(ages: &[u32], first: usize, moments: usize) -> Option<usize>
    requires { first ≤ moments }
    ensures first { result ≡ position (λ age. nat_lt moments (first + age)) ages.now }
    ensures within { IfSome result (λ pin. pin < length ages.now) }
{
    let reach = moments - first;
    ages.iter().position(|&age| age as usize > reach)
}

/// What pins on these signals see, each at the moment of its age.
pub(crate) fn read_pins(timeline: &Timeline, pins: &[Sig], ages: &[u32], bits: &mut Vec<bool>)
    requires count { length ages.now ≡ length pins.now }
    requires room { length pins.now ≤ vec_capacity bits.old }
    requires signals { All (λ s. s.0 < length (newest timeline.now.history)) pins.now }
    requires ages { All (λ age. age < length timeline.now.history) ages.now }
    ensures seen { bits.new.items ≡ seen timeline.now.history pins.now ages.now }
    ensures capacity { vec_capacity bits.new ≡ vec_capacity bits.old }
{
    bits.clear();
    for i in 0..pins.len() {
        bits.push_reserved(timeline.value(pins[i].0 as usize, ages[i] as usize));
    }
}

/// The number of the earliest moment that this round of a tick may read, where the tick opened with the moment
/// `opening` and its events came in these rounds.
pub(crate) fn first_moment(
    window: u32,
    opening: usize,
    marks: &[u64],
    round: u64,
    moments: usize,
) -> usize
    requires moments { opening + length marks.now ≡ moments }
    requires opening { 1 ≤ opening }
    requires rising { IsNonDecreasing marks.now }
    ensures first { result ≡ earliest window (starts_of opening marks.now round) }
    ensures there { result ≤ moments }
    ensures some { 1 ≤ result }
{
    let window = window as u64;
    if round <= window {
        return 1;
    }
    let since = round - window;
    opening + marks.partition_point(|&mark| mark < since)
}

/// The first gate that had no event.
pub(crate) fn first_without(done: &[bool]) -> Option<usize>
    ensures first { result ≡ position (λ had. not had) done.now }
    ensures within { IfSome result (λ gate. gate < length done.now) }
{
    done.iter().position(|&had| !had)
}
