// What a line of a schedule is.
ghost use Rattle.std.specs.Prelude.{◌≡◌};
ghost use Rattle.sched_text.specs.Kinds.{format_of, kind_of_head, kind_of, kind, may_follow, lacks_lines};

use crate::pieces::PieceLine;

/// What a line of a schedule is, by its first word; a line `schedule` also by its second.
#[derive(Clone, Copy)]
pub enum ScheduleKind {
    FormatOne,
    FormatTwo,
    Window,
    Past,
    Latches,
    State,
    Gates,
    Tick,
    Round,
    Event,
    Unknown,
}

// What a line is whose first word is `schedule`.
fn format_of(line: &PieceLine<'_>) -> ScheduleKind
    ensures { result ≡ format_of line.now.words }
{
    if line.words() != 2 {
        return ScheduleKind::Unknown;
    }
    let format = line.word(1);
    if format == b"1".as_slice() {
        ScheduleKind::FormatOne
    } else if format == b"2".as_slice() {
        ScheduleKind::FormatTwo
    } else {
        ScheduleKind::Unknown
    }
}

// What a line is by its first word, where it stands before the gates' starting values.
fn kind_of_head(word: &[u8]) -> ScheduleKind
    ensures { result ≡ kind_of_head word.now }
{
    if word == b"latches".as_slice() {
        ScheduleKind::Latches
    } else if word == b"state".as_slice() {
        ScheduleKind::State
    } else if word == b"past".as_slice() {
        ScheduleKind::Past
    } else if word == b"window".as_slice() {
        ScheduleKind::Window
    } else {
        ScheduleKind::Unknown
    }
}

// What a line is by its first word, where that isn't `schedule`.
fn kind_of(word: &[u8]) -> ScheduleKind
    ensures { result ≡ kind_of word.now }
{
    if word == b"e".as_slice() {
        ScheduleKind::Event
    } else if word == b"round".as_slice() {
        ScheduleKind::Round
    } else if word == b"tick".as_slice() {
        ScheduleKind::Tick
    } else if word == b"gates".as_slice() {
        ScheduleKind::Gates
    } else {
        kind_of_head(word)
    }
}

// What a line is.
pub fn kind_at(line: &PieceLine<'_>) -> ScheduleKind
    ensures { result ≡ kind line.now }
{
    if line.words() == 0 {
        return ScheduleKind::Unknown;
    }
    let first = line.word(0);
    if first == b"schedule".as_slice() {
        return format_of(line);
    }
    kind_of(first)
}

// Whether a line may stand behind a line of this kind, or first.
pub fn may_follow(before: Option<ScheduleKind>, kind: ScheduleKind) -> bool
    ensures { result ≡ may_follow before kind }
{
    match before {
        None => matches!(kind, ScheduleKind::FormatOne | ScheduleKind::FormatTwo),
        Some(ScheduleKind::FormatOne) => matches!(kind, ScheduleKind::Latches),
        Some(ScheduleKind::FormatTwo) => matches!(kind, ScheduleKind::Window),
        Some(ScheduleKind::Window | ScheduleKind::Past) => {
            matches!(
                kind,
                ScheduleKind::Past | ScheduleKind::Latches | ScheduleKind::State
            )
        }
        Some(ScheduleKind::Latches | ScheduleKind::State) => matches!(kind, ScheduleKind::Gates),
        Some(ScheduleKind::Gates) => matches!(kind, ScheduleKind::Tick),
        Some(ScheduleKind::Tick) => matches!(kind, ScheduleKind::Tick | ScheduleKind::Round),
        Some(ScheduleKind::Round | ScheduleKind::Event) => {
            matches!(
                kind,
                ScheduleKind::Tick | ScheduleKind::Round | ScheduleKind::Event
            )
        }
        Some(ScheduleKind::Unknown) => false,
    }
}

// Whether a line is missing where the text ends behind a line of this kind.
pub fn lacks_lines(before: Option<ScheduleKind>) -> bool
    ensures { result ≡ lacks_lines before }
{
    !matches!(
        before,
        Some(ScheduleKind::Gates | ScheduleKind::Tick | ScheduleKind::Round | ScheduleKind::Event)
    )
}
