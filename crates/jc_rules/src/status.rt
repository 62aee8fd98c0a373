//! The status of a line.
ghost use Rattle.std.specs.Prelude.{◌≡◌};
ghost use Rattle.std.specs.List.{list_any, list_all};
ghost use Rattle.jc_rules.specs.Placed.{both, state_of};

/// What of a line is covered.
#[derive(Clone, Copy, Debug, PartialEq, Eq)]
pub enum LineState {
    /// No instruction that counts has the line.
    Empty,
    /// None of its instructions and of their branches is covered.
    Not,
    /// Some of them are covered, and some are missed.
    Partly,
    /// None of them is missed.
    Fully,
}

/// A line of a class.
#[derive(Clone, Copy, Debug, PartialEq, Eq)]
pub struct LineStatus {
    /// The line's number in the source file.
    pub line: u32,
    /// What of the line is covered.
    pub status: LineState,
}

/// Whether one of the values is true.
fn is_any(values: &[bool]) -> bool
    ensures { result ≡ list_any (λ value. value) values.now }
{
    values.iter().any(|value| *value)
}

/// Whether each of the values is true.
fn are_all(values: &[bool]) -> bool
    ensures { result ≡ list_all (λ value. value) values.now }
{
    values.iter().all(|value| *value)
}

/// The status of a line that has one instruction alone, by whether each of its branches is covered.
pub fn state_of(values: &[bool]) -> LineState
    ensures { result ≡ state_of values.now }
{
    match (is_any(values), are_all(values)) {
        (false, _) => LineState::Not,
        (true, false) => LineState::Partly,
        (true, true) => LineState::Fully,
    }
}

/// The status of a line that has the instructions of both statuses.
pub fn both(one: LineState, other: LineState) -> LineState
    ensures { result ≡ both one other }
{
    match (one, other) {
        (LineState::Empty, status) | (status, LineState::Empty) => status,
        (LineState::Not, LineState::Not) => LineState::Not,
        (LineState::Fully, LineState::Fully) => LineState::Fully,
        _ => LineState::Partly,
    }
}
