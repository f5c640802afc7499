// Demand 3: what a system of equations between symbols comes to. What each case says of it stands in specs/Verdict.
#[derive(Clone, Copy, Debug, PartialEq, Eq)]
pub enum Verdict {
    Solved,
    Contradiction,
    Open(u32),
}
