// What a simulated chip has whatever its part: /WP, the time it takes, and the cable to it.
ghost use Rattle.std.specs.Prelude.{◌≡◌, ◌≤◌, MatchOption};

use chip::model::Start;

#[derive(Clone, Copy)]
pub(crate) struct Line {
    pub(crate) wp: bool,
    pub(crate) busy: u16,
    pub(crate) slow: u16,
    pub(crate) carry: u32,
    ghost bounded: { (busy ≤ 1000) × ((slow ≤ 1000) × (carry ≤ 1000000)) },
}

impl Line {
    // The line of a chip that starts so. Refused where it would be slower, or its cable carry more, than a chip may.
    pub(crate) fn started(start: Start) -> Option<Line>
        ensures { MatchOption result ((start.slow ≤ 1000) × (start.carry ≤ 1000000) → ⊥) (λ l. ((start.slow ≤ 1000) × (start.carry ≤ 1000000)) × ((l.wp ≡ start.wp) × ((l.busy ≡ 0) × ((l.slow ≡ start.slow) × (l.carry ≡ start.carry))))) }
    {
        if start.slow > 1000 || start.carry > 1_000_000 {
            return None;
        }
        Some(Line {
            wp: start.wp,
            busy: 0,
            slow: start.slow,
            carry: start.carry,
        })
    }
}
