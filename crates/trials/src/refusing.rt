// The refusals that a wish can have once the chip is looked at, on a simulated W25Q16JW.
use crate::wishing::{BLANK, TOP};
use chip::model::{Registers, Start};
use parts::jw::W25q16jw;
use plan::wish::Term;
use session::Session;
use units::Range;

// How a wish for a range is refused: of a chip with these registers and no lock bit, /WP low, that has been looked at, over
// a cable that carries so much more; none where there is no such chip.
// Stays a number in `Err`: that is what a sheet tells, and what this pins. Stays beside `kept_block`, too: the chips that the
// two begin with differ in all but the part.
fn refusal(
    registers: Registers,
    more: u16,
    range: Range,
    term: Term,
    room: usize,
) -> Option<Result<(), u8>> {
    let chip = W25q16jw::new(Start {
        registers,
        locks: 0,
        wp: false,
        slow: 100,
        carry: 66 + u32::from(more),
    })?;
    let mut session = Session::open(chip, 1);
    let _ = session.look();
    let mut places = [BLANK; 126];
    let answer = session.reach(&[range], term, &mut places[..room.min(126)]);
    Some(answer.map(|_| ()).map_err(|fault| fault.number()))
}

const BLOCK_30: Range = Range {
    first: 0x1E_0000,
    last: 0x1E_FFFF,
};

fn range(first: u32, last: u32) -> Range {
    Range { first, last }
}

fn plain(sr1: u8, sr2: u8, sr3: u8) -> Registers {
    Registers { sr1, sr2, sr3 }
}

#[test]
fn a_wish_is_refused_by_the_first_check_that_fails(rt: HostRuntime) {
    let free = plain(0, 0, 0);
    // block 31 by its code, block 30 by its lock bit
    assert_eq!(rt; refusal(free, 900, TOP, Term::Now, 126), Some(Ok(())));
    assert_eq!(rt; refusal(free, 900, BLOCK_30, Term::Now, 126), Some(Ok(())));
    assert_eq!(rt;
        refusal(free, 900, range(0x1F_FFFF, 0x1F_0000), Term::Now, 126),
        Some(Err(5))
    );
    assert_eq!(rt;
        refusal(free, 900, range(0x1F_0000, 0x20_0000), Term::Now, 126),
        Some(Err(5))
    );
    assert_eq!(rt;
        refusal(free, 900, range(0x1E_0000, 0x1E_0FFF), Term::Now, 126),
        Some(Err(6))
    );
    assert_eq!(rt;
        refusal(plain(0, 0x80, 0), 900, TOP, Term::Now, 126),
        Some(Err(10))
    );
    assert_eq!(rt;
        refusal(free, 900, BLOCK_30, Term::Kept, 126),
        Some(Err(11))
    );
    assert_eq!(rt;
        refusal(plain(0, 0x01, 0), 900, TOP, Term::Kept, 126,),
        Some(Err(12))
    );
    assert_eq!(rt;
        refusal(plain(0x80, 0, 0), 900, TOP, Term::Kept, 126,),
        Some(Err(13))
    );
    assert_eq!(rt; refusal(free, 900, TOP, Term::Now, 1), Some(Err(17)));
    assert_eq!(rt; refusal(free, 0, TOP, Term::Now, 126), Some(Err(14)));
    assert_eq!(rt; refusal(free, 2, TOP, Term::Now, 126), Some(Err(14)));
    assert_eq!(rt; refusal(free, 900, TOP, Term::Kept, 126), Some(Err(15)));
}
