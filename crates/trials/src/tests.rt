use crate::wishing::{BLANK, TOP, ended};
use chip::interface::Chip;
use chip::model::{Bytes, Command, Registers, Start};
use parts::jw::W25q16jw;
use parts::xa::W25x16a;
use plan::wish::Term;
use session::Session;
use std::test::Fail;
use units::Range;

fn command(code: u8, bytes: Bytes) -> Command {
    Command { code, bytes }
}

// A start with SR2 and SR3 clear, and /WP high.
fn start(sr1: u8, locks: u64, slow: u16, carry: u32) -> Start {
    Start {
        registers: Registers {
            sr1,
            sr2: 0,
            sr3: 0,
        },
        locks,
        wp: true,
        slow,
        carry,
    }
}

// A kept wish for block 31 on a W25Q16JW that is this slow, over a cable that carries so much, and what is shown as
// protected then; none where there is no such chip.
fn kept_block(slow: u16, carry: u32) -> Option<(Result<usize, (u8, usize)>, Option<u64>)> {
    let chip = W25q16jw::new(start(0, 0x3FFF_FFFF_FFFF_FFFF, slow, carry))?;
    let mut session = Session::open(chip, 1);
    let _ = session.look();
    let mut places = [BLANK; 126];
    let answer = ended(session.reach(&[TOP], Term::Kept, &mut places));
    Some((answer, session.protected()))
}

#[test]
fn block_31_for_now_and_block_30_for_good(rt: HostRuntime) -> Result<(), Fail> {
    let Some(chip) = W25q16jw::new(start(0, 0x3FFF_FFFF_FFFF_FFFF, 0, 100)) else {
        return Err(Fail::new("no chip"));
    };
    let mut session = Session::open(chip, 0);
    let _ = session.look();
    let mut places = [BLANK; 126];
    assert_eq!(rt; ended(session.reach(&[TOP], Term::Now, &mut places)), Ok(2));
    assert_eq!(rt; places[0], command(0x50, Bytes::Zero));
    assert_eq!(rt; places[1], command(0x01, Bytes::Two(0x04, 0x00)));
    assert_eq!(rt; session.protected(), Some(0x3FFF_C000_0000_0000));
    let next = [Range {
        first: 0x1E0000,
        last: 0x1EFFFF,
    }];
    assert_eq!(rt;
        ended(session.reach(&next, Term::Kept, &mut places)),
        Err((11, 0))
    );
    let cut = [Range {
        first: 0x010000,
        last: 0x010FFF,
    }];
    assert_eq!(rt;
        ended(session.reach(&cut, Term::Now, &mut places)),
        Err((6, 0))
    );
    Ok(())
}

#[test]
fn the_wait_ends_at_the_hundredth_read(rt: HostRuntime) {
    let block = Some(0x3FFF_C000_0000_0000);
    assert_eq!(rt; kept_block(99, 1000), Some((Ok(4), block)));
    assert_eq!(rt; kept_block(100, 1000), Some((Err((15, 2)), block)));
    assert_eq!(rt;
        kept_block(99, 66 + 1 + 2 + 100 + 2 + 100),
        Some((Ok(4), block))
    );
    assert_eq!(rt;
        kept_block(99, 66 + 1 + 2 + 100 + 2 + 99),
        Some((Err((14, 4)), block))
    );
    assert_eq!(rt; kept_block(99, 66 + 1 + 1), Some((Err((14, 1)), Some(0))));
    assert_eq!(rt; kept_block(99, 66), Some((Err((14, 0)), Some(0))));
}

#[test]
fn the_older_part_writes_one_register(rt: HostRuntime) -> Result<(), Fail> {
    let Some(chip) = W25x16a::new(start(0x80, 0, 3, 50)) else {
        return Err(Fail::new("no chip"));
    };
    let mut session = Session::open(chip, 2);
    let _ = session.look();
    let mut places = [BLANK; 2];
    let low = [Range {
        first: 0,
        last: 0x0FFFFF,
    }];
    assert_eq!(rt; ended(session.reach(&low, Term::Now, &mut places)), Ok(2));
    assert_eq!(rt; places[0], command(0x06, Bytes::Zero));
    assert_eq!(rt; places[1], command(0x01, Bytes::One(0xB4)));
    session.key(false);
    assert_eq!(rt;
        ended(session.reach(&[], Term::Kept, &mut places)),
        Err((13, 0))
    );
    assert_eq!(rt; ended(session.reach(&low, Term::Kept, &mut places)), Ok(0));
    Ok(())
}
