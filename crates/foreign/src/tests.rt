use crate::chip_of_another_part::ForeignChip;
use chip::interface::Chip;
use session::Session;
use std::test::Fail;

// A look, with the number of its refusal.
// Stays a number in `Err`: that is what a sheet tells, and what the tests pin.
fn look(session: &mut Session<ForeignChip>) -> Result<u64, u8> {
    session.look().map_err(|fault| fault.number())
}

// Two looks, one after the other; none where there is no such chip.
fn two_looks(number: u32, busy: u16, carry: u32) -> Option<(Result<u64, u8>, Result<u64, u8>)> {
    let chip = ForeignChip::new(number, 0x84, busy, carry)?;
    let mut session = Session::open(chip, 7);
    let first = look(&mut session);
    let second = look(&mut session);
    Some((first, second))
}

#[test]
fn another_part_number_is_refused(rt: HostRuntime) {
    assert_eq!(rt; two_looks(0xEF6015, 5, 100), Some((Err(16), Err(16))));
    assert_eq!(rt; two_looks(0xEF8015, 5, 100), None);
    assert_eq!(rt; two_looks(0xEF3015, 5, 100), None);
}

#[test]
fn a_look_at_it_costs_two_more_than_it_is_busy(rt: HostRuntime) {
    assert_eq!(rt; two_looks(0x123456, 5, 6), Some((Err(14), Err(14))));
    assert_eq!(rt; two_looks(0x123456, 5, 7), Some((Err(16), Err(14))));
    assert_eq!(rt; two_looks(0x123456, 99, 101), Some((Err(16), Err(14))));
    assert_eq!(rt; two_looks(0x123456, 100, 1000), Some((Err(15), Err(16))));
}

#[test]
fn it_stays_blind_whatever_is_done(rt: HostRuntime) -> Result<(), Fail> {
    let Some(chip) = ForeignChip::new(0xFFFFFF, 0, 0, 50) else {
        return Err(Fail::new("no chip"));
    };
    let mut session = Session::open(chip, 65535);
    assert_eq!(rt; look(&mut session), Err(16));
    session.key(false);
    session.power();
    assert_eq!(rt; session.protected(), None);
    assert_eq!(rt; session.number(), 65535);
    assert_eq!(rt;
        session.judge(0x20, 0).map_err(|fault| fault.number()),
        Err(8)
    );
    Ok(())
}
