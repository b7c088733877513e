// What a face protects.
ghost use Rattle.chip.specs.Effect.{Plain};
ghost use Rattle.picture.specs.Protection.{code, protected};
ghost use Rattle.std.specs.Prelude.{◌≡◌, ◌<◌};

use chip::effect;
use chip::model::Face;

// The block protection code.
fn code_of(face: Face) -> u8
    ensures value { result ≡ code face }
    ensures bound { result < 64 }
{
    face.working.sr2 / 64 % 2 * 32 + face.working.sr1 / 4 % 32
}

// The protected units.
#[tactic(auto, unfolding(crate::specs::Protection::protected))]
pub(crate) fn protected(face: Face) -> u64
    ensures { result ≡ protected face }
{
    if effect::has_wps(face) {
        return face.locks;
    }
    let Some(set) = units::set_of(code_of(face)) else {
        // a code has six bits
        unreachable()
    };
    set
}
