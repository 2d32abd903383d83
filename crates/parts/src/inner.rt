// What `cubie` calls, each with what its caller must show.
ghost use Rattle.std.specs.Prelude.{◌≡◌, ◌&&◌};
ghost use Rattle.base.specs.Lists.{pick, Under, in_range};
ghost use Rattle.base.specs.Perm.{no_repeat};
ghost use Rattle.refusal.specs.Refusals.{checked};

use pieces::inner::{all_differ, in_range};
use refusal::Refusal;

// Refuses a number out of range: 4, 5 or 6, the lowest.
pub fn check_range(cp: [u8; 8], co: [u8; 8], ep: [u8; 12], eo: [u8; 12]) -> Result<(), Refusal>
    ensures { result ≡ checked (pick (in_range 8 cp) (pick (in_range 12 ep) (pick (in_range 3 co && in_range 2 eo) 0 6) 5) 4) }
{
    if !in_range(&cp, 8) {
        return Err(Refusal::Corner);
    }
    if !in_range(&ep, 12) {
        return Err(Refusal::Edge);
    }
    if in_range(&co, 3) && in_range(&eo, 2) {
        Ok(())
    } else {
        Err(Refusal::Range)
    }
}

// Whether no corner and no edge stands twice.
pub fn none_twice(cp: [u8; 8], ep: [u8; 12]) -> bool
    requires { Under 8 cp × Under 12 ep }
    ensures { result ≡ (no_repeat cp && no_repeat ep) }
{
    all_differ(&cp) && all_differ(&ep)
}
