// Lent bytes of a length that is said, and cubes in them.
ghost use Rattle.std.specs.Prelude.{◌≡◌, length, IfOk, IfErr, IsErrOf};
ghost use Rattle.cubie.specs.Cube.{cube_of};
ghost use Rattle.refusal.specs.declared.Refusal.TheVariants.{Length};

use cubie::CubieCube;
use refusal::Refusal;

// Refuses lent bytes of another length than is said, with 10.
pub fn check_len(bytes: &[u8], n: usize) -> Result<(), Refusal>
    ensures ok { IfOk result (λ _. length bytes.now ≡ n) }
    ensures err { IfErr result (λ r. (r ≡ Length) × (length bytes.now ≡ n → ⊥)) }
{
    if bytes.len() == n {
        Ok(())
    } else {
        Err(Refusal::Length)
    }
}

// The cube in 40 lent bytes; 10 for another number of them.
pub fn cube_at(bytes: &[u8]) -> Result<CubieCube, Refusal>
    ensures ok { IfOk result (λ c. (length bytes.now ≡ 40) × (c ≡ cube_of bytes.now)) }
    ensures err { IfErr result (λ r. (r ≡ Length) × (length bytes.now ≡ 40 → ⊥)) }
{
    check_len(bytes, 40)?;
    Ok(cube_bytes::inner::cube_of(bytes))
}
