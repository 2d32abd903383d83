// A cube to its 40 bytes and back, with what the caller must show.
ghost use Rattle.std.specs.Prelude.{◌≡◌, length};
ghost use Rattle.cubie.specs.Cube.{bytes_of, cube_of};

use cubie::CubieCube;

// The 40 bytes of a cube.
pub fn put_cube(c: CubieCube, out: &mut [u8])
    requires { length out.old ≡ 40 }
    ensures { out.new ≡ bytes_of c }
{
    out[0..8].copy_from_slice(&c.cp);
    out[8..16].copy_from_slice(&c.co);
    out[16..28].copy_from_slice(&c.ep);
    out[28..40].copy_from_slice(&c.eo);
}

// A cube from its 40 bytes.
pub fn cube_of(s: &[u8]) -> CubieCube
    requires { length s.now ≡ 40 }
    ensures { result ≡ cube_of s.now }
{
    let mut cp = [0u8; 8];
    let mut co = [0u8; 8];
    let mut ep = [0u8; 12];
    let mut eo = [0u8; 12];
    cp.copy_from_slice(&s[0..8]);
    co.copy_from_slice(&s[8..16]);
    ep.copy_from_slice(&s[16..28]);
    eo.copy_from_slice(&s[28..40]);
    CubieCube { cp, co, ep, eo }
}
