// The hash of names, and the inode core.
ghost use Rattle.std.specs.Prelude.{◌≡◌};
ghost use Rattle.edition.specs.Edition.{v4};
ghost use Rattle.name.specs.Name.{hash_of};
ghost use Rattle.dinode.specs.Core.{tested};
ghost use Rattle.pelunziwa.specs.Answers.{Fitting, sound, as_core};

use crate::Core;
use edition::V4;

// The hash of a name.
#[unsafe(no_mangle)]
pub extern "C" fn pzw_hash(name: &[u8]) -> u32
    ensures { result ≡ hash_of v4 name.now }
{
    name::hash(V4::edition(), name) as u32
}

// The fields of a sound inode.
fn sound(c: dinode::Core) -> Core
    requires { Fitting c }
    ensures { result ≡ sound c }
{
    Core {
        refusal: 0,
        magic: c.magic as u32,
        mode: c.mode as u32,
        version: c.version as u32,
        format: c.format as u32,
        forkoff: c.forkoff as u32,
        aformat: c.aformat as u32,
        size: c.size,
    }
}

// Tests an inode core and gives its fields.
#[unsafe(no_mangle)]
pub extern "C" fn pzw_inode_test(inode: &[u8]) -> Core
    ensures { result ≡ as_core (tested v4 inode.now) }
{
    match dinode::test(inode) {
        Ok(core) => sound(core),
        Err(refusal) => Core {
            refusal: refusal.number(),
            magic: 0,
            mode: 0,
            version: 0,
            format: 0,
            forkoff: 0,
            aformat: 0,
            size: 0,
        },
    }
}
