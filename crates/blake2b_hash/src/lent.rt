// The running hash, lent and advanced where it is: each function takes the hash by `&mut`, and leaves the work to the by-value one.
ghost use Rattle.std.specs.Prelude.{◌≡◌};
ghost use Rattle.blake2b_hash.specs.Running.{started, stepped, finished};

use crate::Hash;

// The lent hash becomes the one before the first block.
pub fn start(hash: &mut Hash)
    ensures { hash.new ≡ started 32 }
{
    *hash = Hash::start();
}

// The lent hash goes over a whole block that is not the last.
pub fn step(hash: &mut Hash, block: &[u8; 128])
    ensures { hash.new ≡ stepped hash.old block.now }
{
    let next = (*hash).step(block);
    *hash = next;
}

// The digest of what was absorbed and the rest. The lent hash becomes the one before the first block, for the next message.
pub fn finish(hash: &mut Hash, rest: &[u8]) -> [u8; 32]
    ensures { (result ≡ finished 32 hash.old rest.now) × (hash.new ≡ started 32) }
{
    let digest = (*hash).finish(rest);
    *hash = Hash::start();
    digest
}
