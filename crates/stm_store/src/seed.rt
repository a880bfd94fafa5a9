//! The seed of a table, on which the places of names in its map depend.

ghost use Rattle.std.specs.Prelude.{bit_xor};
ghost use Rattle.std.specs.Hash.FoldHasher as folding;

use std::hash::{BuildHasher, FoldHasher, Hasher};
use std::random::RandomSource;

/// The hasher of names: two fast ones that begin in different states, joined by xor.
///
/// One of them, in a secret state, is no cryptographic hash: the bytes 8 to 16 of a name are a factor of a product, and with
/// some factors about one pair of names in 1,600 collides whatever the state is. Two names collide here only if they do in two
/// states that have nothing to do with each other, or by chance. This takes 8 to 20 instructions more for each look-up than one
/// such hasher; SipHash takes some 500 more.
#[derive(Clone, Copy)]
pub struct NameHasher {
    first: FoldHasher,
    second: FoldHasher,
}

impl Hasher for NameHasher {
    ghost write = { λ h bytes. record { first = folding.write h.first bytes; second = folding.write h.second bytes } };

    ghost finish = { λ h. bit_xor (folding.finish h.first) (folding.finish h.second) };

    fn finish(&self) -> u64 {
        self.first.finish() ^ self.second.finish()
    }

    fn write(&mut self, bytes: &[u8]) {
        self.first.write(bytes);
        self.second.write(bytes);
    }
}

/// The seed of a table: the states from which its names are hashed. Without it nobody can choose names that collide.
/// Nothing that a table returns depends on it.
#[derive(Clone, Copy)]
pub struct Seed {
    hasher: NameHasher,
}

impl Seed {
    /// The seed that is always the same, and known to all.
    pub fn fixed() -> Seed {
        let mut second = FoldHasher::default();
        // The two states must differ: the xor of equal ones is 0.
        second.write(b"second");
        Seed {
            hasher: NameHasher {
                first: FoldHasher::default(),
                second,
            },
        }
    }

    /// A seed of random bytes. If the system has none, it is the fixed one: names that collide cost time, and nothing else.
    pub fn random(rt: &impl RandomSource) -> Seed {
        let mut seed = Seed::fixed();
        let mut bytes = [0; 16];
        if rt.fill_bytes(&mut bytes).is_ok() {
            seed.hasher.first.write(&bytes[..8]);
            seed.hasher.second.write(&bytes[8..]);
        }
        seed
    }
}

impl BuildHasher for Seed {
    type Hasher = NameHasher;

    ghost build_hasher = { λ s. s.hasher };

    fn build_hasher(&self) -> NameHasher {
        self.hasher
    }
}
