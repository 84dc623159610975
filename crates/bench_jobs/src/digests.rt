// A digest of bytes.
ghost use Rattle.std.specs.Prelude.{◌≡◌};
ghost use Rattle.bench_jobs.specs.declared.digests.TheConstants.{FNV_BASIS};

const FNV_BASIS: u64 = 0xcbf2_9ce4_8422_2325;

const FNV_PRIME: u64 = 0x0000_0100_0000_01b3;

/// A digest of 64 bits of all bytes that were added so far, by FNV-1a.
#[derive(Clone, Copy)]
pub struct Digest {
    pub word: u64,
}

impl Digest {
    /// The digest of no bytes.
    pub fn new() -> Digest
        ensures { result.word ≡ FNV_BASIS }
    {
        Digest { word: FNV_BASIS }
    }

    pub fn add(&mut self, bytes: &[u8]) {
        for byte in bytes {
            self.word = (self.word ^ u64::from(*byte)).wrapping_mul(FNV_PRIME);
        }
    }
}
