// What bytes hold as a whole, taken part by part.
ghost use Rattle.std.specs.Prelude.{◌≡◌, ◌%◌, ◌<◌};
ghost use Rattle.cases.specs.Bytes.{begun_by, reduced, with_byte, with_bytes};

// How many bytes are not 0, modulo 10^8, and the remainders, by two primes, of the number whose digits of base 256 are a
// leading number and then the bytes. The primes are below 10^8, so that eight digits hold a remainder, and the powers of
// 256 up to the longest listing's and the longest grid's differ by each of them.
#[derive(Clone, Copy)]
pub struct Digest {
    pub marked: u64,
    pub first: u64,
    pub second: u64,
}

impl Digest {
    // The digest of no bytes after a leading number.
    pub fn begun(lead: u64) -> Digest
        ensures { result ≡ begun_by lead }
    {
        Digest {
            marked: 0,
            first: lead % 99999989,
            second: lead % 99999959,
        }
    }

    // The digest of more bytes after those before.
    pub fn extended(self, bytes: &[u8]) -> Digest
        ensures { result ≡ with_bytes (reduced self) bytes.now }
    {
        let mut digest = Digest {
            marked: self.marked % 100000000,
            first: self.first % 99999989,
            second: self.second % 99999959,
        };
        for byte in bytes {
            digest = digest.with(*byte);
        }
        digest
    }

    // The digest of one byte more.
    fn with(self, byte: u8) -> Digest
        requires { (self.marked < 100000000) × (self.first < 99999989) × (self.second < 99999959) }
        ensures { result ≡ with_byte self byte }
    {
        Digest {
            marked: if byte == 0 {
                self.marked
            } else {
                (self.marked + 1) % 100000000
            },
            first: (self.first * 256 + u64::from(byte)) % 99999989,
            second: (self.second * 256 + u64::from(byte)) % 99999959,
        }
    }
}

// The last eight decimal digits of a number.
pub fn eight(n: u64) -> u32
    ensures { result ≡ n % 100000000 }
{
    (n % 100000000) as u32
}
