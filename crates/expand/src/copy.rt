// Bytes of a slice put into lent bytes; and lent bytes cleared.
ghost use Rattle.std.specs.Prelude.{◌≡◌, length, take, drop, replicate};
ghost use Rattle.octets.specs.Write.{put};

// How many bytes there are from a place on.
pub fn left(s: &[u8], at: usize) -> usize
    ensures { result ≡ length (drop at s.now) }
{
    s.len().saturating_sub(at)
}

// Puts n bytes of s, from the place `from` on, into lent bytes from the place `at` on. What lies past an end is
// dropped.
// Places and a length, no slices: a slice past an end would not be total.
pub fn put_slice(buf: &mut [u8], at: usize, s: &[u8], from: usize, n: usize)
    ensures { buf.new ≡ put at (take n (drop from s.now)) buf.old }
{
    let m = n.min(left(s, from)).min(left(buf, at));
    // No `copy_from_slice`: its code takes an address for a number of 64 bits, which a controller of 32 bits does not
    // have (examples/cortex-m).
    for i in 0..m {
        buf[at + i] = s[from + i];
    }
}

// Every byte 0.
pub fn clear(room: &mut [u8])
    ensures { room.new ≡ replicate (length room.old) 0 }
{
    room.fill(0);
}
