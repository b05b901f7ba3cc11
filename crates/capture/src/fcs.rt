// The frame check sequence of IEEE 802.15.4 (IEEE 802.15.4-2006, 7.2.1.9), a byte at a time by a table.
ghost use Rattle.std.specs.Prelude.{◌≡◌};
ghost use Rattle.capture.specs.Fcs.{byte_in, fcs_of, IsTable};

use super::table::TABLE;

// One byte more. The caller has made the table once: a constant that is indexed is stored anew at each index.
fn byte_in(table: &[u16; 256], r: u16, b: u8) -> u16
    requires { IsTable table.now }
    ensures { result ≡ byte_in r b }
{
    let x = r ^ (b as u16);
    let i = (x & 255) as usize;
    (r >> 8) ^ table[i]
}

pub fn fcs(s: &[u8]) -> u16
    ensures { result ≡ fcs_of s.now }
{
    let table = TABLE;
    let mut r: u16 = 0;
    for &b in s {
        r = byte_in(&table, r, b);
    }
    r
}
