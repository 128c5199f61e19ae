// The fields of a record, lowest byte first.
ghost use Rattle.std.specs.Prelude.{◌≡◌, ◌+◌, ◌*◌, ◌≤◌, length};
ghost use Rattle.comtrade_dat.specs.BinaryRecord.{count_in, number_in, record_at};

use byteorder::{ByteOrder, LittleEndian};

// The bytes of the record at an index, which are all there.
pub(crate) fn record_at(size: usize, dat: &[u8], index: usize) -> &[u8]
    requires { size * (index + 1) ≤ length dat.now }
    ensures value { result.now ≡ record_at size dat.now index }
    ensures len { length result.now ≡ size }
{
    let start = size * index;
    &dat[start..start + size]
}

// The sample number.
pub(crate) fn number_in(bytes: &[u8]) -> u32
    requires { 4 ≤ length bytes.now }
    ensures { result ≡ number_in bytes.now }
{
    LittleEndian::read_u32(bytes)
}

// The count of the channel at a position.
pub(crate) fn count_in(bytes: &[u8], position: usize) -> i16
    requires { 10 + 2 * position ≤ length bytes.now }
    ensures { result ≡ count_in bytes.now position }
{
    LittleEndian::read_i16(&bytes[8 + 2 * position..])
}
