// An operation as it is kept.
ghost use Rattle.std.specs.Prelude.{◌≡◌, ◌≤◌, length};
ghost use Rattle.operation.specs.Limits.{limits};
ghost use Rattle.operation.specs.Packing.{packed, unpacked};

use crate::{BYTES, Packed};
use basics::lay;

impl Packed {
    // None: a place that holds no operation.
    pub const EMPTY: Packed = Packed {
        len: 0,
        bytes: [0; BYTES],
    };

    // The operation `op`, kept.
    pub fn of(op: &[u8]) -> Packed
        requires { length op.now ≤ limits.bytes }
        ensures { result ≡ packed limits op.now }
    {
        let mut bytes = [0; BYTES];
        lay(op, &mut bytes);
        Packed {
            // std has no `From` here: the check proves that nothing is lost.
            len: op.len() as u8,
            bytes,
        }
    }

    // Its bytes.
    pub fn op(&self) -> &[u8]
        requires { self.now.len ≤ limits.bytes }
        ensures value { result.now ≡ unpacked self.now }
        ensures len { length result.now ≡ self.now.len }
    {
        &self.bytes[..usize::from(self.len)]
    }
}
