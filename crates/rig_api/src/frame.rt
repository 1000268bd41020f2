//! The tuple of a frame.

ghost use Rattle.std.specs.Prelude.{◌≡◌, ◌+◌, ◌++◌, length};
ghost use Rattle.pi_tuple.specs.Tuples.{tuple_bytes};
ghost use Rattle.rig_api.specs.Frames.{data_of, tuple_of};
ghost use Rattle.pi_tuple.specs.declared.TheConstants.{TUPLE};

use pi_tuple::{TUPLE, Tuple};

/// The tuple behind so many bytes of data.
pub fn tuple_behind(frame: &[u8], size: usize) -> Tuple
    requires { length frame.now ≡ size + TUPLE }
    ensures { result ≡ tuple_of size frame.now }
{
    let mut bytes = [0; TUPLE];
    bytes.copy_from_slice(&frame[size..]);
    Tuple::from_bytes(&bytes)
}

/// Puts a tuple behind so many bytes of data.
pub fn put_tuple(frame: &mut [u8], size: usize, tuple: Tuple)
    requires { length frame.old ≡ size + TUPLE }
    ensures { frame.new ≡ data_of size frame.old ++ tuple_bytes tuple }
{
    frame[size..].copy_from_slice(&tuple.to_bytes());
}
