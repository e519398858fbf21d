//! The numbers by which names are found.

ghost use Rattle.std.specs.Prelude.{◌≡◌, ◌≤◌, length};
ghost use Rattle.esx_events.specs.declared.name.TheConstants.{MAX_NAME};
ghost use Rattle.esx_journal.specs.Marks.{number_of, numbers_of, pair_of};

/// At most eight bytes as a number.
fn number_of(bytes: &[u8]) -> u64
    requires { length bytes.now ≤ 8 }
    ensures { result ≡ number_of bytes.now }
{
    let mut number = 0_u64;
    for done in 0..bytes.len() {
        let byte = bytes[bytes.len() - 1 - done];
        number = number * 256 + u64::from(byte);
    }
    number
}

/// At most sixteen bytes as two numbers.
fn pair_of(bytes: &[u8]) -> (u64, u64)
    requires { length bytes.now ≤ 16 }
    ensures { result ≡ pair_of bytes.now }
{
    let (first, rest) = bytes.split_at(bytes.len().min(8));
    (number_of(first), number_of(rest))
}

/// A name's bytes as four numbers. Names are told apart by these, and compared by them in few steps.
pub fn numbers_of(bytes: &[u8]) -> ((u64, u64), (u64, u64))
    requires { length bytes.now ≤ MAX_NAME }
    ensures { result ≡ numbers_of bytes.now }
{
    let (first, rest) = bytes.split_at(bytes.len().min(16));
    (pair_of(first), pair_of(rest))
}
