//! Puts all bytes into a sink, whatever their encoding.

ghost use Rattle.std.specs.Prelude.{◌≡◌, false};
ghost use Rattle.wide_bytes.specs.Put.{PutOf};

use super::devices::ByteSink;
use wide_error::TranscodeError;

/// Puts all the bytes into the sink, by as many calls as it needs. A call that fails is not repeated.
///
/// # Requires
///
/// The sink has not failed.
///
/// # Errors
///
/// [`TranscodeError::Write`] if a call fails, or if it takes none of some bytes. A prefix of the bytes was put. There
/// is no other error.
///
/// # Example
///
/// ```
/// let mut sink = FromWrite::new(Vec::new(rt.alloc()));
/// put_all(&mut sink, "Hé".as_bytes())?;
/// assert!(rt; sink.into_inner().as_slice() == "Hé".as_bytes());
/// ```
pub fn put_all<K: ByteSink>(sink: &mut K, text: &[u8]) -> Result<(), TranscodeError>
    requires { K.has_failed sink.old ≡ false }
    ensures { PutOf (K.held sink.old) (K.held sink.new) (K.has_failed sink.new) result text.now }
{
    let mut done = 0;
    'puts: while done < text.len() {
        match sink.put(&text[done..]) {
            Ok(0) => return Err(TranscodeError::Write),
            Ok(n) => done += n,
            Err(_) => return Err(TranscodeError::Write),
        }
    }
    Ok(())
}
