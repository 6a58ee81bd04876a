//! Who turns private bytes into bytes that may become public.

ghost use Rattle.std.specs.Prelude.{◌≡◌, length};
ghost use Rattle.cv_io.specs.Releasers.{Known, Releases};

use thiserror::Error;

/// A releaser has not answered a request, and has counted it as a fault.
#[derive(Clone, Copy, Debug, PartialEq, Eq, Error)]
#[error("the releaser has failed")]
pub struct TrustFault;

/// A releaser: it is asked with private bytes, and answers as many bytes that may become public.
///
/// It keeps what it was asked and what it answered.
pub trait Trusted: Drop {
    /// What was asked and answered, and how often that failed.
    ghost known: { Self → Known };

    /// Asks with the bytes `from`, and fills `to` with the answer. Both have one length.
    ///
    /// With `Ok` both are appended to what was heard and told. Answers `TrustFault` only where the
    /// count of faults rose: what was heard and told is then as before, and the length of the
    /// request is kept. What `to` holds then isn't said.
    fn release(&mut self, from: &[u8], to: &mut [u8]) -> Result<(), TrustFault>
        requires { length from.now ≡ length to.old }
        ensures { Releases result from.now to.new (known self.old) (known self.new) };

    /// All bytes that the releases which ended `Ok` were asked with, one after another.
    fn heard(&self) -> &[u8]
        ensures { result.now ≡ (known self.now).heard };

    /// All bytes that those releases answered.
    fn told(&self) -> &[u8]
        ensures { result.now ≡ (known self.now).told };

    /// How many bytes the last release that failed was asked with, or 0 before one.
    fn failed_len(&self) -> u64
        ensures { result ≡ (known self.now).failed_len };

    /// How many releases have failed. The count never falls, and stays at 2^64 - 1.
    fn faults(&self) -> u64
        ensures { result ≡ (known self.now).faults };
}
