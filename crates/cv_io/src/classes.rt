//! The releasers of all classes.

ghost use Rattle.std.specs.Prelude.{◌≡◌, ◌<◌, IsSome, IsTrue, length};
ghost use Rattle.std.specs.Option.{option_map};
ghost use Rattle.cv_io.specs.Releasers.{Asks, AsksEntry, Releases, classes_by, held_of, is_held};

use crate::releaser::{TrustFault, Trusted};

/// Whether the class of this number has a releaser. A class past the list has none.
pub fn is_held(trusted: &Vec<Option<Box<dyn Trusted>>>, class: u64) -> bool
    ensures held { result ≡ is_held (held_of (classes_by known trusted.now.items)) class }
    ensures within { IsTrue result → class < length (classes_by known trusted.now.items) }
{
    let place = class as usize;
    place < trusted.len() && trusted[place].is_some()
}

/// Asks the releaser of a class with the bytes `from`, and fills `to` with its answer.
///
/// The class has a releaser, and the two slices have one length. Answers `TrustFault` where the
/// releaser does. No other releaser is asked, no class gets or loses one, and there are as many
/// classes as before.
pub fn ask(
    trusted: &mut Vec<Option<Box<dyn Trusted>>>,
    class: u64,
    from: &[u8],
    to: &mut [u8],
) -> Result<(), TrustFault>
    requires held { IsTrue (is_held (held_of (classes_by known trusted.old.items)) class) }
    requires lengths { length from.now ≡ length to.old }
    ensures asks { Asks result class from.now to.new (classes_by known trusted.old.items) (classes_by known trusted.new.items) }
    ensures held { held_of (classes_by known trusted.new.items) ≡ held_of (classes_by known trusted.old.items) }
    ensures count { length (classes_by known trusted.new.items) ≡ length (classes_by known trusted.old.items) }
{
    ask_entry(&mut trusted[class as usize], from, to)
}

/// Asks the releaser of an entry that has one.
fn ask_entry(
    entry: &mut Option<Box<dyn Trusted>>,
    from: &[u8],
    to: &mut [u8],
) -> Result<(), TrustFault>
    requires held { IsSome entry.old }
    requires lengths { length from.now ≡ length to.old }
    ensures { AsksEntry result from.now to.new (option_map known entry.old) (option_map known entry.new) }
{
    match entry {
        Some(releaser) => ask_box(releaser, from, to),
        None => unreachable!(),
    }
}

/// Asks a releaser in its box.
fn ask_box(releaser: &mut Box<dyn Trusted>, from: &[u8], to: &mut [u8]) -> Result<(), TrustFault>
    requires { length from.now ≡ length to.old }
    ensures { Releases result from.now to.new (known releaser.old) (known releaser.new) }
{
    releaser.release(from, to)
}
