//! The gate Release.

ghost use Rattle.std.specs.Prelude.{◌≡◌, ◌+◌, ◌≤◌, ◌++◌, IsTrue, length, take, true};
ghost use Rattle.cv_io.specs.Releasers.{Asks, classes_by, held_of, is_held};
ghost use Rattle.cv_word.specs.Memory.{is_good, range_read, range_written};
ghost use Rattle.cv_word.specs.declared.gates.Gate.TheVariants as gate;
ghost use Rattle.cv_word.specs.GateStep.{audit_entry, most_output, private_range, public_range, read_from, reads, work};
ghost use Rattle.trusted_stubs.specs.Answers.{IsUnrefused, ReleaseAnswers, failed_request};
ghost use Rattle.trusted_stubs.specs.Events.{Plays};

use crate::output::Output;
use crate::world::World;
use cv_io::{TrustFault, Trusted, ask};
use cv_word::{Arguments, put_le};
use two_segments::Segments;
use x64_decode::Seg;

/// Release: asks the releaser of a class with private bytes, makes public what it answers, and answers how many bytes. Where
/// the releaser fails, nothing is written.
pub(crate) fn release(
    a: Arguments,
    segs: &mut Segments<'_>,
    world: &mut World<'_>,
    trusted: &mut Vec<Option<Box<dyn Trusted>>>,
) -> Result<u64, TrustFault>
    requires served { IsUnrefused segs.old.size gate.Release a world.old }
    requires held { IsTrue (is_held (held_of (classes_by known trusted.old.items)) a.fourth) }
    ensures { Plays (failed_request result a) (classes_by known trusted.old.items) (classes_by known trusted.new.items) world.old.visible.audit world.new.visible.audit (λ before after. ReleaseAnswers (work gate.Release a (read_from segs.old (reads gate.Release a)) world.old before) result a segs.old segs.new world.old world.new before after) }
{
    match ask_with(a, segs, &mut world.answer, trusted) {
        Ok(()) => {
            publish(a, &world.answer, segs, &mut world.audit);
            Ok(a.third)
        }
        Err(fault) => Err(fault),
    }
}

/// Asks the releaser of a class with private bytes. The front of the buffer takes its answer.
fn ask_with(
    a: Arguments,
    segs: &Segments<'_>,
    answer: &mut Vec<u8>,
    trusted: &mut Vec<Option<Box<dyn Trusted>>>,
) -> Result<(), TrustFault>
    requires range { is_good segs.now.size (private_range a.first a.third) ≡ true }
    requires held { IsTrue (is_held (held_of (classes_by known trusted.old.items)) a.fourth) }
    requires room { a.third ≤ length answer.old.items }
    ensures asks { Asks result a.fourth (range_read segs.now (private_range a.first a.third)) (take a.third answer.new.items) (classes_by known trusted.old.items) (classes_by known trusted.new.items) }
    ensures length { length answer.new.items ≡ length answer.old.items }
{
    ask_front(
        trusted,
        a.fourth,
        segs.range(Seg::Gs, a.first, a.third),
        answer,
    )
}

/// Asks the releaser of a class. The front of `to`, which is as long as `from`, takes its answer.
#[tactic(auto, using(crate::proofs::AskLemmas::asks_front))]
fn ask_front(
    trusted: &mut Vec<Option<Box<dyn Trusted>>>,
    class: u64,
    from: &[u8],
    to: &mut [u8],
) -> Result<(), TrustFault>
    requires held { IsTrue (is_held (held_of (classes_by known trusted.old.items)) class) }
    requires room { length from.now ≤ length to.old }
    ensures asks { Asks result class from.now (take (length from.now) to.new) (classes_by known trusted.old.items) (classes_by known trusted.new.items) }
    ensures length { length to.new ≡ length to.old }
{
    ask(trusted, class, from, &mut to[..from.len()])
}

/// Makes an answer public: writes it to public memory, and lists it in the audit.
fn publish(a: Arguments, answer: &Vec<u8>, segs: &mut Segments<'_>, audit: &mut Output)
    requires range { is_good segs.old.size (public_range a.second a.third) ≡ true }
    requires long { a.third ≤ length answer.now.items }
    requires room { length audit.old + (8 + a.third) ≤ most_output }
    ensures memory { segs.new ≡ range_written segs.old (public_range a.second a.third) (take a.third answer.now.items) }
    ensures audit { audit.new ≡ audit.old ++ audit_entry a.fourth a.third (take a.third answer.now.items) }
{
    let told = &answer[..a.third as usize];
    segs.put_range(Seg::Fs, a.second, told);
    list_answer(a.fourth, told, audit);
}

/// Lists an answer in the audit: its class and its number of bytes, each in 4 bytes, and the bytes.
fn list_answer(class: u64, told: &[u8], audit: &mut Output)
    requires { length audit.old + (8 + length told.now) ≤ most_output }
    ensures { audit.new ≡ audit.old ++ audit_entry class (length told.now) told.now }
{
    let mut head = [0; 8];
    put_le(&mut head, 0, 4, class);
    put_le(&mut head, 4, 4, told.len() as u64);
    audit.append(&head);
    audit.append(told);
}
