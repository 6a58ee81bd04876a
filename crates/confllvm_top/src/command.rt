//! The call that does a command.

ghost use Rattle.std.specs.Prelude.{◌≡◌, ◌≤◌, ◌⊎◌, ℕ, true, false, List, map};
ghost use Rattle.std.specs.String.{string_bytes};
ghost use Rattle.command_line.specs.Commands as said;
ghost use Rattle.command_line.specs.Commands.{IsCommand, IsNoCommand};
ghost use Rattle.command_line.specs.Words.{command_of};
ghost use Rattle.conf_verify.specs.declared.rule.Rule.{Rule};
ghost use Rattle.cv_io.specs.Releasers.{classes_by, held_of};
ghost use Rattle.confllvm_top.specs.Endings.{AnswersAlways, AnswersWith, Does, HasEnded, HasFailedToEnd, HasFailedToSave, HasNoMemory, HasNotLoaded, HasRunOut, IsChecked, IsFault};
ghost use Rattle.confllvm_top.specs.Lines.{usage_line};
ghost use Rattle.confllvm_top.specs.Loading.{LacksNamed, Loaded, TellsNamed};
ghost use Rattle.confllvm_top.specs.Plans.{HasFaulted, shelf};
ghost use Rattle.confllvm_top.specs.Released.{HasFailedToAnswer};
ghost use Rattle.confllvm_top.specs.Outsides.{outside};
ghost use Rattle.confllvm_top.specs.Statuses.{asks, checks, is_passed, is_told};
ghost use Rattle.confllvm_top.specs.Streams.{stream, HasFailed, MayHaveGot};

use crate::law::one_answer;
use crate::listing::tell_listing;
use crate::running::tell_run;
use crate::status::Status;
use crate::telling::{put_anyway, tell_no_memory, tell_store_fault};
use crate::verifying::tell_verdict;
use command_line::{Command, WordsFault, one_command, read_command};
use cv_io::{Sink, Store, StoreError, Trusted};
use std::alloc::Global;

/// Does the command that `words` say, those after the program's name, and answers how it ended.
///
/// The commands are `verify NAME`, `run NAME STEPS` with its options, and `disasm NAME`, as `command_line` reads them; all
/// other words are `Usage`, and then nothing is loaded. Each loads the file; `verify` and `run` verify its
/// bytes as an image. A missing file is `StoreFault`, and so is a failing store. Where memory is refused, the
/// answer is `NoMemory`.
///
/// `verify` puts to `out` the line `accepted procedures P items I` of `Done`, or that of `Refused`,
/// `refused V1 at place P` or `refused RULE at 0xA`. `disasm` puts to `out` the listing of the image's code,
/// a line for each item, each in a put of its own, or that of `Refused`, which is by V1 or V2 alone. `run` takes no step where the
/// bytes are refused. Else it loads the schedule, the public and the private input, each if it is named, runs the image over the
/// first STEPS bytes of the schedule or a round robin of STEPS entries, puts the public output to `out`, saves the private output and
/// the audit, each if it is named, and ends with `Done`, `Fault`, `Steps` or `TrustFault`. Its lines go to `err`: that of
/// `Refused`, `exit S`, `fault core C at 0xA KIND`, `steps N` or `trust fault class K`. With the first load, put or save that
/// fails the command ends: a failing put of these is `SinkFault`, and then nothing more is put.
///
/// The releaser of a class of releases is `trusted[class]`. `run` asks it at each release of that class. Where it fails, the run ends
/// with `TrustFault`. The list keeps its length, and a class has a releaser at the end exactly
/// where it had one.
///
/// The lines `usage fault`, `store fault NAME` and `no memory` go to `err`, whether or not that fails.
pub fn confllvm<S: Store, O: Sink, E: Sink>(
    alloc: Global,
    words: &[String],
    store: &mut S,
    out: &mut O,
    err: &mut E,
    trusted: &mut Vec<Option<Box<dyn Trusted>>>,
) -> Status
    // Where `verify` or `run` ends and has passed its check, the loaded bytes are accepted and noninterfering.
    ensures checked { (command : said.Command) → IsCommand (map string_bytes words.now) command → checks command ≡ true → is_passed result ≡ true → IsChecked (map string_bytes words.now) (S.contents store.old) command }
    // An answer is that of the command to what it has loaded; what tells it is put and saved, and nothing else.
    ensures told { is_told result ≡ true → HasEnded result (map string_bytes words.now) (outside S.contents S.faults O.held O.faults E.held E.faults store.old store.new out.old out.new err.old err.new (classes_by known trusted.old.items) (classes_by known trusted.new.items)) }
    // Files that are told are answered by what their bytes are and what the releasers tell, unless there is a fault or memory is refused.
    ensures answered { (command : said.Command) (loaded : Loaded) → TellsNamed (map string_bytes words.now) (S.contents store.old) command loaded → AnswersWith result command loaded (outside S.contents S.faults O.held O.faults E.held E.faults store.old store.new out.old out.new err.old err.new (classes_by known trusted.old.items) (classes_by known trusted.new.items)) ⊎ IsFault result (outside S.contents S.faults O.held O.faults E.held E.faults store.old store.new out.old out.new err.old err.new (classes_by known trusted.old.items) (classes_by known trusted.new.items)) }
    // A command that has one answer, whatever tapes fit what is known of the releasers before and after, gives that answer, unless there
    // is a fault or memory is refused.
    ensures exact { (command : said.Command) (loaded : Loaded) (status : Status) → TellsNamed (map string_bytes words.now) (S.contents store.old) command loaded → AnswersAlways status command loaded (outside S.contents S.faults O.held O.faults E.held E.faults store.old store.new out.old out.new err.old err.new (classes_by known trusted.old.items) (classes_by known trusted.new.items)) → (result ≡ status) ⊎ IsFault result (outside S.contents S.faults O.held O.faults E.held E.faults store.old store.new out.old out.new err.old err.new (classes_by known trusted.old.items) (classes_by known trusted.new.items)) }
    // Usage exactly where the words are no command, unless memory is refused.
    ensures usage { result ≡ Status.Usage → IsNoCommand (map string_bytes words.now) }
    ensures no_command { IsNoCommand (map string_bytes words.now) → (result ≡ Status.Usage) ⊎ (result ≡ Status.NoMemory) }
    // Why a fault comes: the store or a sink has failed in this call, or the file isn't there that is loaded next.
    ensures store_fault { result ≡ Status.StoreFault → HasFaulted (shelf S.contents S.faults store.old store.new) ⊎ LacksNamed (map string_bytes words.now) (S.contents store.old) }
    ensures sink_fault { result ≡ Status.SinkFault → HasFailed (stream O.held O.faults out.old out.new) ⊎ HasFailed (stream E.held E.faults err.old err.new) }
    ensures trust_fault { (class : ℕ) → result ≡ Status.TrustFault class → HasFailedToAnswer class (classes_by known trusted.old.items) (classes_by known trusted.new.items) }
    // What was put and saved before a fault or want of memory: the front of what the command was about to tell.
    ensures cut_off { result ≡ Status.SinkFault → HasFailedToEnd (map string_bytes words.now) (outside S.contents S.faults O.held O.faults E.held E.faults store.old store.new out.old out.new err.old err.new (classes_by known trusted.old.items) (classes_by known trusted.new.items)) }
    ensures unsaved { result ≡ Status.StoreFault → HasNotLoaded (map string_bytes words.now) (outside S.contents S.faults O.held O.faults E.held E.faults store.old store.new out.old out.new err.old err.new (classes_by known trusted.old.items) (classes_by known trusted.new.items)) ⊎ HasFailedToSave (map string_bytes words.now) (outside S.contents S.faults O.held O.faults E.held E.faults store.old store.new out.old out.new err.old err.new (classes_by known trusted.old.items) (classes_by known trusted.new.items)) }
    ensures ran_out { result ≡ Status.NoMemory → HasNoMemory (outside S.contents S.faults O.held O.faults E.held E.faults store.old store.new out.old out.new err.old err.new (classes_by known trusted.old.items) (classes_by known trusted.new.items)) ⊎ HasRunOut (map string_bytes words.now) (outside S.contents S.faults O.held O.faults E.held E.faults store.old store.new out.old out.new err.old err.new (classes_by known trusted.old.items) (classes_by known trusted.new.items)) }
    // With Usage nothing is loaded, saved or put to `out`.
    ensures not_loaded { result ≡ Status.Usage → store.new ≡ store.old }
    ensures out_usage { result ≡ Status.Usage → out.new ≡ out.old }
    ensures err_usage { result ≡ Status.Usage → MayHaveGot usage_line (stream E.held E.faults err.old err.new) }
    // No class gets or loses a releaser, and only `run` asks one.
    ensures held { held_of (classes_by known trusted.new.items) ≡ held_of (classes_by known trusted.old.items) }
    ensures unasked { (command : said.Command) → IsCommand (map string_bytes words.now) command → asks command ≡ false → trusted.new ≡ trusted.old }
    ensures trusted_usage { result ≡ Status.Usage → trusted.new ≡ trusted.old }
    ensures trusted_refused { (rule : Rule) (at : ℕ) → result ≡ Status.Refused rule at → trusted.new ≡ trusted.old }
    // What never falls.
    ensures store_counted { S.faults store.old ≤ S.faults store.new }
    ensures out_counted { O.faults out.old ≤ O.faults out.new }
    ensures err_counted { E.faults err.old ≤ E.faults err.new }
{
    one_answer();
    one_command();
    let command = match read_command(alloc, words) {
        Ok(command) => command,
        Err(WordsFault::Usage) => {
            put_anyway(err, b"usage fault\n");
            return Status::Usage;
        }
        Err(WordsFault::NoMemory) => return tell_no_memory(err),
    };
    let name = command.name();
    match store.load(alloc, name) {
        Ok(bytes) => tell(alloc, &command, &bytes, store, out, err, trusted),
        Err(StoreError::NoMemory) => tell_no_memory(err),
        Err(StoreError::Missing) => tell_store_fault(alloc, name, err),
        Err(StoreError::Failed) => tell_store_fault(alloc, name, err),
    }
}

/// Does the command with the bytes of its file.
fn tell<S: Store, O: Sink, E: Sink>(
    alloc: Global,
    command: &Command<'_>,
    bytes: &[u8],
    store: &mut S,
    out: &mut O,
    err: &mut E,
    trusted: &mut Vec<Option<Box<dyn Trusted>>>,
) -> Status
    ensures does { Does result (command_of command.now) bytes.now (outside S.contents S.faults O.held O.faults E.held E.faults store.old store.new out.old out.new err.old err.new (classes_by known trusted.old.items) (classes_by known trusted.new.items)) }
    ensures held { held_of (classes_by known trusted.new.items) ≡ held_of (classes_by known trusted.old.items) }
    ensures unasked { asks (command_of command.now) ≡ false → trusted.new ≡ trusted.old }
    ensures trusted_refused { (rule : Rule) (at : ℕ) → result ≡ Status.Refused rule at → trusted.new ≡ trusted.old }
    ensures store_counted { S.faults store.old ≤ S.faults store.new }
    ensures out_counted { O.faults out.old ≤ O.faults out.new }
    ensures err_counted { E.faults err.old ≤ E.faults err.new }
{
    match command {
        Command::Verify { .. } => tell_verdict(alloc, bytes, out, err),
        Command::Run { steps, files, .. } => {
            tell_run(alloc, bytes, *steps, *files, store, out, err, trusted)
        }
        Command::Disasm { .. } => tell_listing(alloc, bytes, out, err),
    }
}
