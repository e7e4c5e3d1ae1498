ghost use Rattle.std.specs.Prelude.{◌≡◌, ◌≢◌, List, ℕ, Some, IfOk, OnErr};
ghost use Rattle.std.specs.Io.KnownBytes.{Appends};
ghost use Rattle.lvdc_text.specs.Room.{HasRoom};
ghost use Rattle.lvdc_text.specs.Words.{texts};
ghost use Rattle.lvdc_console.specs.Rack.{rack};
ghost use Rattle.lvdc_command_run.specs.declared.job.Engine.TheVariants.{Guarded};
ghost use Rattle.lvdc_cli.specs.declared.command.Command.TheVariants.{Run};
ghost use Rattle.lvdc_cli.specs.Words.{command_of};
ghost use Rattle.lvdc_cli.specs.Commands.{answer, room_for};
ghost use Rattle.lvdc_cli.specs.Top.{IsInput};
ghost use Rattle.lvdc_console.specs.Over.{IsAnswerOver, IsUntroubled, CarriesHeadlineOver};

use crate::devices::{four_tapes, other_devices, plug_in_four, sixteen_devices};
use crate::rack::is_whole;
use lvdc_cli::lvdc;
use lvdc_text::{Sink, Source};
use lvdc_word::NoMemory;
use std::alloc::Global;

/// Answers a command over the program's own devices: tapes at ports 000 to 013, latches at 014 and 015, a ticker at 016 and
/// a recorder at 017.
pub fn run<S: Source, K: Sink>(
    alloc: Global,
    words: &[String],
    source: &mut S,
    sink: &mut K,
) -> Result<u8, NoMemory>
    requires { HasRoom (K.state sink.old).room (room_for (command_of (texts words.now))) }

    // The status and the text are those that the top call promises over the sixteen devices of `rack`.
    ensures ends { IfOk result (λ status. IsAnswerOver rack (texts words.now)
        (S.state source.old) (S.state source.new) (K.state sink.old) (K.state sink.new) status) }

    // The sixteen devices never fail, so 10 never comes.
    ensures never_fails { IfOk result (λ status. status ≢ 10) }

    // Where the bytes of the source are told, or the command reads none, and no read and no write fails: they are those of the
    // definition.
    ensures answer { IfOk result (λ status. (bytes : List ℕ) → IsInput (texts words.now) (S.state source.old).left bytes → IsUntroubled status →
        (status ≡ (answer (texts words.now) bytes rack).status)
        × Appends (K.state sink.old).written (K.state sink.new).written (answer (texts words.now) bytes rack).text) }

    // The headline, of the program.
    ensures headline { IfOk result (λ status. command_of (texts words.now) ≡ Some (Run Guarded) → IsUntroubled status → status ≢ 11 →
        CarriesHeadlineOver rack
        (S.state source.old) (S.state source.new) (K.state sink.old) (K.state sink.new) status) }

    // Where there is no memory for the devices, nothing was read and nothing written.
    ensures err { OnErr result ((source.new ≡ source.old) × (sink.new ≡ sink.old)) }
{
    let mut devices = sixteen_devices!(alloc);
    Ok(lvdc(alloc, words, source, sink, &mut devices))
}
