ghost use Rattle.std.specs.Prelude.{◌≡◌, ◌+◌, ◌≤◌, ◌++◌, length, OnOk, OnErr};
ghost use Rattle.lvdc_report.specs.Report.{end_text, outcome_of};

use lvdc_fault::Verdict;
use lvdc_model::Outcome;
use lvdc_plain::{PlainEnd, Stop};
use lvdc_text::{Piece, put_line};
use lvdc_word::NoMemory;

fn put_stopped(out: &mut Vec<u8>, step: u64, stop: Stop) -> Result<(), NoMemory>
    ensures text { OnOk result (out.new.items ≡ out.old.items ++ end_text (Outcome.Stopped step stop)) }
    ensures short { OnOk result (length out.new.items ≤ length out.old.items + 50) }
    ensures err { OnErr result (out.new.items ≡ out.old.items) }
{
    let name = b"END STOPPED";
    let step = Piece::Decimal(step);
    match stop {
        Stop::Shift => put_line(out, name, &[step, Piece::Bytes(b"SHIFT")]),
        Stop::Exm => put_line(out, name, &[step, Piece::Bytes(b"EXM")]),
        Stop::Memory(at) => put_line(
            out,
            name,
            &[step, Piece::Bytes(b"MEMORY"), Piece::Address(at)],
        ),
    }
}

fn put_inadmissible(out: &mut Vec<u8>, verdict: Verdict) -> Result<(), NoMemory>
    ensures text { OnOk result (out.new.items ≡ out.old.items ++ end_text (Outcome.Inadmissible verdict)) }
    ensures short { OnOk result (length out.new.items ≤ length out.old.items + 65) }
    ensures err { OnErr result (out.new.items ≡ out.old.items) }
{
    let name = b"END INADMISSIBLE";
    match verdict {
        Verdict::Admissible => put_line(out, name, &[Piece::Bytes(b"")]),
        Verdict::Logic { step, module } => put_line(
            out,
            name,
            &[
                Piece::Decimal(step),
                Piece::Bytes(b"LOGIC"),
                Piece::Small(module),
            ],
        ),
        Verdict::Memory { step, address } => put_line(
            out,
            name,
            &[
                Piece::Decimal(step),
                Piece::Bytes(b"MEMORY"),
                Piece::Address(address),
            ],
        ),
    }
}

/// The end of the plain machine as one of the voted machine's.
pub(crate) fn outcome_of(end: PlainEnd) -> Outcome
    ensures { result ≡ outcome_of end }
{
    match end {
        PlainEnd::Done => Outcome::Done,
        PlainEnd::Stopped { step, stop } => Outcome::Stopped { step, stop },
        PlainEnd::Device { step, port } => Outcome::Device { step, port },
    }
}

/// Adds the END line. Steps and modules are decimal, ports octal. After a want of memory `out` is as before.
pub fn put_end(out: &mut Vec<u8>, end: Outcome) -> Result<(), NoMemory>
    ensures text { OnOk result (out.new.items ≡ out.old.items ++ end_text end) }
    ensures short { OnOk result (length out.new.items ≤ length out.old.items + 65) }
    ensures err { OnErr result (out.new.items ≡ out.old.items) }
{
    match end {
        Outcome::Done => put_line(out, b"END DONE", &[]),
        Outcome::Stopped { step, stop } => put_stopped(out, step, stop),
        Outcome::Inadmissible(verdict) => put_inadmissible(out, verdict),
        Outcome::Device { step, port } => put_line(
            out,
            b"END DEVICE",
            &[Piece::Decimal(step), Piece::Octal(u64::from(port), 3)],
        ),
    }
}
