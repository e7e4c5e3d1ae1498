//! The reply to a study.

ghost use Rattle.std.specs.Prelude.{◌≡◌, ◌≢◌, ◌<◌, ◌≤◌, ◌-◌, ◌^◌, length, map, true, false, All, List, IfOk, IfErr};
ghost use Rattle.lvdc_map.specs.Memory.{are_rising, AllThere};
ghost use Rattle.lvdc_port.specs.Device.{Device};
ghost use Rattle.lvdc_reply.specs.Answer.{answer_of};
ghost use Rattle.lvdc_report.specs.declared.report.TheConstants.{LONGEST_REPORT};
ghost use Rattle.lvdc_command_run.specs.Trials.{trial_of};
ghost use Rattle.lvdc_campaign_deck.specs.declared.TheConstants.{MOST_STUDY_SCRIPTS};
ghost use Rattle.lvdc_fault.specs.declared.TheConstants.{MOST_TIMES};
ghost use Rattle.lvdc_study.specs.Failures.{FailsInRuns};
ghost use Rattle.lvdc_study.specs.Study.{opening_over, IsProgram};
ghost use Rattle.lvdc_study.specs.declared.fault.Unstudied.TheVariants.{NoMemory as WantsMemory};
ghost use Rattle.lvdc_command_study.specs.Answers.{rows_in, failed_text, RowsKeepLaws};
ghost use Rattle.lvdc_command_study.specs.Replies.{IsStudyReply};
ghost use Rattle.lvdc_command_study.specs.Texts.{study_text};
ghost use Rattle.lvdc_command_study.specs.Studied.{IsRunnable, IsStudied};

use crate::text::study_text;
use lvdc_campaign_deck::{StudyDeck, read_study};
use lvdc_command_campaign::refuse;
use lvdc_command_run::opens_with_words;
use lvdc_deck::Deck;
use lvdc_port::PortDevice;
use lvdc_reply::Reply;
use lvdc_study::{Bench, Program, Row, Unstudied, rows_keep_laws, study_scripts};
use lvdc_text::{Piece, put_line};
use lvdc_word::{NoMemory, Seq};
use std::alloc::Global;

/// The program of a deck: what each run of a study starts from.
fn program_of(deck: &Deck) -> Program<'_>
    requires count { deck.now.count ≤ MOST_TIMES }
    requires rising { are_rising deck.now.image.words ≡ true }
    requires there { AllThere deck.now.banks deck.now.image.words }
    ensures program { IsProgram result }
    ensures opening { (devices : List Device) → opening_over result devices ≡ (trial_of devices deck.now).opening }
    ensures count { result.count ≡ deck.now.count }
{
    Program {
        image: deck.image.words(),
        start: deck.start,
        banks: deck.banks,
        unplugs: deck.unplugs.items(),
        supplies: deck.supplies.items(),
        orders: &deck.orders,
        count: deck.count,
    }
}

/// The rows of a study, over the devices of a bench.
fn make_rows<B: Bench>(alloc: Global, study: StudyDeck, bench: &B) -> Result<Vec<Row>, Unstudied>
    requires { IsRunnable study }
    ensures rows { IfOk result (λ rows. rows.items ≡ rows_in (B.devices bench.now) study) }
    ensures failed { IfErr result (λ e. FailsInRuns (trial_of (B.devices bench.now) study.deck).opening study.deck.count study.scripts e) }
    ensures unfailed { IfErr result (λ e. B.may_fail bench.now ≡ false → e ≡ WantsMemory) }
{
    let StudyDeck { deck, scripts } = study;
    let program = program_of(&deck);
    study_scripts(alloc, &program, scripts.into_vec(), bench)
}

/// Tells rows.
fn tell_rows(alloc: Global, rows: &[Row]) -> Result<Reply, NoMemory>
    requires names { All (λ row. length row.name ≤ 8) rows.now }
    requires few { length rows.now ≤ MOST_STUDY_SCRIPTS }
    ensures status { IfOk result (λ reply. reply.status ≡ 0) }
    ensures text { IfOk result (λ reply. reply.text ≡ study_text rows.now) }
    ensures short { IfOk result (λ reply. length reply.text ≤ LONGEST_REPORT) }
{
    let text = study_text(alloc, rows)?;
    Ok(Reply {
        status: 0,
        text: Seq::from_vec(text),
    })
}

/// Tells that the device at a port failed.
fn tell_failure(alloc: Global, port: u8) -> Result<Reply, NoMemory>
    ensures status { IfOk result (λ reply. reply.status ≡ 10) }
    ensures text { IfOk result (λ reply. reply.text ≡ failed_text port) }
    ensures short { IfOk result (λ reply. length reply.text ≤ LONGEST_REPORT) }
{
    let mut text = Vec::new(alloc);
    put_line(&mut text, b"DEVICE", &[Piece::Octal(u64::from(port), 3)])?;
    Ok(Reply {
        status: 10,
        text: Seq::from_vec(text),
    })
}

/// Makes the rows of a study and tells them, or the failure of a device.
fn tell_study<B: Bench>(alloc: Global, study: StudyDeck, bench: &B) -> Result<Reply, NoMemory>
    requires { IsRunnable study }
    ensures studied { IfOk result (λ reply. IsStudied (B.devices bench.now) study reply) }
    ensures unfailed { IfOk result (λ reply. B.may_fail bench.now ≡ false → reply.status ≢ 10) }
    ensures short { IfOk result (λ reply. length reply.text ≤ LONGEST_REPORT) }
{
    match make_rows(alloc, study, bench) {
        Ok(rows) => tell_rows(alloc, &rows),
        Err(Unstudied::Device(port)) => tell_failure(alloc, port),
        Err(Unstudied::NoMemory) => Err(NoMemory),
    }
}

/// The reply to a study, over a bench. These devices are those of the bench in their first states: their kinds say where a TAPE or an
/// UNPLUG line may stand, and they stay as they are.
pub fn study_bytes<B: Bench>(
    alloc: Global,
    bytes: &[u8],
    devices: &Vec<Box<dyn PortDevice>>,
    bench: &B,
) -> Result<Reply, NoMemory>
    requires few { length bytes.now < 2 ^ 32 - 1 }
    requires alike { map device_of devices.now.items ≡ B.devices bench.now }

    // 0 and the rows of the definition with their total, or the first refusal and its status, or a device of a run that failed.
    ensures reply { IfOk result (λ reply. IsStudyReply bytes.now (map device_of devices.now.items)
        (answer_of reply (map device_of devices.now.items))) }

    // Where no device of the bench may fail, 10 never comes.
    ensures unfailed { IfOk result (λ reply. B.may_fail bench.now ≡ false → reply.status ≢ 10) }

    // Each row whose script is admissible is the same, and each whose script masks by form is admissible.
    ensures laws { IfOk result (λ reply. RowsKeepLaws bytes.now (map device_of devices.now.items)) }
    ensures short { IfOk result (λ reply. length reply.text ≤ LONGEST_REPORT) }
{
    match read_study(alloc, bytes, devices) {
        Ok(study) => {
            opens_with_words(&study.deck);
            rows_keep_laws();
            tell_study(alloc, study, bench)
        }
        Err(fault) => refuse(alloc, fault),
    }
}
