ghost use Rattle.std.specs.Prelude.{◌≢◌, ◌≤◌, length, IfOk};
ghost use Rattle.lvdc_console.specs.Words.{most_bytes, IsInquiry};
ghost use Rattle.lvdc_console.specs.Inquired.{IsInquired};
ghost use Rattle.lvdc_console.specs.Rack.{rack};

use crate::bench::Rack;
use crate::devices::{four_tapes, other_devices, plug_in_four, sixteen_devices};
use crate::rack::is_whole;
use crate::{Inquiry, inquire};
use lvdc_reply::Reply;
use lvdc_report::LONGEST_REPORT;
use lvdc_word::NoMemory;
use std::alloc::Global;

/// Answers an inquiry over the bytes that were read for it and over the program's own devices, which are made for it and dropped
/// with it.
pub fn inquire_over_rack(alloc: Global, inquiry: Inquiry, bytes: &[u8]) -> Result<Reply, NoMemory>
    requires ranges { IsInquiry inquiry }
    requires few { length bytes.now ≤ most_bytes inquiry }

    // The sixteen devices never fail, and neither do those of a study's runs, so 10 never comes.
    ensures never_fails { IfOk result (λ reply. reply.status ≢ 10) }

    // What holds of a reply of `inquire` over the sixteen devices of `rack`.
    ensures inquired { IfOk result (λ reply. IsInquired rack inquiry bytes.now reply.status reply.text) }
    ensures room { IfOk result (λ reply. length reply.text ≤ LONGEST_REPORT) }
{
    let mut devices = sixteen_devices!(alloc);
    inquire(alloc, inquiry, bytes, &mut devices, &Rack)
}
