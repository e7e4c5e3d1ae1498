//! Laws over the definitions: functions that do nothing.

ghost use Rattle.std.specs.Prelude.{◌≡◌, ℕ, List, map};
ghost use Rattle.lvdc_text.specs.Streams.{SourceState, SinkState};
ghost use Rattle.lvdc_service.specs.Frames.{Request};
ghost use Rattle.lvdc_service.specs.Served.{Reply, reply_to, AreReplies, AreUnhindered};
ghost use Rattle.lvdc_service.specs.Service.{IsServed, NoCallFailed, IsAllServed};

/// Replies that tell no want of memory are those that are due, each by its own request alone.
pub fn replies_are_due()
    ensures { (requests : List Request) (replies : List Reply) → AreReplies requests replies → AreUnhindered replies
        → replies ≡ map reply_to requests }
{}

/// Where no call of the source or the sink fails, what the service writes over these bytes is replies; where none of them tells a
/// want of memory they are those of `served`, and the exit status is that of `served` in any case.
pub fn all_is_served()
    ensures { (bytes : List ℕ) (source rest : SourceState) (sink now : SinkState) (status : ℕ) → IsServed bytes source rest sink now status
        → NoCallFailed source rest sink now → IsAllServed bytes sink now status }
{}
