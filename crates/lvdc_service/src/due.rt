ghost use Rattle.std.specs.Prelude.{◌≡◌};
ghost use Rattle.lvdc_service.specs.Turns.{due_status, due_text};

use lvdc_reply::Reply;

/// Which requests there are.
pub(crate) const USAGE: &[u8] =
    b"usage: lvdc-worker\nrequests: the commands of lvdc\n          trace [--through] FIRST COUNT\n          form\n          study\n";

/// What a request is answered. All but a reply takes no memory.
#[derive(Drop)]
pub(crate) enum Due {
    /// The words are none that are known.
    Usage,
    /// The input has more bytes than the command takes.
    TooLong,
    /// The command's reply.
    Replied(Reply),
    /// There is no memory for the input or for the answer.
    NoMemory,
}

impl Due {
    /// The status that goes with it.
    pub(crate) fn status(&self) -> u8
        ensures { result ≡ due_status self.now }
    {
        match self {
            Due::Usage => 1,
            Due::TooLong => 11,
            Due::Replied(reply) => reply.status,
            Due::NoMemory => 9,
        }
    }

    /// The text that is told.
    pub(crate) fn text(&self) -> &[u8]
        ensures { result.now ≡ due_text self.now }
    {
        match self {
            Due::Usage => USAGE,
            Due::TooLong => b"REFUSED TooLong\n",
            Due::Replied(reply) => reply.text.items(),
            Due::NoMemory => b"",
        }
    }
}
