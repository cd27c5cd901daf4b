//! What a line is answered.

/// The text of a reply: its lines, with line ends between them and none behind the last.
#[derive(Drop)]
pub enum ReplyText {
    Made(String),
    /// The line `ERR 16 no memory`, with ` (aborted)` behind it where a transaction that BEGIN had opened has ended. It
    /// takes no memory.
    NoMemory { aborted: bool },
}

impl ReplyText {
    ghost use Rattle.std.specs.Prelude.{◌≡◌, ◌++◌};
    ghost use Rattle.session_core.specs.Replying.{text_of};
    ghost use Rattle.session_core.specs.Texts.{aborted_text, no_memory_text};

    /// Memory was wanting, where a transaction with this start was open. Takes no memory.
    pub(crate) fn wanting(running: Option<u64>) -> ReplyText
        ensures { text_of result ≡ no_memory_text ++ aborted_text running }
    {
        ReplyText::NoMemory {
            aborted: running.is_some(),
        }
    }

    /// The text. Takes no memory.
    pub fn as_str(&self) -> &str
        ensures { result.now ≡ text_of self.now }
    {
        match self {
            ReplyText::Made(text) => text.as_str(),
            ReplyText::NoMemory { aborted: false } => "ERR 16 no memory",
            ReplyText::NoMemory { aborted: true } => "ERR 16 no memory (aborted)",
        }
    }
}

/// The reply to a line.
#[derive(Drop)]
pub struct Reply {
    pub text: ReplyText,
    /// The line was `.quit`: the session ends here.
    pub quit: bool,
    /// The line has committed a transaction.
    pub committed: bool,
}

/// A reply, and the start of the session's transaction behind it, where one is open.
#[derive(Drop)]
pub(crate) struct Answered {
    pub(crate) reply: Reply,
    pub(crate) running: Option<u64>,
}

impl Answered {
    ghost use Rattle.std.specs.Prelude.{◌≡◌, ◌++◌, None, string_bytes};
    ghost use Rattle.session_core.specs.Replying.{IsCommit, IsPlain, text_of};
    ghost use Rattle.session_core.specs.Texts.{aborted_text, no_memory_text};

    /// A reply that neither ends the session nor tells of a commit.
    pub(crate) fn plain(text: ReplyText, running: Option<u64>) -> Answered
        ensures { IsPlain result (text_of text) running }
    {
        Answered {
            reply: Reply {
                text,
                quit: false,
                committed: false,
            },
            running,
        }
    }

    /// A reply that tells of a commit.
    pub(crate) fn committed(text: String) -> Answered
        ensures { IsCommit result (string_bytes text) }
    {
        Answered {
            reply: Reply {
                text: ReplyText::Made(text),
                quit: false,
                committed: true,
            },
            running: None,
        }
    }

    /// Memory was wanting, where this transaction was open.
    pub(crate) fn wanting(running: Option<u64>) -> Answered
        ensures { IsPlain result (no_memory_text ++ aborted_text running) None }
    {
        Answered::plain(ReplyText::wanting(running), None)
    }
}
