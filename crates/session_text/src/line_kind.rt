//! The first words of a session's lines.
ghost use Rattle.std.specs.Prelude.{◌≡◌};
ghost use Rattle.session_text.specs.SessionLine.{is_kind, line_kind, line_word};

/// The kind of a line, by its first word.
#[derive(Clone, Copy)]
pub(crate) enum LineKind {
    Script,
    Message,
    Main,
    NoMain,
    Rename,
    DropScript,
    DropMessage,
    Envelope,
    Mailbox,
    Report,
    Dump,
    Expect,
    NoExpect,
    Mailboxes,
    MessageEnvelope,
    NoMessageEnvelope,
    Clock,
    NoClock,
}

/// All kinds.
const KINDS: [LineKind; 18] = [
    LineKind::Script,
    LineKind::Message,
    LineKind::Main,
    LineKind::NoMain,
    LineKind::Rename,
    LineKind::DropScript,
    LineKind::DropMessage,
    LineKind::Envelope,
    LineKind::Mailbox,
    LineKind::Report,
    LineKind::Dump,
    LineKind::Expect,
    LineKind::NoExpect,
    LineKind::Mailboxes,
    LineKind::MessageEnvelope,
    LineKind::NoMessageEnvelope,
    LineKind::Clock,
    LineKind::NoClock,
];

/// Whether a word is the first word of this kind.
fn is_kind(word: &[u8], kind: LineKind) -> bool
    ensures { result ≡ is_kind word.now kind }
{
    kind.word() == word
}

impl LineKind {
    /// The first word of this kind.
    fn word(self) -> &'static [u8]
        ensures { result.now ≡ line_word self }
    {
        match self {
            LineKind::Script => b"script",
            LineKind::Message => b"message",
            LineKind::Main => b"main",
            LineKind::NoMain => b"no-main",
            LineKind::Rename => b"rename",
            LineKind::DropScript => b"drop-script",
            LineKind::DropMessage => b"drop-message",
            LineKind::Envelope => b"envelope",
            LineKind::Mailbox => b"mailbox",
            LineKind::Report => b"report",
            LineKind::Dump => b"dump",
            LineKind::Expect => b"expect",
            LineKind::NoExpect => b"no-expect",
            LineKind::Mailboxes => b"mailboxes",
            LineKind::MessageEnvelope => b"message-envelope",
            LineKind::NoMessageEnvelope => b"no-message-envelope",
            LineKind::Clock => b"clock",
            LineKind::NoClock => b"no-clock",
        }
    }

    /// The kind of a first word.
    pub(crate) fn of(word: &[u8]) -> Option<LineKind>
        ensures { result ≡ line_kind word.now }
    {
        KINDS.iter().copied().find(|kind| is_kind(word, *kind))
    }
}
