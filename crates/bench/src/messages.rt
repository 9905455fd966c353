//! Edits of the messages of a bench.
ghost use Rattle.std.specs.Prelude.{◌≡◌, OnOk, OnErr};
ghost use Rattle.named_list.specs.Named.{IsUnique};
ghost use Rattle.bench.specs.Content.{changed};
ghost use Rattle.bench.specs.view.Entry.{entry_with, put_entry, renewed};

use crate::entry::{EntryBox, MessageEntry};
use crate::setting::MessageSetting;
use named_list::NamedList;
use octets::Octets;
use sieve_run::Message;
use std::alloc::{AllocError, Global};

/// Puts a message in the place of the one of its id.
fn renew(messages: &mut NamedList<EntryBox>, id: &[u8], message: Message)
    ensures entries { messages.new.entries ≡ changed id.now (renewed message) messages.old.entries }
    ensures unique { IsUnique messages.new }
{
    if let Some(entry) = messages.get_mut(id) {
        entry.renew(message);
    }
}

/// Puts a message at an id: in the place of the one there, or last. The one there keeps the text
/// that is expected of it and its own addresses. An error changes nothing.
pub(crate) fn put(
    alloc: Global,
    messages: &mut NamedList<EntryBox>,
    id: Octets,
    message: Message,
) -> Result<(), AllocError>
    ensures ok { OnOk result (messages.new.entries ≡ put_entry id message messages.old.entries) }
    ensures err { OnErr result (messages.new.entries ≡ messages.old.entries) }
    ensures unique { OnOk result (IsUnique messages.new) }
{
    if messages.contains(id.as_slice()) {
        renew(messages, id.as_slice(), message);
        return Ok(());
    }
    let entry = MessageEntry {
        message,
        expected: None,
        addresses: None,
        kept: None,
    };
    messages.insert(id, EntryBox::new(alloc, entry)?)
}

/// Gives the message of an id a setting.
pub(crate) fn give(messages: &mut NamedList<EntryBox>, id: &[u8], setting: MessageSetting)
    ensures entries { messages.new.entries
        ≡ changed id.now (entry_with setting) messages.old.entries }
    ensures unique { IsUnique messages.new }
{
    if let Some(entry) = messages.get_mut(id) {
        entry.take(setting);
    }
}
