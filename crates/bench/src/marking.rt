//! Which messages are marked stale. A message without a kept verdict is stale.
ghost use Rattle.std.specs.Prelude.{◌≡◌, MatchOption, map, slice_get};
ghost use Rattle.std.specs.Map.{values_of};
ghost use Rattle.indexmap.specs.Layout.{set_value_at};
ghost use Rattle.named_list.specs.Named.{IsUnique};
ghost use Rattle.bench.specs.view.Entry.{forgotten, messages_of, unread};
ghost use Rattle.bench.specs.view.Site.{ForgetsReaders};

use crate::entry::EntryBox;
use named_list::NamedList;
use script_names::ScriptName;
use sieve_run::laws::a_verdict_depends_on_what_it_looked_up;

/// Marks the message at a place stale.
fn forget_at(messages: &mut NamedList<EntryBox>, index: usize)
    ensures { MatchOption (slice_get (values_of messages.old.entries) index)
        (messages.new.entries ≡ messages.old.entries) (λ entry. messages.new.entries
        ≡ set_value_at messages.old.entries index (forgotten entry)) }
{
    if let Some(entry) = messages.get_index_mut(index) {
        entry.forget();
    }
}

/// Marks the message at a place stale if its run looked the name up.
fn forget_reader_at(messages: &mut NamedList<EntryBox>, index: usize, name: &ScriptName)
    ensures { MatchOption (slice_get (values_of messages.old.entries) index)
        (messages.new.entries ≡ messages.old.entries) (λ entry. messages.new.entries
        ≡ set_value_at messages.old.entries index (unread name.now entry)) }
{
    if let Some(entry) = messages.get_index_mut(index) {
        entry.forget_reader(name);
    }
}

/// Marks all messages stale.
pub(crate) fn forget_all(messages: &mut NamedList<EntryBox>)
    ensures entries { messages.new.entries ≡ map (λ e. (e.0, forgotten e.1)) messages.old.entries }
    ensures messages { messages_of messages.new.entries ≡ messages_of messages.old.entries }
    ensures unique { IsUnique messages.new }
{
    let count = messages.len();
    for index in 0..count {
        forget_at(messages, index);
    }
}

/// Marks the messages stale whose runs looked the name up.
pub(crate) fn forget_readers(messages: &mut NamedList<EntryBox>, name: &ScriptName)
    ensures forgotten { ForgetsReaders name.now messages.old.entries messages.new.entries }
    ensures unique { IsUnique messages.new }
{
    a_verdict_depends_on_what_it_looked_up();
    let count = messages.len();
    for index in 0..count {
        forget_reader_at(messages, index, name);
    }
}
