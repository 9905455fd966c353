//! Why an edit is refused, apart from running out of memory.
ghost use Rattle.std.specs.Prelude.{◌≡◌};
ghost use Rattle.bench.specs.Content as spec;
ghost use Rattle.bench.specs.view.Entry.{messages_of};

use crate::entry::EntryBox;
use crate::fault::EditFault;
use crate::scripts::Scripts;
use crate::setting::{MessageSetting, Setting};
use named_list::NamedList;
use octets::Octets;
use script_names::ScriptName;
use sieve_limits::{
    MAX_ADDRESS, MAX_ID, MAX_MESSAGE, MAX_MESSAGES, MAX_NAME, MAX_SCRIPTS, MAX_TEXT,
};

/// Whether a script's name is past its limit.
pub(crate) fn is_long(name: &Octets) -> bool
    ensures { result ≡ spec.is_long name.now }
{
    name.as_slice().len() > MAX_NAME
}

/// Why a script isn't put, apart from running out of memory.
pub(crate) fn refuse_script(
    scripts: &Scripts,
    name: &ScriptName,
    text: &[u8],
) -> Result<(), EditFault>
    ensures { spec.FindsRefusal (spec.script_refusal scripts.now.scripts name.now text.now) result }
{
    if is_long(&name.name) || text.len() > MAX_TEXT {
        return Err(EditFault::TooLarge);
    }
    if !scripts.contains(name) && scripts.len() >= MAX_SCRIPTS {
        return Err(EditFault::Full);
    }
    Ok(())
}

/// Why a message isn't put, apart from running out of memory.
#[tactic(auto, using(crate::proofs::Entries::entries))]
pub(crate) fn refuse_message(
    messages: &NamedList<EntryBox>,
    id: &Octets,
    bytes: &[u8],
) -> Result<(), EditFault>
    ensures { spec.FindsRefusal
        (spec.message_refusal (messages_of messages.now.entries) id.now bytes.now) result }
{
    if id.as_slice().len() > MAX_ID || bytes.len() > MAX_MESSAGE {
        return Err(EditFault::TooLarge);
    }
    if !messages.contains(id.as_slice()) && messages.len() >= MAX_MESSAGES {
        return Err(EditFault::Full);
    }
    Ok(())
}

/// Why a message isn't removed.
#[tactic(auto, using(crate::proofs::Entries::entries))]
pub(crate) fn refuse_absent(messages: &NamedList<EntryBox>, id: &[u8]) -> Result<(), EditFault>
    ensures { spec.FindsRefusal (spec.absent_refusal (messages_of messages.now.entries) id.now) result }
{
    if id.len() > MAX_ID {
        Err(EditFault::TooLarge)
    } else if !messages.contains(id) {
        Err(EditFault::NoSuchMessage)
    } else {
        Ok(())
    }
}

/// Why a script isn't renamed, apart from running out of memory.
pub(crate) fn refuse_rename(
    scripts: &Scripts,
    from: &ScriptName,
    to: &ScriptName,
) -> Result<(), EditFault>
    ensures { spec.FindsRefusal (spec.rename_refusal scripts.now.scripts from.now to.now) result }
{
    if is_long(&from.name) || is_long(&to.name) {
        Err(EditFault::TooLarge)
    } else if !scripts.contains(from) {
        Err(EditFault::NoSuchScript)
    } else if scripts.contains(to) {
        Err(EditFault::NameTaken)
    } else {
        Ok(())
    }
}

/// Why a script isn't removed.
pub(crate) fn refuse_remove_script(scripts: &Scripts, name: &ScriptName) -> Result<(), EditFault>
    ensures { spec.FindsRefusal (spec.remove_script_refusal scripts.now.scripts name.now) result }
{
    if is_long(&name.name) {
        Err(EditFault::TooLarge)
    } else if !scripts.contains(name) {
        Err(EditFault::NoSuchScript)
    } else {
        Ok(())
    }
}

/// Whether one of two addresses is past its limit.
pub(crate) fn are_long(from: &[u8], to: &[u8]) -> bool
    ensures { result ≡ spec.are_long from.now to.now }
{
    from.len() > MAX_ADDRESS || to.len() > MAX_ADDRESS
}

/// Why a setting isn't taken.
pub(crate) fn refuse_setting(setting: &Setting) -> Result<(), EditFault>
    ensures { spec.FindsRefusal (spec.setting_refusal setting.now) result }
{
    if setting.is_large() {
        Err(EditFault::TooLarge)
    } else {
        Ok(())
    }
}

/// Why a setting of a message isn't taken.
#[tactic(auto, using(crate::proofs::Entries::entries))]
pub(crate) fn refuse_for_one(
    messages: &NamedList<EntryBox>,
    id: &[u8],
    setting: &MessageSetting,
) -> Result<(), EditFault>
    ensures { spec.FindsRefusal
        (spec.one_refusal (messages_of messages.now.entries) id.now setting.now) result }
{
    if id.len() > MAX_ID || setting.is_large() {
        Err(EditFault::TooLarge)
    } else if !messages.contains(id) {
        Err(EditFault::NoSuchMessage)
    } else {
        Ok(())
    }
}
