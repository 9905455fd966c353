//! The limits of the project, each once, for code. Contracts name the limits of the definitions.
#![tactic(auto)]

ghost use Rattle.std.specs.Prelude.{◌≡◌};
ghost use Rattle.sieve_limits.specs.Limits as spec;

/// The most octets of a script's text.
pub const MAX_TEXT: usize = 1_048_576;
/// The most octets of a script's name.
pub const MAX_NAME: usize = 1_024;
/// The most scripts of a bench.
pub const MAX_SCRIPTS: usize = 4_096;
/// The greatest depth of tests: a test directly in a command has depth 1.
pub const MAX_TEST_DEPTH: usize = 32;
/// The most blocks that may stand open at once.
pub const MAX_OPEN_BLOCKS: usize = 32;
/// The most octets of a message.
pub const MAX_MESSAGE: usize = 16_777_216;
/// The most octets of a message's id.
pub const MAX_ID: usize = 1_024;
/// The most octets of the text that a message's verdict is expected to have.
pub const MAX_EXPECTED: usize = 65_536;
/// The most messages of a bench.
pub const MAX_MESSAGES: usize = 65_536;
/// The most octets of an address of the envelope.
pub const MAX_ADDRESS: usize = 1_024;
/// The most octets of the name of a mailbox.
pub const MAX_MAILBOX: usize = 255;
/// The most octets of the list of existing mailboxes.
pub const MAX_MAILBOXES: usize = 1_048_576;
/// The most actions of a run.
pub const MAX_ACTIONS: usize = 32;
/// The most scripts that may include one another below the main script.
pub const MAX_INCLUDE_DEPTH: usize = 10;
/// The most includes that a run enters.
pub const MAX_INCLUDES: usize = 256;
/// The most octets of a variable's value. A longer value is cut.
pub const MAX_VALUE: usize = 4_096;
/// The most local variables that a script sets.
pub const MAX_LOCALS: usize = 128;
/// The most variables that scripts share and a run sets.
pub const MAX_GLOBALS: usize = 128;
/// The greatest number of a match variable.
pub const MAX_MATCH: u8 = 99;
/// The most octets of a session's line, without the line end.
pub const MAX_LINE: usize = 16_384;

/// The constants are the limits of the definitions. Does nothing: its contract is the law.
pub fn constants_are_limits()
    ensures text { MAX_TEXT ≡ spec.text_limit }
    ensures name { MAX_NAME ≡ spec.name_limit }
    ensures scripts { MAX_SCRIPTS ≡ spec.script_count_limit }
    ensures tests { MAX_TEST_DEPTH ≡ spec.test_depth }
    ensures blocks { MAX_OPEN_BLOCKS ≡ spec.block_room }
    ensures message { MAX_MESSAGE ≡ spec.message_limit }
    ensures id { MAX_ID ≡ spec.id_limit }
    ensures expected { MAX_EXPECTED ≡ spec.expected_limit }
    ensures messages { MAX_MESSAGES ≡ spec.message_count_limit }
    ensures address { MAX_ADDRESS ≡ spec.address_limit }
    ensures mailbox { MAX_MAILBOX ≡ spec.mailbox_limit }
    ensures mailboxes { MAX_MAILBOXES ≡ spec.mailboxes_limit }
    ensures actions { MAX_ACTIONS ≡ spec.action_limit }
    ensures depth { MAX_INCLUDE_DEPTH ≡ spec.include_depth }
    ensures includes { MAX_INCLUDES ≡ spec.include_limit }
    ensures value { MAX_VALUE ≡ spec.value_limit }
    ensures locals { MAX_LOCALS ≡ spec.local_limit }
    ensures globals { MAX_GLOBALS ≡ spec.global_limit }
    ensures matched { MAX_MATCH ≡ spec.match_limit }
    ensures line { MAX_LINE ≡ spec.line_limit }
{}
