//! The roles of arguments: whether two are the same, and how their strings are read.
ghost use Rattle.std.specs.Prelude.{◌≡◌};
ghost use Rattle.sieve_table.specs.Role.{has_role, is_expanded, names_variable, same_role};

use crate::row::Role;

fn same_role(a: Role, b: Role) -> bool
    ensures { result ≡ same_role a b }
{
    a == b
}

/// Whether a role is given and is the wanted one.
pub fn has_role(wanted: Role, role: Option<Role>) -> bool
    ensures { result ≡ has_role wanted role }
{
    match role {
        Some(role) => same_role(wanted, role),
        None => false,
    }
}

/// Whether strings of that role name variables to set or to read. See RFC 5229, section 4, and
/// RFC 5232, sections 3 and 4.
pub fn names_variable(role: Option<Role>) -> bool
    ensures { result ≡ names_variable role }
{
    has_role(Role::NameToSet, role) || has_role(Role::NamesToRead, role)
}

/// Whether references to variables stand for values in strings of that role (RFC 5229, section 3).
pub fn is_expanded(role: Role) -> bool
    ensures { result ≡ is_expanded role }
{
    match role {
        Role::FieldNames
        | Role::AddressFields
        | Role::EnvelopeParts
        | Role::Keys
        | Role::Mailbox
        | Role::Address
        | Role::Flags
        | Role::Subject
        | Role::Sender
        | Role::OwnAddresses
        | Role::Handle
        | Role::Zone
        | Role::DatePart
        | Role::ContentTypes
        | Role::Text => true,
        Role::Capabilities
        | Role::ComparatorName
        | Role::Limit
        | Role::NameToSet
        | Role::NamesToRead
        | Role::NamesToDeclare
        | Role::ScriptName
        | Role::Relation
        | Role::Tracking
        | Role::Days => false,
    }
}
