//! Laws over the definitions. Each of these functions does nothing: its contract is the law.
ghost use Rattle.std.specs.Prelude.{◌≡◌, ℕ, List};
ghost use Rattle.std.specs.List.{All};
ghost use Rattle.message_text.specs.Addresses.{AddrSpec, IsAddrSpec, SubpartsJoin, addresses_of, marks_of, octets_of, part_of_address};
ghost use Rattle.message_text.specs.declared.addressing.AddressPart.TheVariants as part;

/// Each address of a value has octets. If it has local part and domain, it is the local part, an
/// `@` and the domain in turn. Neither part is empty (RFC 5322, 3.4.1).
pub fn parts_join_to_the_address()
    ensures parts { (value : List ℕ) → All IsAddrSpec (addresses_of value) }
{}

/// The local part of an address with a detail is the user, a `+` and the detail in turn. If it has
/// no detail, the user is the local part. No `+` stands in a user. An address without a local part
/// has neither (RFC 5233, section 4).
#[tactic(auto, using(crate::proofs::SubaddressLemmas::parts_joined))]
pub fn user_and_detail_join_to_the_local_part()
    ensures { (address : AddrSpec) → SubpartsJoin address.local_part
        (part_of_address part.User address) (part_of_address part.Detail address) }
{}

/// The marks keep the octets of a value.
#[tactic(auto, using(crate::proofs::LawLemmas::marks_are_of_the_octets))]
pub fn marks_keep_the_octets()
    ensures octets { (value : List ℕ) → octets_of (marks_of value) ≡ value }
{}
