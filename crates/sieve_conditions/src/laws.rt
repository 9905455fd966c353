//! Laws over the definitions. Each of these functions does nothing: its contract is the law.

ghost use Rattle.std.specs.Prelude.{◌≡◌, ℕ, List, is_some};
ghost use Rattle.sieve_table.specs.Address.{is_envelope_part};
ghost use Rattle.sieve_conditions.specs.Matching.{envelope_text};
ghost use Rattle.sieve_delivery.specs.declared.envelope.Envelope.{Envelope};

/// The names that a test finds in an envelope are those that the validator accepts (RFC 5228, 5.4).
#[tactic(auto, using(crate::proofs::Paths::named_parts))]
pub fn envelope_parts_are_found()
    ensures { (envelope : Envelope) (name : List ℕ)
        → is_some (envelope_text envelope name) ≡ is_envelope_part name }
{}
