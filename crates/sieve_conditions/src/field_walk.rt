//! The fields that a test looks at, one after another.
ghost use Rattle.std.specs.Prelude.{◌≡◌, ◌<◌, [], ◌∷◌, length, map, slice_get, OnOk, Some, false, true};
ghost use Rattle.std.specs.List.{fold};
ghost use Rattle.message_text.specs.Fields.{Field, fields_of};
ghost use Rattle.sieve_conditions.specs.Matching.{fields_looked_at, is_looked_at};
ghost use Rattle.sieve_delivery.specs.view.State.{state_of};
ghost use Rattle.sieve_variables.specs.Value.{text_value};

use crate::field_cache::FieldCache;
use message_text::{AddressPart, FieldName};
use packed_strings::FieldNames;
use sieve_delivery::{Delivery, RunState};
use sieve_table::is_address_field;
use std::alloc::{AllocError, Global};

/// A visitor of fields, one after another, until it has seen enough.
pub(crate) trait FieldVisitor {
    ghost use Rattle.std.specs.Prelude.{◌≡◌, Bool, Option, true};
    ghost use Rattle.message_text.specs.Fields.{Field};
    ghost use Rattle.message_text.specs.declared.addressing.AddressPart as parts;
    ghost use Rattle.sieve_profile.specs.Profile.{Profile};

    /// Whether the places of the fields that it visits are kept. Keeping takes memory, and spares
    /// later tests a search.
    const KEEPS_NAMES: bool;

    /// The visitor after one more field.
    ghost after: { Profile → Option parts.AddressPart → Self → Field → Self };

    ghost is_done: { Self → Bool };

    /// Whether it has seen enough.
    fn is_done(&self) -> bool
        ensures { result ≡ is_done self.now };

    /// Looks at the value of field `i`, or at that part of the addresses in it. Fails if memory is
    /// refused.
    fn visit(
        &mut self,
        alloc: Global,
        fields: &mut FieldCache<'_>,
        part: Option<AddressPart>,
        i: usize,
    ) -> Result<(), AllocError>
        requires there { i < length (fields_of fields.old.message) }
        requires unfinished { is_done self.old ≡ false }
        ensures arrival { fields.new ≡ fields.old }
        ensures seen { OnOk result ((field : Field)
            → slice_get (fields_of fields.old.message) i ≡ Some field
            → self.new ≡ after fields.old.profile part self.old field) };

    /// A visitor that has seen enough stays as it is.
    ghost rests: { (profile : Profile) (part : Option parts.AddressPart) (visitor : Self)
        (field : Field) → is_done visitor ≡ true → after profile part visitor field ≡ visitor };
}

/// Whether fields of that name are looked at. For a part of addresses, only fields that hold
/// addresses are.
fn is_looked_at(part: Option<AddressPart>, name: &[u8]) -> bool
    ensures { result ≡ is_looked_at part name.now }
{
    match part {
        None => true,
        Some(_) => is_address_field(name),
    }
}

/// Visits the fields of a name in order, if a test looks at them.
fn visit_named<V: FieldVisitor>(
    alloc: Global,
    fields: &mut FieldCache<'_>,
    part: Option<AddressPart>,
    name: &FieldName<'_>,
    visitor: &mut V,
) -> Result<(), AllocError>
    ensures arrival { fields.new ≡ fields.old }
    ensures seen { OnOk result (visitor.new ≡ fold (V.after fields.old.profile part) visitor.old
        (fields_looked_at part (fields_of fields.old.message) (name.now ∷ []))) }
{
    if !is_looked_at(part, name.octets()) {
        return Ok(());
    }
    let mut start = 0;
    while !visitor.is_done() {
        let Some(i) = fields.next_named(name, start, V::KEEPS_NAMES) else {
            return Ok(());
        };
        visitor.visit(alloc, &mut *fields, part, i)?;
        start = fields.after_named(name, i);
    }
    Ok(())
}

/// Visits the fields that a test looks at, name by name. Fails if memory is refused.
pub(crate) fn visit_looked_at<V: FieldVisitor>(
    delivery: &Delivery<'_>,
    fields: &mut FieldCache<'_>,
    state: &RunState,
    part: Option<AddressPart>,
    names: &FieldNames<'_>,
    visitor: &mut V,
) -> Result<(), AllocError>
    ensures arrival { fields.new ≡ fields.old }
    ensures seen { OnOk result (visitor.new ≡ fold (V.after fields.old.profile part) visitor.old
        (fields_looked_at part (fields_of fields.old.message)
        (map (text_value (state_of state.now).values) names.now))) }
{
    let alloc = delivery.alloc;
    let mut buffer = Vec::new(alloc);
    for i in 0..names.len() {
        if visitor.is_done() {
            return Ok(());
        }
        let name = names.name_in(i, &state.values, &mut buffer)?;
        visit_named(alloc, &mut *fields, part, &name, visitor)?;
    }
    Ok(())
}
