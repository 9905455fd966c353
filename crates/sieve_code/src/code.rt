//! Compiled code.
ghost use Rattle.std.specs.Prelude.{◌≡◌, ◌<◌, length, Some, slice_get};
ghost use Rattle.std.specs.Option.{option_copied};
ghost use Rattle.packed_strings.specs.Joined.{list_in};
ghost use Rattle.packed_strings.specs.view.Refs.{body_ref_as, settings_ref_as, source_ref_as, vacation_ref_as, zone_ref_as};
ghost use Rattle.sieve_code.specs.Choice.{AllGoForward};
ghost use Rattle.sieve_code.specs.Compiles.{IsCode};
ghost use Rattle.sieve_code.specs.Pool.{ask_at, ask_in, body_in, given_list, given_string, leaf_at, leaf_of, settings_in, source_in, string_in, vacation_in, zone_in};
ghost use Rattle.sieve_code.specs.view.Operation.{ops_in};
ghost use Rattle.sieve_code.specs.view.Pools.{pool_as};

use crate::operation::{
    PackedAsk, PackedLeaf, PackedOperation, PackedSettings, PackedSource, PackedVacation,
};
use crate::pools::Pools;
use packed_strings::{BodyRef, FieldNames, SettingsRef, SourceRef, Strings, VacationRef, ZoneRef};
use sieve_script::{Ask, BodyTransform, DateZone};
use sieve_variables::Part;

/// The code of a checked script. It starts at the first operation and ends after the last. Each
/// jump goes forward, and at most to the end. The code does what the script does that it was
/// compiled from.
#[derive(Drop)]
pub struct Code {
    pub(crate) ops: Vec<PackedOperation>,
    pub(crate) pools: Pools,
    pub ghost forward: { AllGoForward (ops_in (pool_as pools) ops.items) },
    pub ghost compiled: { ∥ IsCode (ops_in (pool_as pools) ops.items) ∥₁ },
}

impl Code {
    ghost use Rattle.sieve_code.specs.view.Code.{jump_place_of, op_of, ops_of, pool_of};

    /// The number of operations.
    pub fn len(&self) -> usize
        ensures { result ≡ length (ops_of self.now) }
    {
        self.ops.len()
    }

    /// The operation at a place.
    pub fn op(&self, i: usize) -> PackedOperation
        requires { i < length (ops_of self.now) }
        ensures { slice_get (ops_of self.now) i ≡ Some (op_of self.now result) }
    {
        self.ops[i]
    }

    /// The question at a place, with the places of its strings. Past the last place it is whether
    /// the message came before.
    pub fn ask(&self, place: u32) -> PackedAsk
        ensures { ask_in (pool_of self.now) result ≡ ask_at (pool_of self.now) place }
    {
        match self.pools.asks.get(place as usize) {
            Some(ask) => *ask,
            None => Ask::Duplicate,
        }
    }

    /// The command at a place, with the places of its strings. Past the last place there is none,
    /// which stands for `discard`.
    pub fn leaf(&self, place: u32) -> Option<&PackedLeaf>
        ensures { leaf_of (pool_of self.now) (option_copied result)
            ≡ leaf_at (pool_of self.now) place }
    {
        self.pools.leaves.get(place as usize)
    }

    /// The place where `left` operations are left. A jump with this number goes there.
    pub fn jump_place(&self, left: u32) -> usize
        ensures { result ≡ jump_place_of self.now left }
    {
        self.len().saturating_sub(left as usize)
    }

    /// The parts of the string at a place.
    pub fn string(&self, place: u32) -> &[Part]
        ensures { result.now ≡ string_in (pool_of self.now) place }
    {
        self.pools.strings.get(place as usize)
    }

    /// The string at a place, if one is given.
    fn given_string(&self, place: Option<u32>) -> Option<&[Part]>
        ensures { option_copied result ≡ given_string (pool_of self.now) place }
    {
        match place {
            Some(place) => Some(self.string(place)),
            None => None,
        }
    }

    /// The list at a place.
    pub fn list(&self, place: u32) -> Strings<'_>
        ensures { result ≡ list_in (pool_of self.now).lists place }
    {
        self.pools.lists.list(place as usize)
    }

    /// The list at a place, if one is given.
    pub fn given_list(&self, place: Option<u32>) -> Option<Strings<'_>>
        ensures { result ≡ given_list (pool_of self.now) place }
    {
        match place {
            Some(place) => Some(self.list(place)),
            None => None,
        }
    }

    /// The names of fields at a place.
    pub fn names(&self, place: u32) -> FieldNames<'_>
        ensures { result ≡ list_in (pool_of self.now).names place }
    {
        self.pools.names.list(place as usize)
    }

    /// The zone in which a date is shown.
    fn zone(&self, zone: DateZone<u32>) -> ZoneRef<'_>
        ensures { zone_ref_as result ≡ zone_in (pool_of self.now) zone }
    {
        match zone {
            DateZone::Local => DateZone::Local,
            DateZone::Original => DateZone::Original,
            DateZone::Named(place) => DateZone::Named(self.string(place)),
        }
    }

    /// The part of a body that a test looks at.
    fn body(&self, transform: BodyTransform<u32>) -> BodyRef<'_>
        ensures { body_ref_as result ≡ body_in (pool_of self.now) transform }
    {
        match transform {
            BodyTransform::Raw => BodyTransform::Raw,
            BodyTransform::Content { entries } => BodyTransform::Content {
                entries: self.list(entries),
            },
            BodyTransform::Text => BodyTransform::Text,
        }
    }

    /// The source that a test takes its values from, with its strings.
    pub fn source(&self, source: PackedSource) -> SourceRef<'_>
        ensures { source_ref_as result ≡ source_in (pool_of self.now) source }
    {
        match source {
            PackedSource::Fields { part, names } => SourceRef::Fields {
                part,
                names: self.names(names),
            },
            PackedSource::Envelope { part, names } => SourceRef::Envelope {
                part,
                names: self.list(names),
            },
            PackedSource::String { texts } => SourceRef::String {
                texts: self.list(texts),
            },
            PackedSource::Flags { variables } => SourceRef::Flags {
                variables: self.given_list(variables),
            },
            PackedSource::Date { zone, field, part } => SourceRef::Date {
                zone: self.zone(zone),
                field: self.string(field),
                part: self.string(part),
            },
            PackedSource::CurrentDate { zone, part } => SourceRef::CurrentDate {
                zone: self.zone(zone),
                part: self.string(part),
            },
            PackedSource::Body { transform } => SourceRef::Body {
                transform: self.body(transform),
            },
        }
    }

    /// The settings of a `fileinto` beside its mailbox, with their strings.
    pub fn settings(&self, settings: PackedSettings) -> SettingsRef<'_>
        ensures { settings_ref_as result ≡ settings_in (pool_of self.now) settings }
    {
        SettingsRef {
            flags: self.given_list(settings.flags),
            copy: settings.copy,
            create: settings.create,
            special_use: self.given_string(settings.special_use),
        }
    }

    /// The arguments of a `vacation`, with their strings.
    pub fn vacation(&self, vacation: PackedVacation) -> VacationRef<'_>
        ensures { vacation_ref_as result ≡ vacation_in (pool_of self.now) vacation }
    {
        VacationRef {
            reason: self.string(vacation.reason),
            days: vacation.days,
            subject: self.given_string(vacation.subject),
            from: self.given_string(vacation.from),
            addresses: self.given_list(vacation.addresses),
            mime: vacation.mime,
            handle: self.given_string(vacation.handle),
        }
    }
}
