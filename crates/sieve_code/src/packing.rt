//! The questions of tests and the commands that act, with their strings in pools.
ghost use Rattle.std.specs.Prelude.{◌≡◌, IfOk};
ghost use Rattle.sieve_script.specs.Reading.{compares, fileinto_leaf};
ghost use Rattle.sieve_script.specs.view.Reading.{ask_as, date_zone_as, leaf_as, settings_as, source_as, transform_as, vacation_as};
ghost use Rattle.sieve_code.specs.Pool.{Kept, ask_at, ask_in, body_in, leaf_at, leaf_in, settings_in, source_in, vacation_in, zone_in};
ghost use Rattle.sieve_code.specs.view.Pools.{pool_as};

use crate::operation::{PackedAsk, PackedLeaf, PackedSettings, PackedSource, PackedVacation};
use crate::pools::Pools;
use sieve_script::{
    Ask, BodyTransform, Comparison, DateZone, Leaf, ReadAsk, ReadLeaf, ReadVacation, Settings,
    ValueSource,
};
use sieve_variables::Parts;
use std::alloc::{AllocError, Global};

impl Pools {
    /// Adds the zone in which a date is shown.
    fn add_zone(&mut self, zone: DateZone<Parts>) -> Result<DateZone<u32>, AllocError>
        ensures { IfOk result (λ kept. Kept (pool_as self.old) (pool_as self.new)
            (λ p. zone_in p kept) (date_zone_as zone)) }
    {
        match zone {
            DateZone::Local => Ok(DateZone::Local),
            DateZone::Original => Ok(DateZone::Original),
            DateZone::Named(zone) => {
                let place = self.add_string(zone)?;
                Ok(DateZone::Named(place))
            }
        }
    }

    /// Adds the part of a body that a test looks at.
    fn add_body(
        &mut self,
        transform: BodyTransform<Vec<Parts>>,
    ) -> Result<BodyTransform<u32>, AllocError>
        ensures { IfOk result (λ kept. Kept (pool_as self.old) (pool_as self.new)
            (λ p. body_in p kept) (transform_as transform)) }
    {
        match transform {
            BodyTransform::Raw => Ok(BodyTransform::Raw),
            BodyTransform::Content { entries } => {
                let entries = self.add_list(entries)?;
                Ok(BodyTransform::Content { entries })
            }
            BodyTransform::Text => Ok(BodyTransform::Text),
        }
    }

    /// Adds the source that a test takes its values from.
    fn add_source(
        &mut self,
        source: ValueSource<Vec<Parts>, Vec<Parts>, Parts>,
    ) -> Result<PackedSource, AllocError>
        ensures { IfOk result (λ kept. Kept (pool_as self.old) (pool_as self.new)
            (λ p. source_in p kept) (source_as source)) }
    {
        match source {
            ValueSource::Fields { part, names } => {
                let names = self.add_names(names)?;
                Ok(ValueSource::Fields { part, names })
            }
            ValueSource::Envelope { part, names } => {
                let names = self.add_list(names)?;
                Ok(ValueSource::Envelope { part, names })
            }
            ValueSource::String { texts } => {
                let texts = self.add_list(texts)?;
                Ok(ValueSource::String { texts })
            }
            ValueSource::Flags { variables } => {
                let variables = self.add_given(variables)?;
                Ok(ValueSource::Flags { variables })
            }
            ValueSource::Date { zone, field, part } => {
                let zone = self.add_zone(zone)?;
                let field = self.add_string(field)?;
                let part = self.add_string(part)?;
                Ok(ValueSource::Date { zone, field, part })
            }
            ValueSource::CurrentDate { zone, part } => {
                let zone = self.add_zone(zone)?;
                let part = self.add_string(part)?;
                Ok(ValueSource::CurrentDate { zone, part })
            }
            ValueSource::Body { transform } => {
                let transform = self.add_body(transform)?;
                Ok(ValueSource::Body { transform })
            }
        }
    }

    /// Adds the strings of a test that compares values with keys.
    fn pack_compares(
        &mut self,
        source: ValueSource<Vec<Parts>, Vec<Parts>, Parts>,
        comparison: Comparison,
        keys: Vec<Parts>,
    ) -> Result<PackedAsk, AllocError>
        ensures { IfOk result (λ kept. Kept (pool_as self.old) (pool_as self.new)
            (λ p. ask_in p kept) (compares (source_as source) comparison keys.items)) }
    {
        let source = self.add_source(source)?;
        let keys = self.add_list(keys)?;
        Ok(Ask::Compares {
            source,
            comparison,
            keys,
        })
    }

    /// Adds the strings of a test's question.
    fn pack_ask(&mut self, ask: ReadAsk) -> Result<PackedAsk, AllocError>
        ensures { IfOk result (λ kept. Kept (pool_as self.old) (pool_as self.new)
            (λ p. ask_in p kept) (ask_as ask)) }
    {
        match ask {
            Ask::Compares {
                source,
                comparison,
                keys,
            } => self.pack_compares(source, comparison, keys),
            Ask::Exists { names } => {
                let names = self.add_names(names)?;
                Ok(Ask::Exists { names })
            }
            Ask::Over { limit } => Ok(Ask::Over { limit }),
            Ask::Under { limit } => Ok(Ask::Under { limit }),
            Ask::MailboxExists { names } => {
                let names = self.add_list(names)?;
                Ok(Ask::MailboxExists { names })
            }
            Ask::Duplicate => Ok(Ask::Duplicate),
        }
    }

    /// Adds the settings of a `fileinto` beside its mailbox.
    fn add_settings(
        &mut self,
        settings: Settings<Vec<Parts>, Parts>,
    ) -> Result<PackedSettings, AllocError>
        ensures { IfOk result (λ kept. Kept (pool_as self.old) (pool_as self.new)
            (λ p. settings_in p kept) (settings_as settings)) }
    {
        let copy = settings.copy;
        let create = settings.create;
        let flags = self.add_given(settings.flags)?;
        let special_use = self.add_given_string(settings.special_use)?;
        Ok(PackedSettings {
            flags,
            copy,
            create,
            special_use,
        })
    }

    /// Adds the arguments of a `vacation`.
    fn add_vacation(&mut self, vacation: ReadVacation) -> Result<PackedVacation, AllocError>
        ensures { IfOk result (λ kept. Kept (pool_as self.old) (pool_as self.new)
            (λ p. vacation_in p kept) (vacation_as vacation)) }
    {
        let days = vacation.days;
        let mime = vacation.mime;
        let reason = self.add_string(vacation.reason)?;
        let subject = self.add_given_string(vacation.subject)?;
        let from = self.add_given_string(vacation.from)?;
        let addresses = self.add_given(vacation.addresses)?;
        let handle = self.add_given_string(vacation.handle)?;
        Ok(PackedVacation {
            reason,
            days,
            subject,
            from,
            addresses,
            mime,
            handle,
        })
    }

    /// Adds the strings of a `fileinto`.
    fn pack_fileinto(
        &mut self,
        mailbox: Parts,
        settings: Settings<Vec<Parts>, Parts>,
    ) -> Result<PackedLeaf, AllocError>
        ensures { IfOk result (λ kept. Kept (pool_as self.old) (pool_as self.new)
            (λ p. leaf_in p kept) (fileinto_leaf mailbox (settings_as settings))) }
    {
        let mailbox = self.add_string(mailbox)?;
        let settings = self.add_settings(settings)?;
        Ok(Leaf::Fileinto { mailbox, settings })
    }

    /// Adds the strings of a command that acts.
    fn pack_leaf(&mut self, alloc: Global, leaf: ReadLeaf) -> Result<PackedLeaf, AllocError>
        ensures { IfOk result (λ kept. Kept (pool_as self.old) (pool_as self.new)
            (λ p. leaf_in p kept) (leaf_as leaf)) }
    {
        match leaf {
            Leaf::Keep { flags } => {
                let flags = self.add_given(flags)?;
                Ok(Leaf::Keep { flags })
            }
            Leaf::Fileinto { mailbox, settings } => self.pack_fileinto(mailbox, settings),
            Leaf::Redirect { address, copy } => {
                let address = self.add_string(address)?;
                Ok(Leaf::Redirect { address, copy })
            }
            Leaf::Discard => Ok(Leaf::Discard),
            Leaf::Set {
                variable,
                modifiers,
                value,
            } => {
                let value = self.add_string(value)?;
                Ok(Leaf::Set {
                    variable,
                    modifiers,
                    value,
                })
            }
            Leaf::Flags {
                change,
                variable,
                flags,
            } => {
                let flags = self.add_list(flags)?;
                Ok(Leaf::Flags {
                    change,
                    variable,
                    flags,
                })
            }
            Leaf::Include {
                location,
                once,
                optional,
                name,
            } => Ok(Leaf::Include {
                location,
                once,
                optional,
                name,
            }),
            Leaf::Vacation { vacation } => {
                let vacation = self.add_vacation(Box::into_inner(vacation))?;
                let vacation = Box::new(alloc, vacation)?;
                Ok(Leaf::Vacation { vacation })
            }
            Leaf::Reject { how, reason } => {
                let reason = self.add_string(reason)?;
                Ok(Leaf::Reject { how, reason })
            }
        }
    }

    /// Adds the question of a test. Returns its place.
    pub(crate) fn add_ask(&mut self, ask: ReadAsk) -> Result<u32, AllocError>
        ensures { IfOk result (λ place. Kept (pool_as self.old) (pool_as self.new)
            (λ p. ask_at p place) (ask_as ask)) }
    {
        let packed = self.pack_ask(ask)?;
        self.push_ask(packed)
    }

    /// Adds a command that acts. Returns its place.
    pub(crate) fn add_leaf(&mut self, alloc: Global, leaf: ReadLeaf) -> Result<u32, AllocError>
        ensures { IfOk result (λ place. Kept (pool_as self.old) (pool_as self.new)
            (λ p. leaf_at p place) (leaf_as leaf)) }
    {
        let packed = self.pack_leaf(alloc, leaf)?;
        self.push_leaf(packed)
    }
}
