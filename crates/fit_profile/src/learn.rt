//! What a stream takes in of a record: its environment, and the names and units of developer fields.
ghost use Rattle.std.specs.Prelude.{◌≡◌, OnOk, OnErr, IfOk, IsOk, IsSomeAnd, None, false, option_and_then};
ghost use Rattle.fit_record.specs.Environment.{DescribesNothing, defined_at, described_by, learn};
ghost use Rattle.fit_record.specs.Records.{DataFits, Fits};
ghost use Rattle.fit_record.specs.declared.message.Record.TheVariants.{Define, Values as Data};
ghost use Rattle.fit_profile.specs.inner.Keeps.{AreNamesAfter, AreSameNames, described};

use crate::names::{Described, Names, texts_of};
use fit_record::{Env, MessageDef, Record, Values};
use std::alloc::{AllocError, Global};

/// Takes a definition in: its developer fields have the names and units of their last descriptions. Says whether what is known may
/// change.
fn define(env: &mut Env, names: &mut Names, definition: &MessageDef) -> Result<bool, AllocError>
    requires { Fits env.old (Define definition.now) }
    ensures learned { OnOk result (env.new ≡ learn env.old (Define definition.now)) }
    ensures same { IfOk result (λ changes. changes ≡ false
        → learn env.old (Define definition.now) ≡ env.old) }
    ensures env_kept { OnErr result (env.new ≡ env.old) }
    ensures names { OnOk result
        (AreNamesAfter env.old (Define definition.now) names.old names.new) }
    ensures names_kept { OnErr result (AreSameNames names.old names.new) }
{
    let Some(fields) = &definition.dev else {
        let changes = env.learn_definition(definition)?;
        names.forget(definition.local);
        return Ok(changes);
    };
    names.make_place(definition.local)?;
    let namings = names.all_texts_at(fields.as_slice())?;
    let changes = env.learn_definition(definition)?;
    names.put(definition.local, namings);
    Ok(changes)
}

/// The developer field that a message describes, with its name and its unit.
fn described_in(
    env: &Env,
    alloc: Global,
    values: &Values,
) -> Result<Option<Described<Global>>, AllocError>
    requires { IsSomeAnd (defined_at env.now values.now.local) (DataFits values.now) }
    ensures ok { IfOk result (λ o. o ≡ option_and_then (λ p. described p.definition values.now)
        (defined_at env.now values.now.local)) }
    ensures free { described_by env.now values.now ≡ None → IsOk result }
{
    let Some(defined) = env.defined(values.local) else {
        return Ok(None);
    };
    let Some(description) = env.described_by(values) else {
        return Ok(None);
    };
    let texts = texts_of(alloc, &defined.definition, values)?;
    Ok(Some(Described {
        key: description.key,
        texts,
    }))
}

/// Takes a data message in: a field description gives a developer field its name and its unit.
fn describe(
    env: &mut Env,
    names: &mut Names,
    record_: &Record,
    values: &Values,
) -> Result<(), AllocError>
    requires is { record_.now ≡ Data values.now }
    requires fits { Fits env.old record_.now }
    ensures learned { OnOk result (env.new ≡ learn env.old record_.now) }
    ensures env_kept { OnErr result (env.new ≡ env.old) }
    ensures names { OnOk result (AreNamesAfter env.old record_.now names.old names.new) }
    ensures names_kept { OnErr result (AreSameNames names.old names.new) }
    // No memory is taken for a message that describes nothing.
    ensures free { DescribesNothing env.old record_.now → IsOk result }
{
    let Some(described) = described_in(env, names.alloc, values)? else {
        return env.learn(record_);
    };
    names.reserve(described.key)?;
    env.learn(record_)?;
    names.set(described.key, described.texts);
    Ok(())
}

/// Takes a record in. Where memory is refused, all that is known stays. Says whether what is defined may change.
pub(crate) fn take_in(
    env: &mut Env,
    names: &mut Names,
    record_: &Record,
) -> Result<bool, AllocError>
    requires { Fits env.old record_.now }
    ensures learned { OnOk result (env.new ≡ learn env.old record_.now) }
    ensures same { IfOk result (λ changes. changes ≡ false
        → learn env.old record_.now ≡ env.old) }
    ensures env_kept { OnErr result (env.new ≡ env.old) }
    ensures names { OnOk result (AreNamesAfter env.old record_.now names.old names.new) }
    ensures names_kept { OnErr result (AreSameNames names.old names.new) }
    // No memory is taken for a message that describes nothing.
    ensures free { DescribesNothing env.old record_.now → IsOk result }
{
    match record_ {
        Record::Define(definition) => define(env, names, definition),
        Record::Values(values) => {
            describe(env, names, record_, values)?;
            Ok(true)
        }
    }
}
