//! Field descriptions that a stream takes in by their bytes: no record is made of them.
ghost use Rattle.std.specs.Prelude.{◌≡◌, IfOk, OnErr, OnOk, length, option_and_then, option_map};
ghost use Rattle.std.specs.Global.{Global};
ghost use Rattle.fit_record.specs.Environment.{defined_at, described_by, learn};
ghost use Rattle.fit_record.specs.MessageBytes.{message_in};
ghost use Rattle.fit_record.specs.Records.{IsRecord, message_size};
ghost use Rattle.fit_record.specs.declared.message.Record.TheVariants.{Values as Data};
ghost use Rattle.fit_record.specs.declared.message.Values.{Values};
ghost use Rattle.fit_profile.specs.Described.{naming};
ghost use Rattle.fit_profile.specs.inner.Keeps.{AreNamesAfter, AreSameNames, described};

use crate::names::{Described, Names, Texts};
use crate::text::text_in;
use fit_record::{Description, Env, MessageBytes};
use std::alloc::{AllocError, Global};

/// The name and the unit that a field description gives.
fn texts_in(alloc: Global, message: &MessageBytes<'_>) -> Result<Texts, AllocError>
    requires { length message.now.body.now ≡ message_size message.now.defined.now }
    ensures { IfOk result (λ texts.
        texts ≡ naming message.now.defined.now.definition (message_in message.now)) }
{
    let name = text_in(alloc, message, 3)?;
    let unit = text_in(alloc, message, 8)?;
    Texts::of(alloc, name, unit)
}

/// What the data message describes that these bytes are: a base type code, and the developer field with its name and its unit.
fn described_in(
    env: &Env,
    alloc: Global,
    bytes: &[u8],
) -> Result<Option<(u8, Described<Global>)>, AllocError>
    requires { (v : Values Global) × IsRecord env.now (Data v) bytes.now }
    ensures code { IfOk result (λ o. (v : Values Global) → IsRecord env.now (Data v) bytes.now
        → option_map (λ x. record { key = x.1.key; code = x.0 }) o ≡ described_by env.now v) }
    ensures field { IfOk result (λ o. (v : Values Global) → IsRecord env.now (Data v) bytes.now
        → option_map (λ x. x.1) o ≡ option_and_then (λ p. described p.definition v)
        (defined_at env.now v.local)) }
{
    let message = env.open(bytes);
    let Some(description) = message.description() else {
        return Ok(None);
    };
    let texts = texts_in(alloc, &message)?;
    let key = description.key;
    Ok(Some((description.code, Described { key, texts })))
}

/// Takes in the data message that these bytes are: a field description gives a developer field its base type, its name and its unit. Where
/// memory is refused, all that is known stays.
pub(crate) fn take_in_bytes(
    env: &mut Env,
    names: &mut Names,
    bytes: &[u8],
) -> Result<(), AllocError>
    requires { (v : Values Global) × IsRecord env.old (Data v) bytes.now }
    ensures learned { OnOk result ((v : Values Global) → IsRecord env.old (Data v) bytes.now
        → env.new ≡ learn env.old (Data v)) }
    ensures env_kept { OnErr result (env.new ≡ env.old) }
    ensures names { OnOk result ((v : Values Global) → IsRecord env.old (Data v) bytes.now
        → AreNamesAfter env.old (Data v) names.old names.new) }
    ensures names_kept { OnErr result (AreSameNames names.old names.new) }
{
    let Some((code, described)) = described_in(env, names.alloc, bytes)? else {
        return Ok(());
    };
    let key = described.key;
    names.reserve(key)?;
    env.describe(Description { key, code })?;
    names.set(key, described.texts);
    Ok(())
}
