//! Readers of what expressions, scripts and scenarios share: keys, values, names and the header.

ghost use Rattle.jc_parser.specs.ReaderState.{MapsResult};
ghost use Rattle.jc_parser.specs.PartReaders.{get_at, read_value_at, read_name_at, version_at, front_at};

use crate::cursor::Cursor;
use crate::fault::ScenarioFault;
use jc_rules::{Text, Value, Version};
use jc_syntax::TokenKind;
use std::alloc::Global;

/// The key of a selector `get`, from its word on.
#[tactic(auto, unfolding(crate::specs::PartReaders::get_at))]
pub(crate) fn get(alloc: Global, cursor: &mut Cursor) -> Result<Text, ScenarioFault>
    ensures { MapsResult (λ k. (k, cursor.new)) result (get_at cursor.old) }
{
    cursor.word("get")?;
    cursor.mark(TokenKind::ParenL)?;
    let key = cursor.string(alloc)?;
    cursor.mark(TokenKind::ParenR)?;
    Ok(key)
}

/// A value.
#[tactic(auto, unfolding(crate::specs::PartReaders::read_value_at, crate::specs::PartReaders::number_at, crate::specs::PartReaders::string_at))]
pub(crate) fn value(alloc: Global, cursor: &mut Cursor) -> Result<Value, ScenarioFault>
    ensures { MapsResult (λ v. (v, cursor.new)) result (read_value_at cursor.old) }
{
    if cursor.begins(TokenKind::Number) {
        let text = cursor.number(alloc)?;
        return Ok(Value::Number(text));
    }
    if cursor.begins(TokenKind::Str) {
        let text = cursor.string(alloc)?;
        return Ok(Value::Str(text));
    }
    if cursor.begins_word("true") {
        cursor.advance();
        return Ok(Value::True);
    }
    if cursor.begins_word("false") {
        cursor.advance();
        return Ok(Value::False);
    }
    cursor.word("null")?;
    Ok(Value::Null)
}

/// The name of a replica.
#[tactic(auto, unfolding(crate::specs::PartReaders::read_name_at))]
pub(crate) fn name(alloc: Global, cursor: &mut Cursor) -> Result<Text, ScenarioFault>
    ensures { MapsResult (λ n. (n, cursor.new)) result (read_name_at cursor.old) }
{
    if cursor.begins_reserved() {
        return Err(ScenarioFault::ReservedName {
            place: cursor.place(),
        });
    }
    let named = cursor.name(alloc)?;
    Ok(named.name)
}

/// The number of a version.
#[tactic(auto, unfolding(crate::specs::PartReaders::version_at))]
fn version(cursor: &mut Cursor) -> Result<Version, ScenarioFault>
    ensures { MapsResult (λ v. (v, cursor.new)) result (version_at cursor.old) }
{
    let place = cursor.place();
    if cursor.begins_number("2") {
        cursor.advance();
        return Ok(Version::Two);
    }
    if !cursor.begins_number("1") {
        return Err(ScenarioFault::NoHeader { place });
    }
    cursor.advance();
    Ok(Version::One)
}

/// The header, which gives the version, and the word `replica`.
#[tactic(auto, unfolding(crate::specs::PartReaders::front_at))]
pub(crate) fn front(cursor: &mut Cursor) -> Result<Version, ScenarioFault>
    ensures { MapsResult (λ v. (v, cursor.new)) result (front_at cursor.old) }
{
    let place = cursor.place();
    if !cursor.begins_word("jsoncrdt") {
        return Err(ScenarioFault::NoHeader { place });
    }
    cursor.advance();
    let version = version(cursor)?;
    let place = cursor.place();
    if !cursor.begins_word("replica") {
        return Err(ScenarioFault::NoReplica { place });
    }
    cursor.advance();
    Ok(version)
}
