//! Scenarios as their texts have them, and their readers. `jc_scenario` numbers the replicas.

ghost use Rattle.std.specs.Prelude.{◌≡◌, ◌≢◌, ◌-◌, [], IfOk, IfErr, All, map};
ghost use Rattle.jc_rules.specs.declared.limits.TheConstants.{MAX_EVENTS, MAX_REPLICAS};
ghost use Rattle.jc_syntax.specs.Lexemes.{IsTokenOf};
ghost use Rattle.jc_syntax.specs.Trees.{cmd_of};
ghost use Rattle.jc_parser.specs.ReaderState.{MapsResult, reading_of};
ghost use Rattle.jc_parser.specs.Scenarios.{tree, IsNamedTree, IsTreeFault};
ghost use Rattle.jc_parser.specs.ScenarioReader.{is_among, other_name_at, new_name_at, body_at, part_at, too_many_replicas_at, events_at, block_at, any_block_at, given_at, blocks_at, rest_at, tree_at};
ghost use Rattle.jc_parser.specs.ScenarioViews.{part_view, tree_view, names_of};

use crate::cursor::Cursor;
use crate::events::event;
use crate::fault::ScenarioFault;
use crate::parts::front;
use crate::scripts::closed_script;
use jc_rules::limits::{MAX_EVENTS, MAX_REPLICAS};
use jc_rules::{Text, Version};
use jc_syntax::{Cmd, NamedEvent, Token, TokenKind, copy_script};
use std::alloc::{AllocError, Global};

/// A replica of a text: its name and its script.
#[derive(Drop)]
pub struct NamedReplica {
    pub name: Text,
    pub script: Vec<Cmd>,
}

/// A scenario as its text has it: the version, the replicas in the order of the text, and the events
/// with the names of replicas and their offsets.
#[derive(Drop)]
pub struct NamedScenario {
    pub version: Version,
    pub replicas: Vec<NamedReplica>,
    /// The events that run before the schedule. Version 1 has none.
    pub given: Vec<NamedEvent>,
    /// The schedule.
    pub events: Vec<NamedEvent>,
}

impl NamedReplica {
    /// A copy of the replica.
    pub fn copy(&self) -> Result<NamedReplica, AllocError>
        ensures { IfOk result (λ replica. part_view replica ≡ part_view self.now) }
    {
        Ok(NamedReplica {
            name: self.name.copy()?,
            script: copy_script(*self.script.allocator(), &self.script)?,
        })
    }
}

impl NamedScenario {
    /// A copy of the scenario.
    pub fn copy(&self) -> Result<NamedScenario, AllocError>
        ensures { IfOk result (λ scenario. tree_view scenario ≡ tree_view self.now) }
    {
        let alloc = *self.replicas.allocator();
        Ok(NamedScenario {
            version: self.version,
            replicas: copy_replicas(alloc, &self.replicas)?,
            given: copy_events(alloc, &self.given)?,
            events: copy_events(alloc, &self.events)?,
        })
    }
}

fn copy_replicas(alloc: Global, replicas: &[NamedReplica]) -> Result<Vec<NamedReplica>, AllocError>
    ensures { IfOk result (λ copies. map part_view copies.items ≡ map part_view replicas.now) }
{
    let mut copies = Vec::new(alloc);
    for replica in replicas {
        copies.push(replica.copy()?)?;
    }
    Ok(copies)
}

fn copy_events(alloc: Global, events: &[NamedEvent]) -> Result<Vec<NamedEvent>, AllocError>
    ensures { IfOk result (λ copies. copies.items ≡ events.now) }
{
    let mut copies = Vec::new(alloc);
    for event in events {
        copies.push(event.copy()?)?;
    }
    Ok(copies)
}

/// Whether one of the replicas has this name.
fn is_taken(replicas: &[NamedReplica], name: &Text) -> bool
    ensures { result ≡ is_among (names_of replicas.now) name.now }
{
    replicas
        .iter()
        .any(|replica| name.as_str() == replica.name.as_str())
}

/// A name that none of these replicas has.
#[tactic(auto, unfolding(crate::specs::ScenarioReader::other_name_at))]
fn other_name(
    alloc: Global,
    cursor: &mut Cursor,
    replicas: &[NamedReplica],
) -> Result<Text, ScenarioFault>
    ensures { MapsResult (λ n. (n, cursor.new)) result (other_name_at (names_of replicas.now) cursor.old) }
{
    let named = cursor.name(alloc)?;
    if is_taken(replicas, &named.name) {
        return Err(ScenarioFault::SameName { place: named.place });
    }
    Ok(named.name)
}

/// A name that is no reserved word, and that none of these replicas has.
#[tactic(auto, unfolding(crate::specs::ScenarioReader::new_name_at))]
fn new_name(
    alloc: Global,
    cursor: &mut Cursor,
    replicas: &[NamedReplica],
) -> Result<Text, ScenarioFault>
    ensures { MapsResult (λ n. (n, cursor.new)) result (new_name_at (names_of replicas.now) cursor.old) }
{
    if cursor.begins_reserved() {
        return Err(ScenarioFault::ReservedName {
            place: cursor.place(),
        });
    }
    other_name(alloc, cursor, replicas)
}

/// A script with its braces.
#[tactic(auto, unfolding(crate::specs::ScenarioReader::body_at))]
fn body(alloc: Global, cursor: &mut Cursor) -> Result<Vec<Cmd>, ScenarioFault>
    ensures { MapsResult (λ s. (map cmd_of s.items, cursor.new)) result (body_at cursor.old) }
{
    cursor.mark(TokenKind::BraceL)?;
    closed_script(alloc, cursor)
}

/// A replica from its name on, after these replicas.
#[tactic(auto, unfolding(crate::specs::ScenarioReader::part_at))]
fn replica(
    alloc: Global,
    cursor: &mut Cursor,
    replicas: &[NamedReplica],
) -> Result<NamedReplica, ScenarioFault>
    ensures { MapsResult (λ p. (part_view p, cursor.new)) result (part_at (names_of replicas.now) cursor.old) }
{
    let name = new_name(alloc, cursor, replicas)?;
    let script = body(alloc, cursor)?;
    Ok(NamedReplica { name, script })
}

/// The fault of one replica more than there may be, after its word; or want of memory.
fn crowd(alloc: Global, cursor: &mut Cursor, replicas: &[NamedReplica]) -> ScenarioFault
    ensures { result ≢ ScenarioFault.Memory → result ≡ too_many_replicas_at (names_of replicas.now) cursor.old }
{
    let place = cursor.place();
    match new_name(alloc, cursor, replicas) {
        Ok(_) => ScenarioFault::TooManyReplicas { place },
        Err(fault) => fault,
    }
}

/// The events of a block, up to what begins none.
fn events(
    alloc: Global,
    version: Version,
    cursor: &mut Cursor,
) -> Result<Vec<NamedEvent>, ScenarioFault>
    ensures { MapsResult (λ es. (es.items, cursor.new)) result (events_at version MAX_EVENTS cursor.old) }
{
    let mut events = Vec::new(alloc);
    let mut left = MAX_EVENTS;
    'events: while cursor.begins(TokenKind::Name) {
        if left == 0 {
            return Err(ScenarioFault::TooManyEvents {
                place: cursor.place(),
            });
        }
        let event = event(alloc, version, cursor)?;
        events.push(event)?;
        if !cursor.begins(TokenKind::Semi) {
            return Ok(events);
        }
        cursor.advance();
        left -= 1;
    }
    Ok(events)
}

/// A block of events, from its word on.
#[tactic(auto, unfolding(crate::specs::ScenarioReader::block_at))]
fn block(
    alloc: Global,
    version: Version,
    cursor: &mut Cursor,
    word: &str,
) -> Result<Vec<NamedEvent>, ScenarioFault>
    ensures { MapsResult (λ es. (es.items, cursor.new)) result (block_at word.now version MAX_EVENTS cursor.old) }
{
    cursor.word(word)?;
    cursor.mark(TokenKind::BraceL)?;
    let events = events(alloc, version, cursor)?;
    cursor.mark(TokenKind::BraceR)?;
    Ok(events)
}

/// A block of events with this word, or nothing.
#[tactic(auto, unfolding(crate::specs::ScenarioReader::any_block_at))]
fn any_block(
    alloc: Global,
    version: Version,
    cursor: &mut Cursor,
    word: &str,
) -> Result<Vec<NamedEvent>, ScenarioFault>
    ensures { MapsResult (λ es. (es.items, cursor.new)) result (any_block_at word.now version MAX_EVENTS cursor.old) }
{
    if cursor.begins_word(word) {
        block(alloc, version, cursor, word)
    } else {
        Ok(Vec::new(alloc))
    }
}

/// The given events, which version 2 alone has.
#[tactic(auto, unfolding(crate::specs::ScenarioReader::given_at))]
fn given(
    alloc: Global,
    version: Version,
    cursor: &mut Cursor,
) -> Result<Vec<NamedEvent>, ScenarioFault>
    ensures { MapsResult (λ es. (es.items, cursor.new)) result (given_at version MAX_EVENTS cursor.old) }
{
    match version {
        Version::One => Ok(Vec::new(alloc)),
        Version::Two => any_block(alloc, version, cursor, "given"),
    }
}

/// The given events and the schedule, behind the replicas.
#[tactic(auto, unfolding(crate::specs::ScenarioReader::blocks_at))]
fn blocks(
    alloc: Global,
    version: Version,
    cursor: &mut Cursor,
) -> Result<(Vec<NamedEvent>, Vec<NamedEvent>), ScenarioFault>
    ensures { MapsResult (λ b. (tree version [] b.0.items b.1.items, cursor.new)) result
        (blocks_at version MAX_EVENTS cursor.old) }
{
    let given = given(alloc, version, cursor)?;
    let events = any_block(alloc, version, cursor, "schedule")?;
    Ok((given, events))
}

/// The replicas and the events, from the first replica's name on.
fn rest(
    alloc: Global,
    version: Version,
    cursor: &mut Cursor,
) -> Result<NamedScenario, ScenarioFault>
    ensures { MapsResult (λ t. (tree_view t, cursor.new)) result
        (rest_at version MAX_EVENTS (MAX_REPLICAS - 1) cursor.old) }
{
    let mut replicas = Vec::new(alloc);
    let first = replica(alloc, cursor, &replicas)?;
    replicas.push(first)?;
    let mut left = MAX_REPLICAS - 1;
    'replicas: while cursor.begins_word("replica") {
        cursor.advance();
        if left == 0 {
            return Err(crowd(alloc, cursor, &replicas));
        }
        let next = replica(alloc, cursor, &replicas)?;
        replicas.push(next)?;
        left -= 1;
    }
    let (given, events) = blocks(alloc, version, cursor)?;
    Ok(NamedScenario {
        version,
        replicas,
        given,
        events,
    })
}

/// The scenario that all of the tokens are.
#[tactic(auto, unfolding(crate::specs::ScenarioReader::tree_at))]
fn whole(alloc: Global, cursor: &mut Cursor) -> Result<NamedScenario, ScenarioFault>
    ensures { MapsResult tree_view result (tree_at cursor.old) }
{
    let version = front(cursor)?;
    let scenario = rest(alloc, version, cursor)?;
    cursor.value_if(cursor.is_at_end(), scenario)
}

/// Reads the scenario that all the tokens of a text are. Names in events are not looked up.
///
/// Refusals: the first by place of `NoHeader`, `NoReplica`, `Unexpected`, `EndOfText`,
/// `IndexTooLarge`, `ReservedName`, `TooManyCommands`, `TooLongExpression`, `SameName`,
/// `TooManyReplicas` and `TooManyEvents`, at one place that with the smaller number. The given events
/// and the schedule are counted apart.
pub fn scenario_of(
    alloc: Global,
    text: &str,
    tokens: &[Token],
) -> Result<NamedScenario, ScenarioFault>
    requires { All (IsTokenOf text.now) tokens.now }
    // What is read is the scenario that the tokens are, each name in an event with its offset.
    ensures tree { IfOk result (λ t. IsNamedTree (reading_of text.now tokens.now) (tree_view t)) }
    // What is refused has this fault.
    ensures fault { IfErr result (λ e. e ≢ ScenarioFault.Memory → IsTreeFault (reading_of text.now tokens.now) e) }
{
    let mut cursor = Cursor::new(text, tokens);
    whole(alloc, &mut cursor)
}
