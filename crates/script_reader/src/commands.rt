//! The command words, and the words that begin a group of a star.
ghost use Rattle.std.specs.Prelude.{◌≡◌};
ghost use Rattle.std.specs.Str.{bytes_eq};
ghost use Rattle.script_reader.specs.Words.{command_of, group_of, is_out, is_in, is_since, is_comment};
ghost use Rattle.script_reader.specs.Meaning.{changes_edges, is_inner, is_of_block, is_unserved, is_full, misplaced};

use crate::{Command, Context, Group, MOST_IN_BLOCK, code};

/// The command that a word names.
#[tactic(auto, unfolding(crate::specs::Words::command_of))]
pub fn command_of(word: &[u8]) -> Option<Command>
    ensures { result ≡ command_of word.now }
{
    if is(word, b"vertices") {
        Some(Command::Vertices)
    } else if is(word, b"star") {
        Some(Command::Star)
    } else if is(word, b"edge") {
        Some(Command::Edge)
    } else if is(word, b"cut") {
        Some(Command::Cut)
    } else if is(word, b"dist") {
        Some(Command::Dist)
    } else if is(word, b"path") {
        Some(Command::Path)
    } else if is(word, b"row") {
        Some(Command::Row)
    } else if is(word, b"stats") {
        Some(Command::Stats)
    } else if is(word, b"age") {
        Some(Command::Age)
    } else if is(word, b"cert") {
        Some(Command::Cert)
    } else if is(word, b"block") {
        Some(Command::Block)
    } else if is(word, b"ask") {
        Some(Command::Ask)
    } else if is(word, b"end") {
        Some(Command::End)
    } else if is(word, b"grow") {
        Some(Command::Grow)
    } else if is(word, b"ecc") {
        Some(Command::Ecc)
    } else if is(word, b"report") {
        Some(Command::Report)
    } else if is(word, b"through") {
        Some(Command::Through)
    } else {
        None
    }
}

/// The code of the first reason for which the command cannot stand here, whatever words follow it.
pub fn misplaced(context: &Context, command: Command) -> Option<u32>
    ensures { result ≡ misplaced context.now command }
{
    let named = context.vertices != 0;
    if context.live && !context.inside && is_inner(command) {
        Some(code::COMMAND)
    } else if !context.live && is_of_block(command) {
        Some(code::NEEDS_LIVE)
    } else if is_unserved(context, command) {
        Some(code::NOT_SERVED)
    } else if context.inside && !changes_edges(command) && !is_inner(command) {
        Some(code::OPEN_BLOCK)
    } else if matches!(command, Command::Vertices) {
        named.then_some(code::VERTICES_TWICE)
    } else if !named {
        Some(code::NO_VERTICES)
    } else {
        (context.inside && is_full(context, command)).then_some(code::BLOCK_FULL)
    }
}

/// Whether a command changes edges. These are the updates that may stand in a block.
fn changes_edges(command: Command) -> bool
    ensures { result ≡ changes_edges command }
{
    matches!(command, Command::Star | Command::Edge | Command::Cut)
}

/// Whether a command stands in blocks alone.
fn is_inner(command: Command) -> bool
    ensures { result ≡ is_inner command }
{
    matches!(command, Command::Ask | Command::End)
}

/// Whether a command begins a block, or stands in blocks alone.
fn is_of_block(command: Command) -> bool
    ensures { result ≡ is_of_block command }
{
    matches!(command, Command::Block) || is_inner(command)
}

/// Whether the session does not serve the command.
fn is_unserved(context: &Context, command: Command) -> bool
    ensures { result ≡ is_unserved context.now command }
{
    match command {
        Command::Age => context.no_age,
        Command::Grow => context.no_grow,
        _ => false,
    }
}

/// Whether the open block has no room for what the command adds to it.
fn is_full(context: &Context, command: Command) -> bool
    ensures { result ≡ is_full context.now command }
{
    match command {
        Command::Star | Command::Edge | Command::Cut => context.updates >= MOST_IN_BLOCK,
        Command::Ask => context.asks >= MOST_IN_BLOCK,
        _ => false,
    }
}

/// Whether a first word makes its line a comment.
pub fn is_comment(word: &[u8]) -> bool
    ensures { result ≡ is_comment word.now }
{
    matches!(word, [b'#', ..])
}

/// The group that a word begins.
pub fn group_of(word: &[u8]) -> Option<Group>
    ensures { result ≡ group_of word.now }
{
    if is_out(word) {
        Some(Group::Out)
    } else if is_in(word) {
        Some(Group::In)
    } else {
        None
    }
}

/// Whether a word begins the group of the edges from the star's vertex.
pub fn is_out(word: &[u8]) -> bool
    ensures { result ≡ is_out word.now }
{
    is(word, b"out")
}

/// Whether a word begins the group of the edges to the star's vertex.
pub fn is_in(word: &[u8]) -> bool
    ensures { result ≡ is_in word.now }
{
    is(word, b"in")
}

/// Whether a word stands before the number of updates that a question asks for.
pub fn is_since(word: &[u8]) -> bool
    ensures { result ≡ is_since word.now }
{
    is(word, b"since")
}

fn is(word: &[u8], name: &[u8]) -> bool
    ensures { result ≡ bytes_eq word.now name.now }
{
    word == name
}
