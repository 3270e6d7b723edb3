//! Reply lines as text. Each function puts one line, or a part of one, behind the text.

ghost use Rattle.std.specs.Prelude.{◌≡◌, ◌++◌, OnOk, codes, string_bytes};
ghost use Rattle.std.specs.List.{flat_map};
ghost use Rattle.path_arena.specs.Arena.{list_of, weight_of_id};
ghost use Rattle.history_engine.specs.Answers.{numbers};
ghost use Rattle.network_replies.specs.Replies.{number_text, entry_text, dist_text, stats_text, birth_text, age_text, ecc_text, radius_text, report_text, through_text, error_text, answer_text, answer_walk_text};

use block_run::Answer;
use history_engine::{Counts, Least};
use itoa::Buffer;
use path_reports::{Span, Summary};
use std::alloc::AllocError;
use std::fmt::Write;

/// The reply to `dist`.
pub fn put_dist(text: &mut String, x: u32, y: u32, distance: Option<u64>) -> Result<(), AllocError>
    ensures { OnOk result (string_bytes text.new ≡ string_bytes text.old ++ dist_text x y distance) }
{
    write!(text, "dist {x} {y}")?;
    put_entry(text, distance)?;
    text.push('\n')
}

/// A least walk behind its weight.
pub fn put_walk(text: &mut String, least: &Least<'_>) -> Result<(), AllocError>
    ensures { OnOk result (string_bytes text.new ≡ string_bytes text.old
        ++ number_text (weight_of_id least.now.book.arena least.now.id) ++ codes " walk"
        ++ flat_map number_text (list_of least.now.book.arena least.now.id)) }
{
    put_number(text, least.weight())?;
    text.push_str(" walk")?;
    for vertex in least.vertices() {
        put_number(text, u64::from(vertex))?;
    }
    Ok(())
}

/// The reply to `stats`.
pub fn put_stats(text: &mut String, counts: Counts) -> Result<(), AllocError>
    ensures { OnOk result (string_bytes text.new ≡ string_bytes text.old ++ stats_text (numbers counts)) }
{
    write!(
        text,
        "stats updates {} steps {} paths {} historical {} formed {} removed {}\n",
        counts.updates, counts.steps, counts.paths, counts.historical, counts.formed, counts.removed
    )
}

/// The reply to `age`.
pub fn put_age(text: &mut String, list: &[u32], birth: Option<u64>) -> Result<(), AllocError>
    ensures { OnOk result (string_bytes text.new ≡ string_bytes text.old ++ age_text list.now birth) }
{
    text.push_str("age")?;
    put_list(text, list)?;
    put_birth(text, birth)?;
    text.push('\n')
}

/// The reply to `ecc`.
pub fn put_ecc(text: &mut String, x: u32, span: Span) -> Result<(), AllocError>
    ensures { OnOk result (string_bytes text.new ≡ string_bytes text.old ++ ecc_text x span) }
{
    write!(text, "ecc {x} far {} reach {}\n", span.far, span.reach)
}

/// The reply to `report`.
pub fn put_report(text: &mut String, summary: &Summary) -> Result<(), AllocError>
    ensures { OnOk result (string_bytes text.new ≡ string_bytes text.old ++ report_text summary.now) }
{
    write!(text, "report diameter {}", summary.diameter)?;
    put_radius(text, summary.radius, summary.centre.items())?;
    text.push('\n')
}

/// The reply to `through`.
pub fn put_through(text: &mut String, v: u32, pairs: usize) -> Result<(), AllocError>
    ensures { OnOk result (string_bytes text.new ≡ string_bytes text.old ++ through_text v pairs) }
{
    write!(text, "through {v} pairs {pairs}\n")
}

/// The reply to a question of a block.
pub fn put_answer(text: &mut String, answer: &Answer) -> Result<(), AllocError>
    ensures { OnOk result (string_bytes text.new ≡ string_bytes text.old ++ answer_text answer.now) }
{
    write!(text, "at {} path {} {}", answer.number, answer.x, answer.y)?;
    put_answer_walk(text, answer.dist, answer.walk.items())?;
    text.push('\n')
}

/// The walk of an answer behind its weight.
fn put_answer_walk(text: &mut String, dist: u64, walk: &[u32]) -> Result<(), AllocError>
    ensures { OnOk result (string_bytes text.new ≡ string_bytes text.old ++ answer_walk_text dist walk.now) }
{
    if walk.is_empty() {
        return text.push_str(" none");
    }
    put_number(text, dist)?;
    text.push_str(" walk")?;
    put_list(text, walk)
}

/// The reply to a refused line.
pub fn put_error(text: &mut String, line: u32, code: u32, place: u32) -> Result<(), AllocError>
    ensures { OnOk result (string_bytes text.new ≡ string_bytes text.old ++ error_text line code place) }
{
    write!(text, "line {line} error {code} at {place}\n")
}

/// A distance behind a space, or `none`.
pub fn put_entry(text: &mut String, distance: Option<u64>) -> Result<(), AllocError>
    ensures { OnOk result (string_bytes text.new ≡ string_bytes text.old ++ entry_text distance) }
{
    match distance {
        Some(distance) => put_number(text, distance),
        None => text.push_str(" none"),
    }
}

/// A birth behind its word, or `none`.
fn put_birth(text: &mut String, birth: Option<u64>) -> Result<(), AllocError>
    ensures { OnOk result (string_bytes text.new ≡ string_bytes text.old ++ birth_text birth) }
{
    match birth {
        Some(birth) => write!(text, " birth {birth}"),
        None => text.push_str(" none"),
    }
}

/// A radius before its centre, or `none`.
fn put_radius(text: &mut String, radius: Option<u64>, centre: &[u32]) -> Result<(), AllocError>
    ensures { OnOk result (string_bytes text.new ≡ string_bytes text.old ++ radius_text radius centre.now) }
{
    match radius {
        Some(radius) => {
            write!(text, " radius {radius} centre")?;
            put_list(text, centre)
        }
        None => text.push_str(" radius none"),
    }
}

/// Vertices, each behind a space.
fn put_list(text: &mut String, list: &[u32]) -> Result<(), AllocError>
    ensures { OnOk result (string_bytes text.new ≡ string_bytes text.old ++ flat_map number_text list.now) }
{
    for vertex in list {
        put_number(text, u64::from(*vertex))?;
    }
    Ok(())
}

/// A number behind a space.
fn put_number(text: &mut String, number: u64) -> Result<(), AllocError>
    ensures { OnOk result (string_bytes text.new ≡ string_bytes text.old ++ number_text number) }
{
    let mut digits = Buffer::new();
    text.push(' ')?;
    text.push_str(digits.format(number))
}
